// What stands of an action on a resource.
ghost use Rattle.std.specs.Prelude.{◌≡◌, IfOk, OnOk};
ghost use Rattle.reg_table.specs.Keyed.{put_into};
ghost use Rattle.reg_terms.specs.Kinds.{as_group};
ghost use Rattle.reg_facts.specs.Attributes.{assign_row, attribute_row};
ghost use Rattle.reg_access.specs.Spoken.{covering_length, source_of, spoken, spoken_by};
ghost use Rattle.reg_access.specs.Spoken.{statements, statements_on};
ghost use Rattle.reg_access.specs.Statements.{statement_cmp};

use crate::covering::covers;
use crate::statement::{Source, Statement, add_said};
use reg_base::AttrId;
use reg_facts::Facts;
use reg_terms::{AssignRow, AttributeRow};
use std::alloc::{AllocError, Global};
use std::collections::BTreeSet;

/// How long the extension of an attribute is, if the attribute covers a resource.
fn covering_length(facts: &Facts, resource: &AttributeRow, attribute: AttrId) -> Option<usize>
    ensures { result ≡ covering_length resource.now
        (attribute_row attribute facts.now.attributes) }
{
    match facts.attribute(attribute) {
        Some(row) if covers(row, resource) => Some(row.extension.bytes().len()),
        _ => None,
    }
}

/// Where the statements of an assignment come from, if it is a group's and its attribute covers the
/// resource.
fn source_of(facts: &Facts, resource: &AttributeRow, row: &AssignRow) -> Option<Source>
    ensures { result ≡ source_of row.now.id (as_group (Some row.now.owner))
        (covering_length resource.now (attribute_row row.now.attribute facts.now.attributes)) }
{
    let group = row.owner.group()?;
    let length = covering_length(facts, resource, row.attribute)?;
    Some(Source {
        length,
        group,
        assign: row.id,
    })
}

/// Adds the statements of an assignment.
fn add_row(
    statements: &mut BTreeSet<Statement>,
    facts: &Facts,
    resource: &AttributeRow,
    action: &[u8],
    row: &AssignRow,
) -> Result<(), AllocError>
    ensures { OnOk result (statements.new.keys ≡ put_into statement_cmp statements.old.keys
        (spoken resource.now action.now facts.now.attributes row.now)) }
{
    match source_of(facts, resource, row) {
        Some(source) => {
            let values = row.values.list()?;
            add_said(statements, &source, action, &values)
        }
        None => Ok(()),
    }
}

/// Adds the statements of the assignment of this id, if there is one.
fn add_spoken(
    statements: &mut BTreeSet<Statement>,
    facts: &Facts,
    resource: &AttributeRow,
    action: &[u8],
    id: u64,
) -> Result<(), AllocError>
    ensures { OnOk result (statements.new.keys ≡ put_into statement_cmp statements.old.keys
        (spoken_by resource.now action.now facts.now.attributes
        (assign_row id facts.now.assigns))) }
{
    match facts.assign(id) {
        Some(row) => add_row(statements, facts, resource, action, row),
        None => Ok(()),
    }
}

/// The statements of all assignments. They are looked at one by one, since a list of them would be
/// a copy.
fn statements_on(
    alloc: Global,
    facts: &Facts,
    resource: &AttributeRow,
    action: &[u8],
) -> Result<BTreeSet<Statement>, AllocError>
    ensures { IfOk result (λ found. found.keys
        ≡ statements_on (Some resource.now) action.now facts.now) }
{
    facts.law_assigned();
    let mut found = BTreeSet::new(alloc);
    for before in 0..facts.made().assigns {
        add_spoken(&mut found, facts, resource, action, u64::from(before) + 1)?;
    }
    Ok(found)
}

/// Statements in the order in which they count.
fn listed(alloc: Global, statements: &BTreeSet<Statement>) -> Result<Vec<Statement>, AllocError>
    ensures { IfOk result (λ found. found.items ≡ statements.now.keys) }
{
    let mut found = Vec::new(alloc);
    for statement in statements.iter() {
        found.push(*statement)?;
    }
    Ok(found)
}

/// What stands of an action on a resource, in the order in which it counts. It goes once through
/// all assignments.
#[tactic(auto, unfolding(crate::specs::Spoken::statements))]
pub(crate) fn statements(
    alloc: Global,
    facts: &Facts,
    resource: AttrId,
    action: &[u8],
) -> Result<Vec<Statement>, AllocError>
    ensures { IfOk result (λ found. found.items ≡ statements facts.now resource action.now) }
{
    match facts.attribute(resource) {
        Some(row) => {
            let found = statements_on(alloc, facts, row, action)?;
            listed(alloc, &found)
        }
        None => Ok(Vec::new(alloc)),
    }
}
