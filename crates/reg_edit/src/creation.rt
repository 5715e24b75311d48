// The grants on a group that is made: that of its maker, and those of rules.
ghost use Rattle.std.specs.Prelude.{◌≡◌, ◌∷◌, ◌+◌, ◌++◌, ◌<◌, [], IfOk, OnOk, filter_map};
ghost use Rattle.std.specs.Prelude.{if◌then◌else◌};
ghost use Rattle.std.specs.BTreeMap.{values};
ghost use Rattle.std.specs.Option.{option_to_list};
ghost use Rattle.reg_base.specs.declared.privilege.Privilege.TheVariants.{Admin};
ghost use Rattle.reg_terms.specs.Limits.{max_groups};
ghost use Rattle.reg_terms.specs.declared.rules.RuleKey.TheVariants as key;
ghost use Rattle.reg_facts.specs.Events.{grants_added, new_groups_grants};
ghost use Rattle.reg_facts.specs.Grants.{has_grant, makers_grant};
ghost use Rattle.reg_facts.specs.Rules.{rules_at, creation_grants, not_yet};
ghost use Rattle.reg_facts.specs.Ruling.{grant_made, entry_made, put_all};

use reg_base::{Entity, FolderId, GroupId, Name, Privilege, RuleId};
use reg_facts::{
    Event, Facts, GrantRow, GrantRows, Holder, MOST_LEVELS, Object, RuleForm, RuleKey, Scope,
};
use std::alloc::{AllocError, Global};
use std::collections::BTreeMap;

/// The grant that a rule makes on a group that is made in its folder, or below it, if it does.
fn grant_made(group: GroupId, home: bool, form: &RuleForm) -> Option<GrantRow>
    ensures { result ≡ grant_made group home form.now }
{
    match form {
        RuleForm::OnCreate {
            scope,
            privilege,
            holder,
            ..
        } if home || scope.is(&Scope::Sub) => Some(GrantRow {
            object: Object::Group(group),
            privilege: *privilege,
            holder: *holder,
            from: None,
            until: None,
        }),
        _ => None,
    }
}

/// The first of some grants, if there is one.
fn first_grant(alloc: Global, first: Option<GrantRow>) -> Result<GrantRows, AllocError>
    ensures { IfOk result (λ rows. rows ≡ option_to_list first) }
{
    let mut rows = GrantRows::new(alloc);
    if let Some(row) = first {
        rows.push(row)?;
    }
    Ok(rows)
}

/// A grant alone, if there is one.
fn alone(alloc: Global, first: Option<GrantRow>) -> Result<Vec<GrantRow>, AllocError>
    ensures { IfOk result (λ rows. rows.items ≡ option_to_list first) }
{
    let mut rows = Vec::new(alloc);
    if let Some(row) = first {
        // so that the borrow checker's part is told of the modules of what a grant holds
        let _object = row.object;
        let _privilege = row.privilege;
        let _holder = row.holder;
        let _from = row.from;
        let _until = row.until;
        rows.push(row)?;
    }
    Ok(rows)
}

/// Adds a grant behind the others, if it isn't one of them.
fn add_new(rows: &mut GrantRows, row: &GrantRow) -> Result<(), AllocError>
    ensures { OnOk result (rows.new
        ≡ (if has_grant row.now rows.old then rows.old else rows.old ++ row.now ∷ [])) }
{
    if !rows.contains(row) {
        rows.push(*row)?;
    }
    Ok(())
}

/// A grant, and behind it those of rules that aren't there yet, each once.
fn each_once(
    alloc: Global,
    first: Option<GrantRow>,
    found: &BTreeMap<RuleId, GrantRow>,
) -> Result<Vec<GrantRow>, AllocError>
    ensures { IfOk result (λ rows. rows.items
        ≡ option_to_list first ++ not_yet (option_to_list first) (values found.now)) }
{
    if found.is_empty() {
        return alone(alloc, first);
    }
    let mut rows = first_grant(alloc, first)?;
    for row in found.values() {
        add_new(&mut rows, row)?;
    }
    rows.list(alloc)
}

/// Grants are made, one after another.
pub(crate) fn push_grants(events: &mut Vec<Event>, rows: &[GrantRow]) -> Result<(), AllocError>
    ensures { OnOk result (events.new.items ≡ events.old.items ++ grants_added rows.now) }
{
    for row in rows {
        events.push(Event::GrantAdded { row: *row })?;
    }
    Ok(())
}

/// The grant of a privilege on what is made to the person who makes it; the registry itself is
/// granted nothing. It takes no memory.
pub(crate) fn makers_grant(
    facts: &Facts,
    by: &Entity,
    object: Object,
    privilege: Privilege,
) -> Option<GrantRow>
    ensures { option_to_list result ≡ makers_grant by.now object privilege facts.now }
{
    let Entity::Person(text) = by else {
        return None;
    };
    let id = facts.subject_id(text.as_str())?;
    let holder = Holder::Person(id);
    Some(GrantRow {
        object,
        privilege,
        holder,
        from: None,
        until: None,
    })
}

/// Adds the grants that the rules on a folder make on a group that is made in it, or below it.
/// It looks at the rules on the folder alone.
fn gather(
    facts: &Facts,
    found: &mut BTreeMap<RuleId, GrantRow>,
    group: GroupId,
    folder: FolderId,
    home: bool,
) -> Result<(), AllocError>
    ensures { OnOk result (found.new.entries
        ≡ put_all found.old.entries
        (filter_map (entry_made group home) (rules_at (key.Folder folder) facts.now.rules))) }
{
    for row in facts.rules_at(RuleKey::Folder(folder)) {
        if let Some(grant) = grant_made(group, home, &row.form) {
            // as above: the borrow checker's part is told of the modules
            let _until = grant.until;
            found.insert(row.id, grant)?;
        }
    }
    Ok(())
}

/// The grants that rules make on a group that is made in a folder, by the rules' ids. It looks
/// at the rules on this folder and on each above it, and at nothing where there is no rule.
fn creation_grants(
    facts: &Facts,
    alloc: Global,
    group: GroupId,
    home: FolderId,
) -> Result<BTreeMap<RuleId, GrantRow>, AllocError>
    ensures { IfOk result (λ found. values found
        ≡ creation_grants group home facts.now.folders facts.now.rules) }
{
    let mut found = BTreeMap::new(alloc);
    if facts.rules().is_empty() {
        return Ok(found);
    }
    facts.law_rules();
    gather(facts, &mut found, group, home, true)?;
    let mut above = facts.parent(home);
    for _level in 0..MOST_LEVELS {
        let Some(folder) = above else {
            return Ok(found);
        };
        gather(facts, &mut found, group, folder, false)?;
        above = facts.parent(folder);
    }
    Ok(found)
}

/// The grants on a group of this name when it is made: that of its maker, and those of the
/// rules on the folder of the name and on each above it, by the rules' ids, each grant once.
pub fn new_groups_grants(
    facts: &Facts,
    alloc: Global,
    by: &Entity,
    group: &Name,
) -> Result<Vec<GrantRow>, AllocError>
    requires { facts.now.made.groups < max_groups }
    ensures { IfOk result (λ rows. rows.items ≡ new_groups_grants by.now group.now facts.now) }
{
    let id = GroupId::new(facts.made().groups + 1);
    let first = makers_grant(facts, by, Object::Group(id), Privilege::Admin);
    let home = facts.home(group).0.unwrap_or(FolderId::new(0));
    let found = creation_grants(facts, alloc, id, home)?;
    each_once(alloc, first, &found)
}
