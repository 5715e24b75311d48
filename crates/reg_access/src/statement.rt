// Statements, and their order.
ghost use Rattle.std.specs.Prelude.{◌≡◌, Some, map, refl, OnOk};
ghost use Rattle.std.specs.Cmp.{partial_equiv_from_equiv, partial_order_from_agreeing_total};
ghost use Rattle.std.specs.Cmp.{eq_by_cmp_equiv};
ghost use Rattle.std.specs.Map.Iter.{deref};
ghost use Rattle.std.specs.Ordering.{eq_by_cmp};
ghost use Rattle.reg_table.specs.Keyed.{put_into};
ghost use Rattle.reg_access.specs.Orders.{statement_total};
ghost use Rattle.reg_access.specs.Statements.{statement_cmp, said, stated};

use crate::saying::{Saying, value_says};
use reg_base::{AssignId, GroupId};
use reg_terms::AttrValue;
use std::alloc::AllocError;
use std::cmp::Ordering;
use std::collections::BTreeSet;

/// Where statements come from.
#[derive(Clone, Copy)]
pub(crate) struct Source {
    /// How many bytes the extension of the assignment's attribute has.
    pub length: usize,
    /// The assignment's owner.
    pub group: GroupId,
    pub assign: AssignId,
}

/// What a value of an assignment to a group says of an action. Statements are in the order in which
/// they count: that of the longer extension first; one that names the action before one of all
/// actions; one that denies before one that allows; then by assignment and place.
#[derive(Clone, Copy)]
pub(crate) struct Statement {
    pub source: Source,
    pub saying: Saying,
    /// The value's place in its assignment, from 0.
    pub place: usize,
}

impl Ord for Statement {
    ghost cmp = { statement_cmp };

    ghost total = { statement_total };

    ghost matches_partial_cmp = { λ x y. refl };

    ghost matches_eq = { λ x y. refl };

    fn cmp(&self, other: &Statement) -> Ordering {
        let longer = other.source.length.cmp(&self.source.length);
        let named = other.saying.named.cmp(&self.saying.named);
        let denies = self.saying.allow.cmp(&other.saying.allow);
        let assign = self.source.assign.cmp(&other.source.assign);
        let place = self.place.cmp(&other.place);
        longer.then(named.then(denies.then(assign.then(place))))
    }
}

impl PartialOrd for Statement {
    ghost partial_cmp = { λ x y. Some (statement_cmp x y) };

    ghost laws = { partial_order_from_agreeing_total statement_cmp statement_total (λ x y. refl) (λ x y. refl) };

    fn partial_cmp(&self, other: &Statement) -> Option<Ordering> {
        Some(self.cmp(other))
    }
}

impl PartialEq for Statement {
    ghost eq = { eq_by_cmp statement_cmp };

    ghost laws = { partial_equiv_from_equiv (eq_by_cmp_equiv statement_total) };

    fn eq(&self, other: &Statement) -> bool {
        self.cmp(other).is_eq()
    }
}

impl Eq for Statement {
    ghost laws = { eq_by_cmp_equiv statement_total };
}

/// Adds the statement of a value at a place of its assignment, if the value says something.
fn add_stated(
    statements: &mut BTreeSet<Statement>,
    source: &Source,
    place: usize,
    saying: Option<Saying>,
) -> Result<(), AllocError>
    ensures { OnOk result (statements.new.keys
        ≡ put_into statement_cmp statements.old.keys (stated source.now place saying)) }
{
    if let Some(saying) = saying {
        statements.insert(Statement {
            source: *source,
            saying,
            place,
        })?;
    }
    Ok(())
}

/// Adds the statements of the values of an assignment.
pub(crate) fn add_said(
    statements: &mut BTreeSet<Statement>,
    source: &Source,
    action: &[u8],
    values: &[&AttrValue],
) -> Result<(), AllocError>
    ensures { OnOk result (statements.new.keys
        ≡ put_into statement_cmp statements.old.keys
        (said source.now action.now 0 (map deref values.now))) }
{
    for (place, value) in values.iter().enumerate() {
        add_stated(statements, source, place, value_says(action, *value))?;
    }
    Ok(())
}
