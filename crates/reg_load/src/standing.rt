// Whether rows of persons stand.
ghost use Rattle.std.specs.Prelude.{◌≡◌};
ghost use Rattle.std.specs.List.{list_all, list_any};
ghost use Rattle.reg_load.specs.PersonRows.{stands};

use reg_base::GroupId;
use reg_facts::{Facts, Member};
use reg_terms::PersonRow;

/// Whether a person is an immediate member of a group. It takes no memory.
fn stands(facts: &Facts, row: &PersonRow) -> bool
    ensures { result ≡ stands facts.now.rows row.now }
{
    facts.law_sound();
    if row.group > u64::from(facts.made().groups) {
        // the group is yet to be made
        return false;
    }
    facts.has_row(GroupId::new(row.group as u32), &Member::Person(row.person))
}

/// Whether one of these rows stands. It takes no memory.
pub(crate) fn any_stands(facts: &Facts, rows: &[PersonRow]) -> bool
    ensures { result ≡ list_any (stands facts.now.rows) rows.now }
{
    for row in rows {
        if stands(facts, row) {
            return true;
        }
    }
    false
}

/// Whether all these rows stand. It takes no memory.
pub(crate) fn all_stand(facts: &Facts, rows: &[PersonRow]) -> bool
    ensures { result ≡ list_all (stands facts.now.rows) rows.now }
{
    for row in rows {
        if !stands(facts, row) {
            return false;
        }
    }
    true
}
