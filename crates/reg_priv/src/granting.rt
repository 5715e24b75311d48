// Whether some of these rows allow it.
ghost use Rattle.std.specs.Prelude.{◌≡◌, ◌<◌, ◌^◌, length};
ghost use Rattle.std.specs.List.{list_any};
ghost use Rattle.reg_facts.specs.Grants.{has_begun};
ghost use Rattle.reg_priv.specs.Grants.{gives_one};
ghost use Rattle.reg_priv.specs.Lending.{lends};
ghost use Rattle.reg_priv.specs.May.{allows};

use crate::Who;
use crate::who::holds;
use reg_base::Privilege;
use reg_effect::Kept;
use reg_facts::{GrantRow, Holder, InheritRow, Object, Scope};
use reg_table::GroupRows;
use reg_terms::gives;

/// Whether a grant is of a privilege or gives it, and is the caller's.
fn allows<K: Kept>(kept: &K, who: &Who, wanted: Privilege, held: Privilege, holder: &Holder) -> bool
    ensures { result ≡ allows (K.held kept.now) who.now wanted (held, holder.now) }
{
    gives(held, wanted) && holds(kept, who, holder)
}

/// Whether a grant is on: none of its beginning is to come.
pub fn has_begun(row: &GrantRow) -> bool
    ensures { result ≡ has_begun row.now }
{
    row.from.is_none()
}

/// Whether one of these grants is on and allows it.
pub fn any_written<K: Kept>(
    kept: &K,
    who: &Who,
    wanted: Privilege,
    rows: GroupRows<'_, GrantRow>,
) -> bool
    requires { length rows < 2 ^ 63 }
    ensures { result ≡ list_any
        (gives_one (allows (K.held kept.now) who.now wanted)) rows.entry }
{
    for row in rows {
        if has_begun(row) && allows(kept, who, wanted, row.privilege, &row.holder) {
            return true;
        }
    }
    false
}

/// Whether one of these inherits, of this scope, allows it on an object.
pub fn any_given<K: Kept>(
    kept: &K,
    who: &Who,
    wanted: Privilege,
    object: &Object,
    scope: &Scope,
    rows: GroupRows<'_, InheritRow>,
) -> bool
    requires { length rows < 2 ^ 63 }
    ensures { result ≡ list_any
        (lends (K.held kept.now) who.now wanted object.now scope.now) rows.entry }
{
    for row in rows {
        if row.scope.is(scope)
            && object.is_of(row.kind)
            && allows(kept, who, wanted, row.privilege, &row.holder)
        {
            return true;
        }
    }
    false
}
