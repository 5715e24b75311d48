// From the folder of an object up to the root, through the inherits on each.
ghost use Rattle.std.specs.Prelude.{◌≡◌, ◌&&◌, ◌==◌, option_map};
ghost use Rattle.std.specs.List.{list_any};
ghost use Rattle.reg_terms.specs.declared.kinds.Scope.TheVariants.{One, Sub};
ghost use Rattle.reg_terms.specs.declared.rows.InheritRow.{InheritRow};
ghost use Rattle.reg_facts.specs.Naming.{Placed, placed, place_of, parent_of, lies_in, most_levels};
ghost use Rattle.reg_priv.specs.Grants.{given, reaches};
ghost use Rattle.reg_priv.specs.Lending.{lends};
ghost use Rattle.reg_priv.specs.May.{allows};

use crate::Who;
use crate::granting::any_given;
use reg_base::{FolderId, Privilege};
use reg_effect::Kept;
use reg_facts::{Facts, Object, Scope};

/// How many levels of folders a name may have at most.
pub const MOST_LEVELS: usize = 1000;

/// The folder in which an object stands.
pub fn home_folder(facts: &Facts, object: &Object) -> Option<FolderId>
    ensures { result ≡ option_map (λ (p : Placed). p.folder)
        (place_of object.now (placed facts.now)) }
{
    match facts.place_of(object) {
        Some(place) => Some(place.folder),
        None => None,
    }
}

/// The folder in which a folder stands.
pub fn parent(facts: &Facts, folder: FolderId) -> Option<FolderId>
    ensures { result ≡ parent_of folder facts.now.folders }
{
    match facts.folder(folder) {
        Some(row) => row.parent,
        None => None,
    }
}

/// Whether an inherit of one level on the folder allows it.
fn any_beside<K: Kept>(
    facts: &Facts,
    kept: &K,
    who: &Who,
    wanted: Privilege,
    object: &Object,
    home: FolderId,
) -> bool
    ensures { result ≡ list_any (λ (row : InheritRow). (row.folder == home)
        && lends (K.held kept.now) who.now wanted object.now One row) facts.now.inherits }
{
    let rows = facts.inherits_of(home);
    any_given(kept, who, wanted, object, &Scope::One, rows)
}

/// Whether an inherit of all levels below, on this folder, allows it.
fn any_here<K: Kept>(
    facts: &Facts,
    kept: &K,
    who: &Who,
    wanted: Privilege,
    object: &Object,
    folder: FolderId,
) -> bool
    ensures { result ≡ list_any (λ (row : InheritRow). (row.folder == folder)
        && lends (K.held kept.now) who.now wanted object.now Sub row) facts.now.inherits }
{
    let rows = facts.inherits_of(folder);
    any_given(kept, who, wanted, object, &Scope::Sub, rows)
}

/// Whether an inherit of all levels below, on the folder or on one above it, allows it.
fn any_above<K: Kept>(
    facts: &Facts,
    kept: &K,
    who: &Who,
    wanted: Privilege,
    object: &Object,
    home: FolderId,
) -> bool
    ensures { result ≡ list_any
        (λ (row : InheritRow). lies_in most_levels home row.folder facts.now.folders
        && lends (K.held kept.now) who.now wanted object.now Sub row) facts.now.inherits }
{
    let mut at = home;
    for _level in 0..MOST_LEVELS {
        if any_here(facts, kept, who, wanted, object, at) {
            return true;
        }
        match parent(facts, at) {
            Some(parent) => at = parent,
            None => return false,
        }
    }
    any_here(facts, kept, who, wanted, object, at)
}

/// Whether an inherit that reaches the object allows it. It goes up from the object's folder, and
/// looks at the inherits of each folder on the way alone. It takes no memory.
pub fn any_inherited<K: Kept>(
    facts: &Facts,
    kept: &K,
    who: &Who,
    wanted: Privilege,
    object: &Object,
) -> bool
    ensures { result ≡ list_any (λ (row : InheritRow). reaches object.now facts.now row
        && allows (K.held kept.now) who.now wanted (given row)) facts.now.inherits }
{
    let Some(home) = home_folder(facts, object) else {
        return false;
    };
    any_beside(facts, kept, who, wanted, object, home)
        || any_above(facts, kept, who, wanted, object, home)
}
