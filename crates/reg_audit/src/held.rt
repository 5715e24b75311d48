// Whether one holder has one privilege on an object, by look-ups of its rows.
ghost use Rattle.std.specs.Prelude.{◌≡◌, ◌&&◌, ◌==◌, false, option_map, IfSome, IfNone};
ghost use Rattle.std.specs.List.{list_any};
ghost use Rattle.reg_terms.specs.Kinds.{is_of_kind, same_kind};
ghost use Rattle.reg_terms.specs.declared.kinds.InheritKind.{InheritKind};
ghost use Rattle.reg_terms.specs.declared.kinds.Scope.TheVariants.{One, Sub};
ghost use Rattle.reg_terms.specs.declared.rows.InheritRow.{InheritRow};
ghost use Rattle.reg_facts.specs.Grants.{grants_on};
ghost use Rattle.reg_facts.specs.Naming.{Placed, placed, place_of, parent_of, lies_in, most_levels};
ghost use Rattle.reg_priv.specs.Filling.{same_grant, is_among, brings};
ghost use Rattle.reg_priv.specs.Grants.{gives_one, given, reaches, grants};

use reg_base::{FolderId, Privilege};
use reg_facts::{Facts, MOST_LEVELS};
use reg_priv::has_begun;
use reg_terms::{GrantRow, Holder, InheritKind, InheritRow, Object, Scope};

/// The folder in which an object stands.
fn home_folder(facts: &Facts, object: &Object) -> Option<FolderId>
    ensures { result ≡ option_map (λ (p : Placed). p.folder)
        (place_of object.now (placed facts.now)) }
{
    match facts.place_of(object) {
        Some(place) => Some(place.folder),
        None => None,
    }
}

/// The folder in which a folder stands.
fn parent(facts: &Facts, folder: FolderId) -> Option<FolderId>
    ensures { result ≡ parent_of folder facts.now.folders }
{
    match facts.folder(folder) {
        Some(row) => row.parent,
        None => None,
    }
}

/// The kind of which an object is, if it is of one that has privileges of its own.
fn kind_of(object: &Object) -> Option<InheritKind>
    ensures some { IfSome result (λ kind. (k : InheritKind)
        → is_of_kind k object.now ≡ same_kind k kind) }
    ensures none { IfNone result ((k : InheritKind) → is_of_kind k object.now ≡ false) }
{
    match object {
        Object::Folder(_) => Some(InheritKind::Folder),
        Object::Group(_) => Some(InheritKind::Group),
        Object::Def(_) => Some(InheritKind::Definition),
        Object::Attr(_) | Object::Subject(_) => None,
    }
}

/// Whether the grant is written on the object and is on: one look.
fn is_written(facts: &Facts, object: &Object, privilege: Privilege, holder: &Holder) -> bool
    ensures { result ≡ list_any
        (gives_one (same_grant (privilege, holder.now)))
        (grants_on object.now facts.now.grants) }
{
    facts.law_held();
    let found = facts.grant(&GrantRow {
        object: *object,
        privilege,
        holder: *holder,
        from: None,
        until: None,
    });
    match found {
        Some(row) => has_begun(&row),
        None => false,
    }
}

/// Whether an inherit of this scope on the folder gives it on the object: one look.
fn is_given(
    facts: &Facts,
    object: &Object,
    folder: FolderId,
    scope: Scope,
    privilege: Privilege,
    holder: &Holder,
) -> bool
    ensures { result ≡ list_any (λ (row : InheritRow). (row.folder == folder)
        && brings object.now scope (privilege, holder.now) row) facts.now.inherits }
{
    match kind_of(object) {
        Some(kind) => facts.has_inherit(&InheritRow {
            folder,
            kind,
            scope,
            privilege,
            holder: *holder,
        }),
        None => false,
    }
}

/// Whether an inherit of all levels below, on the folder or on one above it, gives it.
fn is_given_above(
    facts: &Facts,
    object: &Object,
    home: FolderId,
    privilege: Privilege,
    holder: &Holder,
) -> bool
    ensures { result ≡ list_any
        (λ (row : InheritRow). lies_in most_levels home row.folder facts.now.folders
        && brings object.now Sub (privilege, holder.now) row) facts.now.inherits }
{
    let mut at = home;
    for _level in 0..MOST_LEVELS {
        if is_given(facts, object, at, Scope::Sub, privilege, holder) {
            return true;
        }
        match parent(facts, at) {
            Some(parent) => at = parent,
            None => return false,
        }
    }
    is_given(facts, object, at, Scope::Sub, privilege, holder)
}

/// Whether an inherit that reaches the object gives it.
fn is_inherited(facts: &Facts, object: &Object, privilege: Privilege, holder: &Holder) -> bool
    ensures { result ≡ list_any (λ (row : InheritRow). reaches object.now facts.now row
        && same_grant (privilege, holder.now) (given row)) facts.now.inherits }
{
    let Some(home) = home_folder(facts, object) else {
        return false;
    };
    is_given(facts, object, home, Scope::One, privilege, holder)
        || is_given_above(facts, object, home, privilege, holder)
}

/// Whether a holder has a privilege on an object, by a grant that is on or by an inherit. It takes
/// no memory. It costs a look at the object and one at each folder above it, whatever else stands
/// on them.
pub(crate) fn is_granted(
    facts: &Facts,
    object: &Object,
    privilege: Privilege,
    holder: &Holder,
) -> bool
    ensures { result ≡ is_among (privilege, holder.now) (grants object.now facts.now) }
{
    is_written(facts, object, privilege, holder) || is_inherited(facts, object, privilege, holder)
}
