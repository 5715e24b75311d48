// Who holds what on an object.
ghost use Rattle.std.specs.Prelude.{◌≡◌, ◌&&◌, ◌||◌, ◌==◌, IfOk, OnOk};
ghost use Rattle.std.specs.List.{list_any};
ghost use Rattle.reg_terms.specs.declared.kinds.Scope.TheVariants.{One, Sub};
ghost use Rattle.reg_terms.specs.declared.rows.InheritRow.{InheritRow};
ghost use Rattle.reg_facts.specs.Naming.{lies_in, most_levels};
ghost use Rattle.reg_priv.specs.Filling.{same_grant, is_among, brings};
ghost use Rattle.reg_priv.specs.Grants.{Grant, gives_one, given, reaches};
ghost use Rattle.reg_priv.specs.Holders.{holders};

use crate::climbing::{MOST_LEVELS, home_folder, parent};
use crate::gathered::Gathered;
use crate::granting::has_begun;
use reg_base::{FolderId, Privilege};
use reg_facts::{Facts, GrantRow, Holder, InheritRow, Object, Scope};
use reg_table::GroupRows;
use std::alloc::{AllocError, Global};

/// Puts what those of these grants give that are on.
fn put_written(found: &mut Gathered, rows: GroupRows<'_, GrantRow>) -> Result<(), AllocError>
    ensures { OnOk result ((g : Grant)
        → is_among g found.new ≡ (is_among g found.old
        || list_any (gives_one (same_grant g)) rows.entry)) }
{
    for row in rows {
        if has_begun(row) {
            found.put(row.privilege, &row.holder)?;
        }
    }
    Ok(())
}

/// Puts what these inherits give that have a scope and are for objects of this kind.
fn put_given(
    found: &mut Gathered,
    object: &Object,
    scope: &Scope,
    rows: GroupRows<'_, InheritRow>,
) -> Result<(), AllocError>
    ensures { OnOk result ((g : Grant)
        → is_among g found.new ≡ (is_among g found.old
        || list_any (brings object.now scope.now g) rows.entry)) }
{
    for row in rows {
        if row.scope.is(scope) && object.is_of(row.kind) {
            found.put(row.privilege, &row.holder)?;
        }
    }
    Ok(())
}

/// Puts what the inherits of one level on the folder give.
fn put_beside(
    found: &mut Gathered,
    facts: &Facts,
    object: &Object,
    home: FolderId,
) -> Result<(), AllocError>
    ensures { OnOk result ((g : Grant)
        → is_among g found.new ≡ (is_among g found.old
        || list_any (λ (row : InheritRow). (row.folder == home)
        && brings object.now One g row) facts.now.inherits)) }
{
    let rows = facts.inherits_of(home);
    put_given(found, object, &Scope::One, rows)?;
    Ok(())
}

/// Puts what the inherits of all levels below, on this folder, give.
fn put_here(
    found: &mut Gathered,
    facts: &Facts,
    object: &Object,
    folder: FolderId,
) -> Result<(), AllocError>
    ensures { OnOk result ((g : Grant)
        → is_among g found.new ≡ (is_among g found.old
        || list_any (λ (row : InheritRow). (row.folder == folder)
        && brings object.now Sub g row) facts.now.inherits)) }
{
    let rows = facts.inherits_of(folder);
    put_given(found, object, &Scope::Sub, rows)?;
    Ok(())
}

/// Puts what the inherits of all levels below, on the folder and on those above it, give.
fn put_above(
    found: &mut Gathered,
    facts: &Facts,
    object: &Object,
    home: FolderId,
) -> Result<(), AllocError>
    ensures { OnOk result ((g : Grant)
        → is_among g found.new ≡ (is_among g found.old
        || list_any (λ (row : InheritRow). lies_in most_levels home row.folder facts.now.folders
        && brings object.now Sub g row) facts.now.inherits)) }
{
    let mut at = home;
    for _level in 0..MOST_LEVELS {
        put_here(found, facts, object, at)?;
        match parent(facts, at) {
            Some(parent) => at = parent,
            None => return Ok(()),
        }
    }
    put_here(found, facts, object, at)?;
    Ok(())
}

/// Puts what the inherits give that reach the object.
fn put_inherited(found: &mut Gathered, facts: &Facts, object: &Object) -> Result<(), AllocError>
    ensures { OnOk result ((g : Grant)
        → is_among g found.new ≡ (is_among g found.old
        || list_any (λ (row : InheritRow). reaches object.now facts.now row
        && same_grant g (given row)) facts.now.inherits)) }
{
    let Some(home) = home_folder(facts, object) else {
        return Ok(());
    };
    put_beside(found, facts, object, home)?;
    put_above(found, facts, object, home)?;
    Ok(())
}

/// The grants on an object, direct ones that are on and inherited ones, each pair once: by the
/// privilege's code, then everyone, persons by id, groups by id. It costs what stands on the object
/// and on the folders above it. The only error is out of memory.
pub fn holders(
    alloc: Global,
    facts: &Facts,
    object: &Object,
) -> Result<Vec<(Privilege, Holder)>, AllocError>
    ensures { IfOk result (λ found. found.items ≡ holders object.now facts.now) }
{
    let mut found = Gathered::new(alloc);
    let rows = facts.grants_of(object);
    put_written(&mut found, rows)?;
    put_inherited(&mut found, facts, object)?;
    let list = found.list(alloc)?;
    Ok(list)
}
