// What comes before all else that may refuse a command about folders.
ghost use Rattle.std.specs.Prelude.{◌≡◌, ◌∷◌, [], IfOk};
ghost use Rattle.reg_base.specs.declared.privilege.Privilege.TheVariants.{Create};
ghost use Rattle.reg_terms.specs.declared.command.Command.TheVariants.{FolderRename, FolderMove};
ghost use Rattle.reg_terms.specs.declared.command.Command.TheVariants.{FolderDelete};
ghost use Rattle.reg_facts.specs.Naming.{home_of};
ghost use Rattle.reg_demand.specs.Demands.{on_folder};
ghost use Rattle.reg_demand.specs.Refusing.{first_of, barred, denial, no_folder};

use crate::lacking::lacks_on_folder;
use crate::refusals::{denied, not_found};
use reg_base::{Entity, Name, Privilege, Text};
use reg_effect::Kept;
use reg_facts::{Facts, Refusal, home_of};
use reg_priv::Who;
use std::alloc::{AllocError, Global};

/// A new object: its folder must stand, and the caller may create there.
pub fn new_object<K: Kept>(
    alloc: Global,
    facts: &Facts,
    kept: &K,
    who: &Who,
    name: &Name,
) -> Result<Option<Refusal>, AllocError>
    ensures { IfOk result (λ found. found
        ≡ first_of (no_folder (home_of name.now) facts.now
        ∷ denial (K.held kept.now) facts.now who.now (on_folder (home_of name.now) Create facts.now)
        ∷ [])) }
{
    let home = home_of(name.as_str());
    let home_id = facts.folder_id(home);
    if home_id.is_none() {
        return not_found(alloc, home);
    }
    if lacks_on_folder(facts, kept, who, &home_id, Privilege::Create) {
        return denied(alloc, home, Privilege::Create);
    }
    Ok(None)
}

/// The folder must stand. The caller administers it and may create in the folder where it stands;
/// the root stands in none.
pub fn folder_rename<K: Kept>(
    alloc: Global,
    facts: &Facts,
    kept: &K,
    _by: &Entity,
    who: &Who,
    folder: &Text,
    _extension: &Text,
) -> Result<Option<Refusal>, AllocError>
    ensures { IfOk result (λ found. found
        ≡ first_of (barred (K.held kept.now) facts.now _by.now who.now
        (FolderRename folder.now _extension.now))) }
{
    let id = facts.folder_id(folder.as_str());
    if id.is_none() {
        return not_found(alloc, folder.as_str());
    }
    if lacks_on_folder(facts, kept, who, &id, Privilege::StemAdmin) {
        return denied(alloc, folder.as_str(), Privilege::StemAdmin);
    }
    if folder.as_str() == ":" {
        return Ok(None);
    }
    let home = home_of(folder.as_str());
    if lacks_on_folder(facts, kept, who, &facts.folder_id(home), Privilege::Create) {
        return denied(alloc, home, Privilege::Create);
    }
    Ok(None)
}

/// Both folders must stand. The caller administers the folder and may create in the other.
pub fn folder_move<K: Kept>(
    alloc: Global,
    facts: &Facts,
    kept: &K,
    _by: &Entity,
    who: &Who,
    folder: &Text,
    to: &Text,
) -> Result<Option<Refusal>, AllocError>
    ensures { IfOk result (λ found. found
        ≡ first_of (barred (K.held kept.now) facts.now _by.now who.now
        (FolderMove folder.now to.now))) }
{
    let id = facts.folder_id(folder.as_str());
    if id.is_none() {
        return not_found(alloc, folder.as_str());
    }
    let target = facts.folder_id(to.as_str());
    if target.is_none() {
        return not_found(alloc, to.as_str());
    }
    if lacks_on_folder(facts, kept, who, &id, Privilege::StemAdmin) {
        return denied(alloc, folder.as_str(), Privilege::StemAdmin);
    }
    if lacks_on_folder(facts, kept, who, &target, Privilege::Create) {
        return denied(alloc, to.as_str(), Privilege::Create);
    }
    Ok(None)
}

/// The folder must stand, and the caller administers it.
pub fn folder_delete<K: Kept>(
    alloc: Global,
    facts: &Facts,
    kept: &K,
    _by: &Entity,
    who: &Who,
    folder: &Text,
) -> Result<Option<Refusal>, AllocError>
    ensures { IfOk result (λ found. found
        ≡ first_of (barred (K.held kept.now) facts.now _by.now who.now (FolderDelete folder.now))) }
{
    let id = facts.folder_id(folder.as_str());
    if id.is_none() {
        return not_found(alloc, folder.as_str());
    }
    if lacks_on_folder(facts, kept, who, &id, Privilege::StemAdmin) {
        return denied(alloc, folder.as_str(), Privilege::StemAdmin);
    }
    Ok(None)
}
