// What comes before all else that may refuse a command about inherits.
ghost use Rattle.std.specs.Prelude.{◌≡◌, IfOk};
ghost use Rattle.reg_terms.specs.declared.command.Command.TheVariants.{InheritAdd, InheritRemove};
ghost use Rattle.reg_facts.specs.Grants.{holder_of, inherit_for};
ghost use Rattle.reg_demand.specs.Refusing.{first_of, barred, inherit_stands};

use crate::finding::{is_missing, named_text};
use crate::lacking::lacks_on_folder;
use crate::refusals::{denied, not_found};
use reg_base::{Entity, FolderId, Privilege, Text};
use reg_effect::Kept;
use reg_facts::{Facts, InheritKind, InheritRow, Refusal, Scope};
use reg_priv::Who;
use std::alloc::{AllocError, Global};

/// The folder stands, the caller sees the holder and administers the folder.
pub fn inherit_add<K: Kept>(
    alloc: Global,
    facts: &Facts,
    kept: &K,
    _by: &Entity,
    who: &Who,
    folder: &Text,
    _kind: InheritKind,
    _scope: Scope,
    _privilege: Privilege,
    holder: &Entity,
) -> Result<Option<Refusal>, AllocError>
    ensures { IfOk result (λ found. found
        ≡ first_of (barred (K.held kept.now) facts.now _by.now who.now
        (InheritAdd folder.now _kind _scope _privilege holder.now))) }
{
    let id = facts.folder_id(folder.as_str());
    if id.is_none() {
        return not_found(alloc, folder.as_str());
    }
    if is_missing(facts, kept, who, holder) {
        return not_found(alloc, named_text(holder));
    }
    if lacks_on_folder(facts, kept, who, &id, Privilege::StemAdmin) {
        return denied(alloc, folder.as_str(), Privilege::StemAdmin);
    }
    Ok(None)
}

/// Whether an inherit of the privilege stands on a folder that was found.
fn inherit_stands(
    facts: &Facts,
    found: &Option<FolderId>,
    kind: InheritKind,
    scope: Scope,
    privilege: Privilege,
    holder: &Entity,
) -> bool
    ensures { result ≡ inherit_stands
        (inherit_for found.now kind scope privilege (holder_of holder.now facts.now)) facts.now }
{
    let Some(folder) = found else {
        return false;
    };
    let Some(holder) = facts.holder_of(holder) else {
        return false;
    };
    facts.has_inherit(&InheritRow {
        folder: *folder,
        kind,
        scope,
        privilege,
        holder,
    })
}

/// The folder stands, and the caller administers it. Who holds the inherit counts as found.
pub fn inherit_remove<K: Kept>(
    alloc: Global,
    facts: &Facts,
    kept: &K,
    _by: &Entity,
    who: &Who,
    folder: &Text,
    kind: InheritKind,
    scope: Scope,
    privilege: Privilege,
    holder: &Entity,
) -> Result<Option<Refusal>, AllocError>
    ensures { IfOk result (λ found. found
        ≡ first_of (barred (K.held kept.now) facts.now _by.now who.now
        (InheritRemove folder.now kind scope privilege holder.now))) }
{
    let id = facts.folder_id(folder.as_str());
    if id.is_none() {
        return not_found(alloc, folder.as_str());
    }
    let stands = inherit_stands(facts, &id, kind, scope, privilege, holder);
    if !stands && is_missing(facts, kept, who, holder) {
        return not_found(alloc, named_text(holder));
    }
    if lacks_on_folder(facts, kept, who, &id, Privilege::StemAdmin) {
        return denied(alloc, folder.as_str(), Privilege::StemAdmin);
    }
    Ok(None)
}
