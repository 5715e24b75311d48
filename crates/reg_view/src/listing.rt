// What stands directly in a folder, of what the caller sees.
ghost use Rattle.std.specs.Prelude.{◌≡◌, IfOk};
ghost use Rattle.reg_facts.specs.Naming.{resolve};
ghost use Rattle.reg_view.specs.Answers.{is_seen, listing, listing_of, seen_names};

use crate::Answer;
use crate::refusing::not_found;
use reg_base::{FolderId, Text};
use reg_effect::Kept;
use reg_facts::{ChildNames, Facts, Refusal, Texts};
use reg_priv::{Who, is_visible};
use std::alloc::{AllocError, Global};

/// Whether an object has this name, and the caller sees it.
fn is_seen<K: Kept>(facts: &Facts, kept: &K, who: &Who, name: &str) -> bool
    ensures { result ≡ is_seen (K.held kept.now) facts.now who.now (resolve name.now facts.now) }
{
    match facts.resolve(name) {
        Some(object) => is_visible(facts, kept, who, &object),
        None => false,
    }
}

/// The names of objects that the caller sees.
fn seen_names<K: Kept>(
    alloc: Global,
    facts: &Facts,
    kept: &K,
    who: &Who,
    names: &Texts,
) -> Result<Texts, AllocError>
    ensures { IfOk result (λ seen. seen
        ≡ seen_names (K.held kept.now) facts.now who.now names.now) }
{
    let mut seen = Texts::new(alloc);
    let mut pieces = names.pieces();
    while let Some(name) = pieces.next() {
        if is_seen(facts, kept, who, name) {
            seen.push(name)?;
        }
    }
    Ok(seen)
}

/// The names of what stands directly in the folder of this id and name, of what the caller sees.
/// They cost what stands in the folder, and not what all objects are.
fn listing<K: Kept>(
    alloc: Global,
    facts: &Facts,
    kept: &K,
    who: &Who,
    folder: FolderId,
    home: &Text,
) -> Result<Answer, AllocError>
    ensures { IfOk result (λ answer. answer
        ≡ listing (K.held kept.now) facts.now who.now folder home.now) }
{
    let names = facts.child_names(alloc, folder, home.as_str())?;
    let ChildNames {
        attributes,
        definitions,
        folders,
        groups,
    } = names;
    Ok(Answer::FolderList {
        attributes: seen_names(alloc, facts, kept, who, &attributes)?,
        definitions: seen_names(alloc, facts, kept, who, &definitions)?,
        folders,
        groups: seen_names(alloc, facts, kept, who, &groups)?,
    })
}

/// What stands directly in the folder of this name, of what the caller sees.
pub fn listing_of<K: Kept>(
    alloc: Global,
    facts: &Facts,
    kept: &K,
    who: &Who,
    folder: &Text,
) -> Result<Result<Answer, Refusal>, AllocError>
    ensures { IfOk result (λ r. r ≡ listing_of (K.held kept.now) facts.now who.now folder.now) }
{
    let Some(id) = facts.folder_id(folder.as_str()) else {
        return Ok(Err(not_found(alloc, folder.as_str())?));
    };
    let answer = listing(alloc, facts, kept, who, id, folder)?;
    Ok(Ok(answer))
}
