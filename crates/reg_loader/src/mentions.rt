// What a record of a table names: a group, and a person.
ghost use Rattle.std.specs.Prelude.{◌≡◌, ◌++◌, ◌∷◌, true, IfOk, string_bytes, if◌then◌else◌};
ghost use Rattle.reg_base.specs.Names.{is_name};
ghost use Rattle.reg_facts.specs.Naming.{home_id, resolve};
ghost use Rattle.reg_loader.specs.declared.mentions.Mention.TheVariants.{Bad};
ghost use Rattle.reg_loader.specs.Mentions.{group_text, is_home, meant_by, meant_in, mention};
ghost use Rattle.reg_loader.specs.Mentions.{person_in, person_text};

use crate::TableRow;
use reg_base::{FolderId, GroupId, Name, SubjectId, is_person};
use reg_facts::{Facts, JobRow, Object};
use std::alloc::{AllocError, Global};

/// What a record names as its group.
#[derive(Clone, Copy)]
pub(crate) enum Mention {
    /// No group of the job.
    Bad,
    Standing(GroupId),
    /// A name in the job's folder that no object has.
    New,
}

/// The text under `GROUP_NAME`; empty where there is none.
pub(crate) fn group_text(row: &TableRow) -> &str
    ensures { result.now ≡ group_text row.now }
{
    match &row.group {
        Some(text) => text.as_str(),
        None => "",
    }
}

/// The text under `SUBJECT_SOURCE_ID`, or else the job's source.
fn source_text<'a>(job: &'a JobRow, row: &'a TableRow) -> &'a str
    ensures { result.now ++ 47 ∷ row.now.id ≡ person_text job.now row.now }
{
    match &row.source {
        Some(text) => text.as_str(),
        None => job.source.as_str(),
    }
}

/// What a name in a folder means, by the object that has it.
fn meant_by(facts: &Facts, found: Option<Object>) -> Mention
    ensures { result ≡ meant_by found facts.now }
{
    match found {
        None => Mention::New,
        Some(object) => match object.group() {
            Some(id) => {
                if facts.is_composite(id) {
                    Mention::Bad
                } else {
                    Mention::Standing(id)
                }
            }
            None => Mention::Bad,
        },
    }
}

/// The group that a name means to a job of all groups in a folder.
#[tactic(auto, using(crate::proofs::Children::resolve_child))]
fn meant_as(facts: &Facts, folder: FolderId, name: &Name) -> Mention
    requires { is_name name.now ≡ true }
    ensures { result ≡ (if is_home folder (home_id name.now facts.now)
        then meant_by (resolve name.now facts.now) facts.now else Bad) }
{
    let (home, extension) = facts.home(name);
    match home {
        Some(home) => {
            if home.number() == folder.number() {
                meant_by(facts, facts.child(folder, extension))
            } else {
                Mention::Bad
            }
        }
        None => Mention::Bad,
    }
}

/// The group that a text means to a job of all groups in a folder.
fn meant_in(
    alloc: Global,
    facts: &Facts,
    folder: FolderId,
    text: &str,
) -> Result<Mention, AllocError>
    ensures { IfOk result (λ m. m ≡ meant_in folder text.now facts.now) }
{
    match Name::parse(alloc, text.as_bytes())? {
        Some(name) => Ok(meant_as(facts, folder, &name)),
        None => Ok(Mention::Bad),
    }
}

/// The group that a text means to a job with this target. Its own group is all that a job of one
/// group has.
#[tactic(auto, unfolding(crate::specs::Mentions::mention))]
pub(crate) fn mention_of(
    alloc: Global,
    facts: &Facts,
    target: &Object,
    text: &str,
) -> Result<Mention, AllocError>
    ensures { IfOk result (λ m. m ≡ mention target.now text.now facts.now) }
{
    match target {
        Object::Group(id) => Ok(Mention::Standing(*id)),
        Object::Folder(id) => meant_in(alloc, facts, *id, text),
        Object::Def(_) | Object::Attr(_) | Object::Subject(_) => Ok(Mention::Bad),
    }
}

/// The text of the person that a record names.
fn person_text(alloc: Global, job: &JobRow, row: &TableRow) -> Result<String, AllocError>
    ensures { IfOk result (λ text. string_bytes text ≡ person_text job.now row.now) }
{
    let mut text = String::from_str(alloc, source_text(job, row))?;
    text.push('/')?;
    text.push_str(row.id.as_str())?;
    Ok(text)
}

/// The person that a record names. None where the text is no person's, or the person doesn't stand.
#[tactic(auto, unfolding(crate::specs::Mentions::person_in))]
pub(crate) fn person_in(
    alloc: Global,
    facts: &Facts,
    job: &JobRow,
    row: &TableRow,
) -> Result<Option<SubjectId>, AllocError>
    ensures { IfOk result (λ found. found ≡ person_in job.now row.now facts.now) }
{
    let text = person_text(alloc, job, row)?;
    if is_person(text.as_bytes()) {
        Ok(facts.subject_id(text.as_str()))
    } else {
        Ok(None)
    }
}
