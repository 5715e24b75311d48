// A table walked record by record.
ghost use Rattle.std.specs.Prelude.{◌≡◌, ◌<◌, ◌+◌, ◌-◌, ◌^◌, ◌++◌, ◌∷◌, [], List, map, IfOk, OnOk};
ghost use Rattle.std.specs.Prelude.{string_bytes, if◌then◌else◌};
ghost use Rattle.std.specs.List.{position_or_len};
ghost use Rattle.std.specs.Str.{bytes_eq};
ghost use Rattle.indexmap.specs.IndexSet.{insert_key};
ghost use Rattle.reg_loader.specs.declared.tables.TableRow.{TableRow as RowSeen};
ghost use Rattle.reg_loader.specs.Mentions.{group_text, mention as means};
ghost use Rattle.reg_loader.specs.Plan.{is_among, number, same_key};
ghost use Rattle.reg_loader.specs.Walks.{IsWalkedBy, with_mention};

use crate::TableRow;
use crate::keys::Key;
use crate::mentions::{Mention, group_text, mention_of, person_in};
use indexmap::IndexSet;
use reg_base::SubjectId;
use reg_facts::{Facts, JobRow, Object};
use std::alloc::{AllocError, Global};

/// What the records of a table name, so far.
#[derive(Drop)]
pub(crate) struct Walked {
    /// The names that no object has, by first mention.
    pub names: IndexSet<String>,
    /// The pairs, by first mention.
    pub wanted: IndexSet<Key>,
    pub unknown: u64,
    pub repeated: u64,
    pub bad_group: u64,
}

/// The place of a name in a set, where it goes behind the others if it isn't there.
fn place_of(alloc: Global, names: &mut IndexSet<String>, text: &str) -> Result<usize, AllocError>
    ensures names { OnOk result (map (λ t. string_bytes t) names.new.keys
        ≡ insert_key bytes_eq (map (λ t. string_bytes t) names.old.keys) text.now) }
    ensures place { IfOk result (λ place. place
        ≡ position_or_len (bytes_eq text.now) (map (λ t. string_bytes t) names.old.keys)) }
    ensures small { IfOk result (λ place. place < 2 ^ 63) }
{
    if let Some(place) = names.get_index_of(text) {
        let _count = names.len();
        return Ok(place);
    }
    let key = String::from_str(alloc, text)?;
    let (place, _) = names.insert_full(key)?;
    let _count = names.len();
    Ok(place)
}

/// The id of a group that a record names, or the one that it gets when it is made.
fn number_of(
    alloc: Global,
    facts: &Facts,
    names: &mut IndexSet<String>,
    mention: Mention,
    text: &str,
) -> Result<Option<u64>, AllocError>
    ensures names { OnOk result (map (λ t. string_bytes t) names.new.keys
        ≡ with_mention mention text.now (map (λ t. string_bytes t) names.old.keys)) }
    ensures number { IfOk result (λ n. n
        ≡ number (map (λ t. string_bytes t) names.old.keys) mention text.now facts.now) }
{
    match mention {
        Mention::Bad => Ok(None),
        Mention::Standing(id) => Ok(Some(u64::from(id.number()))),
        Mention::New => {
            let made = u64::from(facts.made().groups);
            let place = place_of(alloc, names, text)?;
            Ok(Some(made + 1 + place as u64))
        }
    }
}

impl Walked {
    /// No record yet.
    fn new(alloc: Global) -> Walked
        ensures names { result.names.keys ≡ [] }
        ensures wanted { result.wanted.keys ≡ [] }
        ensures unknown { result.unknown ≡ 0 }
        ensures repeated { result.repeated ≡ 0 }
        ensures bad_group { result.bad_group ≡ 0 }
    {
        Walked {
            names: IndexSet::new(alloc),
            wanted: IndexSet::new(alloc),
            unknown: 0,
            repeated: 0,
            bad_group: 0,
        }
    }

    /// Takes a pair that a record names.
    fn add(&mut self, group: u64, person: SubjectId) -> Result<(), AllocError>
        requires { self.old.repeated < 2 ^ 64 - 1 }
        ensures wanted { OnOk result (self.new.wanted.keys
            ≡ insert_key same_key self.old.wanted.keys (group, person)) }
        ensures repeated { OnOk result (self.new.repeated
            ≡ self.old.repeated + (if is_among (group, person) self.old.wanted.keys then 1
            else 0)) }
        ensures names { self.new.names ≡ self.old.names }
        ensures unknown { self.new.unknown ≡ self.old.unknown }
        ensures bad_group { self.new.bad_group ≡ self.old.bad_group }
    {
        if !self.wanted.insert((group, person.number()))? {
            self.repeated += 1;
        }
        Ok(())
    }

    /// Takes the next record, with what it names as its group.
    fn take(
        &mut self,
        alloc: Global,
        facts: &Facts,
        job: &JobRow,
        row: &TableRow,
        mention: Mention,
    ) -> Result<(), AllocError>
        requires mention { mention ≡ means job.now.target (group_text row.now) facts.now }
        requires unknown { self.old.unknown < 2 ^ 64 - 1 }
        requires repeated { self.old.repeated < 2 ^ 64 - 1 }
        requires bad_group { self.old.bad_group < 2 ^ 64 - 1 }
        ensures { OnOk result ((rows : List RowSeen) → IsWalkedBy job.now facts.now rows self.old
            → IsWalkedBy job.now facts.now (rows ++ row.now ∷ []) self.new) }
    {
        let group = number_of(alloc, facts, &mut self.names, mention, group_text(row))?;
        let Some(group) = group else {
            self.bad_group += 1;
            return Ok(());
        };
        match person_in(alloc, facts, job, row)? {
            Some(person) => self.add(group, person)?,
            None => self.unknown += 1,
        }
        Ok(())
    }
}

/// What a text means, where what the text before it means is known. A table mostly comes group by
/// group, so it is mostly the same.
fn next_mention(
    alloc: Global,
    facts: &Facts,
    target: &Object,
    before: &str,
    mention: Mention,
    text: &str,
) -> Result<Mention, AllocError>
    requires { mention ≡ means target.now before.now facts.now }
    ensures { IfOk result (λ m. m ≡ means target.now text.now facts.now) }
{
    if before == text {
        Ok(mention)
    } else {
        mention_of(alloc, facts, target, text)
    }
}

/// Walks the records of a table in order.
pub(crate) fn walk(
    alloc: Global,
    facts: &Facts,
    job: &JobRow,
    rows: &[TableRow],
) -> Result<Walked, AllocError>
    ensures { IfOk result (λ walked. IsWalkedBy job.now facts.now rows.now walked) }
{
    let mut walked = Walked::new(alloc);
    let mut text = "";
    let mut mention = mention_of(alloc, facts, &job.target, text)?;
    for row in rows {
        let next = next_mention(alloc, facts, &job.target, text, mention, group_text(row))?;
        mention = next;
        text = group_text(row);
        walked.take(alloc, facts, job, row, next)?;
    }
    Ok(walked)
}
