// What a batch is asked for, by its words.
ghost use Rattle.std.specs.Prelude.{◌≡◌, true, Some, IfOk};
ghost use Rattle.reg_base.specs.Names.{is_extension};
ghost use Rattle.reg_facts.specs.Consumers.{consumer_place};
ghost use Rattle.reg_report.specs.Gives.{Gives};
ghost use Rattle.reg_report.specs.BatchAsked.{check_consumer, place_found, provision_asked};

use crate::asked::{Unreported, bad_name, not_found, person_found, person_in, subject_in};
use reg_base::{SubjectId, Text, is_extension};
use reg_facts::Facts;
use reg_words::Provision;
use std::alloc::{AllocError, Global};

/// The text of a consumer is an extension.
fn check_consumer(alloc: Global, text: &Text) -> Result<(), Unreported>
    ensures reads { Gives result (check_consumer text.now) }
    ensures form { IfOk result (λ _. is_extension text.now ≡ true) }
{
    if is_extension(text.bytes()) {
        Ok(())
    } else {
        Err(bad_name(alloc, "consumer"))
    }
}

/// The place of the consumer of a name.
fn place_found(alloc: Global, facts: &Facts, name: &Text) -> Result<u64, Unreported>
    ensures reads { Gives result (place_found name.now facts.now) }
    ensures stands { IfOk result (λ place. consumer_place name.now facts.now.consumers
        ≡ Some place) }
{
    match facts.consumer_place(name.as_str()) {
        Some(place) => Ok(place),
        None => Err(not_found(alloc, name)),
    }
}

/// The consumer's place and the person that a batch is asked for.
pub fn provision_asked(
    alloc: Global,
    facts: &Facts,
    asked: &Provision,
) -> Result<(u64, SubjectId), Unreported>
    ensures reads { Gives result (provision_asked asked.now facts.now) }
    ensures form { IfOk result (λ _. is_extension asked.now.consumer ≡ true) }
    ensures stands { IfOk result (λ about. consumer_place asked.now.consumer facts.now.consumers
        ≡ Some about.0) }
{
    check_consumer(alloc, &asked.consumer)?;
    let entity = subject_in(alloc, &asked.subject)?;
    let place = place_found(alloc, facts, &asked.consumer)?;
    let found = person_found(alloc, facts, &entity)?;
    let person = person_in(alloc, found)?;
    Ok((place, person))
}
