// What comes before all else that may refuse a command about consumers of the change log.
ghost use Rattle.std.specs.Prelude.{◌≡◌, IfOk};
ghost use Rattle.reg_terms.specs.declared.command.Command.TheVariants.{ConsumerAck};
ghost use Rattle.reg_demand.specs.Refusing.{first_of, barred};

use crate::refusals::not_found;
use reg_base::{Entity, Text};
use reg_effect::Kept;
use reg_facts::{Facts, Refusal};
use reg_priv::{Who, is_root};
use std::alloc::{AllocError, Global};

/// The caller is root, who alone sees consumers, and the consumer stands.
pub fn consumer_ack<K: Kept>(
    alloc: Global,
    facts: &Facts,
    kept: &K,
    _by: &Entity,
    who: &Who,
    consumer: &Text,
    _seq: u64,
) -> Result<Option<Refusal>, AllocError>
    ensures { IfOk result (λ found. found
        ≡ first_of (barred (K.held kept.now) facts.now _by.now who.now
        (ConsumerAck consumer.now _seq))) }
{
    if !is_root(facts, kept, who) {
        return not_found(alloc, consumer.as_str());
    }
    if facts.consumer_place(consumer.as_str()).is_none() {
        return not_found(alloc, consumer.as_str());
    }
    Ok(None)
}
