// What refuses a command about consumers of the change log.
ghost use Rattle.std.specs.Prelude.{◌≡◌, IfOk, length};
ghost use Rattle.reg_machine.specs.Checks.{consumer_add_checks, consumer_ack_checks};
ghost use Rattle.reg_machine.specs.History.{now_facts};
ghost use Rattle.reg_machine.specs.Past.{log};
ghost use Rattle.reg_machine.specs.Refusals.{first_of};

use crate::Machine;
use crate::refusing::{full, not_found, taken};
use reg_base::Text;
use reg_effect::Kept;
use reg_facts::Refusal;
use reg_terms::MAX_CONSUMERS;
use std::alloc::{AllocError, Global};

impl<K: Kept> Machine<K> {
    pub(crate) fn decide_consumer_add(
        &self,
        alloc: Global,
        consumer: &Text,
    ) -> Result<Option<Refusal>, AllocError>
        ensures { IfOk result (λ found. found
            ≡ first_of (consumer_add_checks self.now.history (now_facts self.now) consumer.now)) }
    {
        if self.facts().consumer_place(consumer.as_str()).is_some() {
            return taken(alloc, consumer.as_str());
        }
        if self.facts().consumers().len() >= MAX_CONSUMERS {
            return full(alloc, "consumer", MAX_CONSUMERS as u64);
        }
        self.decide_room(alloc)
    }

    pub(crate) fn decide_consumer_ack(
        &self,
        alloc: Global,
        consumer: &Text,
        seq: u64,
    ) -> Result<Option<Refusal>, AllocError>
        ensures { IfOk result (λ found. found
            ≡ first_of (consumer_ack_checks self.now.history
            (length (log self.now.history self.now.clock)) (now_facts self.now) consumer.now seq)) }
    {
        let Some(kept) = self.facts().consumer_place(consumer.as_str()) else {
            return not_found(alloc, consumer.as_str());
        };
        let last = self.log().last();
        if seq < kept || last < seq {
            return Ok(Some(Refusal::Place { kept, last }));
        }
        self.decide_room(alloc)
    }
}
