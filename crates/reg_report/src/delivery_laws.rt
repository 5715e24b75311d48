// What holds of deliveries: a law is the clause of a function that does nothing.
ghost use Rattle.std.specs.Prelude.{◌≡◌, List, ℕ, Option, Some};
ghost use Rattle.reg_base.specs.declared.entity.Entity.{Entity};
ghost use Rattle.reg_terms.specs.declared.command.Command.TheVariants.{ConsumerAck};
ghost use Rattle.reg_machine.specs.History.{State, appended};
ghost use Rattle.reg_words.specs.declared.task.Provision.{Provision};
ghost use Rattle.reg_report.specs.Delivered.{IsDelivered, place_at};

use reg_effect::Kept;
use reg_machine::Machine;
use reg_prov::law_one_batch;

/// Of what is asked one thing is delivered. It does nothing.
pub fn law_one_delivery()
    ensures { (asked : Provision) (s : State) (place end other last : ℕ) (lines more : List ℕ)
        → IsDelivered asked s place end lines → IsDelivered asked s other last more
        → (place ≡ other) × (end ≡ last) × (lines ≡ more) }
{
    law_one_batch();
}

/// Behind a consumer's acknowledgement its place is what was acknowledged. It does nothing: it is a
/// law of the machine after that.
pub fn law_acknowledged<K: Kept>(machine: &Machine<K>)
    ensures { (s : State) (by : Entity) (key : Option (List ℕ)) (consumer : List ℕ)
        (place seq : ℕ) → machine.now ≡ appended s by key (ConsumerAck consumer seq)
        → place_at s.history s.clock consumer ≡ Some place
        → place_at machine.now.history s.clock consumer ≡ Some seq }
{
    machine.law_legal();
}
