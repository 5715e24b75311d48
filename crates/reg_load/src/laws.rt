// What is true of a load that suits the facts.
ghost use Rattle.std.specs.Prelude.{ℕ, List};
ghost use Rattle.reg_base.specs.declared.entity.Entity.{Entity};
ghost use Rattle.reg_terms.specs.declared.rows.JobRow.{JobRow};
ghost use Rattle.reg_terms.specs.declared.lists.LoadRow.{LoadRow};
ghost use Rattle.reg_load.specs.Loading.{AreNames, CanLoad, IsLoaded};

use reg_facts::Facts;

/// A law, which does nothing: where no test finds a fault in a load, what it makes happen suits the
/// facts, event after event. After it the memberships of persons are those of before without the
/// removed and with the added, those of groups are as they were, and each group that it created has
/// its name and number.
pub fn law_load(facts: &Facts)
    ensures { (at : ℕ) (by : Entity) (job : JobRow) (created : List (List ℕ))
        (removed added : List LoadRow) → AreNames created
        → CanLoad by job created removed added facts.now
        → IsLoaded at by job created removed added facts.now }
{
    facts.law_sound();
    facts.law_held();
    facts.law_rules();
}
