// What is told of a moment now, and what was told then.
ghost use Rattle.reg_asof.specs.Joined.{AttributesAgree, GrantsAgree, GroupsAgree, IsEarlier};
ghost use Rattle.reg_asof.specs.Joined.{MayAgree, MembersAgree};
ghost use Rattle.reg_asof.specs.Lawful.{IsLawful};

use crate::earlier::Earlier;
use reg_effect::Kept;
use reg_machine::Machine;
use reg_view::{law_powers, law_told};

/// What the laws of its facts, its past and its answers tell of a registry.
fn law_lawful<K: Kept>(machine: &Machine<K>)
    ensures { IsLawful machine.now }
{
    machine.law_legal();
    machine.law_past();
    law_told(machine);
    let facts = machine.facts();
    facts.law_sound();
    facts.law_names();
    facts.law_assigned();
}

impl Earlier {
    /// Over a registry and the same as it was at a moment: root, which asks now of that moment, is
    /// answered by the intervals in which something was what it was answered then by what stood.
    /// Who was a member of a group that stood then; of which groups a person who stood then was a
    /// member, of those that stand at both; who held what on an object that stands at both, and
    /// what someone who stood then could do with it; and what was assigned to it, with the values.
    /// It does nothing: it is a law of the two.
    pub fn law_as_by_intervals<K: Kept>(&self, later: &Machine<K>)
        ensures members { IsEarlier self.now later.now → MembersAgree self.now later.now }
        ensures groups { IsEarlier self.now later.now → GroupsAgree self.now later.now }
        ensures grants { IsEarlier self.now later.now → GrantsAgree self.now later.now }
        ensures may { IsEarlier self.now later.now → MayAgree self.now later.now }
        ensures attributes { IsEarlier self.now later.now → AttributesAgree self.now later.now }
    {
        law_lawful(&self.machine);
        law_lawful(later);
        law_powers();
    }
}
