// What holds of all that follows a step.
ghost use Rattle.std.specs.Prelude.{◌≡◌, ℕ, List, None, true, false};
ghost use Rattle.reg_facts.specs.Events.{all_happened};
ghost use Rattle.reg_facts.specs.Lists.{Lists};
ghost use Rattle.reg_facts.specs.Sound.{IsSound};
ghost use Rattle.reg_graph.specs.Sets.{holds};
ghost use Rattle.reg_effect.specs.declared.live.Live.{Live};
ghost use Rattle.reg_effect.specs.Deltas.{ended};
ghost use Rattle.reg_effect.specs.Member.{member};
ghost use Rattle.reg_rules.specs.Actions.{events_of};
ghost use Rattle.reg_rules.specs.Following.{AllAct};
ghost use Rattle.reg_rules.specs.Live.{Now, live, row_on};
ghost use Rattle.reg_rules.specs.Lost.{has_removal};
ghost use Rattle.reg_rules.specs.Settling.{round, settle, settling};

/// A law, which does nothing: where a round leaves the facts as they were, nothing follows it; and
/// else what follows is what follows the memberships that the round ended.
pub fn law_rounds()
    ensures last { (at : ℕ) (pairs : List (ℕ × ℕ)) (f : Lists) → round at pairs f ≡ f
        → settle pairs at f ≡ f }
    ensures next { (at : ℕ) (pairs : List (ℕ × ℕ)) (f : Lists)
        → settle pairs at f ≡ settle (ended (live at f) (live at (round at pairs f))) at
        (round at pairs f) }
{}

/// A law, which does nothing: who lost a group has no membership that is on in the owner of a rule
/// that takes it away, after all that follows. So it is of each pair from which that followed, and
/// of who was a member of the group before the step and isn't one after it.
pub fn law_lost()
    ensures pairs { (at : ℕ) (pairs : List (ℕ × ℕ)) (group owner person : ℕ) (f : Lists)
        → has_removal group owner f.rules ≡ true → holds group person pairs ≡ true
        → row_on at owner person (settle pairs at f) ≡ None }
    ensures step { (at : ℕ) (before : Live) (group owner person : ℕ) (f : Lists)
        → has_removal group owner f.rules ≡ true → member before group person ≡ true
        → member (live at (settle (ended before (live at f)) at f)) group person ≡ false
        → row_on at owner person (settle (ended before (live at f)) at f) ≡ None }
{}

/// A law, which does nothing: what rules do to sound facts is what the events of these actions do,
/// each on the facts as they then are. Each row is on when its action comes, and each end lies
/// later.
pub fn law_actions()
    ensures can { (pairs : List (ℕ × ℕ)) (now : Now)
        → AllAct (settling pairs now.clock now.facts) now }
    ensures events { (at : ℕ) (pairs : List (ℕ × ℕ)) (f : Lists) → IsSound f
        → all_happened (events_of (settling pairs at f) f) f ≡ settle pairs at f }
{}
