// Rounds of rules.
ghost use Rattle.std.specs.Prelude.{◌≡◌, ◌+◌, ◌≤◌, ◌++◌, ◌∷◌, [], IfOk, OnOk};
ghost use Rattle.reg_facts.specs.Rules.{rules_at};
ghost use Rattle.reg_terms.specs.declared.rules.RuleKey.TheVariants.{Check};
ghost use Rattle.reg_effect.specs.declared.live.Live.{Live};
ghost use Rattle.reg_effect.specs.Bound.{most_steps_of};
ghost use Rattle.reg_effect.specs.Deltas.{ended};
ghost use Rattle.reg_effect.specs.Turned.{Remembers};
ghost use Rattle.reg_rules.specs.Actions.{changes_by};
ghost use Rattle.reg_rules.specs.Live.{live, live_now, IsOn, IsOnSince};
ghost use Rattle.reg_rules.specs.Outcome.{after, gathered, CanAct, Outcome};
ghost use Rattle.reg_rules.specs.Settling.{acting, rule_actions, round_actions, settling, settle};
ghost use Rattle.reg_rules.specs.Settling.{gains, losses};

use crate::actions::action_of;
use crate::{Action, Carrier, Standing};
use reg_base::{GroupId, Moment, Steps, SubjectId};
use reg_effect::{Delta, Kept, Pairs, Turned};
use reg_facts::{Facts, Member, RuleRow};
use reg_terms::RuleKey;
use std::alloc::{AllocError, Global};
use std::sync::ledger::Ledger;

/// The facts and memberships after what followed, and what rules did, in order.
#[derive(Drop)]
pub struct Settled<K: Kept> {
    pub facts: Facts,
    pub kept: K,
    pub actions: Vec<Action>,
}

/// Since when a person's immediate membership, which is on, stands.
fn since<C: Carrier>(carrier: &C, group: GroupId, person: SubjectId) -> Moment
    requires { IsOn (C.stands carrier.now) group person }
    ensures { IsOnSince (C.stands carrier.now) group person result }
{
    match carrier.facts().row(group, &Member::Person(person)) {
        Some(row) => row.from,
        None => unreachable!(),
    }
}

/// Carries an action out. Out of memory all is given up.
fn carry<C: Carrier, L: Ledger>(
    alloc: Global,
    carrier: C,
    action: &Action,
    turned: &mut Turned,
    steps: &mut Steps<L>,
) -> Result<C, AllocError>
    requires { CanAct (C.stands carrier) action.now }
    ensures stands { IfOk result (λ next. C.stands next
        ≡ after (action.now ∷ []) (C.stands carrier)) }
    ensures told { IfOk result (λ next. (M : Live)
        → Remembers M (live_now (C.stands carrier)) turned.old
        → Remembers M (live_now (C.stands next)) turned.new) }
    ensures cost { OnOk result (steps.new
        ≤ steps.old + most_steps_of (changes_by (action.now ∷ [])) (live_now (C.stands carrier))) }
{
    match action {
        Action::Removed { group, subject, .. } => {
            carrier.without_row(alloc, *group, *subject, turned, steps)
        }
        Action::Ended {
            group,
            subject,
            until,
            ..
        } => {
            let from = since(&carrier, *group, *subject);
            carrier.facts().law_sound();
            carrier.with_end(alloc, *group, *subject, from, *until, turned, steps)
        }
    }
}

/// An action more.
fn push(actions: &mut Vec<Action>, action: Action) -> Result<(), AllocError>
    ensures { OnOk result (actions.new.items ≡ actions.old.items ++ action ∷ []) }
{
    actions.push(action)?;
    Ok(())
}

/// What a rule does for a person who stopped being a member of a group.
fn act<C: Carrier, L: Ledger>(
    alloc: Global,
    carrier: C,
    rule: &RuleRow,
    group: GroupId,
    person: SubjectId,
    actions: &mut Vec<Action>,
    turned: &mut Turned,
    steps: &mut Steps<L>,
) -> Result<C, AllocError>
    ensures { IfOk result (λ next.
        Outcome (acting (C.stands carrier).clock rule.now group person (C.stands carrier).facts)
        (C.stands carrier) (C.stands next) (gathered actions.old.items turned.old steps.old)
        (gathered actions.new.items turned.new steps.new)) }
{
    match action_of(
        carrier.facts(),
        carrier.moment(),
        rule.id,
        &rule.form,
        group,
        person,
    ) {
        Some(action) => {
            let next = carry(alloc, carrier, &action, turned, steps)?;
            push(actions, action)?;
            Ok(next)
        }
        None => Ok(carrier),
    }
}

/// What some rules do, one after another, for a person who stopped being a member of a group.
fn act_all<C: Carrier, L: Ledger>(
    alloc: Global,
    carrier: C,
    rules: &[RuleRow],
    group: GroupId,
    person: SubjectId,
    actions: &mut Vec<Action>,
    turned: &mut Turned,
    steps: &mut Steps<L>,
) -> Result<C, AllocError>
    ensures { IfOk result (λ next.
        Outcome (rule_actions (C.stands carrier).clock rules.now group person
        (C.stands carrier).facts) (C.stands carrier) (C.stands next)
        (gathered actions.old.items turned.old steps.old)
        (gathered actions.new.items turned.new steps.new)) }
{
    let mut carrier = carrier;
    for rule in rules {
        carrier = act(alloc, carrier, rule, group, person, actions, turned, steps)?;
    }
    Ok(carrier)
}

/// The rules that watch a group for members who are lost, by id. Of a group without such rules it
/// takes no memory.
fn rules_checking(alloc: Global, facts: &Facts, group: GroupId) -> Result<Vec<RuleRow>, AllocError>
    ensures { IfOk result (λ rules. rules.items ≡ rules_at (Check group) facts.now.rules) }
{
    let mut rules = Vec::new(alloc);
    for rule in facts.rules_at(RuleKey::Check(group)) {
        rules.push(*rule)?;
    }
    Ok(rules)
}

/// What rules do, by id, for a person who stopped being a member of a group. Only the rules that
/// watch this group are looked at.
fn act_for<C: Carrier, L: Ledger>(
    alloc: Global,
    carrier: C,
    pair: (GroupId, SubjectId),
    actions: &mut Vec<Action>,
    turned: &mut Turned,
    steps: &mut Steps<L>,
) -> Result<C, AllocError>
    ensures { IfOk result (λ next.
        Outcome (rule_actions (C.stands carrier).clock (C.stands carrier).facts.rules pair.0 pair.1
        (C.stands carrier).facts) (C.stands carrier) (C.stands next)
        (gathered actions.old.items turned.old steps.old)
        (gathered actions.new.items turned.new steps.new)) }
{
    let (group, person) = pair;
    let rules = rules_checking(alloc, carrier.facts(), group)?;
    act_all(
        alloc, carrier, &rules, group, person, actions, turned, steps,
    )
}

/// One round: what rules do for each of these persons, who stopped being members of these groups.
fn act_round<C: Carrier, L: Ledger>(
    alloc: Global,
    carrier: C,
    pairs: &[(GroupId, SubjectId)],
    actions: &mut Vec<Action>,
    turned: &mut Turned,
    steps: &mut Steps<L>,
) -> Result<C, AllocError>
    ensures { IfOk result (λ next.
        Outcome (round_actions (C.stands carrier).clock (C.stands carrier).facts.rules pairs.now
        (C.stands carrier).facts) (C.stands carrier) (C.stands next)
        (gathered actions.old.items turned.old steps.old)
        (gathered actions.new.items turned.new steps.new)) }
{
    let mut carrier = carrier;
    for pair in pairs {
        carrier = act_for(alloc, carrier, *pair, actions, turned, steps)?;
    }
    Ok(carrier)
}

/// What began and what ended, of memberships that were turned.
fn delta_of(alloc: Global, turns: &[(GroupId, SubjectId, bool)]) -> Result<Delta, AllocError>
    ensures began { IfOk result (λ delta. delta.began ≡ gains turns.now) }
    ensures ended { IfOk result (λ delta. delta.ended ≡ losses turns.now) }
{
    let mut began = Pairs::new(alloc);
    let mut ended = Pairs::new(alloc);
    for turn in turns {
        if turn.2 {
            began.push((turn.0, turn.1))?;
        } else {
            ended.push((turn.0, turn.1))?;
        }
    }
    Ok(Delta { began, ended })
}

/// One round, and the memberships that it ended.
fn next_round<C: Carrier, L: Ledger>(
    alloc: Global,
    carrier: C,
    pairs: &[(GroupId, SubjectId)],
    actions: &mut Vec<Action>,
    turned: &mut Turned,
    steps: &mut Steps<L>,
) -> Result<(C, Pairs), AllocError>
    ensures round { IfOk result
        (λ next. Outcome (round_actions (C.stands carrier).clock
        (C.stands carrier).facts.rules pairs.now (C.stands carrier).facts) (C.stands carrier)
        (C.stands next.0) (gathered actions.old.items turned.old steps.old)
        (gathered actions.new.items turned.new steps.new)) }
    ensures ended { IfOk result (λ next. next.1
        ≡ ended (live_now (C.stands carrier)) (live_now (C.stands next.0))) }
{
    let mut in_round = Turned::new(alloc);
    let carrier = act_round(alloc, carrier, pairs, actions, &mut in_round, steps)?;
    let turns = carrier.turned_since(&in_round)?;
    let delta = delta_of(alloc, &turns)?;
    turned.add(&delta)?;
    let Delta { ended, .. } = delta;
    Ok((carrier, ended))
}

/// What follows where these memberships (group, person) ended: the rules by id whose group it is
/// act for each pair in turn, and where they end further memberships, for those in turn, until a
/// round ends none. Gives what stands then, and what rules did, in order; whom that turned is
/// remembered. It takes at most the steps of the changes that the rules make. Out of memory all is
/// given up.
pub fn settle_in<C: Carrier, L: Ledger>(
    alloc: Global,
    carrier: C,
    ended: Pairs,
    turned: &mut Turned,
    steps: &mut Steps<L>,
) -> Result<(C, Vec<Action>), AllocError>
    ensures actions { IfOk result (λ last. last.1.items
        ≡ settling ended (C.stands carrier).clock (C.stands carrier).facts) }
    ensures stands { IfOk result (λ last. C.stands last.0
        ≡ record {
          clock = (C.stands carrier).clock;
          facts = settle ended (C.stands carrier).clock (C.stands carrier).facts;
        }) }
    ensures told { IfOk result (λ last. (M : Live)
        → Remembers M (live_now (C.stands carrier)) turned.old
        → Remembers M (live_now (C.stands last.0)) turned.new) }
    ensures cost { OnOk result (steps.new
        ≤ steps.old + most_steps_of
        (changes_by (settling ended (C.stands carrier).clock (C.stands carrier).facts))
        (live_now (C.stands carrier))) }
{
    let mut carrier = carrier;
    let mut pairs = ended;
    let mut actions = Vec::new(alloc);
    while !pairs.list().is_empty() {
        let (next, lost) = next_round(alloc, carrier, pairs.list(), &mut actions, turned, steps)?;
        carrier = next;
        pairs = lost;
    }
    Ok((carrier, actions))
}

/// The pairs as a list of memberships.
fn listed(alloc: Global, pairs: &[(GroupId, SubjectId)]) -> Result<Pairs, AllocError>
    ensures { IfOk result (λ list. list ≡ pairs.now) }
{
    let mut list = Pairs::new(alloc);
    for pair in pairs {
        list.push(*pair)?;
    }
    Ok(list)
}

/// What follows at a moment where these memberships (group, person) ended, as `settle_in`, over
/// facts and the memberships at that moment.
pub fn settle<K: Kept, L: Ledger>(
    alloc: Global,
    facts: Facts,
    kept: K,
    ended: Vec<(GroupId, SubjectId)>,
    at: Moment,
    turned: &mut Turned,
    steps: &mut Steps<L>,
) -> Result<Settled<K>, AllocError>
    requires { K.held kept ≡ live at facts }
    ensures actions { IfOk result (λ last. last.actions.items ≡ settling ended.items at facts) }
    ensures facts { IfOk result (λ last. last.facts ≡ settle ended.items at facts) }
    ensures kept { IfOk result (λ last. K.held last.kept ≡ live at last.facts) }
    ensures told { IfOk result (λ last. (M : Live) → Remembers M (K.held kept) turned.old
        → Remembers M (K.held last.kept) turned.new) }
    ensures cost { OnOk result (steps.new
        ≤ steps.old + most_steps_of (changes_by (settling ended.items at facts)) (K.held kept)) }
{
    let ended = listed(alloc, &ended)?;
    let standing = Standing::new(at, facts, kept);
    let (standing, actions) = settle_in(alloc, standing, ended, turned, steps)?;
    let (facts, kept) = standing.parts();
    Ok(Settled {
        facts,
        kept,
        actions,
    })
}
