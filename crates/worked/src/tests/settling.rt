// Rounds of rules over facts and memberships alone: Ann is a member of `keys`, and whoever stops
// being one of `staff` is taken out of it.
ghost use Rattle.std.specs.Prelude.{◌≡◌, ◌<◌, IfOk};
ghost use Rattle.reg_facts.specs.Lists.{start};
ghost use Rattle.worked.specs.Scene.{ann, group_in_root, live_membership, with_ann, with_keys};
ghost use Rattle.worked.specs.Scene.{with_membership, with_rule, with_staff};

use super::otherwise::{Otherwise, expect, expect_number};
use reg_base::{FolderId, GroupId, Moment, RuleId, Steps, SubjectId, Text};
use reg_effect::{Change, Incremental, Kept, Turned, change_one};
use reg_facts::{Event, Facts, GroupRow, Member, MemberRow, RuleForm, RuleRow, SubjectRow};
use reg_rules::{Action, Settled, settle};
use std::alloc::{AllocError, Global};
use std::marker::Brand;
use std::sync::ledger::{Blank, Ledger};

/// Ann.
fn ann(alloc: Global) -> Result<SubjectRow, AllocError>
    ensures { IfOk result (λ row. row ≡ ann) }
{
    Ok(SubjectRow {
        id: SubjectId::new(1),
        text: Text::new(alloc, "uni/ann")?,
        display: Text::new(alloc, "")?,
    })
}

/// A group in the root folder.
fn group(alloc: Global, id: u32, extension: &str) -> Result<GroupRow, AllocError>
    ensures { IfOk result (λ row. row ≡ group_in_root id extension.now) }
{
    Ok(GroupRow {
        id: GroupId::new(id),
        folder: FolderId::new(0),
        extension: Text::new(alloc, extension)?,
        display: Text::new(alloc, "")?,
    })
}

fn add_ann(alloc: Global, facts: Facts) -> Result<Facts, AllocError>
    requires { facts ≡ start }
    ensures { IfOk result (λ f. f ≡ with_ann) }
{
    let row = ann(alloc)?;
    facts.take(alloc, Event::SubjectMade { row })
}

#[tactic(auto, unfolding(reg_facts::specs::Naming::placed, reg_facts::specs::Naming::name_of, reg_facts::specs::Naming::extensions))]
fn add_staff(alloc: Global, facts: Facts) -> Result<Facts, AllocError>
    requires { facts ≡ with_ann }
    ensures { IfOk result (λ f. f ≡ with_staff) }
{
    let row = group(alloc, 1, "staff")?;
    facts.take(alloc, Event::GroupMade { row })
}

#[tactic(auto, unfolding(reg_facts::specs::Naming::placed, reg_facts::specs::Naming::name_of, reg_facts::specs::Naming::extensions))]
fn add_keys(alloc: Global, facts: Facts) -> Result<Facts, AllocError>
    requires { facts ≡ with_staff }
    ensures { IfOk result (λ f. f ≡ with_keys) }
{
    let row = group(alloc, 2, "keys")?;
    facts.take(alloc, Event::GroupMade { row })
}

/// Ann becomes a member of `keys`.
fn add_membership(alloc: Global, facts: Facts) -> Result<Facts, AllocError>
    requires { facts ≡ with_keys }
    ensures { IfOk result (λ f. f ≡ with_membership) }
{
    let row = MemberRow {
        group: GroupId::new(2),
        member: Member::Person(SubjectId::new(1)),
        from: Moment::start(),
        until: None,
    };
    facts.take(alloc, Event::RowAdded { row })
}

/// Who stops being a member of `staff` is to be taken out of `keys`.
fn add_rule(alloc: Global, facts: Facts) -> Result<Facts, AllocError>
    requires { facts ≡ with_membership }
    ensures { IfOk result (λ f. f ≡ with_rule) }
{
    let form = RuleForm::RemoveLost {
        check: GroupId::new(1),
        owner: GroupId::new(2),
    };
    let row = RuleRow {
        id: RuleId::new(1),
        form,
    };
    facts.take(alloc, Event::RuleMade { row })
}

/// The facts of the scene.
fn facts(alloc: Global) -> Result<Facts, AllocError>
    ensures { IfOk result (λ f. f ≡ with_rule) }
{
    let facts = Facts::start(alloc)?;
    let facts = add_ann(alloc, facts)?;
    let facts = add_staff(alloc, facts)?;
    let facts = add_keys(alloc, facts)?;
    let facts = add_membership(alloc, facts)?;
    add_rule(alloc, facts)
}

/// The memberships of the scene.
#[tactic(auto, using(crate::proofs::Scene::suits_live))]
fn kept<L: Ledger>(
    alloc: Global,
    turned: &mut Turned,
    steps: &mut Steps<L>,
) -> Result<Incremental, AllocError>
    ensures { IfOk result (λ kept. kept ≡ live_membership) }
{
    let kept = Incremental::start(alloc)?;
    let change = Change::RowOn {
        group: GroupId::new(2),
        member: Member::Person(SubjectId::new(1)),
    };
    change_one(kept, &change, turned, steps)
}

/// What follows where Ann stopped being a member of `staff` at the first moment.
fn settled<L: Ledger>(alloc: Global, blank: Blank) -> Result<Settled<Incremental>, AllocError>
    requires name { blank.name ≡ L.name }
    requires parts { blank.parts ≡ L.parts }
    requires some { 0 < blank.parts }
{
    let mut steps = Steps::<L>::open(blank);
    let mut turned = Turned::new(alloc);
    let mut ended = Vec::new(alloc);
    ended.push((GroupId::new(1), SubjectId::new(1)))?;
    let kept = kept(alloc, &mut turned, &mut steps)?;
    let facts = facts(alloc)?;
    let at = Moment::start();
    settle(alloc, facts, kept, ended, at, &mut turned, &mut steps)
}

/// The same, for who counts no steps.
fn settled_uncounted(alloc: Global) -> Result<Settled<Incremental>, AllocError> {
    settled::<Brand>(alloc, Blank::new(1))
}

/// Whether an action is that rule 1 took Ann out of `keys`.
fn is_removal(action: &Action) -> bool {
    match action {
        Action::Removed {
            rule,
            group,
            subject,
        } => rule.number() == 1 && group.number() == 2 && subject.number() == 1,
        Action::Ended { .. } => false,
    }
}

/// The rule took Ann out of `keys`, in the facts and in the memberships, and did nothing more.
fn judge(settled: &Settled<Incremental>) -> Result<(), Otherwise> {
    let is_one = match settled.actions.as_slice() {
        [action] => is_removal(action),
        _ => false,
    };
    expect(is_one, "rule 1 takes Ann out of `keys`, and that is all")?;
    expect_number(settled.facts.row_count() as u64, 0, "immediate memberships")?;
    let is_member = settled.kept.is_member(GroupId::new(2), SubjectId::new(1));
    expect(!is_member, "Ann is no member of `keys`")
}

/// A rule takes the membership that it watches, once.
pub fn play(alloc: Global) -> Result<(), Otherwise> {
    let settled = settled_uncounted(alloc)?;
    let judged = judge(&settled);
    drop(settled);
    judged
}
