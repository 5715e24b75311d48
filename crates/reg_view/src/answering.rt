// Answers over the facts and the effective memberships.
ghost use Rattle.std.specs.Prelude.{◌≡◌, ℕ, List, Ok, Err, IfErr, IfOk};
ghost use Rattle.reg_base.specs.Entities.{entity_of};
ghost use Rattle.reg_machine.specs.History as given;
ghost use Rattle.reg_current.specs.Live.{live};
ghost use Rattle.reg_view.specs.Answers.{answer_of};
ghost use Rattle.reg_view.specs.AtClock.{asked_at};
ghost use Rattle.reg_view.specs.Missing.{MayYield, called_of};
ghost use Rattle.reg_view.specs.Past.{past_at};
ghost use Rattle.reg_view.specs.Show.{show};
ghost use Rattle.reg_view.specs.Telling.{IfRefused};
ghost use Rattle.reg_view.specs.Unseen.{AsksAbout, AsksOf, IsOfNoneGone, IsUnseen, IsUnseenObject};
ghost use Rattle.reg_view.specs.View.{view_of};

use crate::admin::admin_of;
use crate::administering::grants_of;
use crate::allowing::may_of;
use crate::attributes::attributes_of;
use crate::grouping::{group_of, members_of, rows_of_group};
use crate::history::history_told;
use crate::listing::listing_of;
use crate::logging::log_of;
use crate::memberships::groups_of;
use crate::missing::{missing, standing};
use crate::question::Called;
use crate::{Answer, Query};
use reg_base::{Bytes, Entity};
use reg_effect::Kept;
use reg_facts::{Facts, Refusal, law_by_bytes};
use reg_machine::Machine;
use reg_priv::Who;
use std::alloc::{AllocError, Global};

/// The answer to a query of a caller that stands.
fn answer_of<K: Kept>(
    alloc: Global,
    machine: &Machine<K>,
    facts: &Facts,
    kept: &K,
    by: &Bytes,
    who: &Who,
    query: &Query,
) -> Result<Result<Answer, Refusal>, AllocError>
    requires { facts.now ≡ given.facts machine.now.history machine.now.clock }
    ensures { IfOk result (λ r. r
        ≡ answer_of (past_at machine.now)
        (K.held kept.now) facts.now machine.now.clock by.now who.now query.now) }
{
    match query {
        Query::GroupGet { group } => group_of(alloc, facts, kept, who, group),
        Query::FolderList { folder } => listing_of(alloc, facts, kept, who, folder),
        Query::Members { group, at } => members_of(alloc, machine, facts, kept, who, group, *at),
        Query::Rows { group } => rows_of_group(alloc, facts, kept, who, group),
        Query::Groups { subject, at } => groups_of(alloc, machine, facts, kept, who, subject, *at),
        Query::Grants { object, at } => grants_of(alloc, machine, facts, kept, who, object, *at),
        Query::May { object, entity, at } => {
            may_of(alloc, machine, facts, kept, by, who, object, entity, *at)
        }
        Query::Attributes { object, at } => {
            attributes_of(alloc, machine, facts, kept, who, object, *at)
        }
        Query::History { group } => history_told(alloc, machine, facts, kept, who, group),
        Query::Log { consumer, max } => log_of(alloc, machine, facts, kept, who, consumer, *max),
        Query::Admin => admin_of(alloc, machine, facts, kept, who),
    }
}

/// The answer to a query of a caller that stands. Where there is no memory for it, what isn't there
/// for the caller is told all the same.
#[tactic(auto, using(crate::proofs::Yields::may_yield))]
fn told<K: Kept>(
    alloc: Global,
    machine: &Machine<K>,
    facts: &Facts,
    kept: &K,
    by: &Bytes,
    who: &Who,
    query: &Query,
    called: Called,
) -> Result<Result<Answer, Refusal>, AllocError>
    requires here { facts.now ≡ given.facts machine.now.history machine.now.clock }
    requires called { called ≡ called_of query.now }
    ensures told { IfOk result (λ r. r
        ≡ answer_of (past_at machine.now)
        (K.held kept.now) facts.now machine.now.clock by.now who.now query.now) }
    ensures yields { IfErr result (λ _. IfRefused MayYield
        (answer_of (past_at machine.now)
        (K.held kept.now) facts.now machine.now.clock by.now who.now query.now)) }
{
    match answer_of(alloc, machine, facts, kept, by, who, query) {
        Ok(answer) => Ok(answer),
        Err(AllocError) => match missing(machine, facts, kept, who, query, called) {
            Some(object) => Ok(Err(Refusal::NotFound { object })),
            None => Err(AllocError),
        },
    }
}

/// The answer to a query, over the facts and the effective memberships that the machine has at its
/// clock: what the caller's view shows, and nothing else.
pub fn answer<K: Kept>(
    alloc: Global,
    machine: &Machine<K>,
    facts: &Facts,
    kept: &K,
    by: &Bytes,
    query: &Query,
    caller: &Option<Entity>,
    called: Called,
) -> Result<Result<Answer, Refusal>, AllocError>
    requires here { facts.now ≡ given.facts machine.now.history machine.now.clock }
    requires held { K.held kept.now
        ≡ live machine.now.clock (given.facts machine.now.history machine.now.clock) }
    requires caller { caller.now ≡ entity_of by.now }
    requires called { called ≡ called_of query.now }
    ensures shown { IfOk result (λ r. r
        ≡ show (view_of (past_at machine.now) (K.held kept.now) facts.now machine.now.clock
        (asked_at machine.now.clock query.now) by.now) query.now) }
    ensures yields { IfErr result (λ _. IfRefused MayYield
        (show (view_of (past_at machine.now) (K.held kept.now) facts.now machine.now.clock
        (asked_at machine.now.clock query.now) by.now) query.now)) }

    // A group that the caller doesn't see is answered as a name that no group has.
    ensures unseen { (group : List ℕ) → AsksOf group query.now
        → IsUnseen (K.held kept.now) facts.now by.now group
        → IsOfNoneGone (past_at machine.now) (K.held kept.now) facts.now by.now query.now
        → result ≡ Ok (Err (Refusal.NotFound group)) }

    // An object that the caller doesn't see is answered as a name that nobody has.
    ensures unseen_object { (name : List ℕ) → AsksAbout name query.now
        → IsUnseenObject (K.held kept.now) facts.now by.now name
        → result ≡ Ok (Err (Refusal.NotFound name)) }
{
    let Some(who) = standing(facts, caller) else {
        return Ok(Err(Refusal::NoCaller));
    };
    facts.law_sound();
    facts.law_held();
    facts.law_names();
    law_by_bytes();
    told(alloc, machine, facts, kept, by, &who, query, called)
}
