// Asking.
ghost use Rattle.std.specs.Prelude.{◌≡◌, ℕ, List, Ok, Err, Some, IfErr, IfOk};
ghost use Rattle.reg_terms.specs.declared.command.Stamped.{Stamped};
ghost use Rattle.reg_terms.specs.declared.query.Query.{Query};
ghost use Rattle.reg_priv.specs.declared.who.Who.{Who};
ghost use Rattle.reg_machine.specs.History.{facts, now_facts};
ghost use Rattle.reg_current.specs.Live.{live};
ghost use Rattle.reg_view.specs.Answers.{answer_of};
ghost use Rattle.reg_view.specs.AtClock.{asked_at, told, view};
ghost use Rattle.reg_view.specs.Knowing.{IsKnownTo};
ghost use Rattle.reg_view.specs.Missing.{MayYield};
ghost use Rattle.reg_view.specs.Past.{past_at};
ghost use Rattle.reg_view.specs.Show.{show};
ghost use Rattle.reg_view.specs.Telling.{IfRefused, TellsOf, names_of};
ghost use Rattle.reg_view.specs.Unseen.{AsksAbout, AsksOf, IsOfNoneGone, IsUnseen, IsUnseenObject};
ghost use Rattle.reg_view.specs.View.{caller_of};

use crate::Answer;
use crate::answering::answer;
use crate::question::{Parts, Question};
use reg_effect::Kept;
use reg_facts::{Refusal, law_by_bytes};
use reg_machine::Machine;
use std::alloc::{AllocError, Global};

/// The answer to a question at the machine's clock, or why it is refused: what the view of the
/// caller of its text shows, and nothing else. A question about the past is answered by what was
/// the case at its moment, and judged by what the caller may do now. A text that names neither a
/// person that stands nor the registry itself is nobody's.
pub fn ask<K: Kept>(
    alloc: Global,
    machine: &Machine<K>,
    question: Question,
) -> Result<Result<Answer, Refusal>, AllocError>
    ensures shown { IfOk result (λ r. r
        ≡ show (view machine.now.history machine.now.clock
        (asked_at machine.now.clock question.query) question.by) question.query) }

    // Any other registry that gives this caller the same view gives this answer.
    ensures alike { IfOk result (λ r. (history : List Stamped) (now : ℕ)
        → view history now (asked_at now question.query) question.by
        ≡ view machine.now.history machine.now.clock
        (asked_at machine.now.clock question.query) question.by
        → r ≡ show (view history now (asked_at now question.query) question.by) question.query) }

    // There may be no memory for an answer, and for a refusal that tells of what the view holds.
    // That something isn't there for the caller, or that the caller doesn't stand, is told whatever
    // memory there is.
    ensures yields { IfErr result (λ _. IfRefused MayYield
        (show (view machine.now.history machine.now.clock
        (asked_at machine.now.clock question.query) question.by) question.query)) }

    // A group that the caller doesn't see is answered as a name that no group has, whatever memory
    // there is, and so is one that is gone, unless root asks of its past.
    ensures unseen { (group : List ℕ) → AsksOf group question.query
        → IsUnseen (live machine.now.clock (facts machine.now.history machine.now.clock))
        (facts machine.now.history machine.now.clock) question.by group
        → IsOfNoneGone (past_at machine.now)
        (live machine.now.clock (facts machine.now.history machine.now.clock))
        (facts machine.now.history machine.now.clock) question.by question.query
        → result ≡ Ok (Err (Refusal.NotFound group)) }

    // And so is a group, a definition or an attribute by its name, where any object may be named.
    ensures unseen_object { (name : List ℕ) → AsksAbout name question.query
        → IsUnseenObject (live machine.now.clock (facts machine.now.history machine.now.clock))
        (facts machine.now.history machine.now.clock) question.by name
        → result ≡ Ok (Err (Refusal.NotFound name)) }

    // A refusal names nothing that the query doesn't name, but for the root folder and the
    // definition of an attribute that the caller sees.
    ensures names { IfOk result
        (λ r. IfRefused (TellsOf
        (view machine.now.history machine.now.clock
        (asked_at machine.now.clock question.query) question.by)
        (names_of question.query)) r) }

    // An answer names no group but one that the caller sees, a member or a factor of one that it
    // may read, or a holder on an object that it administers. Root alone is told of others.
    ensures tells { IfOk result (λ r. IfOk r (IsKnownTo (past_at machine.now)
        (live machine.now.clock (facts machine.now.history machine.now.clock))
        (facts machine.now.history machine.now.clock)
        (asked_at machine.now.clock question.query) question.by)) }
{
    let Parts {
        by,
        query,
        caller,
        called,
    } = question.into_parts();
    let facts = machine.facts();
    let kept = machine.kept();
    answer(alloc, machine, facts, kept, &by, &query, &caller, called)
}

/// What a caller that stands is told at the clock is the answer over the facts and the memberships
/// there and what the history tells of the past (`Answers.antt`). It does nothing.
pub fn law_told<K: Kept>(machine: &Machine<K>)
    ensures { (by : List ℕ) (who : Who) (query : Query)
        → caller_of by (now_facts machine.now) ≡ Some who
        → told machine.now.history machine.now.clock by query
        ≡ answer_of (past_at machine.now) (live machine.now.clock (now_facts machine.now))
        (now_facts machine.now) machine.now.clock by who query }
{
    let facts = machine.facts();
    facts.law_sound();
    facts.law_held();
    facts.law_names();
    law_by_bytes();
}
