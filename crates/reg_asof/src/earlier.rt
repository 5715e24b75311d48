// The registry as it was at a moment.
ghost use Rattle.std.specs.Prelude.{◌≡◌, ◌⊎◌, ℕ, List, Result, Ok, Err, false, IfErr, IfOk};
ghost use Rattle.std.specs.Prelude.{IsErrOf};
ghost use Rattle.reg_terms.specs.declared.refusal.Refusal.{Refusal};
ghost use Rattle.reg_terms.specs.declared.request.Request.{Request};
ghost use Rattle.reg_machine.specs.History.{State, start};
ghost use Rattle.reg_keep.specs.declared.open.OpenFault.TheVariants.{Damaged};
ghost use Rattle.reg_view.specs.AtClock.{told};
ghost use Rattle.reg_json.specs.Reading.{reading_of};
ghost use Rattle.reg_service.specs.Opening.{judged};
ghost use Rattle.reg_service.specs.Turn.{AsksNoChange, answered, turn};
ghost use Rattle.reg_session.specs.Pending.{Holds};
ghost use Rattle.reg_session.specs.Replies.{is_accepted};
ghost use Rattle.reg_asof.specs.Then.{state_at};
ghost use Rattle.reg_asof.specs.Told.{MayTell, asked_of, no_change};

use crate::records::front_to;
use reg_base::{Bytes, Moment, Text};
use reg_effect::Incremental;
use reg_facts::Refusal;
use reg_keep::{OpenFault, Records};
use reg_machine::Machine;
use reg_service::{advance, replay};
use reg_session::{LineReading, PendingLine};
use reg_view::{Op, Query, Question, Reply, Request, ask};
use std::alloc::{AllocError, Global};
use std::marker::Model;

/// The reply to what asks for a change: BadRequest of the op.
fn no_change(alloc: Global) -> Reply
    ensures due { (result ≡ no_change) ⊎ (result ≡ Reply.NoMemory) }
    ensures unaccepted { is_accepted result ≡ false }
{
    match Text::new(alloc, "op") {
        Ok(field) => Reply::Refused(Refusal::BadRequest { field }),
        Err(_) => Reply::NoMemory,
    }
}

/// The reply to a query of whoever has this text.
fn queried(alloc: Global, machine: &Machine<Incremental>, by: Bytes, query: Query) -> Reply
    ensures due { (result ≡ answered (told machine.now.history machine.now.clock by query))
        ⊎ (result ≡ Reply.NoMemory) }
    ensures unaccepted { is_accepted result ≡ false }
{
    let Ok(question) = Question::of(alloc, by, query) else {
        return Reply::NoMemory;
    };
    match ask(alloc, machine, question) {
        Ok(Ok(answer)) => Reply::Answer(answer),
        Ok(Err(refusal)) => Reply::Refused(refusal),
        Err(AllocError) => Reply::NoMemory,
    }
}

/// The registry as it was at a moment. Contracts see its history and its clock.
#[derive(Drop)]
pub struct Earlier {
    pub(crate) machine: Machine<Incremental>,
}

impl Model for Earlier {
    ghost use Rattle.reg_machine.specs.History.{State};

    ghost Value = { State };

    ghost view = { λ e. e.machine };
}

impl Earlier {
    /// The registry of a journal's records as it was at a moment: the commands up to then, with the
    /// clock there. `Damaged` names the first place whose payload is no command's, falls in time,
    /// has a key that its caller has, or is refused there; beside it comes `NoMemory` alone.
    /// Records past the moment aren't judged.
    pub fn replay(alloc: Global, records: Records, at: Moment) -> Result<Earlier, OpenFault>
        ensures ok { IfOk result (λ e. (s : State) → judged start records ≡ Ok s
            → e ≡ state_at s.history at) }
        ensures damaged { IfErr result (λ e. (place : ℕ) → e ≡ Damaged place
            → judged start records ≡ Err place) }
        ensures other { IsErrOf result OpenFault.OtherFormat → ⊥ }
        ensures fault { IsErrOf result OpenFault.Fault → ⊥ }
    {
        let Ok(front) = front_to(alloc, records, at) else {
            return Err(OpenFault::NoMemory);
        };
        let machine = replay(alloc, front)?;
        match advance(alloc, machine, at) {
            Ok(machine) => Ok(Earlier { machine }),
            Err(_) => Err(OpenFault::NoMemory),
        }
    }

    /// Its machine, whose clock is at the moment.
    pub fn machine(&self) -> &Machine<Incremental>
        ensures { result.now ≡ self.now }
    {
        &self.machine
    }

    /// What asks for no change is answered as by a registry with this history at this moment. It
    /// does nothing: it is a law of the value.
    pub fn law_as_then(&self)
        ensures { (reading : Result Request Refusal) → AsksNoChange reading
            → asked_of self.now reading ≡ (turn self.now self.now.clock reading).0 }
    {
        let _ = &self.machine;
    }

    /// The reply to a request.
    fn asked(&self, alloc: Global, request: Request) -> Reply
        ensures due { MayTell self.now (Ok request) result }
        ensures unaccepted { is_accepted result ≡ false }
    {
        let Request { by, op, .. } = request;
        match op {
            Op::Query(query) => queried(alloc, &self.machine, by, query),
            Op::Command(command) => {
                drop(command);
                no_change(alloc)
            }
            Op::Load { .. } => no_change(alloc),
        }
    }

    /// The reply to a line that isn't skipped: a query's answer, and BadRequest of the op to what
    /// asks for a change; or that there was no memory.
    pub fn answer(&self, alloc: Global, line: &PendingLine) -> Reply
        ensures due { (bytes : List ℕ) → Holds line.now bytes
            → MayTell self.now (reading_of bytes) result }
        ensures unaccepted { is_accepted result ≡ false }
    {
        match line.reading(alloc) {
            LineReading::Asked(request) => self.asked(alloc, request),
            LineReading::Refused(refusal) => Reply::Refused(refusal),
            LineReading::NoMemory => Reply::NoMemory,
        }
    }
}
