// One request after another, over a keeper. A command is dropped by a call of `drop`, as in
// `opening`: else each exit takes it apart by its kinds.
ghost use Rattle.std.specs.Prelude.{◌≡◌, ◌⊎◌, ℕ, List, Option, Result, true, false, Ok, Err, None};
ghost use Rattle.std.specs.Prelude.{IfErr, IfOk, IfSome, Some, if◌then◌else◌};
ghost use Rattle.reg_machine.specs.History.{start};
ghost use Rattle.reg_machine.specs.Keys.{is_free, is_kept_as, keyed};
ghost use Rattle.reg_machine.specs.Refusals.{refusal};
ghost use Rattle.reg_machine.specs.Loads.{load_outcome};
ghost use Rattle.reg_keep.specs.Frames.{payloads_of_records};
ghost use Rattle.reg_keep.specs.declared.open.OpenFault.TheVariants.{Damaged};
ghost use Rattle.reg_base.specs.Names.{is_extension};
ghost use Rattle.reg_base.specs.declared.entity.Entity.{Entity};
ghost use Rattle.reg_terms.specs.declared.command.Stamped.{Stamped};
ghost use Rattle.reg_terms.specs.declared.reply.LoadCounts.{LoadCounts};
ghost use Rattle.reg_ops.specs.Forms.{is_entity, has_form, key_fits, takes_key};
ghost use Rattle.reg_wire.specs.Payload.{IsWritable};
ghost use Rattle.reg_service.specs.Opening.{payloads_of, judged, FrontsReopen, IsServed};
ghost use Rattle.reg_service.specs.Kept.{KeepsNext, KeptOn, IsAcknowledged, IsLoaded, LeavesKeeper};
ghost use Rattle.reg_service.specs.Kept.{LeavesFaults, keeper_of};
ghost use Rattle.reg_service.specs.KeptAt.{IsKeptAt};
ghost use Rattle.reg_service.specs.Loads.{IsRefusedForRoom, LoadsIfRoom};
ghost use Rattle.reg_service.specs.Marks.{LeavesSince};
ghost use Rattle.reg_service.specs.Turn.{turn, requested, HasForm, IsQuery, Carries, Follows};
ghost use Rattle.reg_service.specs.Turn.{GoesOn, MovesTo, at_moment, counted, load_ordered};
ghost use Rattle.reg_service.specs.Turn.{MayTellAgain, decided, loaded, ordered, ordered_by};

use crate::opening::replay;
use crate::uncounted::{advance, apply};
use reg_base::{Bytes, Entity, Moment, Text};
use reg_effect::Incremental;
use reg_facts::{Command, Refusal, Stamped};
use reg_keep::{KeepFault, Keeper, OpenFault, Records};
use reg_machine::{Keyed, Machine};
use reg_outside::Stamp;
use reg_terms::LoadCounts;
use reg_view::{Op, Query, Question, Reply, Request, ask};
use reg_wire::{command_bytes, encode, payload_reads_back, read_is_payload};
use std::alloc::{AllocError, Global};
use std::marker::Model;

/// Why a service stopped.
#[derive(Clone, Copy, PartialEq, Eq)]
pub enum Cause {
    /// There was no memory to go on.
    Memory,
    /// The keeper failed.
    Disk,
}

/// The registry, taking requests, and what keeps its commands. Contracts see its history and its
/// clock, and the keeper.
#[derive(Drop)]
pub struct Service<K: Keeper> {
    pub(crate) machine: Machine<Incremental>,
    pub(crate) keeper: K,
}

impl<K: Keeper> Model for Service<K> {
    ghost use Rattle.reg_service.specs.Opening.{Served, IsServed};

    ghost Value = { Served K };

    ghost view = { λ s. record { state = s.machine; keeper = s.keeper } };

    ghost invariant = { λ s. IsServed s.machine (K.payloads s.keeper) (K.has_failed s.keeper) };
}

/// What follows a request: the service goes on, or it stopped and gives the keeper back.
#[derive(Drop)]
pub enum Next<K: Keeper> {
    Go(Service<K>),
    Stop(Cause, K),
}

impl<K: Keeper> Next<K> {
    /// The keeper, whether the service goes on or not.
    pub fn into_keeper(self) -> K
        ensures { result ≡ keeper_of self }
    {
        match self {
            Next::Go(service) => service.into_keeper(),
            Next::Stop(_, keeper) => keeper,
        }
    }

    /// The keeper's present moment, for contracts alone: since then each stop leaves the history of
    /// a service that goes on.
    pub fn stamp(&self) -> Stamp
        ensures moment { result ≡ K.keep_moment (keeper_of self.now) }
        ensures leaves { LeavesSince ⟦<K as Keeper>⟧ result self.now }
    {
        match self {
            Next::Go(service) => service.stamp(),
            Next::Stop(_, keeper) => keeper.stamp(),
        }
    }
}

/// A law, which does nothing: a load of a table that has a plan is refused for want of room alone.
fn law_loads(machine: &Machine<Incremental>)
    ensures { (by : Entity) (job table : List ℕ)
        → IsRefusedForRoom machine.now.history machine.now.clock by job table
        (load_ordered machine.now (Some by) job table).0 }
{
    let facts = machine.facts();
    facts.law_sound();
    facts.law_held();
    facts.law_names();
    facts.law_jobs();
}

/// Asks the machine.
fn asked<K: Keeper>(
    alloc: Global,
    machine: Machine<Incremental>,
    keeper: K,
    by: Bytes,
    query: Query,
) -> (Reply, Next<K>)
    requires { IsServed machine (K.payloads keeper) (K.has_failed keeper) }
    ensures turn { Carries machine (requested machine by None (Op.Query query)) result }
    ensures kept { (expected : List Stamped)
        → KeepsNext ⟦<K as Keeper>⟧ machine.history expected keeper result.1 }
    ensures still { LeavesFaults ⟦<K as Keeper>⟧ keeper result.1 }
    ensures same { LeavesKeeper keeper result.1 }
    ensures unnumbered { (n : ℕ) (id : Option ℕ) → result.0 ≡ Reply.Number n id → ⊥ }
{
    let Ok(question) = Question::of(alloc, by, query) else {
        return (Reply::NoMemory, Next::Go(Service { machine, keeper }));
    };
    let reply = match ask(alloc, &machine, question) {
        Ok(Ok(answer)) => Reply::Answer(answer),
        Ok(Err(refusal)) => Reply::Refused(refusal),
        Err(AllocError) => Reply::NoMemory,
    };
    (reply, Next::Go(Service { machine, keeper }))
}

/// Takes an accepted command into the history and keeps it. All its memory is taken before it is
/// kept.
fn keep<K: Keeper>(
    alloc: Global,
    machine: Machine<Incremental>,
    keeper: K,
    stamped: Stamped,
) -> (Reply, Next<K>)
    requires served { IsServed machine (K.payloads keeper) (K.has_failed keeper) }
    requires accepted { refusal machine.history machine.clock stamped.by stamped.command ≡ None }
    requires free { is_free machine.history stamped.by stamped.key ≡ true }
    requires now { stamped.at ≡ machine.clock }
    requires writable { IsWritable stamped }
    ensures turn { Carries machine (decided machine stamped.by stamped.key stamped.command
        (refusal machine.history machine.clock stamped.by stamped.command)) result }
    ensures kept { KeepsNext ⟦<K as Keeper>⟧ machine.history
        (decided machine stamped.by stamped.key stamped.command
        (refusal machine.history machine.clock stamped.by stamped.command)).1.history keeper
        result.1 }
    ensures still { LeavesFaults ⟦<K as Keeper>⟧ keeper result.1 }
    ensures added { (n : ℕ) (id : Option ℕ) → result.0 ≡ Reply.Number n id
        → IsLoaded ⟦<K as Keeper>⟧ machine.history n result.1 }
    ensures acknowledged { (n : ℕ) (id : Option ℕ) → result.0 ≡ Reply.Number n id
        → IsAcknowledged ⟦<K as Keeper>⟧ machine.history n id result.1 }
{
    let mut keeper = keeper;
    machine.law_loads_few();
    let Ok(payload) = encode(alloc, &stamped) else {
        drop(stamped);
        return (Reply::NoMemory, Next::Go(Service { machine, keeper }));
    };
    payload_reads_back();
    let Stamped {
        by,
        key,
        command,
        ..
    } = stamped;
    let id = machine.made_id(&command);
    let applied = apply(alloc, machine, &by, key, command);
    drop(by);
    let Ok(machine) = applied else {
        return (Reply::NoMemory, Next::Stop(Cause::Memory, keeper));
    };
    match keeper.append(&payload) {
        Ok(()) => {
            let number = machine.commands() as u64;
            (
                Reply::Number { number, id },
                Next::Go(Service { machine, keeper }),
            )
        }
        Err(KeepFault) => (Reply::KeepFault, Next::Stop(Cause::Disk, keeper)),
    }
}

/// Decides an entity's command, whose key is free, and keeps it unless it is refused.
fn decided<K: Keeper>(
    alloc: Global,
    machine: Machine<Incremental>,
    keeper: K,
    stamped: Stamped,
) -> (Reply, Next<K>)
    requires served { IsServed machine (K.payloads keeper) (K.has_failed keeper) }
    requires free { is_free machine.history stamped.by stamped.key ≡ true }
    requires now { stamped.at ≡ machine.clock }
    requires writable { IsWritable stamped }
    ensures turn { Carries machine (decided machine stamped.by stamped.key stamped.command
        (refusal machine.history machine.clock stamped.by stamped.command)) result }
    ensures kept { KeepsNext ⟦<K as Keeper>⟧ machine.history
        (decided machine stamped.by stamped.key stamped.command
        (refusal machine.history machine.clock stamped.by stamped.command)).1.history keeper
        result.1 }
    ensures still { LeavesFaults ⟦<K as Keeper>⟧ keeper result.1 }
    ensures acknowledged { (n : ℕ) (id : Option ℕ) → result.0 ≡ Reply.Number n id
        → IsAcknowledged ⟦<K as Keeper>⟧ machine.history n id result.1 }
{
    match machine.decide(alloc, &stamped.by, &stamped.command) {
        Err(AllocError) => {
            drop(stamped);
            (Reply::NoMemory, Next::Go(Service { machine, keeper }))
        }
        Ok(Some(refusal)) => {
            drop(stamped);
            (
                Reply::Refused(refusal),
                Next::Go(Service { machine, keeper }),
            )
        }
        Ok(None) => keep(alloc, machine, keeper, stamped),
    }
}

/// The reply to a command of these bytes under a key that its caller has, where this is told of the
/// command that is kept there.
fn told_kept(
    machine: &Machine<Incremental>,
    by: &Entity,
    key: &Text,
    kept: Keyed,
    bytes: &[u8],
) -> Reply
    ensures { result ≡ (if is_kept_as (keyed machine.now.history by.now key.now) bytes.now
        then Reply.Number kept.number kept.id
        else Reply.Refused (Refusal.OtherCommand kept.number)) }
{
    let Keyed { number, id } = kept;
    if machine.is_kept_as(by, key.bytes(), bytes) {
        return Reply::Number { number, id };
    }
    Reply::Refused(Refusal::OtherCommand { number })
}

/// The reply to a command under a key that its caller has. None where the caller hasn't.
fn told_under(
    alloc: Global,
    machine: &Machine<Incremental>,
    by: &Entity,
    key: &Text,
    command: &Command,
) -> Option<Reply>
    requires { has_form command.now ≡ true }
    ensures { MayTellAgain (keyed machine.now.history by.now key.now) command.now result }
{
    match machine.keyed(by, key.bytes()) {
        None => None,
        Some(kept) => match command_bytes(alloc, command) {
            Ok(bytes) => Some(told_kept(machine, by, key, kept, &bytes)),
            Err(AllocError) => Some(Reply::NoMemory),
        },
    }
}

/// The reply to a command that has a key which its caller has already. None where its key is free,
/// or there is none.
fn told_again(alloc: Global, machine: &Machine<Incremental>, stamped: &Stamped) -> Option<Reply>
    requires { has_form stamped.now.command ≡ true }
    ensures free { result ≡ None
        → is_free machine.now.history stamped.now.by stamped.now.key ≡ true }
    ensures told { IfSome result (λ r. (r ≡ Reply.NoMemory) ⊎ ((r, machine.now)
        ≡ ordered_by machine.now stamped.now.by stamped.now.key stamped.now.command)) }
    ensures kept { (n : ℕ) (id : Option ℕ) → result ≡ Some (Reply.Number n id)
        → IsKeptAt n id machine.now.history }
{
    match &stamped.key {
        Some(key) => told_under(alloc, machine, &stamped.by, key, &stamped.command),
        None => None,
    }
}

/// Carries out an entity's command, unless it is refused, or its key is the caller's already: then
/// it is answered again.
fn carried_out<K: Keeper>(
    alloc: Global,
    machine: Machine<Incremental>,
    keeper: K,
    by: Entity,
    key: Option<Text>,
    command: Command,
) -> (Reply, Next<K>)
    requires served { IsServed machine (K.payloads keeper) (K.has_failed keeper) }
    requires caller { is_entity by ≡ true }
    requires fits { key_fits (takes_key command) key ≡ true }
    requires form { has_form command ≡ true }
    ensures turn { Carries machine (ordered machine (Some by) key command) result }
    ensures kept { KeepsNext ⟦<K as Keeper>⟧ machine.history
        (ordered machine (Some by) key command).1.history keeper result.1 }
    ensures still { LeavesFaults ⟦<K as Keeper>⟧ keeper result.1 }
    ensures acknowledged { (n : ℕ) (id : Option ℕ) → result.0 ≡ Reply.Number n id
        → IsAcknowledged ⟦<K as Keeper>⟧ machine.history n id result.1 }
{
    let at = machine.clock();
    let stamped = Stamped {
        at,
        by,
        key,
        command,
    };
    match told_again(alloc, &machine, &stamped) {
        Some(reply) => {
            drop(stamped);
            (reply, Next::Go(Service { machine, keeper }))
        }
        None => decided(alloc, machine, keeper, stamped),
    }
}

/// Carries out a command of whoever has this text, unless it is refused.
fn commanded<K: Keeper>(
    alloc: Global,
    machine: Machine<Incremental>,
    keeper: K,
    by: Bytes,
    key: Option<Text>,
    command: Command,
) -> (Reply, Next<K>)
    requires served { IsServed machine (K.payloads keeper) (K.has_failed keeper) }
    requires fits { key_fits (takes_key command) key ≡ true }
    requires form { has_form command ≡ true }
    ensures turn { Carries machine (requested machine by key (Op.Command command)) result }
    ensures kept { KeepsNext ⟦<K as Keeper>⟧ machine.history
        (requested machine by key (Op.Command command)).1.history keeper result.1 }
    ensures still { LeavesFaults ⟦<K as Keeper>⟧ keeper result.1 }
    ensures acknowledged { (n : ℕ) (id : Option ℕ) → result.0 ≡ Reply.Number n id
        → IsAcknowledged ⟦<K as Keeper>⟧ machine.history n id result.1 }
{
    let read = Entity::parse(alloc, by.bytes());
    drop(by);
    match read {
        Err(AllocError) => {
            drop(command);
            (Reply::NoMemory, Next::Go(Service { machine, keeper }))
        }
        Ok(None) => {
            drop(command);
            (
                Reply::Refused(Refusal::NoCaller),
                Next::Go(Service { machine, keeper }),
            )
        }
        Ok(Some(by)) => carried_out(alloc, machine, keeper, by, key, command),
    }
}

/// The reply to a load, by that to its command.
fn counted(reply: Reply, counts: LoadCounts) -> Reply
    ensures { result ≡ counted counts reply }
{
    if let Reply::Number { number, .. } = &reply {
        let number = *number;
        drop(reply);
        return Reply::Loaded { number, counts };
    }
    reply
}

/// Takes the command of a load's plan into the history and keeps it, and answers what the plan
/// counts.
fn keep_load<K: Keeper>(
    alloc: Global,
    machine: Machine<Incremental>,
    keeper: K,
    by: Entity,
    command: Command,
    counts: LoadCounts,
) -> (Reply, Next<K>)
    requires served { IsServed machine (K.payloads keeper) (K.has_failed keeper) }
    requires accepted { refusal machine.history machine.clock by command ≡ None }
    requires caller { is_entity by ≡ true }
    requires form { has_form command ≡ true }
    ensures turn { Carries machine (loaded machine by (Ok (command, counts))) result }
    ensures kept { KeepsNext ⟦<K as Keeper>⟧ machine.history
        (loaded machine by (Ok (command, counts))).1.history keeper result.1 }
    ensures still { LeavesFaults ⟦<K as Keeper>⟧ keeper result.1 }
    ensures unnumbered { (n : ℕ) (id : Option ℕ) → result.0 ≡ Reply.Number n id → ⊥ }
    ensures loaded { (n : ℕ) (counts : LoadCounts) → result.0 ≡ Reply.Loaded n counts
        → IsLoaded ⟦<K as Keeper>⟧ machine.history n result.1 }
{
    let at = machine.clock();
    let stamped = Stamped {
        at,
        by,
        key: None,
        command,
    };
    let (reply, next) = keep(alloc, machine, keeper, stamped);
    (counted(reply, counts), next)
}

/// Plans an entity's load and carries it out, unless it is refused.
fn load<K: Keeper>(
    alloc: Global,
    machine: Machine<Incremental>,
    keeper: K,
    by: Entity,
    job: &Text,
    table: &Bytes,
) -> (Reply, Next<K>)
    requires served { IsServed machine (K.payloads keeper) (K.has_failed keeper) }
    requires caller { is_entity by ≡ true }
    requires form { is_extension job.now ≡ true }
    ensures turn { Carries machine (load_ordered machine (Some by) job.now table.now) result }
    ensures kept { KeepsNext ⟦<K as Keeper>⟧ machine.history
        (load_ordered machine (Some by) job.now table.now).1.history keeper result.1 }
    ensures still { LeavesFaults ⟦<K as Keeper>⟧ keeper result.1 }
    ensures unnumbered { (n : ℕ) (id : Option ℕ) → result.0 ≡ Reply.Number n id → ⊥ }
    ensures loaded { (n : ℕ) (counts : LoadCounts) → result.0 ≡ Reply.Loaded n counts
        → IsLoaded ⟦<K as Keeper>⟧ machine.history n result.1 }
{
    match machine.plan_load(alloc, &by, job, table.bytes()) {
        Err(AllocError) => (Reply::NoMemory, Next::Go(Service { machine, keeper })),
        Ok(Err(refusal)) => (
            Reply::Refused(refusal),
            Next::Go(Service { machine, keeper }),
        ),
        Ok(Ok((command, counts))) => keep_load(alloc, machine, keeper, by, command, counts),
    }
}

/// Plans the load of whoever has this text and carries it out, unless it is refused.
fn load_by<K: Keeper>(
    alloc: Global,
    machine: Machine<Incremental>,
    keeper: K,
    by: Bytes,
    job: Text,
    table: Bytes,
) -> (Reply, Next<K>)
    requires served { IsServed machine (K.payloads keeper) (K.has_failed keeper) }
    requires form { is_extension job ≡ true }
    ensures turn { Carries machine (requested machine by None (Op.Load job table)) result }
    ensures kept { KeepsNext ⟦<K as Keeper>⟧ machine.history
        (requested machine by None (Op.Load job table)).1.history keeper result.1 }
    ensures still { LeavesFaults ⟦<K as Keeper>⟧ keeper result.1 }
    ensures unnumbered { (n : ℕ) (id : Option ℕ) → result.0 ≡ Reply.Number n id → ⊥ }
    ensures loaded { (n : ℕ) (counts : LoadCounts) → result.0 ≡ Reply.Loaded n counts
        → IsLoaded ⟦<K as Keeper>⟧ machine.history n result.1 }
{
    match Entity::parse(alloc, by.bytes()) {
        Err(AllocError) => (Reply::NoMemory, Next::Go(Service { machine, keeper })),
        Ok(None) => (
            Reply::Refused(Refusal::NoCaller),
            Next::Go(Service { machine, keeper }),
        ),
        Ok(Some(by)) => load(alloc, machine, keeper, by, &job, &table),
    }
}

impl<K: Keeper> Service<K> {
    /// The service over a keeper's history, whose records these are, with the clock at its last
    /// moment, or at 0. `Damaged` names the first place whose payload is no command's, falls in
    /// time, has a key that its caller has already, or is refused there. Beside it comes `NoMemory`
    /// alone. A refusal gives the keeper back.
    pub fn start(alloc: Global, keeper: K, records: Records) -> Result<Service<K>, (OpenFault, K)>
        requires payloads { IfSome (K.payloads keeper) (λ ps. ps ≡ payloads_of_records records) }
        requires going { K.has_failed keeper ≡ false }
        ensures history { IfOk result (λ s. judged start records ≡ Ok s.state) }
        ensures keeper { IfOk result (λ s. s.keeper ≡ keeper) }
        ensures damaged { IfErr result (λ e. (at : ℕ) → e.0 ≡ Damaged at
            → judged start records ≡ Err at) }
        ensures other { IfErr result (λ e. e.0 ≡ OpenFault.OtherFormat → ⊥) }
        ensures fault { IfErr result (λ e. e.0 ≡ OpenFault.Fault → ⊥) }
        ensures given_back { IfErr result (λ e. e.1 ≡ keeper) }
    {
        read_is_payload();
        match replay(alloc, records) {
            Ok(machine) => Ok(Service { machine, keeper }),
            Err(fault) => Err((fault, keeper)),
        }
    }

    /// The machine that it runs.
    pub fn machine(&self) -> &Machine<Incremental>
        ensures { result.now ≡ self.now.state }
    {
        &self.machine
    }

    /// A stop now leaves its history. It does nothing: it is a law of the value.
    pub fn stays(&self)
        ensures { KeptOn ⟦<K as Keeper>⟧ self.now.state.history self.now.keeper
            self.now.state.history self.now.keeper }
    {
        let _keeper = &self.keeper;
    }

    /// Each stop leaves the history, of which each front opens again. It does nothing: it is a law
    /// of the value.
    pub fn law_stops(&self)
        ensures leaves { (r : Result (List (List ℕ)) ℕ) → K.stop_leaves self.now.keeper r
            → r ≡ Ok (payloads_of self.now.state.history) }
        ensures fronts { FrontsReopen self.now.state.history }
    {
        let _keeper = &self.keeper;
    }

    /// The keeper's present moment, for contracts alone: since then each stop leaves the history.
    pub fn stamp(&self) -> Stamp
        ensures moment { result ≡ K.keep_moment self.now.keeper }
        ensures leaves { (r : Result (List (List ℕ)) ℕ) → K.stopped_since self.now.keeper result r
            → r ≡ Ok (payloads_of self.now.state.history) }
    {
        self.keeper.stamp()
    }

    /// The keeper as it stands. Each stop leaves the history, of which each front opens again.
    pub fn into_keeper(self) -> K
        ensures keeper { result ≡ self.keeper }
        ensures leaves { (r : Result (List (List ℕ)) ℕ) → K.stop_leaves result r
            → r ≡ Ok (payloads_of self.state.history) }
        ensures fronts { FrontsReopen self.state.history }
    {
        self.keeper
    }

    /// Takes one request at the later of this moment and the clock (`docs/REQUESTS.md`). An
    /// accepted command is kept before it is answered; a query leaves the keeper as it was. A
    /// command under a key that its caller has is answered again, and nothing but the clock
    /// changes. It stops where moving the clock or applying the command found no memory, and where
    /// keeping the command failed. Where the keeper didn't fail, its count of faults is as it was.
    pub fn request(self, alloc: Global, at: Moment, request: Request) -> (Reply, Next<K>)
        requires { HasForm request }
        ensures turn { Follows self.state at (Ok request) result }
        ensures history { GoesOn self.state at result }
        ensures kept { KeepsNext ⟦<K as Keeper>⟧ self.state.history
            (turn self.state at (Ok request)).1.history self.keeper result.1 }
        ensures still { LeavesFaults ⟦<K as Keeper>⟧ self.keeper result.1 }

        // After a command is answered with its number, and the id of what it made, each stop leaves
        // the history with it: at its end, or where it was kept before under its key.
        ensures acknowledged { (n : ℕ) (id : Option ℕ) → result.0 ≡ Reply.Number n id
            → IsAcknowledged ⟦<K as Keeper>⟧ self.state.history n id result.1 }

        // The same after a load is answered with its number.
        ensures loaded { (n : ℕ) (counts : LoadCounts) → result.0 ≡ Reply.Loaded n counts
            → IsLoaded ⟦<K as Keeper>⟧ self.state.history n result.1 }

        // A load of a table that has a plan is refused for want of room alone, where the caller may
        // load by the job.
        ensures room { LoadsIfRoom (at_moment self.state at) request.by request.op result.0 }

        // A query leaves the keeper as it was, and so the service doesn't stop for it.
        ensures asked { IsQuery request.op → LeavesKeeper self.keeper result.1 }
    {
        let Service { machine, keeper } = self;
        let now = machine.clock().later_of(at);
        let Ok(machine) = advance(alloc, machine, now) else {
            drop(request);
            return (Reply::NoMemory, Next::Stop(Cause::Memory, keeper));
        };
        law_loads(&machine);
        let Request { by, key, op } = request;
        match op {
            Op::Query(query) => asked(alloc, machine, keeper, by, query),
            Op::Command(command) => commanded(alloc, machine, keeper, by, key, command),
            Op::Load { job, table } => load_by(alloc, machine, keeper, by, job, table),
        }
    }

    /// Moves the clock to the later of this moment and the clock, and asks nothing. It stops where
    /// there was no memory to. The keeper stays as it was.
    pub fn at(self, alloc: Global, at: Moment) -> Next<K>
        ensures moved { MovesTo self.state at result }
        ensures kept { KeepsNext ⟦<K as Keeper>⟧ self.state.history self.state.history self.keeper
            result }
        ensures still { LeavesFaults ⟦<K as Keeper>⟧ self.keeper result }
        ensures same { LeavesKeeper self.keeper result }
    {
        let Service { machine, keeper } = self;
        let now = machine.clock().later_of(at);
        match advance(alloc, machine, now) {
            Ok(machine) => Next::Go(Service { machine, keeper }),
            Err(_) => Next::Stop(Cause::Memory, keeper),
        }
    }

    /// Takes a line that was refused in reading: the clock moves, and the refusal is the reply. The
    /// keeper stays as it was.
    pub fn refuse(self, alloc: Global, at: Moment, refusal: Refusal) -> (Reply, Next<K>)
        ensures turn { Follows self.state at (Err refusal) result }
        ensures history { GoesOn self.state at result }
        ensures kept { KeepsNext ⟦<K as Keeper>⟧ self.state.history self.state.history self.keeper
            result.1 }
        ensures still { LeavesFaults ⟦<K as Keeper>⟧ self.keeper result.1 }
        ensures same { LeavesKeeper self.keeper result.1 }
    {
        match self.at(alloc, at) {
            Next::Go(service) => (Reply::Refused(refusal), Next::Go(service)),
            Next::Stop(why, keeper) => {
                drop(refusal);
                (Reply::NoMemory, Next::Stop(why, keeper))
            }
        }
    }
}
