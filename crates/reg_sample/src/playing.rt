// The lines, asked one after another.
ghost use Rattle.std.specs.Prelude.{◌≡◌, ◌≤◌, ◌<◌, ◌+◌, Some, IfOk};
ghost use Rattle.reg_json.specs.Reading.{reading_of};
ghost use Rattle.reg_session.specs.Pending.{AsksFormed, ReadsAs};
ghost use Rattle.reg_sample.specs.Lines.{count};
ghost use Rattle.reg_machine.specs.History.{start};
ghost use Rattle.reg_sample.specs.Played.{IsAt, asked, played, summary};

use crate::lines::{count, line};
use crate::reading::moment_of;
use crate::tally::{Summary, Tally, counted};
use reg_json::read_request;
use reg_keep::{NoKeeper, Records};
use reg_service::{Next, Service};
use reg_session::{LineReading, turn};
use std::alloc::{AllocError, Global};

/// What a line asks.
#[tactic(auto, using(reg_session::proofs::Formed::has_form))]
fn reading_of(alloc: Global, line: &[u8]) -> LineReading
    ensures says { ReadsAs result (reading_of line.now) }
    ensures form { AsksFormed result }
{
    match read_request(alloc, line) {
        Ok(Ok(request)) => LineReading::Asked(request),
        Ok(Err(refusal)) => LineReading::Refused(refusal),
        Err(AllocError) => LineReading::NoMemory,
    }
}

/// What is left to go on with, where the service goes on and there was memory.
fn going(
    next: Next<NoKeeper>,
    tally: Option<Tally>,
) -> Result<(Service<NoKeeper>, Tally), AllocError>
    ensures { IfOk result (λ after. (next ≡ Next.Go after.0) × (tally ≡ Some after.1)) }
{
    let Some(tally) = tally else {
        drop(next);
        return Err(AllocError);
    };
    match next {
        Next::Go(service) => Ok((service, tally)),
        Next::Stop(..) => Err(AllocError),
    }
}

/// Asks the line of a number, at the moment behind it.
fn ask(
    alloc: Global,
    service: Service<NoKeeper>,
    seed: u64,
    size: u64,
    number: u64,
    tally: &Tally,
) -> Result<(Service<NoKeeper>, Tally), AllocError>
    requires some { 0 < size }
    requires few { size ≤ 500 }
    requires within { number < count size }
    requires refused { tally.now.refused ≤ number }
    ensures asked { IfOk result
        (λ after. IsAt (asked seed size number (record {
          state = service.state;
          tally = tally.now;
        })) after.0.state after.1) }
    ensures refused { IfOk result (λ after. after.1.refused ≤ number + 1) }
{
    let text = line(alloc, seed, size, number)?;
    let reading = reading_of(alloc, &text);
    let (reply, next) = turn(alloc, service, moment_of(number + 1), reading);
    let tally = counted(tally, &reply);
    drop(reply);
    going(next, tally)
}

/// A registry that keeps nothing.
fn begin(alloc: Global) -> Result<Service<NoKeeper>, AllocError>
    ensures { IfOk result (λ service. service.state ≡ start) }
{
    let records = Records::new(alloc)?;
    match Service::start(alloc, NoKeeper, records) {
        Ok(service) => Ok(service),
        Err(_) => Err(AllocError),
    }
}

/// Asks all lines.
fn play(alloc: Global, seed: u64, size: u64) -> Result<(Service<NoKeeper>, Tally), AllocError>
    requires some { 0 < size }
    requires few { size ≤ 500 }
    ensures { IfOk result (λ after. IsAt (played seed size (count size)) after.0.state after.1) }
{
    let mut service = begin(alloc)?;
    let mut tally = Tally {
        refused: 0,
        earlier: 0,
        latest: 0,
    };
    let mut number = 0;
    while number < count(size) {
        (service, tally) = ask(alloc, service, seed, size, number, &tally)?;
        number += 1;
    }
    Ok((service, tally))
}

/// Puts the requests of a seed and a size, which is 1 to 500, to a registry that keeps nothing, one
/// after another, and tells what came of them (`docs/REQUESTS.md`, "The program"). It ends at the
/// first reply that says that there was no memory; that is the only error.
pub fn sample(alloc: Global, seed: u64, size: u64) -> Result<Summary, AllocError>
    requires some { 0 < size }
    requires few { size ≤ 500 }
    ensures { IfOk result (λ told. told ≡ summary seed size) }
{
    let (service, tally) = play(alloc, seed, size)?;
    let machine = service.machine();
    Ok(Summary {
        requests: count(size),
        refused: tally.refused,
        commands: machine.commands() as u64,
        entries: machine.log().last(),
        earlier: tally.earlier,
        latest: tally.latest,
    })
}
