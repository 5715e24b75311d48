// A registry in memory alone, after lines of GrouperSystem.
use super::otherwise::Otherwise;
use reg_base::Moment;
use reg_keep::{NoKeeper, Records};
use reg_outside::{ListClock, SureSink, SureSource};
use reg_service::Service;
use reg_session::answer_input;
use std::alloc::{AllocError, Global};

/// Puts a line of GrouperSystem, with an op and the fields that follow it.
pub fn put_line(
    alloc: Global,
    lines: &mut Vec<u8>,
    op: &str,
    fields: &str,
) -> Result<(), AllocError> {
    let line = format!(in alloc; "{{\"by\":\"g:isa/GrouperSystem\",\"op\":\"{op}\",{fields}}}\n")?;
    lines.extend_from_slice(line.as_bytes())
}

/// A clock that gives the moments from 1 to a last one, which isn't 0.
fn clock_to(alloc: Global, last: u64) -> Result<ListClock, Otherwise> {
    let mut moments = Vec::new(alloc);
    for at in 1..=last {
        if let Some(moment) = Moment::new(at) {
            moments.push(moment)?;
        }
    }
    if moments.is_empty() {
        return Err(Otherwise::NotSo("there are moments"));
    }
    Ok(ListClock::new(moments))
}

/// A registry with no command.
pub fn empty(alloc: Global) -> Result<Service<NoKeeper>, Otherwise> {
    match Service::start(alloc, NoKeeper, Records::new(alloc)?) {
        Ok(service) => Ok(service),
        Err(_) => Err(Otherwise::NotSo("a registry begins")),
    }
}

/// The registry after lines, of which the first is answered at moment 1 and each other one a
/// moment later.
pub fn after(alloc: Global, lines: Vec<u8>, last: u64) -> Result<Service<NoKeeper>, Otherwise> {
    let mut clock = clock_to(alloc, last)?;
    let mut input = SureSource::new(lines, 65_536);
    let service = empty(alloc)?;
    match answer_input(alloc, service, &mut input, &mut SureSink::new(), &mut clock) {
        Ok(service) => Ok(service),
        Err(_) => Err(Otherwise::NotSo("all lines are answered")),
    }
}
