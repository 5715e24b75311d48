// The tests that can't be documents: each gives one line, as an example does.
mod chain;
mod direct;
mod keepers;
mod loopback;
mod otherwise;
mod outside;
mod registry;
mod settling;

use otherwise::Otherwise;
use reg_effect::Incremental;
use reg_machine::Machine;
use std::io;

/// Prints a test's title with the verdict, and below it what came out otherwise.
fn tell(rt: &HostRuntime, title: &str, outcome: Result<(), Otherwise>) -> io::Result<()> {
    match outcome {
        Ok(()) => println!(rt; "as written: {title}"),
        Err(otherwise) => println!(rt; "OTHERWISE: {title}\n    {otherwise}"),
    }
}

/// Files, streams and the clock of the system.
fn play_outside(rt: &HostRuntime) -> io::Result<()> {
    tell(
        rt,
        "A file gives back what was written, and is locked",
        outside::play_file(rt),
    )?;
    tell(
        rt,
        "A file that is made is for its owner alone",
        outside::play_owner(rt),
    )?;
    tell(
        rt,
        "In no folder, and past all files, nothing is written",
        outside::play_no_folder(rt),
    )?;
    tell(
        rt,
        "A file that is left absent counts as empty",
        outside::play_absent(rt),
    )?;
    tell(
        rt,
        "A file is read while another disk writes it",
        outside::play_beside(rt),
    )?;
    tell(
        rt,
        "Behind a link a file is opened and not made",
        outside::play_link(rt),
    )?;
    tell(
        rt,
        "A reader is read until it fails",
        outside::play_reader(),
    )?;
    tell(
        rt,
        "What is written is written whole, or it fails",
        outside::play_writer(rt.alloc()),
    )?;
    tell(
        rt,
        "The system's clock gives the nearest moment, or the last one",
        outside::play_clock(),
    )?;
    tell(
        rt,
        "A connection over loopback is served",
        loopback::play(rt),
    )
}

/// Keepers, and the rules of a registry in memory.
fn play_inside(rt: &HostRuntime) -> io::Result<()> {
    let alloc = rt.alloc();
    tell(
        rt,
        "Ten appends, stopped at each call of the disk, keep what was acknowledged",
        keepers::play_stops(alloc),
    )?;
    tell(
        rt,
        "Other keepers take payloads while they have room",
        keepers::play_others(alloc),
    )?;
    tell(
        rt,
        "A long chain of groups is kept and remembered",
        chain::play(alloc),
    )?;
    tell(
        rt,
        "Rounds of rules over facts alone take what the rules say",
        settling::play(alloc),
    )?;
    tell(
        rt,
        "The index of names follows a command",
        direct::play_edit(alloc),
    )
}

/// The calls that take a machine.
fn play_calls(rt: &HostRuntime, machine: &Machine<Incremental>) -> io::Result<()> {
    let alloc = rt.alloc();
    tell(
        rt,
        "A registry of thirteen commands",
        direct::play_commands(machine),
    )?;
    tell(
        rt,
        "A membership's spans are those in which it was on",
        direct::play_spans(machine),
    )?;
    tell(
        rt,
        "A machine's index of names finds its objects",
        direct::play_machine_names(machine),
    )?;
    tell(
        rt,
        "The index of facts finds their objects",
        direct::play_names(machine),
    )?;
    tell(
        rt,
        "A caller may what a grant says, or the wheel group",
        direct::play_may(alloc, machine),
    )?;
    tell(
        rt,
        "GrouperSystem and the wheel group may do everything",
        direct::play_root(alloc, machine),
    )?;
    tell(
        rt,
        "A folder's scope is what is in it, or below it too",
        direct::play_scopes(machine),
    )
}

fn play_direct(rt: &HostRuntime) -> io::Result<()> {
    match direct::registry(rt.alloc()) {
        Ok(service) => {
            let played = play_calls(rt, service.machine());
            drop(service);
            played
        }
        Err(otherwise) => tell(rt, "A registry of thirteen commands", Err(otherwise)),
    }
}

/// Plays all tests, one after another.
pub fn play(rt: &HostRuntime) -> io::Result<()> {
    play_outside(rt)?;
    play_inside(rt)?;
    play_direct(rt)
}
