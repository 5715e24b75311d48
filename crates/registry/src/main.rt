//! The registry: reads requests, line by line or from connections, and answers each.
#![tactic(auto)]

use reg_outside::{Access, FileDisk, StdSink, StdSource, SystemClock};
use reg_run::{End, run, status_of, write_note};
use reg_tcp::TcpPort;
use std::env;
use std::fs::{File, OpenOptions};
use std::io::ErrorKind;
use std::process::ExitCode;

/// The null file. A file that is opened takes the lowest descriptor that is free, which is a
/// standard stream's where the caller closed it: three of these leave none of them to the journal,
/// over which replies would be written. What is read of such a stream is empty, and a write to it
/// fails.
fn null(rt: &HostRuntime) -> Option<File> {
    OpenOptions::new().read(true).open(rt, "/dev/null").ok()
}

/// How the file is opened: only `init` makes one that is absent, so that a mistyped name leaves none
/// behind, and `as-of` and `why` read it alone, beside a program that serves it too.
fn access(words: &[String]) -> Access {
    match words {
        [first, ..] if first.as_str() == "init" => Access::Make,
        [first, ..] if first.as_str() == "as-of" || first.as_str() == "why" => Access::Read,
        _ => Access::Write,
    }
}

/// Says on standard error, behind the run's note, why the file failed or that there is none.
fn tell_reason(rt: &HostRuntime, path: &str, reason: Option<ErrorKind>) {
    // where standard error fails there is nobody to tell
    let _ = match reason {
        None => Ok(()),
        Some(ErrorKind::NotFound) => eprintln!(rt; "{path}: no such file or folder"),
        Some(ErrorKind::WouldBlock) => eprintln!(rt; "{path}: locked by another program"),
        Some(reason) => eprintln!(rt; "{path}: {reason}"),
    };
}

/// Runs the program over a file, and a second one that `migrate` alone opens, and makes.
fn over(rt: &HostRuntime, path: &str, second_path: &str, words: &[String]) -> u8 {
    let mut input = StdSource::new(rt.stdin());
    let mut out = StdSink::new(rt.stdout());
    let mut notes = StdSink::new(rt.stderr());
    let mut disk = FileDisk::new(rt, path, access(words));
    let mut second = FileDisk::new(rt, second_path, Access::Make);
    let mut clock = SystemClock::new(rt);
    let mut net = TcpPort::new(rt, rt.alloc());
    let status = run(
        rt.alloc(),
        words,
        &mut input,
        &mut out,
        &mut notes,
        &mut disk,
        &mut second,
        &mut clock,
        &mut net,
    );
    tell_reason(rt, path, disk.reason());
    tell_reason(rt, second_path, second.reason());
    status
}

/// Ends the program before it began: writes the note, and gives the exit status.
fn give_up(rt: &HostRuntime, end: End) -> u8 {
    let mut notes = StdSink::new(rt.stderr());
    write_note(&mut notes, end);
    status_of(end)
}

/// Runs the program over a file and the one of its name with `.v2` behind it.
fn over_two(rt: &HostRuntime, path: &str, words: &[String]) -> u8 {
    match format!(in rt.alloc(); "{path}.v2") {
        Ok(second_path) => over(rt, path, second_path.as_str(), words),
        Err(_) => give_up(rt, End::Memory),
    }
}

/// The first word is the journal file; the others say what to do. Without a first word there are no
/// others, and no file is touched.
fn main(rt: HostRuntime) -> ExitCode {
    let arguments = match env::args(&rt) {
        Ok(arguments) => arguments,
        Err(error) => {
            // That one of them isn't UTF-8, or that there was no memory for them.
            if error.kind() == ErrorKind::InvalidData {
                return ExitCode::from(give_up(&rt, End::Usage));
            }
            return ExitCode::from(give_up(&rt, End::Memory));
        }
    };
    let mut words = Vec::new(rt.alloc());
    for word in arguments.skip(1) {
        if words.push(word).is_err() {
            return ExitCode::from(give_up(&rt, End::Memory));
        }
    }
    let _streams = (null(&rt), null(&rt), null(&rt));
    let status = match words.as_slice() {
        [path, rest @ ..] => over_two(&rt, path.as_str(), rest),
        [] => over_two(&rt, "", &[]),
    };
    ExitCode::from(status)
}
