//! Plays worked examples of the registry, which stand in documents that people read, and says of
//! each whether it came out as it is written. `data/examples.md` says how a document is written.
//! Behind them it plays the tests that can't be documents.
#![tactic(auto)]

mod bytes;
mod connection;
mod document;
mod example;
mod migrations;
mod objects;
mod responses;
mod run;
mod stops;
mod tests;

use std::{env, fs, io};

/// Plays the examples of one document.
fn play_file(rt: &HostRuntime, path: &str) -> io::Result<()> {
    let text = fs::read_to_string(rt, path)?;
    let report = document::play(rt.alloc(), text.as_str())?;
    rt.print(report.as_str())
}

/// Each word names a document. The tests are played behind the documents.
fn main(rt: HostRuntime) -> io::Result<()> {
    for path in env::args(&rt)?.skip(1) {
        play_file(&rt, path.as_str())?;
    }
    tests::play(&rt)
}
