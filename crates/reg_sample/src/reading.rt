// Reads, and the second load.
ghost use Rattle.std.specs.Prelude.{◌≡◌, ◌≤◌, ◌<◌, ◌*◌, ◌+◌, IfOk};
ghost use Rattle.reg_sample.specs.Lines.{now_line, read_line, reading_line, then_line};

use crate::loading::load_line;
use crate::texts::{begun, by_system, ended, loaded, person, with};
use reg_base::Moment;
use std::alloc::{AllocError, Global};

/// A person asks for the members of a group of the load.
fn read_line(alloc: Global, size: u64, number: u64) -> Result<Vec<u8>, AllocError>
    requires some { 0 < size }
    requires few { size ≤ 500 }
    ensures { IfOk result (λ line. line.items ≡ read_line size number) }
{
    let by = person(alloc, number % 40)?;
    let name = loaded(alloc, number % (10 * size))?;
    let line = begun(alloc, by.as_bytes(), b"members")?;
    let line = with(line, b"group", name.as_bytes())?;
    ended(line)
}

/// The moment of a small number of microseconds.
pub fn moment_of(number: u64) -> Moment
    requires { number ≤ 1000000 }
    ensures { result ≡ number }
{
    match Moment::new(number) {
        Some(moment) => moment,
        None => unreachable!(),
    }
}

/// Who was a member of the group that the rule watches, at a moment.
fn then_line(alloc: Global, number: u64) -> Result<Vec<u8>, AllocError>
    requires { number ≤ 1000000 }
    ensures { IfOk result (λ line. line.items ≡ then_line number) }
{
    let at = moment_of(number).text();
    let line = by_system(alloc, b"members")?;
    let line = with(line, b"group", b"f0:g0")?;
    let line = with(line, b"at", &at)?;
    ended(line)
}

/// Who is a member of it now.
fn now_line(alloc: Global) -> Result<Vec<u8>, AllocError>
    ensures { IfOk result (λ line. line.items ≡ now_line) }
{
    let line = by_system(alloc, b"members")?;
    let line = with(line, b"group", b"f0:g0")?;
    ended(line)
}

/// The line of a number among the last.
pub fn reading_line(alloc: Global, seed: u64, size: u64, number: u64) -> Result<Vec<u8>, AllocError>
    requires some { 0 < size }
    requires few { size ≤ 500 }
    ensures { IfOk result (λ line. line.items ≡ reading_line seed size number) }
{
    if number < 5 * size {
        return read_line(alloc, size, number);
    }
    if number == 5 * size {
        return load_line(alloc, seed, size, 1);
    }
    if number == 5 * size + 1 {
        return then_line(alloc, 246 * size + 30);
    }
    now_line(alloc)
}
