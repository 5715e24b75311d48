// Persons, folders and groups.
ghost use Rattle.std.specs.Prelude.{◌≡◌, ◌≤◌, ◌<◌, ◌*◌, ◌+◌, IfOk};
ghost use Rattle.reg_sample.specs.Lines.{folder_line, group_line, load_folder_line, making_line};
ghost use Rattle.reg_sample.specs.Lines.{nested_line, not_tenth, subject_line};

use crate::texts::{by_system, ended, group, person, with};
use std::alloc::{AllocError, Global};

fn subject_line(alloc: Global, number: u64) -> Result<Vec<u8>, AllocError>
    ensures { IfOk result (λ line. line.items ≡ subject_line number) }
{
    let subject = person(alloc, number)?;
    let line = by_system(alloc, b"subject.add")?;
    let line = with(line, b"subject", subject.as_bytes())?;
    ended(line)
}

fn folder_line(alloc: Global, number: u64) -> Result<Vec<u8>, AllocError>
    ensures { IfOk result (λ line. line.items ≡ folder_line number) }
{
    let folder = format!(in alloc; "f{number}")?;
    let line = by_system(alloc, b"folder.add")?;
    let line = with(line, b"folder", folder.as_bytes())?;
    ended(line)
}

fn load_folder_line(alloc: Global) -> Result<Vec<u8>, AllocError>
    ensures { IfOk result (λ line. line.items ≡ load_folder_line) }
{
    let line = by_system(alloc, b"folder.add")?;
    let line = with(line, b"folder", b"load")?;
    ended(line)
}

fn group_line(alloc: Global, size: u64, number: u64) -> Result<Vec<u8>, AllocError>
    requires some { 0 < size }
    requires few { size ≤ 500 }
    ensures { IfOk result (λ line. line.items ≡ group_line size number) }
{
    let name = group(alloc, size, number)?;
    let line = by_system(alloc, b"group.add")?;
    let line = with(line, b"group", name.as_bytes())?;
    ended(line)
}

/// The group before becomes a member of the group of a number.
fn nested_line(alloc: Global, size: u64, number: u64) -> Result<Vec<u8>, AllocError>
    requires some { 0 < size }
    requires few { size ≤ 500 }
    requires later { 0 < number }
    ensures { IfOk result (λ line. line.items ≡ nested_line size number) }
{
    let name = group(alloc, size, number)?;
    let before = group(alloc, size, number - 1)?;
    let member = format!(in alloc; "g:gsa/{before}")?;
    let line = by_system(alloc, b"member.add")?;
    let line = with(line, b"group", name.as_bytes())?;
    let line = with(line, b"member", member.as_bytes())?;
    ended(line)
}

/// The numbers that 10 doesn't divide, one after another.
fn not_tenth(number: u64) -> u64
    requires { number ≤ 1000000 }
    ensures value { result ≡ not_tenth number }
    ensures some { 0 < result }
{
    number + number / 9 + 1
}

/// The line of a number among those that make persons, folders and groups.
pub fn making_line(alloc: Global, size: u64, number: u64) -> Result<Vec<u8>, AllocError>
    requires some { 0 < size }
    requires few { size ≤ 500 }
    requires within { number < 241 * size + 1 }
    ensures { IfOk result (λ line. line.items ≡ making_line size number) }
{
    if number < 200 * size {
        return subject_line(alloc, number);
    }
    if number < 203 * size {
        return folder_line(alloc, number - 200 * size);
    }
    if number == 203 * size {
        return load_folder_line(alloc);
    }
    if number < 223 * size + 1 {
        return group_line(alloc, size, number - 203 * size - 1);
    }
    nested_line(alloc, size, not_tenth(number - 223 * size - 1))
}
