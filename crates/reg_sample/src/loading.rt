// The job, its loads, and what stands over what they make.
ghost use Rattle.std.specs.Prelude.{◌≡◌, ◌≤◌, ◌<◌, ◌*◌, ◌+◌, ◌-◌, ◌++◌, IfOk, OnOk};
ghost use Rattle.reg_sample.specs.Lines.{composite_line, factored_line, factors_line, inherit_line};
ghost use Rattle.reg_sample.specs.Lines.{job_line, load_line, loading_line, member_line};
ghost use Rattle.reg_sample.specs.Lines.{record_text, rule_line, table};

use crate::texts::{by_system, composite, ended, loaded, person, with};
use std::alloc::{AllocError, Global};

fn job_line(alloc: Global) -> Result<Vec<u8>, AllocError>
    ensures { IfOk result (λ line. line.items ≡ job_line) }
{
    let line =
        b"{\"by\":\"g:isa/GrouperSystem\",\"op\":\"job.list\",\"job\":\"nightly\",\"folder\":\"load\",\"source\":\"uni\",\"min_size\":10,\"max_percent\":50}";
    line.to_vec(alloc)
}

/// Adds a record to a table, as JSON writes it.
fn add_record(
    alloc: Global,
    table: &mut Vec<u8>,
    seed: u64,
    size: u64,
    number: u64,
) -> Result<(), AllocError>
    requires some { 0 < size }
    requires few { size ≤ 500 }
    requires within { number < 400 * size }
    ensures { OnOk result (table.new.items ≡ table.old.items ++ record_text seed size number) }
{
    let group = loaded(alloc, number / 40)?;
    let person = (number + seed % (200 * size)) % (200 * size);
    let rest = format!(in alloc; ",p{person}\\n")?;
    table.extend_from_slice(group.as_bytes())?;
    table.extend_from_slice(rest.as_bytes())?;
    Ok(())
}

/// The table of a load without its first records, as JSON writes it.
fn table(alloc: Global, seed: u64, size: u64, first: u64) -> Result<Vec<u8>, AllocError>
    requires some { 0 < size }
    requires few { size ≤ 500 }
    requires front { first ≤ 400 * size }
    ensures { IfOk result (λ text. text.items ≡ table seed size first) }
{
    let mut text = b"GROUP_NAME,SUBJECT_ID\\n".to_vec(alloc)?;
    let mut number = first;
    while number < 400 * size {
        add_record(alloc, &mut text, seed, size, number)?;
        number += 1;
    }
    Ok(text)
}

/// A load of the table without its first records.
pub fn load_line(alloc: Global, seed: u64, size: u64, first: u64) -> Result<Vec<u8>, AllocError>
    requires some { 0 < size }
    requires few { size ≤ 500 }
    requires front { first ≤ 400 * size }
    ensures { IfOk result (λ line. line.items ≡ load_line seed size first) }
{
    let text = table(alloc, seed, size, first)?;
    let line = by_system(alloc, b"load")?;
    let line = with(line, b"job", b"nightly")?;
    let line = with(line, b"table", &text)?;
    ended(line)
}

/// The group of a composite is made.
fn composite_line(alloc: Global, number: u64) -> Result<Vec<u8>, AllocError>
    ensures { IfOk result (λ line. line.items ≡ composite_line number) }
{
    let name = composite(alloc, number)?;
    let line = by_system(alloc, b"group.add")?;
    let line = with(line, b"group", name.as_bytes())?;
    ended(line)
}

/// A composite gets its factors.
fn factors_line(alloc: Global, kind: &[u8], number: u64, right: u64) -> Result<Vec<u8>, AllocError>
    ensures { IfOk result (λ line. line.items ≡ factors_line kind.now number right) }
{
    let name = composite(alloc, number)?;
    let left = loaded(alloc, number)?;
    let right = loaded(alloc, right)?;
    let line = by_system(alloc, b"composite.set")?;
    let line = with(line, b"group", name.as_bytes())?;
    let line = with(line, b"kind", kind)?;
    let line = with(line, b"left", left.as_bytes())?;
    let line = with(line, b"right", right.as_bytes())?;
    ended(line)
}

/// A complement where the number is even, else an intersection.
fn factored_line(alloc: Global, size: u64, number: u64) -> Result<Vec<u8>, AllocError>
    requires some { 0 < size }
    requires few { size ≤ 500 }
    requires within { number < 12 }
    ensures { IfOk result (λ line. line.items ≡ factored_line size number) }
{
    if number % 2 == 0 {
        return factors_line(alloc, b"complement", number, number + 1);
    }
    let right = (number + 5 * size) % (10 * size);
    factors_line(alloc, b"intersection", number, right)
}

fn rule_line(alloc: Global) -> Result<Vec<u8>, AllocError>
    ensures { IfOk result (λ line. line.items ≡ rule_line) }
{
    let line = by_system(alloc, b"rule.remove_lost")?;
    let line = with(line, b"check", b"load:l0")?;
    let line = with(line, b"owner", b"f0:g0")?;
    ended(line)
}

fn member_line(alloc: Global, seed: u64, size: u64) -> Result<Vec<u8>, AllocError>
    requires some { 0 < size }
    requires few { size ≤ 500 }
    ensures { IfOk result (λ line. line.items ≡ member_line seed size) }
{
    let member = person(alloc, seed % (200 * size))?;
    let line = by_system(alloc, b"member.add")?;
    let line = with(line, b"group", b"f0:g0")?;
    let line = with(line, b"member", member.as_bytes())?;
    ended(line)
}

fn inherit_line(alloc: Global) -> Result<Vec<u8>, AllocError>
    ensures { IfOk result (λ line. line.items ≡ inherit_line) }
{
    let line = by_system(alloc, b"inherit.add")?;
    let line = with(line, b"folder", b"load")?;
    let line = with(line, b"kind", b"group")?;
    let line = with(line, b"scope", b"ONE")?;
    let line = with(line, b"privilege", b"READ")?;
    let line = with(line, b"holder", b"g:isa/GrouperAll")?;
    ended(line)
}

/// The line of a number among those from the job to the inherit.
pub fn loading_line(alloc: Global, seed: u64, size: u64, number: u64) -> Result<Vec<u8>, AllocError>
    requires some { 0 < size }
    requires few { size ≤ 500 }
    requires within { number < 29 }
    ensures { IfOk result (λ line. line.items ≡ loading_line seed size number) }
{
    if number == 0 {
        return job_line(alloc);
    }
    if number == 1 {
        return load_line(alloc, seed, size, 0);
    }
    if number < 26 {
        let pair = (number - 2) / 2;
        if number % 2 == 0 {
            return composite_line(alloc, pair);
        }
        return factored_line(alloc, size, pair);
    }
    if number == 26 {
        return rule_line(alloc);
    }
    if number == 27 {
        return member_line(alloc, seed, size);
    }
    inherit_line(alloc)
}
