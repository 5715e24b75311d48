// Lines, field by field.
ghost use Rattle.std.specs.Prelude.{◌≡◌, ◌<◌, ◌≤◌, IfOk, string_bytes};
ghost use Rattle.reg_sample.specs.Lines.{begun, by_system, composite, ended, group, loaded, person};
ghost use Rattle.reg_sample.specs.Lines.{with};

use std::alloc::{AllocError, Global};

/// A line of a caller's op, up to its fields.
pub fn begun(alloc: Global, by: &[u8], op: &[u8]) -> Result<Vec<u8>, AllocError>
    ensures { IfOk result (λ line. line.items ≡ begun by.now op.now) }
{
    let mut line = Vec::new(alloc);
    line.extend_from_slice(b"{\"by\":\"")?;
    line.extend_from_slice(by)?;
    line.extend_from_slice(b"\",\"op\":\"")?;
    line.extend_from_slice(op)?;
    line.extend_from_slice(b"\"")?;
    Ok(line)
}

/// A line that GrouperSystem asks, up to its fields.
pub fn by_system(alloc: Global, op: &[u8]) -> Result<Vec<u8>, AllocError>
    ensures { IfOk result (λ line. line.items ≡ by_system op.now) }
{
    begun(alloc, b"g:isa/GrouperSystem", op)
}

/// The line with a field more, whose value is a text that JSON doesn't escape.
pub fn with(line: Vec<u8>, key: &[u8], value: &[u8]) -> Result<Vec<u8>, AllocError>
    ensures { IfOk result (λ more. more.items ≡ with key.now value.now line.items) }
{
    let mut line = line;
    line.extend_from_slice(b",\"")?;
    line.extend_from_slice(key)?;
    line.extend_from_slice(b"\":\"")?;
    line.extend_from_slice(value)?;
    line.extend_from_slice(b"\"")?;
    Ok(line)
}

/// The line with its end.
pub fn ended(line: Vec<u8>) -> Result<Vec<u8>, AllocError>
    ensures { IfOk result (λ whole. whole.items ≡ ended line.items) }
{
    let mut line = line;
    line.extend_from_slice(b"}")?;
    Ok(line)
}

/// The person of a number.
pub fn person(alloc: Global, number: u64) -> Result<String, AllocError>
    ensures { IfOk result (λ text. string_bytes text ≡ person number) }
{
    format!(in alloc; "uni/p{number}")
}

/// The name of the group of a number.
pub fn group(alloc: Global, size: u64, number: u64) -> Result<String, AllocError>
    requires some { 0 < size }
    requires few { size ≤ 500 }
    ensures { IfOk result (λ text. string_bytes text ≡ group size number) }
{
    let folder = number % (3 * size);
    let mut text = format!(in alloc; "f{folder}")?;
    let rest = format!(in alloc; ":g{number}")?;
    text.push_str(rest.as_str())?;
    Ok(text)
}

/// The name of a group that the loads make.
pub fn loaded(alloc: Global, number: u64) -> Result<String, AllocError>
    ensures { IfOk result (λ text. string_bytes text ≡ loaded number) }
{
    format!(in alloc; "load:l{number}")
}

/// The name of a composite.
pub fn composite(alloc: Global, number: u64) -> Result<String, AllocError>
    ensures { IfOk result (λ text. string_bytes text ≡ composite number) }
{
    format!(in alloc; "f0:c{number}")
}
