// Reading the fields of a payload from the front: each function gives a value and the bytes after
// it.
ghost use Rattle.std.specs.Prelude.{◌≡◌};
ghost use Rattle.std.specs.Int.{w16, w32, w64};
ghost use Rattle.reg_wire.specs.Steps.{Gives};
ghost use Rattle.reg_wire.specs.Reading.{byte_at, key_at, key_text_at, number_at, text_at};
ghost use Rattle.reg_wire.specs.Reading.{name_at, folder_at};
ghost use Rattle.reg_wire.specs.Reading.{extension_at, source_at, person_at, display_at, entity_at};
ghost use Rattle.reg_wire.specs.Reading.{moment_at, ranged_at, object_at, optional_moment_at};
ghost use Rattle.reg_wire.specs.Reading.{set_op_at, inherit_kind_at, scope_at, privilege_at};
ghost use Rattle.reg_wire.specs.Reading.{owners_of, owners_at, flag_at, def_kind_at, int_at};
ghost use Rattle.reg_wire.specs.Reading.{value_at};

use crate::fault::ReadFault;
use reg_base::{Entity, Moment, Name, Privilege, Text, is_extension, is_person, is_source};
use reg_ops::{is_folder_text, is_object_text};
use reg_terms::{DefKind, InheritKind, MAX_DISPLAY, Owners, Scope, SetOp, Value, privilege_coded};
use std::alloc::Global;

// behind who gave a command

pub const NO_KEY: u8 = 0;

pub const KEY: u8 = 1;

// how composites are made, one byte each

pub const INTERSECTION: u8 = 1;

pub const COMPLEMENT: u8 = 2;

pub const UNION: u8 = 3;

// the kinds of objects that inherits are for, one byte each

pub const FOLDER: u8 = 1;

pub const GROUP: u8 = 2;

pub const DEFINITION: u8 = 3;

// how far inherits reach, one byte each

pub const ONE: u8 = 1;

pub const SUB: u8 = 2;

// the kinds of values that definitions are for, one byte each

pub const MARKERS: u8 = 1;

pub const INTEGERS: u8 = 2;

pub const TEXTS: u8 = 3;

pub const TIMESTAMPS: u8 = 4;

// what a value of an assignment is, one byte each

pub const INT_VALUE: u8 = 1;

pub const TEXT_VALUE: u8 = 2;

/// One byte.
pub fn byte_at(bytes: &[u8]) -> Result<(u8, &[u8]), ReadFault>
    ensures { Gives (λ x. (x.0, x.1.now)) result (byte_at bytes.now) }
{
    match bytes {
        [] => Err(ReadFault::Malformed),
        [byte, rest @ ..] => Ok((*byte, rest)),
    }
}

/// A number of two bytes, the least first.
#[tactic(auto, unfolding(crate::specs::Reading::number_at))]
fn u16_at(bytes: &[u8]) -> Result<(u16, &[u8]), ReadFault>
    ensures { Gives (λ x. (x.0, x.1.now)) result (number_at w16 bytes.now) }
{
    if bytes.len() < 2 {
        return Err(ReadFault::Malformed);
    }
    let (front, rest) = bytes.split_at(2);
    let number = u16::from_le_bytes([front[0], front[1]]);
    Ok((number, rest))
}

/// A number of four bytes, the least first.
#[tactic(auto, unfolding(crate::specs::Reading::number_at))]
pub fn u32_at(bytes: &[u8]) -> Result<(u32, &[u8]), ReadFault>
    ensures { Gives (λ x. (x.0, x.1.now)) result (number_at w32 bytes.now) }
{
    if bytes.len() < 4 {
        return Err(ReadFault::Malformed);
    }
    let (front, rest) = bytes.split_at(4);
    let number = u32::from_le_bytes([front[0], front[1], front[2], front[3]]);
    Ok((number, rest))
}

/// A number of eight bytes, the least first.
#[tactic(auto, unfolding(crate::specs::Reading::number_at))]
fn u64_at(bytes: &[u8]) -> Result<(u64, &[u8]), ReadFault>
    ensures { Gives (λ x. (x.0, x.1.now)) result (number_at w64 bytes.now) }
{
    if bytes.len() < 8 {
        return Err(ReadFault::Malformed);
    }
    let (front, rest) = bytes.split_at(8);
    let number = u64::from_le_bytes([
        front[0], front[1], front[2], front[3], front[4], front[5], front[6], front[7],
    ]);
    Ok((number, rest))
}

/// A text, behind its length.
#[tactic(auto, unfolding(crate::specs::Reading::text_at))]
fn text_at(bytes: &[u8]) -> Result<(&[u8], &[u8]), ReadFault>
    ensures { Gives (λ x. (x.0.now, x.1.now)) result (text_at bytes.now) }
{
    let (size, rest) = u16_at(bytes)?;
    let size = size as usize;
    if rest.len() < size {
        return Err(ReadFault::Malformed);
    }
    Ok(rest.split_at(size))
}

/// The name of an object.
#[tactic(auto, unfolding(crate::specs::Reading::tested_at))]
pub fn name_at(alloc: Global, bytes: &[u8]) -> Result<(Name, &[u8]), ReadFault>
    ensures { Gives (λ x. (x.0, x.1.now)) result (name_at bytes.now) }
{
    let (text, rest) = text_at(bytes)?;
    match Name::parse(alloc, text)? {
        Some(name) => Ok((name, rest)),
        None => Err(ReadFault::Malformed),
    }
}

/// The name of a folder, or `:` for the root.
#[tactic(auto, using(crate::proofs::Texts::folder_utf8), unfolding(crate::specs::Reading::tested_at))]
pub fn folder_at(alloc: Global, bytes: &[u8]) -> Result<(Text, &[u8]), ReadFault>
    ensures { Gives (λ x. (x.0, x.1.now)) result (folder_at bytes.now) }
{
    let (text, rest) = text_at(bytes)?;
    if !is_folder_text(text) {
        return Err(ReadFault::Malformed);
    }
    match Text::of(alloc, text)? {
        Some(folder) => Ok((folder, rest)),
        // no folder comes here, since its bytes are ASCII
        None => Err(ReadFault::Malformed),
    }
}

/// An extension.
#[tactic(auto, using(crate::proofs::Texts::extension_utf8), unfolding(crate::specs::Reading::tested_at))]
pub fn extension_at(alloc: Global, bytes: &[u8]) -> Result<(Text, &[u8]), ReadFault>
    ensures { Gives (λ x. (x.0, x.1.now)) result (extension_at bytes.now) }
{
    let (text, rest) = text_at(bytes)?;
    if !is_extension(text) {
        return Err(ReadFault::Malformed);
    }
    match Text::of(alloc, text)? {
        Some(extension) => Ok((extension, rest)),
        // no extension comes here, since its bytes are ASCII
        None => Err(ReadFault::Malformed),
    }
}

/// The text of a key.
#[tactic(auto, using(crate::proofs::Texts::extension_utf8), unfolding(crate::specs::Reading::key_text_at))]
fn key_text_at(alloc: Global, bytes: &[u8]) -> Result<(Option<Text>, &[u8]), ReadFault>
    ensures { Gives (λ x. (x.0, x.1.now)) result (key_text_at bytes.now) }
{
    let (text, rest) = text_at(bytes)?;
    if !is_extension(text) {
        return Err(ReadFault::Malformed);
    }
    match Text::of(alloc, text)? {
        Some(key) => Ok((Some(key), rest)),
        // no extension comes here, since its bytes are ASCII
        None => Err(ReadFault::Malformed),
    }
}

/// The key that a command was given under, if there was one.
#[tactic(auto, unfolding(crate::specs::Reading::key_at))]
pub fn key_at(alloc: Global, bytes: &[u8]) -> Result<(Option<Text>, &[u8]), ReadFault>
    ensures { Gives (λ x. (x.0, x.1.now)) result (key_at bytes.now) }
{
    match bytes {
        [NO_KEY, rest @ ..] => Ok((None, rest)),
        [KEY, rest @ ..] => key_text_at(alloc, rest),
        _ => Err(ReadFault::Malformed),
    }
}

/// A source of persons.
#[tactic(auto, using(crate::proofs::Texts::source_utf8), unfolding(crate::specs::Reading::tested_at))]
pub fn source_at(alloc: Global, bytes: &[u8]) -> Result<(Text, &[u8]), ReadFault>
    ensures { Gives (λ x. (x.0, x.1.now)) result (source_at bytes.now) }
{
    let (text, rest) = text_at(bytes)?;
    if !is_source(text) {
        return Err(ReadFault::Malformed);
    }
    match Text::of(alloc, text)? {
        Some(source) => Ok((source, rest)),
        // no source comes here, since its bytes are ASCII
        None => Err(ReadFault::Malformed),
    }
}

/// The text of a person.
#[tactic(auto, using(reg_base::proofs::Persons::person_utf8), unfolding(crate::specs::Reading::tested_at))]
pub fn person_at(alloc: Global, bytes: &[u8]) -> Result<(Text, &[u8]), ReadFault>
    ensures { Gives (λ x. (x.0, x.1.now)) result (person_at bytes.now) }
{
    let (text, rest) = text_at(bytes)?;
    if !is_person(text) {
        return Err(ReadFault::Malformed);
    }
    match Text::of(alloc, text)? {
        Some(person) => Ok((person, rest)),
        // no person comes here, since its bytes are ASCII
        None => Err(ReadFault::Malformed),
    }
}

/// A display text.
#[tactic(auto, using(crate::proofs::Texts::display_is, crate::proofs::Texts::display_isnt), unfolding(crate::specs::Reading::tested_at))]
pub fn display_at(alloc: Global, bytes: &[u8]) -> Result<(Text, &[u8]), ReadFault>
    ensures { Gives (λ x. (x.0, x.1.now)) result (display_at bytes.now) }
{
    let (text, rest) = text_at(bytes)?;
    if text.len() > MAX_DISPLAY {
        return Err(ReadFault::Malformed);
    }
    match Text::of(alloc, text)? {
        Some(display) => Ok((display, rest)),
        None => Err(ReadFault::Malformed),
    }
}

/// The text of an object.
#[tactic(auto, using(crate::proofs::Objects::object_utf8), unfolding(crate::specs::Reading::tested_at))]
pub fn object_at(alloc: Global, bytes: &[u8]) -> Result<(Text, &[u8]), ReadFault>
    ensures { Gives (λ x. (x.0, x.1.now)) result (object_at bytes.now) }
{
    let (text, rest) = text_at(bytes)?;
    if !is_object_text(text) {
        return Err(ReadFault::Malformed);
    }
    match Text::of(alloc, text)? {
        Some(object) => Ok((object, rest)),
        // no object comes here, since its bytes are ASCII
        None => Err(ReadFault::Malformed),
    }
}

/// An entity, by its text.
#[tactic(auto, unfolding(crate::specs::Reading::entity_at))]
pub fn entity_at(alloc: Global, bytes: &[u8]) -> Result<(Entity, &[u8]), ReadFault>
    ensures { Gives (λ x. (x.0, x.1.now)) result (entity_at bytes.now) }
{
    let (text, rest) = text_at(bytes)?;
    match Entity::parse(alloc, text)? {
        Some(entity) => Ok((entity, rest)),
        None => Err(ReadFault::Malformed),
    }
}

/// A moment.
#[tactic(auto, unfolding(crate::specs::Reading::moment_at))]
pub fn moment_at(bytes: &[u8]) -> Result<(Moment, &[u8]), ReadFault>
    ensures { Gives (λ x. (x.0, x.1.now)) result (moment_at bytes.now) }
{
    let (number, rest) = u64_at(bytes)?;
    match Moment::new(number) {
        Some(moment) => Ok((moment, rest)),
        None => Err(ReadFault::Malformed),
    }
}

/// A number from `least` to `most`.
#[tactic(auto, unfolding(crate::specs::Reading::ranged_at))]
pub fn ranged_at(least: u64, most: u64, bytes: &[u8]) -> Result<(u64, &[u8]), ReadFault>
    ensures { Gives (λ x. (x.0, x.1.now)) result (ranged_at least most bytes.now) }
{
    let (number, rest) = u64_at(bytes)?;
    if least <= number && number <= most {
        Ok((number, rest))
    } else {
        Err(ReadFault::Malformed)
    }
}

/// A moment that may be left out.
#[tactic(auto, unfolding(crate::specs::Reading::optional_moment_at))]
pub fn optional_moment_at(bytes: &[u8]) -> Result<(Option<Moment>, &[u8]), ReadFault>
    ensures { Gives (λ x. (x.0, x.1.now)) result (optional_moment_at bytes.now) }
{
    match bytes {
        [] => Err(ReadFault::Malformed),
        [0, rest @ ..] => Ok((None, rest)),
        [1, rest @ ..] => match moment_at(rest) {
            Ok((moment, rest)) => Ok((Some(moment), rest)),
            Err(fault) => Err(fault),
        },
        [_, ..] => Err(ReadFault::Malformed),
    }
}

/// The kind of a composite.
#[tactic(auto, unfolding(crate::specs::Reading::set_op_at))]
pub fn set_op_at(bytes: &[u8]) -> Result<(SetOp, &[u8]), ReadFault>
    ensures { Gives (λ x. (x.0, x.1.now)) result (set_op_at bytes.now) }
{
    match bytes {
        [INTERSECTION, rest @ ..] => Ok((SetOp::Intersection, rest)),
        [COMPLEMENT, rest @ ..] => Ok((SetOp::Complement, rest)),
        [UNION, rest @ ..] => Ok((SetOp::Union, rest)),
        _ => Err(ReadFault::Malformed),
    }
}

/// The kind of objects that an inherit is for.
#[tactic(auto, unfolding(crate::specs::Reading::inherit_kind_at))]
pub fn inherit_kind_at(bytes: &[u8]) -> Result<(InheritKind, &[u8]), ReadFault>
    ensures { Gives (λ x. (x.0, x.1.now)) result (inherit_kind_at bytes.now) }
{
    match bytes {
        [FOLDER, rest @ ..] => Ok((InheritKind::Folder, rest)),
        [GROUP, rest @ ..] => Ok((InheritKind::Group, rest)),
        [DEFINITION, rest @ ..] => Ok((InheritKind::Definition, rest)),
        _ => Err(ReadFault::Malformed),
    }
}

/// How far an inherit reaches.
#[tactic(auto, unfolding(crate::specs::Reading::scope_at))]
pub fn scope_at(bytes: &[u8]) -> Result<(Scope, &[u8]), ReadFault>
    ensures { Gives (λ x. (x.0, x.1.now)) result (scope_at bytes.now) }
{
    match bytes {
        [ONE, rest @ ..] => Ok((Scope::One, rest)),
        [SUB, rest @ ..] => Ok((Scope::Sub, rest)),
        _ => Err(ReadFault::Malformed),
    }
}

/// A privilege, by its code.
#[tactic(auto, unfolding(crate::specs::Reading::privilege_at))]
pub fn privilege_at(bytes: &[u8]) -> Result<(Privilege, &[u8]), ReadFault>
    ensures { Gives (λ x. (x.0, x.1.now)) result (privilege_at bytes.now) }
{
    let (code, rest) = byte_at(bytes)?;
    match privilege_coded(code) {
        Some(privilege) => Ok((privilege, rest)),
        None => Err(ReadFault::Malformed),
    }
}

/// The kinds of owner whose code this is.
fn owners_of(code: u8) -> Owners
    ensures { result ≡ owners_of code }
{
    Owners {
        folder: code % 2 == 1,
        group: code / 2 % 2 == 1,
        subject: code / 4 == 1,
    }
}

/// The kinds of owner that a definition suits, one at least.
#[tactic(auto, unfolding(crate::specs::Reading::owners_at))]
pub fn owners_at(bytes: &[u8]) -> Result<(Owners, &[u8]), ReadFault>
    ensures { Gives (λ x. (x.0, x.1.now)) result (owners_at bytes.now) }
{
    let (code, rest) = byte_at(bytes)?;
    if 1 <= code && code <= 7 {
        Ok((owners_of(code), rest))
    } else {
        Err(ReadFault::Malformed)
    }
}

/// Whether something holds.
#[tactic(auto, unfolding(crate::specs::Reading::flag_at))]
pub fn flag_at(bytes: &[u8]) -> Result<(bool, &[u8]), ReadFault>
    ensures { Gives (λ x. (x.0, x.1.now)) result (flag_at bytes.now) }
{
    match bytes {
        [0, rest @ ..] => Ok((false, rest)),
        [1, rest @ ..] => Ok((true, rest)),
        _ => Err(ReadFault::Malformed),
    }
}

/// The kind of values that attributes of a definition take.
#[tactic(auto, unfolding(crate::specs::Reading::def_kind_at))]
pub fn def_kind_at(bytes: &[u8]) -> Result<(DefKind, &[u8]), ReadFault>
    ensures { Gives (λ x. (x.0, x.1.now)) result (def_kind_at bytes.now) }
{
    match bytes {
        [MARKERS, rest @ ..] => Ok((DefKind::Marker, rest)),
        [INTEGERS, rest @ ..] => Ok((DefKind::Integer, rest)),
        [TEXTS, rest @ ..] => Ok((DefKind::Text, rest)),
        [TIMESTAMPS, rest @ ..] => Ok((DefKind::Timestamp, rest)),
        _ => Err(ReadFault::Malformed),
    }
}

/// A whole number and its sign.
#[tactic(auto, unfolding(crate::specs::Reading::int_at))]
fn int_at(bytes: &[u8]) -> Result<(i64, &[u8]), ReadFault>
    ensures { Gives (λ x. (x.0, x.1.now)) result (int_at bytes.now) }
{
    let (number, rest) = u64_at(bytes)?;
    Ok((number.cast_signed(), rest))
}

/// A value of an assignment.
#[tactic(auto, unfolding(crate::specs::Reading::value_at))]
pub fn value_at(alloc: Global, bytes: &[u8]) -> Result<(Value, &[u8]), ReadFault>
    ensures { Gives (λ x. (x.0, x.1.now)) result (value_at bytes.now) }
{
    match bytes {
        [INT_VALUE, rest @ ..] => match int_at(rest) {
            Ok((number, rest)) => Ok((Value::Int(number), rest)),
            Err(fault) => Err(fault),
        },
        [TEXT_VALUE, rest @ ..] => match display_at(alloc, rest) {
            Ok((text, rest)) => Ok((Value::Text(text), rest)),
            Err(fault) => Err(fault),
        },
        _ => Err(ReadFault::Malformed),
    }
}
