// Values of assignments, as requests give them and as definitions take them.
ghost use Rattle.std.specs.Prelude.{◌≡◌, IfOk, true};
ghost use Rattle.reg_terms.specs.Digests.{digest, text_digest};
ghost use Rattle.reg_terms.specs.Values.{same_value, taken, suits};
ghost use Rattle.reg_terms.specs.declared.kinds.AttrValue.{AttrValue};
ghost use Rattle.reg_terms.specs.declared.kinds.Value.TheVariants as given;

use crate::{AttrValue, DefKind, Object, Owners, Value};
use reg_base::{Moment, Text};
use std::alloc::{AllocError, Global};

/// A number of the bytes of a text, which has no more than 41 bits.
fn text_digest(bytes: &[u8]) -> u64
    ensures { result ≡ text_digest bytes.now }
{
    let mut digest = 0u64;
    for byte in bytes {
        digest = digest % 4_294_967_296 * 257 + u64::from(*byte);
    }
    digest
}

impl AttrValue {
    /// Whether the two are one: of one kind, and equal.
    pub fn is(&self, other: &AttrValue) -> bool
        ensures { result ≡ same_value self.now other.now }
    {
        match self {
            AttrValue::Int(a) => matches!(other, AttrValue::Int(b) if *a == *b),
            AttrValue::Text(a) => matches!(other, AttrValue::Text(b) if a.bytes() == b.bytes()),
            AttrValue::Moment(a) => {
                matches!(other, AttrValue::Moment(b) if a.micros() == b.micros())
            }
        }
    }

    /// A number of the value, by which values that are one are found: those have one digest.
    pub fn digest(&self) -> u64
        ensures is { result ≡ digest self.now }
        ensures alike { (other : AttrValue) → same_value other self.now ≡ true
            → digest other ≡ result }
    {
        match self {
            AttrValue::Int(number) => number.unsigned_abs(),
            AttrValue::Text(text) => text_digest(text.bytes()),
            AttrValue::Moment(moment) => moment.micros(),
        }
    }

    /// An equal value.
    pub fn copy(&self, alloc: Global) -> Result<AttrValue, AllocError>
        ensures { IfOk result (λ v. v ≡ self.now) }
    {
        match self {
            AttrValue::Int(number) => Ok(AttrValue::Int(*number)),
            AttrValue::Text(text) => Ok(AttrValue::Text(text.copy(alloc)?)),
            AttrValue::Moment(moment) => Ok(AttrValue::Moment(*moment)),
        }
    }
}

/// A text as a definition of this kind takes it, if it does.
fn text_taken(alloc: Global, kind: DefKind, text: &Text) -> Result<Option<AttrValue>, AllocError>
    ensures { IfOk result (λ found. found ≡ taken kind (given.Text text.now)) }
{
    match kind {
        DefKind::Marker | DefKind::Integer => Ok(None),
        DefKind::Text => Ok(Some(AttrValue::Text(text.copy(alloc)?))),
        DefKind::Timestamp => Ok(Moment::parse(text.bytes()).map(AttrValue::Moment)),
    }
}

impl Value {
    /// The value as a definition of this kind takes it: an integer takes a whole number, a text a
    /// text, and a timestamp a moment's text; a marker takes none. None exactly where it isn't of
    /// the kind.
    pub fn taken(&self, alloc: Global, kind: DefKind) -> Result<Option<AttrValue>, AllocError>
        ensures { IfOk result (λ found. found ≡ taken kind self.now) }
    {
        match self {
            Value::Int(number) => match kind {
                DefKind::Integer => Ok(Some(AttrValue::Int(*number))),
                DefKind::Marker | DefKind::Text | DefKind::Timestamp => Ok(None),
            },
            Value::Text(text) => text_taken(alloc, kind, text),
        }
    }
}

impl Owners {
    /// Whether attributes of a definition that suits these owners may be assigned to an object.
    pub fn suits(&self, object: Object) -> bool
        ensures { result ≡ suits self.now object }
    {
        match object {
            Object::Folder(_) => self.folder,
            Object::Group(_) => self.group,
            Object::Subject(_) => self.subject,
            Object::Def(_) | Object::Attr(_) => false,
        }
    }
}
