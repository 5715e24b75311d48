//! What the fields of a head say.

ghost use Rattle.std.specs.Prelude.{◌≡◌, ℕ, List, [], ◌∷◌, ◌++◌, All, length, map, reverse, codes};
ghost use Rattle.std.specs.Prelude.{Option, Some, None, is_some, nat_lt, if◌then◌else◌};
ghost use Rattle.std.specs.List.{list_any};
ghost use Rattle.std.specs.Str.{str_eq_ignore_ascii_case};
ghost use Rattle.std.specs.Str.Parse.{digits_value};
ghost use Rattle.httparse.specs.Grammar.{skip_ows, trim_ows};
ghost use Rattle.httparse.specs.Spans.{IsWithin, IsHeaderWithin, header_bytes, span_bytes};
ghost use Rattle.reg_http.specs.Fields.{values_named, only, is_close, lists_close, closes};
ghost use Rattle.reg_http.specs.Fields.{is_length};
ghost use Rattle.reg_http.specs.Standings.{IsStanding};

use httparse::spans::{HeaderSpan, Span};

/// How often a field stands in a head, and its value where it stands once.
#[derive(Clone, Copy, Drop)]
pub(crate) enum Standing {
    Never,
    Once(Span),
    Often,
}

impl Standing {
    /// The same after one value more.
    fn more(self, value: Span) -> Standing
        ensures { (bytes : List ℕ) (values : List (List ℕ)) → IsStanding bytes values self
            → IsWithin (length bytes) value
            → IsStanding bytes (values ++ span_bytes bytes value ∷ []) result }
    {
        match self {
            Standing::Never => Standing::Once(value),
            Standing::Once(_) | Standing::Often => Standing::Often,
        }
    }
}

/// Whether two names are the same but for the case of their letters.
fn same_name(name: &[u8], other: &[u8]) -> bool
    ensures { result ≡ str_eq_ignore_ascii_case name.now other.now }
{
    name.eq_ignore_ascii_case(other)
}

/// How often a field of this name stands among the fields.
pub(crate) fn how_often(bytes: &[u8], fields: &[HeaderSpan], name: &[u8]) -> Standing
    requires { All (IsHeaderWithin (length bytes.now)) fields.now }
    ensures { IsStanding bytes.now
        (values_named name.now (map (header_bytes bytes.now) fields.now)) result }
{
    let mut found = Standing::Never;
    for field in fields {
        if same_name(field.name.of(bytes), name) {
            found = found.more(field.value);
        }
    }
    found
}

/// Whether a field of this name stands exactly once.
pub(crate) fn stands_once(bytes: &[u8], fields: &[HeaderSpan], name: &[u8]) -> bool
    requires { All (IsHeaderWithin (length bytes.now)) fields.now }
    ensures { result ≡ is_some
        (only (values_named name.now (map (header_bytes bytes.now) fields.now))) }
{
    matches!(how_often(bytes, fields, name), Standing::Once(_))
}

/// Whether a field of this name stands.
pub(crate) fn stands(bytes: &[u8], fields: &[HeaderSpan], name: &[u8]) -> bool
    requires { All (IsHeaderWithin (length bytes.now)) fields.now }
    ensures { result ≡ nat_lt 0
        (length (values_named name.now (map (header_bytes bytes.now) fields.now))) }
{
    !matches!(how_often(bytes, fields, name), Standing::Never)
}

fn trim_start(mut text: &[u8]) -> &[u8]
    ensures { result.now ≡ skip_ows text.now }
{
    while let [first, rest @ ..] = text
        && (*first == b' ' || *first == b'\t')
    {
        text = rest;
    }
    text
}

fn trim_end(mut text: &[u8]) -> &[u8]
    ensures { result.now ≡ reverse (skip_ows (reverse text.now)) }
{
    while let [rest @ .., last] = text
        && (*last == b' ' || *last == b'\t')
    {
        text = rest;
    }
    text
}

/// The text without the spaces and tabs around it.
#[tactic(auto, unfolding(httparse::specs::Grammar::trim_ows))]
fn trim(text: &[u8]) -> &[u8]
    ensures { result.now ≡ trim_ows text.now }
{
    trim_end(trim_start(text))
}

/// Whether this token of a `Connection` field is `close`.
fn is_close(token: &[u8]) -> bool
    ensures { result ≡ is_close token.now }
{
    same_name(trim(token), b"close")
}

/// Whether this value of a `Connection` field holds the token `close`.
fn lists_close(value: &[u8]) -> bool
    ensures { result ≡ lists_close value.now }
{
    value
        .split(|byte| *byte == b',')
        .any(|token| is_close(token))
}

/// Whether a `Connection` field holds the token `close`.
pub(crate) fn closes(bytes: &[u8], fields: &[HeaderSpan]) -> bool
    requires { All (IsHeaderWithin (length bytes.now)) fields.now }
    ensures { result ≡ closes (map (header_bytes bytes.now) fields.now) }
{
    for field in fields {
        if same_name(field.name.of(bytes), b"connection") && lists_close(field.value.of(bytes)) {
            return true;
        }
    }
    false
}

/// The number that 1 to 19 digits give; None for any other text.
pub(crate) fn length_in(text: &[u8]) -> Option<usize>
    ensures { result ≡ (if is_length text.now then Some (digits_value 10 text.now) else None) }
{
    if text.is_empty() || text.len() > 19 {
        return None;
    }
    let mut number: usize = 0;
    for digit in text {
        if !digit.is_ascii_digit() {
            return None;
        }
        number = number * 10 + usize::from(*digit - b'0');
    }
    Some(number)
}
