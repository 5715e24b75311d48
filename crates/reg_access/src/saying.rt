// What values say of actions.
ghost use Rattle.std.specs.Prelude.{◌≡◌, ◌++◌};
ghost use Rattle.std.specs.Str.{bytes_eq};
ghost use Rattle.reg_access.specs.Sayings.{is_action, saying, says, value_says};

use reg_base::is_extension;
use reg_terms::AttrValue;

/// What a value says of an action.
#[derive(Clone, Copy)]
pub(crate) struct Saying {
    /// Whether it allows the action.
    pub allow: bool,
    /// Whether it speaks of the action by its name, and not of all actions.
    pub named: bool,
}

impl Saying {
    fn new(allow: bool, named: bool) -> Saying
        ensures { result ≡ saying allow named }
    {
        Saying { allow, named }
    }
}

/// Whether the text is an action: 1 to 32 bytes of ASCII letters, digits, `_`, `-` and `.`. It
/// takes no memory.
pub fn is_action(text: &[u8]) -> bool
    ensures { result ≡ is_action text.now }
{
    is_extension(text) && text.len() <= 32
}

/// Whether a text is a verb and behind it an action.
fn is_phrase(text: &[u8], verb: &[u8], action: &[u8]) -> bool
    ensures { result ≡ bytes_eq text.now (verb.now ++ action.now) }
{
    match text.strip_prefix(verb) {
        Some(rest) => rest == action,
        None => false,
    }
}

/// What a text says of an action, if it speaks of it.
pub(crate) fn says(action: &[u8], text: &[u8]) -> Option<Saying>
    ensures { result ≡ says action.now text.now }
{
    if is_phrase(text, b"allow ", action) {
        return Some(Saying::new(true, true));
    }
    if is_phrase(text, b"deny ", action) {
        return Some(Saying::new(false, true));
    }
    if is_phrase(text, b"allow ", b"*") {
        return Some(Saying::new(true, false));
    }
    if is_phrase(text, b"deny ", b"*") {
        return Some(Saying::new(false, false));
    }
    None
}

/// What a value says of an action, if it speaks of it.
pub(crate) fn value_says(action: &[u8], value: &AttrValue) -> Option<Saying>
    ensures { result ≡ value_says action.now value.now }
{
    match value {
        AttrValue::Text(text) => says(action, text.bytes()),
        AttrValue::Int(_) | AttrValue::Moment(_) => None,
    }
}
