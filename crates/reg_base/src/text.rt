// A text: bytes that are UTF-8, seen as their list.
ghost use Rattle.std.specs.Prelude.{◌≡◌, IsUtf8, IfOk, MatchOption};

use std::alloc::{AllocError, Global};
use std::marker::Model;

/// Bytes that are UTF-8. Contracts see their list.
#[derive(Drop)]
pub struct Text {
    string: String,
}

impl Model for Text {
    ghost use Rattle.std.specs.Prelude.{List, ℕ, string_bytes};

    ghost Value = { List ℕ };

    ghost view = { λ t. string_bytes t.string };
}

impl Text {
    /// The text of a string.
    pub fn new(alloc: Global, text: &str) -> Result<Text, AllocError>
        ensures { IfOk result (λ t. t ≡ text.now) }
    {
        let string = String::from_str(alloc, text)?;
        Ok(Text { string })
    }

    /// The text of these bytes. None exactly where they aren't UTF-8.
    pub fn of(alloc: Global, bytes: &[u8]) -> Result<Option<Text>, AllocError>
        ensures { IfOk result (λ found. MatchOption found (IsUtf8 bytes.now → ⊥)
            (λ t. IsUtf8 bytes.now × (t ≡ bytes.now))) }
    {
        match str::from_utf8(bytes) {
            Ok(text) => {
                let text = Text::new(alloc, text)?;
                Ok(Some(text))
            }
            Err(_) => Ok(None),
        }
    }

    /// The bytes.
    pub fn bytes(&self) -> &[u8]
        ensures { result.now ≡ self.now }
    {
        self.string.as_bytes()
    }

    /// The same as a string slice.
    pub fn as_str(&self) -> &str
        ensures { result.now ≡ self.now }
    {
        self.string.as_str()
    }

    /// An equal text.
    pub fn copy(&self, alloc: Global) -> Result<Text, AllocError>
        ensures { IfOk result (λ t. t ≡ self.now) }
    {
        Text::new(alloc, self.string.as_str())
    }
}
