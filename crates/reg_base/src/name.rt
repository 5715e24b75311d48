// The name of an object.
ghost use Rattle.std.specs.Prelude.{◌≡◌, IfOk, IsTrue};
ghost use Rattle.reg_base.specs.Names.{is_name, name_of};

use crate::names::is_name;
use std::alloc::{AllocError, Global};
use std::marker::Model;

/// The name of an object from below the root: extensions joined by `:`, at most 1,000 bytes.
/// Contracts see its bytes.
#[derive(Drop)]
pub struct Name {
    string: String,
}

impl Model for Name {
    ghost use Rattle.std.specs.Prelude.{List, ℕ, IsTrue, string_bytes};
    ghost use Rattle.reg_base.specs.Names.{is_name};

    ghost Value = { List ℕ };

    ghost view = { λ n. string_bytes n.string };

    ghost invariant = { λ n. IsTrue (is_name (string_bytes n.string)) };
}

impl Name {
    /// The name that a text is. None exactly where it isn't a name; the only error is out of
    /// memory.
    pub fn parse(alloc: Global, text: &[u8]) -> Result<Option<Name>, AllocError>
        ensures { IfOk result (λ found. found ≡ name_of text.now) }
    {
        if !is_name(text) {
            return Ok(None);
        }
        match str::from_utf8(text) {
            Ok(text) => {
                let string = String::from_str(alloc, text)?;
                Ok(Some(Name { string }))
            }
            // no name comes here, since its bytes are ASCII
            Err(_) => Ok(None),
        }
    }

    /// The bytes of the name. It takes no memory.
    pub fn bytes(&self) -> &[u8]
        ensures value { result.now ≡ self.now }
        ensures is_name { IsTrue (is_name result.now) }
    {
        self.string.as_bytes()
    }

    /// The same as a string slice. It takes no memory.
    pub fn as_str(&self) -> &str
        ensures value { result.now ≡ self.now }
        ensures is_name { IsTrue (is_name result.now) }
    {
        self.string.as_str()
    }

    /// An equal name. The only error is out of memory.
    pub fn copy(&self, alloc: Global) -> Result<Name, AllocError>
        ensures { IfOk result (λ name. name ≡ self.now) }
    {
        let string = String::from_str(alloc, self.string.as_str())?;
        Ok(Name { string })
    }
}
