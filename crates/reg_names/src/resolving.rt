// From a name to its object.
ghost use Rattle.std.specs.Prelude.{◌≡◌, IfSome, Some, true};
ghost use Rattle.reg_facts.specs.Naming.{resolve, name_of};
ghost use Rattle.reg_facts.specs.Sound.{is_named};
ghost use Rattle.reg_terms.specs.declared.kinds.Object.{Object};

use crate::Names;
use reg_facts::{Facts, Object};

/// The object of this name; `:` is the root. None exactly where there is none. It takes no memory.
pub fn resolve(names: &Names, facts: &Facts, text: &str) -> Option<Object>
    ensures value { result ≡ resolve text.now facts.now }
    ensures has_name { IfSome result (λ o. (name_of o facts.now ≡ text.now)
        × (is_named o facts.now ≡ true)) }
    ensures by_name { (o : Object) → is_named o facts.now ≡ true → name_of o facts.now ≡ text.now
        → result ≡ Some o }
{
    let _ = names;
    facts.law_names();
    facts.resolve(text)
}
