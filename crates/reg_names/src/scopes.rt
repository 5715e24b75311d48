// Which objects an inherit on a folder reaches.
ghost use Rattle.std.specs.Prelude.{◌≡◌};
ghost use Rattle.reg_names.specs.Scopes.{in_scope};

use reg_base::FolderId;
use reg_facts::{Facts, Object, Scope};

/// Whether an object is in the scope of a folder: in the folder itself, or at any depth below it. A
/// folder isn't in its own scope. It takes no memory.
pub fn in_scope(facts: &Facts, folder: FolderId, scope: Scope, object: &Object) -> bool
    ensures { result ≡ in_scope folder scope object.now facts.now }
{
    match facts.place_of(object) {
        Some(place) => match scope {
            Scope::One => place.folder.number() == folder.number(),
            Scope::Sub => facts.lies_in(place.folder, folder),
        },
        None => false,
    }
}
