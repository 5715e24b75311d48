// From an object to its name.
ghost use Rattle.std.specs.Prelude.{◌≡◌, ◌++◌, ◌≤◌, IfOk, OnOk, string_bytes, true};
ghost use Rattle.reg_facts.specs.Naming.{path, name_of, most_levels};
ghost use Rattle.reg_facts.specs.Sound.{is_named};
ghost use Rattle.reg_names.specs.Colons.{with_colons};

use reg_base::{FolderId, Text};
use reg_facts::{Facts, Object};
use std::alloc::{AllocError, Global};

/// How many levels of folders a name may have at most.
const MOST_LEVELS: usize = 1000;

/// Writes the extensions of a folder from below the root, so many levels at most, with a colon
/// behind each.
fn push_path(
    facts: &Facts,
    name: &mut String,
    levels: usize,
    folder: FolderId,
) -> Result<(), AllocError>
    requires { levels ≤ most_levels }
    ensures { OnOk result (string_bytes name.new
        ≡ string_bytes name.old ++ with_colons (path levels folder facts.now.folders)) }
{
    if levels == 0 {
        return Ok(());
    }
    let Some(row) = facts.folder(folder) else {
        return Ok(());
    };
    let Some(parent) = row.parent else {
        return Ok(());
    };
    push_path(facts, name, levels - 1, parent)?;
    name.push_str(row.extension.as_str())?;
    name.push(':')?;
    Ok(())
}

/// The name of an object, from below the root; the root's is `:`. The only error is out of memory.
/// It costs the length of the name.
pub fn name_of(alloc: Global, facts: &Facts, object: &Object) -> Result<Text, AllocError>
    requires { is_named object.now facts.now ≡ true }
    ensures { IfOk result (λ text. text ≡ name_of object.now facts.now) }
{
    let Some(place) = facts.place_of(object) else {
        return Text::new(alloc, ":");
    };
    let mut name = String::new(alloc);
    push_path(facts, &mut name, MOST_LEVELS, place.folder)?;
    name.push_str(place.extension)?;
    Text::new(alloc, name.as_str())
}
