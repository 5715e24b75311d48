// The forms of fields.
ghost use Rattle.std.specs.Prelude.{◌≡◌, option_map};
ghost use Rattle.reg_json.specs.Steps.{Gives};
ghost use Rattle.reg_json.specs.Fields.{name_from, folder_from, extension_from, source_from};
ghost use Rattle.reg_json.specs.Fields.{key_from, object_from, entity_from, moment_from};

use crate::fault::{ReadFault, bad_moment, bad_name};
use reg_base::{Entity, Moment, Name, Text, is_extension, is_source};
use reg_ops::{is_folder_text, is_object_text};
use std::alloc::Global;

/// The name that a field's text is.
#[tactic(auto, unfolding(crate::specs::Fields::name_from))]
pub fn name_from(alloc: Global, field: &str, text: &str) -> Result<Name, ReadFault>
    ensures { Gives (λ n. n) result (name_from field.now text.now) }
{
    match Name::parse(alloc, text.as_bytes())? {
        Some(name) => Ok(name),
        None => Err(bad_name(alloc, field)),
    }
}

/// The name of a folder, or `:`, that a field's text is.
#[tactic(auto, unfolding(crate::specs::Fields::folder_from))]
pub fn folder_from(alloc: Global, field: &str, text: &str) -> Result<Text, ReadFault>
    ensures { Gives (λ t. t) result (folder_from field.now text.now) }
{
    if is_folder_text(text.as_bytes()) {
        let folder = Text::new(alloc, text)?;
        Ok(folder)
    } else {
        Err(bad_name(alloc, field))
    }
}

/// The extension that a field's text is.
#[tactic(auto, unfolding(crate::specs::Fields::extension_from))]
pub fn extension_from(alloc: Global, field: &str, text: &str) -> Result<Text, ReadFault>
    ensures { Gives (λ t. t) result (extension_from field.now text.now) }
{
    if is_extension(text.as_bytes()) {
        let extension = Text::new(alloc, text)?;
        Ok(extension)
    } else {
        Err(bad_name(alloc, field))
    }
}

/// The request's key that a text is, if there is one.
#[tactic(auto, unfolding(crate::specs::Fields::key_from))]
pub fn key_from(alloc: Global, text: Option<&str>) -> Result<Option<Text>, ReadFault>
    ensures { Gives (λ k. k) result (key_from (option_map (λ s. s.now) text.entry)) }
{
    match text {
        Some(text) => {
            let key = extension_from(alloc, "key", text)?;
            Ok(Some(key))
        }
        None => Ok(None),
    }
}

/// The source of persons that a field's text is.
#[tactic(auto, unfolding(crate::specs::Fields::source_from))]
pub fn source_from(alloc: Global, field: &str, text: &str) -> Result<Text, ReadFault>
    ensures { Gives (λ t. t) result (source_from field.now text.now) }
{
    if is_source(text.as_bytes()) {
        let source = Text::new(alloc, text)?;
        Ok(source)
    } else {
        Err(bad_name(alloc, field))
    }
}

/// The object that a field's text names.
#[tactic(auto, unfolding(crate::specs::Fields::object_from))]
pub fn object_from(alloc: Global, field: &str, text: &str) -> Result<Text, ReadFault>
    ensures { Gives (λ t. t) result (object_from field.now text.now) }
{
    if is_object_text(text.as_bytes()) {
        let object = Text::new(alloc, text)?;
        Ok(object)
    } else {
        Err(bad_name(alloc, field))
    }
}

/// The entity that a field's text names.
#[tactic(auto, unfolding(crate::specs::Fields::entity_from))]
pub fn entity_from(alloc: Global, field: &str, text: &str) -> Result<Entity, ReadFault>
    ensures { Gives (λ e. e) result (entity_from field.now text.now) }
{
    match Entity::parse(alloc, text.as_bytes())? {
        Some(entity) => Ok(entity),
        None => Err(bad_name(alloc, field)),
    }
}

/// The moment that a field's text names, if the field stands there.
#[tactic(auto, unfolding(crate::specs::Fields::moment_from))]
pub fn moment_from(
    alloc: Global,
    field: &str,
    text: Option<&str>,
) -> Result<Option<Moment>, ReadFault>
    ensures { Gives (λ m. m) result (moment_from field.now (option_map (λ s. s.now) text.entry)) }
{
    match text {
        Some(text) => match Moment::parse(text.as_bytes()) {
            Some(moment) => Ok(Some(moment)),
            None => Err(bad_moment(alloc, field)),
        },
        None => Ok(None),
    }
}
