// The queries of the routes that are asked by GET.
ghost use Rattle.std.specs.Prelude.{◌≡◌, ◌&&◌, Some, true, nat_le, ok_or, IfOk};
ghost use Rattle.reg_base.specs.Names.{is_extension, is_name};
ghost use Rattle.reg_json.specs.Fields.{name_from, folder_from, extension_from, object_from};
ghost use Rattle.reg_json.specs.Fields.{entity_from, moment_from};
ghost use Rattle.reg_base.specs.MomentText.{moment_of};
ghost use Rattle.reg_terms.specs.declared.refusal.Refusal.TheVariants as refusal;
ghost use Rattle.reg_ops.specs.Forms.{is_entity, is_folder_text, is_object_text};
ghost use Rattle.reg_ops.specs.Forms.{is_optional_moment, query_has_form};
ghost use Rattle.reg_http.specs.declared.route.Route.TheVariants as route;
ghost use Rattle.reg_calls.specs.Unread.{Gives};
ghost use Rattle.reg_calls.specs.Queries.{query_by, entity_text, number_from};

use crate::unread::{Unread, bad, bad_moment, bad_name};
use reg_base::{Entity, Moment, Name, Text, is_extension};
use reg_http::{Parameters, Route};
use reg_ops::{is_folder_text, is_object_text};
use reg_terms::Query;
use std::alloc::Global;

/// The name that a field's text is.
#[tactic(auto, using(crate::proofs::Formed::name_formed), unfolding(reg_json::specs::Fields::name_from))]
fn name_from(alloc: Global, field: &str, text: &[u8]) -> Result<Name, Unread>
    ensures read { Gives result (name_from field.now text.now) }
    ensures form { IfOk result (λ name. is_name name ≡ true) }
{
    match Name::parse(alloc, text)? {
        Some(name) => Ok(name),
        None => Err(bad_name(alloc, field)),
    }
}

/// The name of a folder, or `:`, that a field's text is.
#[tactic(auto, unfolding(reg_json::specs::Fields::folder_from))]
fn folder_from(alloc: Global, field: &str, text: &Text) -> Result<Text, Unread>
    ensures read { Gives result (folder_from field.now text.now) }
    ensures form { IfOk result (λ folder. is_folder_text folder ≡ true) }
{
    if !is_folder_text(text.bytes()) {
        return Err(bad_name(alloc, field));
    }
    let folder = text.copy(alloc)?;
    Ok(folder)
}

/// The object that a field's text names.
#[tactic(auto, unfolding(reg_json::specs::Fields::object_from))]
fn object_from(alloc: Global, field: &str, text: &Text) -> Result<Text, Unread>
    ensures read { Gives result (object_from field.now text.now) }
    ensures form { IfOk result (λ object. is_object_text object ≡ true) }
{
    if !is_object_text(text.bytes()) {
        return Err(bad_name(alloc, field));
    }
    let object = text.copy(alloc)?;
    Ok(object)
}

/// The entity that a field's text names.
#[tactic(auto, using(crate::proofs::Formed::entity_formed), unfolding(reg_json::specs::Fields::entity_from))]
fn entity_from(alloc: Global, field: &str, text: &[u8]) -> Result<Entity, Unread>
    ensures read { Gives result (entity_from field.now text.now) }
    ensures form { IfOk result (λ entity. is_entity entity ≡ true) }
{
    match Entity::parse(alloc, text)? {
        Some(entity) => Ok(entity),
        None => Err(bad_name(alloc, field)),
    }
}

/// The extension that a field's text is.
#[tactic(auto, unfolding(reg_json::specs::Fields::extension_from))]
pub(crate) fn extension_from(alloc: Global, field: &str, text: &Text) -> Result<Text, Unread>
    ensures read { Gives result (extension_from field.now text.now) }
    ensures form { IfOk result (λ extension. is_extension extension ≡ true) }
{
    if !is_extension(text.bytes()) {
        return Err(bad_name(alloc, field));
    }
    let extension = text.copy(alloc)?;
    Ok(extension)
}

/// The moment that a field's text names.
#[tactic(auto, using(crate::proofs::Formed::moment_formed))]
fn moment_in(alloc: Global, field: &str, text: &[u8]) -> Result<Moment, Unread>
    ensures read { Gives result (ok_or (moment_of text.now) (refusal.BadMoment field.now)) }
    ensures form { IfOk result (λ moment. is_optional_moment (Some moment) ≡ true) }
{
    match Moment::parse(text) {
        Some(moment) => Ok(moment),
        None => Err(bad_moment(alloc, field)),
    }
}

/// The moment that a field's text names, if the field stands there.
#[tactic(auto, unfolding(reg_json::specs::Fields::moment_from))]
fn moment_from(alloc: Global, field: &str, text: &Option<Text>) -> Result<Option<Moment>, Unread>
    ensures read { Gives result (moment_from field.now text.now) }
    ensures form { IfOk result (λ moment. is_optional_moment moment ≡ true) }
{
    match text {
        None => Ok(None),
        Some(text) => match moment_in(alloc, field, text.bytes()) {
            Ok(moment) => Ok(Some(moment)),
            Err(fault) => Err(fault),
        },
    }
}

/// Whether so many may be asked for.
fn is_count(number: u64) -> bool
    ensures { result ≡ (nat_le 1 number && nat_le number 1000) }
{
    1 <= number && number <= 1000
}

/// A number from 1 to 1,000.
fn number_from(alloc: Global, field: &str, number: Option<u64>) -> Result<u64, Unread>
    ensures read { Gives result (number_from field.now number) }
    ensures form { IfOk result (λ n. (nat_le 1 n && nat_le n 1000) ≡ true) }
{
    match number {
        Some(n) => if is_count(n) {
            Ok(n)
        } else {
            Err(bad(alloc, field))
        },
        None => Err(bad(alloc, field)),
    }
}

/// The bytes of the entity that is asked for; none where it is missing.
fn entity_text(parameters: &Parameters) -> &[u8]
    ensures { result.now ≡ entity_text parameters.now }
{
    match &parameters.entity {
        Some(entity) => entity.bytes(),
        None => b"".as_slice(),
    }
}

#[tactic(auto, using(crate::proofs::Formed::group_get_formed))]
fn group_get(alloc: Global, parameters: &Parameters) -> Result<Query, Unread>
    ensures read { Gives result (query_by route.Group parameters.now) }
    ensures form { IfOk result (λ query. query_has_form query ≡ true) }
{
    let group = name_from(alloc, "group", parameters.path.bytes())?;
    Ok(Query::GroupGet { group })
}

#[tactic(auto, using(crate::proofs::Formed::members_formed))]
fn members(alloc: Global, parameters: &Parameters) -> Result<Query, Unread>
    ensures read { Gives result (query_by route.Members parameters.now) }
    ensures form { IfOk result (λ query. query_has_form query ≡ true) }
{
    let group = name_from(alloc, "group", parameters.path.bytes())?;
    let at = moment_from(alloc, "at", &parameters.at)?;
    Ok(Query::Members { group, at })
}

#[tactic(auto, using(crate::proofs::Formed::rows_formed))]
fn rows(alloc: Global, parameters: &Parameters) -> Result<Query, Unread>
    ensures read { Gives result (query_by route.Rows parameters.now) }
    ensures form { IfOk result (λ query. query_has_form query ≡ true) }
{
    let group = name_from(alloc, "group", parameters.path.bytes())?;
    Ok(Query::Rows { group })
}

#[tactic(auto, using(crate::proofs::Formed::folder_list_formed))]
fn folder_list(alloc: Global, parameters: &Parameters) -> Result<Query, Unread>
    ensures read { Gives result (query_by route.Folder parameters.now) }
    ensures form { IfOk result (λ query. query_has_form query ≡ true) }
{
    let folder = folder_from(alloc, "folder", &parameters.path)?;
    Ok(Query::FolderList { folder })
}

#[tactic(auto, using(crate::proofs::Formed::groups_formed))]
fn groups(alloc: Global, parameters: &Parameters) -> Result<Query, Unread>
    ensures read { Gives result (query_by route.Groups parameters.now) }
    ensures form { IfOk result (λ query. query_has_form query ≡ true) }
{
    let subject = entity_from(alloc, "subject", parameters.path.bytes())?;
    let at = moment_from(alloc, "at", &parameters.at)?;
    Ok(Query::Groups { subject, at })
}

#[tactic(auto, using(crate::proofs::Formed::history_formed))]
fn history(alloc: Global, parameters: &Parameters) -> Result<Query, Unread>
    ensures read { Gives result (query_by route.History parameters.now) }
    ensures form { IfOk result (λ query. query_has_form query ≡ true) }
{
    let group = name_from(alloc, "group", parameters.path.bytes())?;
    Ok(Query::History { group })
}

#[tactic(auto, using(crate::proofs::Formed::log_formed))]
fn log(alloc: Global, parameters: &Parameters) -> Result<Query, Unread>
    ensures read { Gives result (query_by route.Log parameters.now) }
    ensures form { IfOk result (λ query. query_has_form query ≡ true) }
{
    let consumer = extension_from(alloc, "consumer", &parameters.path)?;
    let max = number_from(alloc, "max", parameters.max)?;
    Ok(Query::Log { consumer, max })
}

#[tactic(auto, using(crate::proofs::Formed::grants_formed))]
fn grants(alloc: Global, parameters: &Parameters) -> Result<Query, Unread>
    ensures read { Gives result (query_by route.Grants parameters.now) }
    ensures form { IfOk result (λ query. query_has_form query ≡ true) }
{
    let object = object_from(alloc, "object", &parameters.path)?;
    let at = moment_from(alloc, "at", &parameters.at)?;
    Ok(Query::Grants { object, at })
}

#[tactic(auto, using(crate::proofs::Formed::may_formed))]
fn may(alloc: Global, parameters: &Parameters) -> Result<Query, Unread>
    ensures read { Gives result (query_by route.Privileges parameters.now) }
    ensures form { IfOk result (λ query. query_has_form query ≡ true) }
{
    let object = object_from(alloc, "object", &parameters.path)?;
    let entity = entity_from(alloc, "entity", entity_text(parameters))?;
    let at = moment_from(alloc, "at", &parameters.at)?;
    Ok(Query::May { object, entity, at })
}

#[tactic(auto, using(crate::proofs::Formed::attributes_formed))]
fn attributes(alloc: Global, parameters: &Parameters) -> Result<Query, Unread>
    ensures read { Gives result (query_by route.Attributes parameters.now) }
    ensures form { IfOk result (λ query. query_has_form query ≡ true) }
{
    let object = object_from(alloc, "object", &parameters.path)?;
    let at = moment_from(alloc, "at", &parameters.at)?;
    Ok(Query::Attributes { object, at })
}

/// The query that a route asks. BadRequest comes before BadName.
#[tactic(auto, using(crate::proofs::Formed::admin_formed))]
pub(crate) fn query_by(
    alloc: Global,
    route: Route,
    parameters: &Parameters,
) -> Result<Query, Unread>
    ensures read { Gives result (query_by route parameters.now) }
    ensures form { IfOk result (λ query. query_has_form query ≡ true) }
{
    match route {
        Route::Group => group_get(alloc, parameters),
        Route::Members => members(alloc, parameters),
        Route::Rows => rows(alloc, parameters),
        Route::History => history(alloc, parameters),
        Route::Folder => folder_list(alloc, parameters),
        Route::Log => log(alloc, parameters),
        Route::Groups => groups(alloc, parameters),
        Route::Grants => grants(alloc, parameters),
        Route::Privileges => may(alloc, parameters),
        Route::Attributes => attributes(alloc, parameters),
        Route::Admin => Ok(Query::Admin),
        _ => Err(bad(alloc, "")),
    }
}
