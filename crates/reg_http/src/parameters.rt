//! What a target tells beside its route.

ghost use Rattle.std.specs.Prelude.{◌≡◌, [], None, IfOk, IsUtf8, Ok, Err, codes, option_map};
ghost use Rattle.std.specs.Prelude.{option_and_then};
ghost use Rattle.reg_http.specs.Routes.{query_of};
ghost use Rattle.reg_http.specs.Queries.{pairs, wrong_key, value_of, number_of};
ghost use Rattle.reg_http.specs.Parameters.{parameter_in, parameter_name, missing, parameters_by};
ghost use Rattle.reg_http.specs.Parameters.{unless, read_by};

use crate::pieces::{after, before};
use crate::query::{Pair, number_of, read_pairs, value_of, wrong_key};
use crate::route::Route;
use percent_encoding::percent_decode;
use reg_base::Text;
use std::alloc::{AllocError, Global};

/// What a target tells beside its route.
#[derive(Drop)]
pub struct Parameters {
    /// What the parameter of the path stands for, or the empty text where the route has none.
    pub path: Text,
    pub at: Option<Text>,
    pub entity: Option<Text>,
    /// A number from 1 to 1,000.
    pub max: Option<u64>,
}

/// What the parameter of a target's path stands for. A `+` stays.
#[tactic(auto, unfolding(crate::specs::Parameters::parameter_in))]
fn parameter_in(alloc: Global, target: &[u8]) -> Result<Vec<u8>, AllocError>
    ensures { IfOk result (λ bytes. bytes.items ≡ parameter_in target.now) }
{
    let rest = after(after(before(target, b'?'), b'/'), b'/');
    let part = before(rest, b'/');
    let mut bytes = Vec::with_capacity(alloc, part.len())?;
    percent_decode(part).append_to(&mut bytes)?;
    Ok(bytes)
}

/// The name of the route's parameter.
fn parameter_name(route: Route) -> &'static str
    ensures { result.now ≡ parameter_name route }
{
    match route {
        Route::Load => "job",
        Route::Group | Route::Members | Route::Rows | Route::History => "group",
        Route::Folder => "folder",
        Route::Groups => "subject",
        Route::Grants | Route::Privileges | Route::Attributes => "object",
        Route::Log => "consumer",
        Route::Requests | Route::Admin => "",
    }
}

/// The name of what the route needs and didn't get.
fn missing(route: Route, parameters: &Parameters) -> Option<&'static str>
    ensures { option_map (λ name. name.now) result ≡ missing route parameters.now }
{
    match route {
        Route::Privileges => if parameters.entity.is_none() {
            Some("entity")
        } else {
            None
        },
        Route::Log => if parameters.max.is_none() {
            Some("max")
        } else {
            None
        },
        _ => None,
    }
}

/// The number that is asked for by `max`, if it is one from 1 to 1,000.
fn max_of(alloc: Global, found: &[Pair]) -> Result<Option<u64>, AllocError>
    ensures { IfOk result (λ max. max
        ≡ option_and_then number_of (value_of (codes "max") found.now)) }
{
    match value_of(alloc, found, b"max")? {
        Some(text) => Ok(number_of(text.bytes())),
        None => Ok(None),
    }
}

/// The parameters by the pairs of the query.
fn parameters_by(alloc: Global, path: Text, found: &[Pair]) -> Result<Parameters, AllocError>
    ensures { IfOk result (λ parameters. parameters ≡ parameters_by path found.now) }
{
    let at = value_of(alloc, found, b"at")?;
    let entity = value_of(alloc, found, b"entity")?;
    let max = max_of(alloc, found)?;
    Ok(Parameters {
        path,
        at,
        entity,
        max,
    })
}

/// The parameters, or the name of the one that is missing.
fn needed(
    alloc: Global,
    route: Route,
    parameters: Parameters,
) -> Result<Result<Parameters, Text>, AllocError>
    ensures { IfOk result (λ read. read ≡ unless (missing route parameters) (Ok parameters)) }
{
    match missing(route, &parameters) {
        Some(name) => Ok(Err(Text::new(alloc, name)?)),
        None => Ok(Ok(parameters)),
    }
}

/// The parameters by the query, or the field of it that is refused.
#[tactic(auto, unfolding(crate::specs::Parameters::read_by))]
fn read_query(
    alloc: Global,
    route: Route,
    path: Text,
    query: &[u8],
) -> Result<Result<Parameters, Text>, AllocError>
    ensures { IfOk result (λ read. read ≡ read_by route path (pairs query.now)) }
{
    let found = read_pairs(alloc, query)?;
    match wrong_key(alloc, route, &found)? {
        Some(key) => Ok(Err(key)),
        None => {
            let parameters = parameters_by(alloc, path, &found)?;
            needed(alloc, route, parameters)
        }
    }
}

/// What a target of this route tells beside it, or the name of the field that is refused: the
/// parameter of the path where it isn't UTF-8; else the first key of the query that the route
/// doesn't take or that comes twice; else a missing `entity`, or a `max` that is missing or no
/// number from 1 to 1,000. The only error is out of memory.
pub fn read_parameters(
    alloc: Global,
    route: Route,
    target: &[u8],
) -> Result<Result<Parameters, Text>, AllocError>
    ensures no_text { IfOk result (λ read. ¬ (IsUtf8 (parameter_in target.now))
        → read ≡ Err (parameter_name route)) }
    ensures text { IfOk result (λ read. IsUtf8 (parameter_in target.now)
        → read ≡ read_by route (parameter_in target.now) (pairs (query_of target.now))) }
{
    let bytes = parameter_in(alloc, target)?;
    match Text::of(alloc, bytes.as_slice())? {
        Some(path) => read_query(alloc, route, path, after(target, b'?')),
        None => Ok(Err(Text::new(alloc, parameter_name(route))?)),
    }
}
