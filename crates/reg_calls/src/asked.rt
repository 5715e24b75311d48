// What a message asks, by its path, its method and its caller.
ghost use Rattle.std.specs.Prelude.{◌≡◌, List, ℕ};
ghost use Rattle.reg_http.specs.declared.call.Call.{Call};
ghost use Rattle.reg_calls.specs.Asked.{asked_of, asked_at, route_in, closes_by, is_known};

use reg_http::{Call, Route, Routes};

/// What a message asks, before more of it is read.
#[derive(Clone, Copy, Drop)]
pub enum Asked {
    /// Its path has no route.
    NoRoute,
    /// The route has another method.
    NoMethod(Route),
    /// Not exactly one caller is named.
    NoCaller,
    /// What the route stands for.
    Routed(Route),
}

/// What a message of this route asks.
fn asked_at(route: Route, call: &Call) -> Asked
    ensures { result ≡ asked_at route call.now }
{
    if call.method.bytes() != route.method() {
        return Asked::NoMethod(route);
    }
    match call.caller {
        Some(_) => Asked::Routed(route),
        None => Asked::NoCaller,
    }
}

/// The route of a target, by its path.
fn route_in(routes: &Routes, target: &[u8]) -> Option<Route>
    ensures { result ≡ route_in target.now }
{
    routes.find(target)
}

/// What a message asks.
#[tactic(auto, unfolding(crate::specs::Asked::asked_of))]
pub fn asked_of(routes: &Routes, call: &Call) -> Asked
    ensures { result ≡ asked_of call.now }
{
    match route_in(routes, call.target.bytes()) {
        Some(route) => asked_at(route, call),
        None => Asked::NoRoute,
    }
}

/// Whether a method is GET or POST.
fn is_known(method: &[u8]) -> bool
    ensures { result ≡ is_known method.now }
{
    method == b"GET".as_slice() || method == b"POST".as_slice()
}

/// Whether the connection closes after the response to a message that asks this.
pub fn closes_by(asked: &Asked, call: &Call) -> bool
    ensures { result ≡ closes_by asked.now call.now }
{
    match asked {
        Asked::NoMethod(_) => call.close || !is_known(call.method.bytes()),
        _ => call.close,
    }
}
