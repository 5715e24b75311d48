//! Which paths have a route. This function does nothing: its clauses are the laws.

ghost use Rattle.std.specs.Prelude.{◌≡◌, ℕ, ◌<◌, List, Some, All};
ghost use Rattle.reg_http.specs.Routes.{route_of};
ghost use Rattle.reg_http.specs.Parameters.{second_segment};
ghost use Rattle.reg_http.specs.Paths.{IsPathOf};
ghost use Rattle.reg_http.specs.declared.route.Route.{Route};

/// A path that has a route is the route's own, with one segment as the parameter in its place, and
/// that is the parameter that is read; and each such path has the route.
pub fn paths_are_of_routes()
    ensures own { (path : List ℕ) (route : Route) → All (λ byte. byte < 256) path
        → route_of path ≡ Some route
        → IsPathOf route (second_segment path) path }
    ensures found { (path part : List ℕ) (route : Route) → All (λ byte. byte < 256) path
        → IsPathOf route part path
        → route_of path ≡ Some route }
{}
