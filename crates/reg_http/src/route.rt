//! The routes.

ghost use Rattle.std.specs.Prelude.{◌≡◌, [], None, IfOk, OnOk, IsUtf8};
ghost use Rattle.reg_http.specs.Routes.{added, with_groups, with_objects, with_others, table};
ghost use Rattle.reg_http.specs.Routes.{path_of, route_of, method_of};

use crate::pieces::before;
use matchit::Router;
use std::alloc::{AllocError, Global};
use std::marker::Model;

/// What a path asks for.
#[derive(Clone, Copy, Drop)]
pub enum Route {
    Requests,
    Load,
    Group,
    Members,
    Rows,
    History,
    Folder,
    Groups,
    Grants,
    Privileges,
    Attributes,
    Log,
    Admin,
}

impl Route {
    /// The method of the route, `GET` or `POST`.
    pub fn method(&self) -> &'static [u8]
        ensures { result.now ≡ method_of self.now }
    {
        match self {
            Route::Requests | Route::Load => b"POST",
            _ => b"GET",
        }
    }
}

/// The routes with one more.
fn add(router: &mut Router<Route>, pattern: &str, route: Route) -> Result<(), AllocError>
    ensures { OnOk result (router.new ≡ added router.old pattern.now route) }
{
    match router.insert(pattern, route) {
        Ok(()) => Ok(()),
        Err(_) => Err(AllocError),
    }
}

/// The routes on groups and folders.
fn add_groups(router: &mut Router<Route>) -> Result<(), AllocError>
    ensures { OnOk result (router.new ≡ with_groups router.old) }
{
    add(router, "/groups/{group}", Route::Group)?;
    add(router, "/groups/{group}/members", Route::Members)?;
    add(router, "/groups/{group}/rows", Route::Rows)?;
    add(router, "/groups/{group}/history", Route::History)?;
    add(router, "/folders/{folder}", Route::Folder)?;
    Ok(())
}

/// The routes on subjects and objects.
fn add_objects(router: &mut Router<Route>) -> Result<(), AllocError>
    ensures { OnOk result (router.new ≡ with_objects router.old) }
{
    add(router, "/subjects/{subject}/groups", Route::Groups)?;
    add(router, "/objects/{object}/grants", Route::Grants)?;
    add(router, "/objects/{object}/privileges", Route::Privileges)?;
    add(router, "/objects/{object}/attributes", Route::Attributes)?;
    Ok(())
}

/// The other routes.
fn add_others(router: &mut Router<Route>) -> Result<(), AllocError>
    ensures { OnOk result (router.new ≡ with_others router.old) }
{
    add(router, "/requests", Route::Requests)?;
    add(router, "/jobs/{job}/load", Route::Load)?;
    add(router, "/consumers/{consumer}/log", Route::Log)?;
    add(router, "/admin", Route::Admin)?;
    Ok(())
}

/// The table of routes. It is built once.
#[derive(Drop)]
pub struct Routes {
    router: Router<Route>,
}

impl Model for Routes {
    ghost use Rattle.std.specs.Prelude.{◌≡◌};

    ghost Value = { Unit {0} };

    ghost use Rattle.reg_http.specs.Routes.{table};

    ghost view = { λ routes. tt };

    ghost invariant = { λ routes. routes.router ≡ table };
}

impl Routes {
    /// The table. The only error is out of memory.
    pub fn new(alloc: Global) -> Result<Routes, AllocError> {
        let mut router = Router::new(alloc);
        add_groups(&mut router)?;
        add_objects(&mut router)?;
        add_others(&mut router)?;
        Ok(Routes { router })
    }

    /// The route of a target, by its path. None where the path isn't in the table, or isn't UTF-8.
    pub fn find(&self, target: &[u8]) -> Option<Route>
        ensures text { IsUtf8 (path_of target.now) → result ≡ route_of (path_of target.now) }
        ensures no_text { ¬ (IsUtf8 (path_of target.now)) → result ≡ None }
    {
        match str::from_utf8(before(target, b'?')) {
            Ok(path) => match self.router.at(path) {
                Ok(found) => Some(*found.value),
                Err(_) => None,
            },
            Err(_) => None,
        }
    }
}
