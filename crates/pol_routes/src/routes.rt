//! The routes of the table's paths.
ghost use Rattle.std.specs.Prelude.{◌≡◌, ◌≢◌, IfOk, OnOk, [], map, option_map, find};
ghost use Rattle.matchit.specs.Route.{parse_route};
ghost use Rattle.pol_requests.specs.Table.{entry_of};
ghost use Rattle.pol_routes.specs.Route as spec;

use matchit::{InsertError, Router};
use pol_requests::{RouteRefused, Row, table_rows};
use pol_types::OutOfMemory;
use std::alloc::Global;
use std::marker::Model;

/// The routes of the table's paths, made once and lent to each plan.
#[derive(Drop)]
pub struct Routes {
    router: Router<usize>,
}

impl Model for Routes {
    ghost use Rattle.std.specs.Prelude.{◌≡◌};
    ghost use Rattle.pol_routes.specs.Route.{PathRoutes, table_routes};

    ghost Value = { PathRoutes };

    ghost view = { λ routes. routes.router };

    ghost invariant = { λ routes. routes.router ≡ table_routes };
}

impl Routes {
    /// The routes. Nothing but want of memory is in their way.
    #[tactic(auto, unfolding(crate::specs::Route::table_routes))]
    pub fn new(alloc: Global) -> Result<Routes, OutOfMemory>
        ensures { IfOk result (λ routes. routes ≡ spec.table_routes) }
    {
        let mut router = Router::new(alloc);
        insert_paths(&mut router, table_rows())?;
        Ok(Routes { router })
    }

    /// The row of the table by which a request of this method and path is served.
    #[tactic(auto, unfolding(crate::specs::Route::row_of))]
    pub(crate) fn row(&self, method: &[u8], path: &str) -> Result<&'static Row, RouteRefused>
        ensures { spec.Finds (spec.row_of method.now path.now) result }
    {
        let Some(place) = self.place(path) else {
            return Err(RouteRefused::NoRoute);
        };
        match row_at(table_rows(), method, place) {
            Some(row) => Ok(row),
            None => Err(RouteRefused::WrongMethod),
        }
    }

    /// The place in the table of the first row with the path that a path is found to be.
    fn place(&self, path: &str) -> Option<usize>
        ensures { result ≡ spec.path_found path.now }
    {
        match self.router.at(path) {
            Ok(found) => Some(*found.value),
            Err(_) => None,
        }
    }
}

/// The row of a method and of the path of the row at a place.
fn row_at<'t>(rows: &'t [Row], method: &[u8], place: usize) -> Option<&'t Row>
    ensures { option_map (λ row. entry_of row.now) result ≡ spec.row_at method.now place (map entry_of rows.now) }
{
    match rows.get(place) {
        Some(row) => row_by(rows, method, row.1),
        None => None,
    }
}

/// The row of a method and path.
fn row_by<'t>(rows: &'t [Row], method: &[u8], path: &str) -> Option<&'t Row>
    ensures { option_map (λ row. row.now) result
        ≡ find (λ row. spec.serves method.now path.now (entry_of row)) rows.now }
{
    rows.iter()
        .find(|row| row.0.as_bytes() == method && row.1 == path)
}

/// Adds the paths of rows, each once.
fn insert_paths(router: &mut Router<usize>, rows: &[Row]) -> Result<(), OutOfMemory>
    ensures { OnOk result (router.new ≡ spec.routes_from 0 router.old (map entry_of rows.now)) }
{
    for (place, row) in rows.iter().enumerate() {
        insert_path(router, row.1, place)?;
    }
    Ok(())
}

/// Adds a path, unless it is there.
fn insert_path(router: &mut Router<usize>, path: &str, place: usize) -> Result<(), OutOfMemory>
    ensures { OnOk result (router.new ≡ spec.with_scan (parse_route path.now) place router.old) }
{
    match router.insert(path, place) {
        Ok(()) => Ok(()),
        Err(error) => after_refusal(error),
    }
}

/// A path that is no route or is there is left out; want of memory is handed back.
fn after_refusal(error: InsertError) -> Result<(), OutOfMemory>
    ensures { OnOk result (error ≢ InsertError.OutOfMemory) }
{
    match error {
        InsertError::OutOfMemory => Err(OutOfMemory),
        _ => Ok(()),
    }
}
