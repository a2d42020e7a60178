//! What a run reports.
ghost use Rattle.std.specs.Prelude.{◌≡◌};
ghost use Rattle.pol_cli.specs.Reasons as spec;

use crate::reason::Reason;
use pol_server::Served;
use pol_types::Listed;

/// A link that was served, and the worker that served it.
#[derive(Drop)]
pub struct ServedLink {
    pub worker: u32,
    pub served: Served,
}

/// What a run reports: the exit status, its reason, and the links that it served.
#[derive(Drop)]
pub struct Report {
    pub status: u8,
    pub reason: Reason,
    pub served: Listed<ServedLink>,
}

impl Report {
    /// A report of this reason, over these links.
    pub fn of(reason: Reason, served: Vec<ServedLink>) -> Self
        ensures { result ≡ spec.report_of reason served.items }
    {
        Report {
            status: reason.status(),
            reason,
            served: Listed::from(served),
        }
    }
}
