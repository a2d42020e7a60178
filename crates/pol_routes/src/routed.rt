//! A request whose row of the table is found, and what its path names.
ghost use Rattle.pol_requests.specs.Refused.{Meets};
ghost use Rattle.pol_routes.specs.Request as spec;

use crate::segment::{name_segment, namespace_segment, plain_segment, segment_for};
use crate::target::path_of;
use pol_names::{Name, Namespace, Plain};
use pol_requests::Unplanned;
use std::alloc::Global;

// The parameters of the table's paths that stand for a name.
pub(crate) const PREFIX: &[u8] = b"{prefix}";

pub(crate) const NAMESPACE: &[u8] = b"{namespace}";

pub(crate) const TABLE: &[u8] = b"{table}";

pub(crate) const VIEW: &[u8] = b"{view}";

pub(crate) const CATALOG: &[u8] = b"{catalog}";

pub(crate) const CATALOG_ROLE: &[u8] = b"{catalog_role}";

pub(crate) const PRINCIPAL: &[u8] = b"{principal}";

pub(crate) const ROLE: &[u8] = b"{role}";

/// A request whose row of the table is found.
#[derive(Clone, Copy)]
pub(crate) struct Routed<'r> {
    /// The path of the row, which is the pattern of the request's own.
    pub pattern: &'r [u8],
    pub target: &'r [u8],
    pub body: &'r [u8],
    /// Whether its fields ask for a storage token.
    pub delegated: bool,
}

impl Routed<'_> {
    /// The plain name that the path has for a parameter.
    #[tactic(auto, unfolding(crate::specs::Request::plain))]
    pub(crate) fn plain(&self, alloc: Global, parameter: &[u8]) -> Result<Plain, Unplanned>
        ensures { Meets (spec.plain parameter.now (spec.request_of self.now)) result }
    {
        let path = path_of(self.target);
        plain_segment(alloc, segment_for(path, self.pattern, parameter))
    }

    /// The namespace that the path has.
    #[tactic(auto, unfolding(crate::specs::Request::namespace))]
    pub(crate) fn namespace(&self, alloc: Global) -> Result<Namespace, Unplanned>
        ensures { Meets (spec.namespace (spec.request_of self.now)) result }
    {
        let path = path_of(self.target);
        namespace_segment(alloc, segment_for(path, self.pattern, NAMESPACE))
    }

    /// The name of a table or a view that the path has for a parameter.
    #[tactic(auto, unfolding(crate::specs::Request::part))]
    pub(crate) fn part(&self, alloc: Global, parameter: &[u8]) -> Result<Name, Unplanned>
        ensures { Meets (spec.part parameter.now (spec.request_of self.now)) result }
    {
        let path = path_of(self.target);
        name_segment(alloc, segment_for(path, self.pattern, parameter))
    }
}
