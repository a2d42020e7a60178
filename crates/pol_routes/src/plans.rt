//! What a message asks of the catalogue, and the command of such a plan.
ghost use Rattle.std.specs.Prelude.{◌≡◌, IfOk, IsUtf8};
ghost use Rattle.pol_http.specs.Message.{Message};
ghost use Rattle.pol_http.specs.Next.{IsMessageAt, LiesWithin};
ghost use Rattle.pol_requests.specs.Refused.{Meets};
ghost use Rattle.pol_routes.specs.Plan as spec;
ghost use Rattle.pol_routes.specs.Request.{request_of};
ghost use Rattle.pol_routes.specs.Route as route;
ghost use Rattle.pol_routes.specs.Target.{path_of};
ghost use Rattle.pol_routes.specs.Verbs.{IsActionOf};

use crate::bearer::caller_of;
use crate::delegation::{is_delegated, words_drawn};
use crate::requests::action_of;
use crate::routed::Routed;
use crate::routes::Routes;
use crate::target;
use crate::verb::{Verb, verb_of};
use httparse::spans::Span;
use pol_commands::{Action, Caller, Command, Words4};
use pol_http::Head;
use pol_requests::{Endpoint, RouteRefused, Row, Service, Unplanned};
use std::alloc::Global;
use std::str;

/// What a request is charged beside its bytes.
pub const REQUEST_CHARGE: u64 = 512;

/// What a message asks for, before the clock is read and words are drawn.
#[derive(Drop)]
pub struct Planned {
    pub caller: Caller,
    pub action: Action,
    /// How many random words the action needs, as the table says, 4 at most.
    pub words: u8,
    /// What the request counts towards the bound of a run: its bytes and `REQUEST_CHARGE`.
    pub charge: u64,
    /// What is done with objects where the action is allowed; there exactly for a request for objects. What is put are
    /// the bytes of the message's body.
    pub verb: Option<Verb>,
}

/// The plan of the message of which these are the ranges: its route, its method, and then what it holds, in this order.
#[tactic(auto, unfolding(crate::specs::Plan::plan_of))]
pub fn plan(
    alloc: Global,
    routes: &Routes,
    bytes: &[u8],
    head: &Head,
    body: Span,
) -> Result<Planned, Unplanned>
    requires { LiesWithin bytes.now head.now body body.end }
    ensures plan { (message : Message) → IsMessageAt bytes.now head.now body body.end message
        → Meets (spec.plan_of message) result }
    ensures verb { IfOk result (λ planned. IsActionOf planned.verb planned.action) }
{
    let target = head.target.of(bytes);
    let row = row_of(routes, head.method.of(bytes), target)?;
    let caller = caller_of(alloc, bytes, head)?;
    let charge = body.end as u64 + REQUEST_CHARGE;
    let message = Routed {
        pattern: row.1.as_bytes(),
        target,
        body: body.of(bytes),
        delegated: is_delegated(bytes, head),
    };
    served_plan(alloc, row.2, charge, caller, &message)
}

/// The row by which a request of this method and target is served.
fn row_of(routes: &Routes, method: &[u8], target: &[u8]) -> Result<&'static Row, RouteRefused>
    ensures { IsUtf8 target.now → route.Finds (route.row_of method.now (path_of target.now)) result }
{
    match str::from_utf8(target::path_of(target)) {
        Ok(path) => routes.row(method, path),
        Err(_) => Err(RouteRefused::NoRoute),
    }
}

/// The plan of a request by what such requests ask for.
#[tactic(auto, using(pol_requests::proofs::RefusedLemmas::chained, crate::proofs::VerbLemmas::asked_by), unfolding(crate::specs::Plan::served_plan))]
fn served_plan(
    alloc: Global,
    service: Service,
    charge: u64,
    caller: Caller,
    message: &Routed<'_>,
) -> Result<Planned, Unplanned>
    ensures plan { Meets (spec.served_plan charge caller (request_of message.now) service) result }
    ensures verb { IfOk result (λ planned. IsActionOf planned.verb planned.action) }
{
    let Service { endpoint, words } = service;
    Ok(Planned {
        action: action_of(alloc, endpoint, message)?,
        caller: caller_for(endpoint, caller),
        words: words_drawn(endpoint, message.delegated, words),
        charge,
        verb: verb_of(endpoint),
    })
}

/// Whose a request is. A token request is nobody's.
fn caller_for(endpoint: Endpoint, caller: Caller) -> Caller
    ensures { result ≡ spec.caller_for endpoint caller }
{
    match endpoint {
        Endpoint::OpenSession => Caller::Nobody,
        _ => caller,
    }
}

/// The command of a plan at a moment, in milliseconds since the Unix epoch, with the words that were drawn for it.
#[tactic(auto, unfolding(crate::specs::Plan::command_of))]
pub fn command_of(planned: Planned, moment: u64, words: Words4) -> Command
    ensures { result ≡ spec.command_of planned moment words }
{
    Command {
        caller: planned.caller,
        moment,
        words,
        charge: planned.charge,
        action: planned.action,
    }
}
