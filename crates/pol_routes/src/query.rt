//! The values of a query's keys (URL Standard, section 5.1).
ghost use Rattle.std.specs.Prelude.{◌≡◌, None, Some, option_map, IfOk};
ghost use Rattle.std.specs.List.{last_or};
ghost use Rattle.std.specs.Str.{bytes_eq};
ghost use Rattle.form_urlencoded.specs.Form.{decode, parse};
ghost use Rattle.pol_requests.specs.Refused.{Meets};
ghost use Rattle.pol_routes.specs.Form.{values_of};
ghost use Rattle.pol_routes.specs.Query as spec;

use crate::form::{decoded, decoded_bytes};
use form_urlencoded::raw_pairs;
use pol_requests::{Unplanned, unreadable};
use pol_types::{OutOfMemory, Text};
use std::alloc::Global;

/// The value of a key of a query, if it is there: the last one where there are several. It is unreadable, by the name
/// of its key, where it isn't UTF-8 once decoded. Other keys and earlier values may be any bytes.
pub fn query_value(alloc: Global, query: &[u8], key: &str) -> Result<Option<Text>, Unplanned>
    ensures { Meets (spec.query_value key.now query.now) result }
{
    match last_value(alloc, query, key)? {
        Some(value) => value_text(alloc, value, key),
        None => Ok(None),
    }
}

/// The last value of a key, as it was sent.
fn last_value<'q>(
    alloc: Global,
    query: &'q [u8],
    key: &str,
) -> Result<Option<&'q [u8]>, OutOfMemory>
    ensures { IfOk result (λ last. option_map (λ value. decode value.now) last
        ≡ last_or None (values_of key.now (parse query.now))) }
{
    let mut last = None;
    for (name, value) in raw_pairs(query) {
        if has_name(alloc, name, key)? {
            last = Some(value);
        }
    }
    Ok(last)
}

/// Whether a name of a query stands for the key.
fn has_name(alloc: Global, name: &[u8], key: &str) -> Result<bool, OutOfMemory>
    ensures { IfOk result (λ same. same ≡ bytes_eq (decode name.now) key.now) }
{
    let bytes = decoded_bytes(alloc, name)?;
    Ok(bytes.as_slice() == key.as_bytes())
}

/// The text of a key's value.
#[tactic(auto, using(pol_requests::proofs::RefusedLemmas::refused), unfolding(crate::specs::Query::readable))]
fn value_text(alloc: Global, value: &[u8], key: &str) -> Result<Option<Text>, Unplanned>
    ensures { Meets (spec.readable key.now (Some (decode value.now))) result }
{
    match decoded(alloc, value)? {
        Some(text) => Ok(Some(text)),
        None => Err(unreadable(alloc, key)),
    }
}
