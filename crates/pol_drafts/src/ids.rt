ghost use Rattle.std.specs.Prelude.{◌≡◌, ◌+◌};
ghost use Rattle.pol_drafts.specs.Ids.{given, has_id, is_above, still_last};

use pol_meta::Why;

/// The highest id that a schema, a spec, an order or a partition field may have.
const HIGHEST_ID: u64 = 2_147_483_647;

/// Whether an id is among these.
pub fn has_id(ids: &[u32], id: u32) -> bool
    ensures { result ≡ has_id id ids.now }
{
    ids.contains(&id)
}

/// The last added, where it isn't among those that are removed.
pub fn still_last(gone: &[u32], last: Option<u32>) -> Option<u32>
    ensures { result ≡ still_last gone.now last }
{
    let id = last?;
    if has_id(gone, id) {
        return None;
    }
    Some(id)
}

/// Whether an id is above the highest that there may be.
pub fn is_above(id: u64) -> bool
    ensures { result ≡ is_above id }
{
    id > HIGHEST_ID
}

/// The id after the highest that is there.
#[tactic(auto, using(crate::proofs::IdsLemmas::next_ids))]
pub fn next_after(highest: u32) -> Result<u32, Why>
    ensures { result ≡ given (highest + 1) }
{
    if highest as u64 >= HIGHEST_ID {
        return Err(Why::IdsUsedUp);
    }
    Ok(highest + 1)
}
