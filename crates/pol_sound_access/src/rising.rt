//! Rows whose ids or serials rise, and ids that were given out.
ghost use Rattle.std.specs.Prelude.{◌≡◌};
ghost use Rattle.pol_sound_access.specs.Judged.{is_given, rises};

use pol_tables::{Keyed, Rows};

/// Whether the keys of the rows rise, from the least one to below the next one.
#[tactic(auto, unfolding(crate::specs::Judged::rises))]
pub fn rises<R: Keyed>(rows: Rows<'_, R>, least: u64, next: u64) -> bool
    ensures { result ≡ rises R.key least next rows.entry }
{
    let mut low = least;
    for row in rows {
        let key = row.key();
        if key < low {
            return false;
        }
        if key >= next {
            return false;
        }
        low = key + 1;
    }
    true
}

/// Whether the id was given out.
pub fn is_given(next_id: u64, id: u64) -> bool
    ensures { result ≡ is_given next_id id }
{
    1 <= id && id < next_id
}
