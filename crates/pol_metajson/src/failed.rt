//! Errors, seen from one step further out.
ghost use Rattle.std.specs.Prelude.{Err, IsErr};
ghost use Rattle.pol_readers.specs.Reading.{Gives, Reading, under};
ghost use Rattle.pol_readers.specs.declared.path.Step.TheVariants.{Key, Place};

use pol_readers::{ReadError, under_key, under_place};
use std::alloc::Global;

/// The error of the member of that key, seen from the object.
pub(crate) fn failed_under<T>(alloc: Global, key: &str, error: ReadError) -> Result<T, ReadError>
    ensures gives { (reading : Reading T) → Gives (Err error) reading → Gives result (under (Key key.now) reading) }
    ensures fails { IsErr result }
{
    under_key(alloc, key, Err(error))
}

/// The error of the member at that place, seen from the list.
pub(crate) fn failed_at<T>(place: usize, error: ReadError) -> Result<T, ReadError>
    ensures gives { (reading : Reading T) → Gives (Err error) reading → Gives result (under (Place place) reading) }
    ensures fails { IsErr result }
{
    under_place(place, Err(error))
}
