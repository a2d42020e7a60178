ghost use Rattle.std.specs.Prelude.{◌≡◌, IfOk};
ghost use Rattle.pol_commitjson.specs.Members as spec;

use crate::asked::Asked;
use pol_meta::Ids;
use pol_metajson::Id;
use pol_metaread::Long;
use pol_readers::{Form, OrMinusOne, ReadError};
use pol_types::{Listed, OutOfMemory};
use pol_updates::MemberId;
use serde_json::Value;
use std::alloc::Global;

#[tactic(auto, unfolding(crate::specs::Members::member))]
impl Form for Asked<MemberId> {
    ghost shape = { spec.member };

    fn read(alloc: Global, value: &Value) -> Result<Self, ReadError> {
        let given: OrMinusOne<Id> = OrMinusOne::read(alloc, value)?;
        Ok(Asked::new(member_of(given)))
    }
}

/// The member that an id names, or -1.
fn member_of(given: OrMinusOne<Id>) -> MemberId
    ensures { result ≡ spec.member_of given }
{
    match given {
        OrMinusOne::MinusOne => MemberId::LastAdded,
        OrMinusOne::Other(id) => MemberId::Id {
            id: id.get() as u32,
        },
    }
}

/// The ids of schemas or specs.
pub(crate) fn ids_of(alloc: Global, given: Listed<Id>) -> Result<Ids, OutOfMemory>
    ensures { IfOk result (λ ids. ids ≡ given) }
{
    let given: Vec<Id> = given.into();
    let mut ids = Vec::with_capacity(alloc, given.len())?;
    for id in given {
        ids.push(id.get() as u32)?;
    }
    Ok(Ids::from(ids))
}

/// The ids of snapshots.
pub(crate) fn longs_of(alloc: Global, given: Listed<Long>) -> Result<Listed<u64>, OutOfMemory>
    ensures { IfOk result (λ ids. ids ≡ given) }
{
    let given: Vec<Long> = given.into();
    let mut ids = Vec::with_capacity(alloc, given.len())?;
    for id in given {
        ids.push(id.get())?;
    }
    Ok(Listed::from(ids))
}

/// The id that is given, if one is.
pub(crate) fn long_of(given: Option<Long>) -> Option<u64>
    ensures { result ≡ given }
{
    match given {
        Some(number) => Some(number.get()),
        None => None,
    }
}
