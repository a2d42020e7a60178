ghost use Rattle.std.specs.Prelude.{◌≡◌};
ghost use Rattle.pol_meta.specs.declared.why.CreateRefused.TheVariants.{OutOfMemory};

use std::alloc::{AllocError, AllocFailed};
use std::fmt;

/// Why a table can't be made or changed as it is asked. Each prints as its name.
#[derive(Clone, Copy, PartialEq, Eq)]
pub enum Why {
    /// The table has another uuid.
    UuidDiffers,
    /// No such format version is served.
    FormatVersion,
    /// An id above the highest that there may be is wanted.
    IdsUsedUp,
    /// The last one that was added is named, and none was.
    NoneAdded,
    /// No member has this id.
    NoSuchId,
    /// No column of the current schema has the id of this source.
    NoSuchField,
    /// Two partition fields have one id or one name.
    FieldTwice,
    /// The table has a snapshot of this id.
    SnapshotThere,
    /// The sequence number isn't above the last one.
    SequenceNotAbove,
    /// The table has no snapshot of this id.
    NoSuchSnapshot,
    /// The reference `main` is to be a tag.
    MainNotBranch,
    /// A tag has numbers that only branches have.
    BranchOnly,
    /// The current or default member is to be removed.
    InUse,
}

impl fmt::Display for Why {
    ghost use Rattle.std.specs.Prelude.{Some};
    ghost use Rattle.pol_meta.specs.Why.{word_of};

    ghost output = { λ why. Some (word_of why) };

    fn fmt<W: fmt::Write>(&self, f: &mut fmt::Formatter<W>) -> fmt::Result {
        f.write_str(match self {
            Why::UuidDiffers => "UuidDiffers",
            Why::FormatVersion => "FormatVersion",
            Why::IdsUsedUp => "IdsUsedUp",
            Why::NoneAdded => "NoneAdded",
            Why::NoSuchId => "NoSuchId",
            Why::NoSuchField => "NoSuchField",
            Why::FieldTwice => "FieldTwice",
            Why::SnapshotThere => "SnapshotThere",
            Why::SequenceNotAbove => "SequenceNotAbove",
            Why::NoSuchSnapshot => "NoSuchSnapshot",
            Why::MainNotBranch => "MainNotBranch",
            Why::BranchOnly => "BranchOnly",
            Why::InUse => "InUse",
        })
    }
}

/// Why `create` makes no metadata.
#[derive(Clone, Copy, PartialEq, Eq)]
pub enum CreateRefused {
    Refused { why: Why },
    OutOfMemory,
}

impl From<AllocError> for CreateRefused {
    ghost from_gives = { λ _ refused. refused ≡ OutOfMemory };

    fn from(_error: AllocError) -> Self {
        CreateRefused::OutOfMemory
    }
}

impl<T: Drop> From<AllocFailed<T>> for CreateRefused {
    ghost from_gives = { λ _ refused. refused ≡ OutOfMemory };

    fn from(_error: AllocFailed<T>) -> Self {
        CreateRefused::OutOfMemory
    }
}
