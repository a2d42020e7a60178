use pol_readers::Ranged;

/// The last id that was given to a partition field, or the one before all of them.
pub(crate) type LastFieldId = Ranged<999, 2_147_483_647>;

/// The id of a snapshot, a sequence number, or a time in milliseconds since the Unix epoch.
pub type Long = Ranged<0, 9_223_372_036_854_775_807>;

/// What is to be kept of a reference.
pub(crate) type Kept = Ranged<1, 9_223_372_036_854_775_807>;

/// The format version.
pub(crate) type Version = Ranged<2, 2>;
