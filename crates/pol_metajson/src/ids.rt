use pol_readers::Ranged;

/// The id of a column.
pub type ColumnId = Ranged<0, 2_147_483_447>;

/// The id of a schema, a spec or an order.
pub type Id = Ranged<0, 2_147_483_647>;

/// The id of a partition field.
pub type FieldId = Ranged<1_000, 2_147_483_647>;
