ghost use Rattle.std.specs.Prelude.{◌≡◌, ◌==◌, option_copied};
ghost use Rattle.std.specs.List.{find};
ghost use Rattle.pol_meta.specs.Columns.{has_column};
ghost use Rattle.pol_drafts.specs.Drafts.{current_columns};

use pol_meta::{Column, Schema, TableMetadata};

/// A metadata amid a list of updates, and the ids of the schema, spec and order that the list has added last. One that
/// was removed again is no longer the last added.
#[derive(Drop)]
pub struct Draft {
    pub meta: TableMetadata,
    pub last_schema: Option<u32>,
    pub last_spec: Option<u32>,
    pub last_order: Option<u32>,
}

/// The columns of the current schema.
pub fn current_columns(meta: &TableMetadata) -> &[Column]
    ensures { result.now ≡ current_columns meta.now }
{
    match schema_of(meta.current_schema_id, meta.schemas.as_slice()) {
        Some(schema) => schema.fields.as_slice(),
        None => &[],
    }
}

/// The schema of an id.
fn schema_of(id: u32, schemas: &[Schema]) -> Option<&Schema>
    ensures { option_copied result ≡ find (λ schema. schema.schema_id == id) schemas.now }
{
    schemas.iter().find(|schema| schema.schema_id == id)
}

/// Whether a column has this id.
pub fn has_column(columns: &[Column], id: u32) -> bool
    ensures { result ≡ has_column columns.now id }
{
    columns.iter().any(|column| column.id == id)
}
