//! What the body that creates a table makes, and what metadata are read as.
ghost use Rattle.std.specs.Prelude.{◌≡◌, IfErr, IfOk, None, OnOk, string_bytes};
ghost use Rattle.serde_json.specs.Written.{compact_text};
ghost use Rattle.pol_meta.specs.Creation.{IsCreateRefusal};
ghost use Rattle.pol_metaprint.specs.Metadata.{table_json};
ghost use Rattle.pol_values.specs.Tables as spec;

use crate::unread::Unread;
use pol_meta::{CreateRefused, TableMetadata};
use pol_metajson::{CreateTable, read_create_table};
use pol_metalaws::table_text;
use pol_metaread::read_table;
use pol_names::Name;
use pol_readers::ReadError;
use pol_types::Text;
use std::alloc::{AllocError, Global};
use uuid::Uuid;

/// The moment at which tables and views are made, in milliseconds since the Unix epoch.
pub(crate) const CREATED: u64 = 1000;

/// How the body of a table is told: by the metadata that it makes, by its first bad field, or by why no table is made.
pub(crate) fn table(alloc: Global, body: &str) -> Result<String, Unread>
    ensures { IfOk result (λ told. spec.TellsTable body.now (string_bytes told)) }
{
    match read_create_table(alloc, body.as_bytes()) {
        Ok(request) => request_text(alloc, request),
        Err(ReadError::Field(path)) => Ok(format!(in alloc; "Unreadable: {path}")?),
        Err(ReadError::OutOfMemory) => Err(Unread::NoMemory),
    }
}

/// How a metadata is told: by the JSON that it is printed as, or by its first bad field.
pub(crate) fn metadata(alloc: Global, text: &str) -> Result<String, Unread>
    ensures { IfOk result (λ told. spec.TellsMetadata text.now (string_bytes told)) }
{
    match read_table(alloc, text.as_bytes()) {
        Ok(meta) => metadata_text(alloc, &meta),
        Err(ReadError::Field(path)) => Ok(format!(in alloc; "Unreadable: {path}")?),
        Err(ReadError::OutOfMemory) => Err(Unread::NoMemory),
    }
}

/// How a table that is asked for is told.
fn request_text(alloc: Global, request: CreateTable) -> Result<String, Unread>
    ensures { IfOk result (λ told. spec.TellsRequest request (string_bytes told)) }
{
    match created(alloc, request) {
        Ok(meta) => metadata_text(alloc, &meta),
        Err(CreateRefused::OutOfMemory) => Err(Unread::NoMemory),
        Err(CreateRefused::Refused { why }) => Ok(why.to_string(alloc)?),
    }
}

/// The metadata of a table that is asked for.
fn created(alloc: Global, request: CreateTable) -> Result<TableMetadata, CreateRefused>
    ensures made { IfOk result (λ meta. meta ≡ spec.made request) }
    ensures passes { OnOk result (spec.refusal request ≡ None) }
    ensures refused { IfErr result (IsCreateRefusal request.schema request.partition_spec request.write_order) }
{
    let location = location_of(alloc, &request.location, &request.name)?;
    let CreateTable {
        schema,
        partition_spec,
        write_order,
        properties,
        ..
    } = request;
    TableMetadata::create(
        alloc,
        made_uuid(),
        location.as_str(),
        schema,
        partition_spec,
        write_order,
        properties,
        CREATED,
    )
}

/// The uuid of each table and view that is made.
pub(crate) fn made_uuid() -> Uuid
    ensures { result ≡ spec.uuid }
{
    Uuid::from_bytes([0, 1, 2, 3, 4, 5, 6, 7, 8, 9, 10, 11, 12, 13, 14, 15])
}

/// Where a table or a view lies: where it is asked to, or below `lake://b` by its name.
pub(crate) fn location_of(
    alloc: Global,
    location: &Option<Text>,
    name: &Name,
) -> Result<String, AllocError>
    ensures { IfOk result (λ text. string_bytes text ≡ spec.location_of location.now name.now) }
{
    match location {
        Some(location) => String::from_str(alloc, location.as_str()),
        None => {
            let name = name.as_str();
            format!(in alloc; "lake://b/{name}")
        }
    }
}

/// The JSON that a metadata is printed as.
pub(crate) fn metadata_text(alloc: Global, meta: &TableMetadata) -> Result<String, Unread>
    ensures { IfOk result (λ text. string_bytes text ≡ compact_text (table_json meta.now)) }
{
    Ok(table_text(alloc, meta)?)
}
