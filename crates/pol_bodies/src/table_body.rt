//! The body that creates a table.
ghost use Rattle.pol_requests.specs.Refused.{Meets};
ghost use Rattle.pol_bodies.specs.TableBody as spec;

use crate::body::unread;
use pol_commands::CreateTable;
use pol_metajson::read_create_table;
use pol_requests::Unplanned;
use std::alloc::Global;

/// What a body that creates a table asks for. Its first bad field is told by its path.
#[tactic(auto, using(crate::proofs::TableBodyLemmas::unread_table), unfolding(crate::specs::TableBody::create_table_of))]
pub fn create_table_of(alloc: Global, bytes: &[u8]) -> Result<CreateTable, Unplanned>
    ensures { Meets (spec.create_table_of bytes.now) result }
{
    match read_create_table(alloc, bytes) {
        Ok(request) => Ok(CreateTable {
            name: request.name,
            location: request.location,
            schema: request.schema,
            partition_spec: request.partition_spec,
            write_order: request.write_order,
            stage_create: request.stage_create,
            properties: request.properties,
        }),
        Err(error) => Err(unread(alloc, error)),
    }
}
