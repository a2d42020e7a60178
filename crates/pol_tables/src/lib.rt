//! Tables of rows by id, sets of facts, and the difference of two tables as a list of changes.
#![tactic(auto)]

mod fact;
mod index;
mod keyed;
pub mod laws;
mod named;
mod named_table;
mod number;
mod order;
mod rows;
mod slot;
mod table;

pub use fact::Fact;
pub use index::{Index, IndexEntry};
pub use keyed::Keyed;
pub use named::{NameOf, Named};
pub use named_table::NamedTable;
pub use number::number_of;
pub use order::{Sortable, rows_in_order, sorted_facts, sorted_rows};
pub use rows::Rows;
pub use table::Table;
