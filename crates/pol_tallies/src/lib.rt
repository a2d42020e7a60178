//! How often numbers are noted, and tables of rows and sets of facts that tell at once how many are of a group.
#![tactic(auto)]

mod fact_rows;
mod grouped;
mod grouped_facts;
mod grouped_table;
mod numbered_fact;
mod tally;

pub use fact_rows::FactRows;
pub use grouped::Grouped;
pub use grouped_facts::GroupedFacts;
pub use grouped_table::GroupedTable;
pub use tally::Tally;
