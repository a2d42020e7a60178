//! Catalogues, namespaces and tables, each found by its name without a scan, and the changes of a state.
#![tactic(auto)]

mod chain;
mod change;
mod content;
pub mod laws;
mod put_row;
mod rows;

pub use change::{Change, RowKind};
pub use content::Content;
pub use pol_table_rows::{Handle, TablePut, TableRow};
pub use pol_view_rows::ViewRow;
pub use put_row::PutRow;
pub use rows::{CatalogRow, NamespaceName, NamespaceRow};
