//! Whether no quantity of a state is above its bound.
#![tactic(auto)]

mod bounds;

pub use bounds::{
    catalog_fits, counters_fit, is_within_bounds, namespace_fits, table_fits, view_fits,
};
