//! Where what came differs from what is wanted.
use pol_types::Text;

/// Where what came differs from what is wanted. The texts are as they are shown.
#[derive(Drop)]
pub struct Difference {
    /// The line of the part that differs.
    pub line: usize,
    /// What differs.
    pub what: Text,
    pub wanted: Text,
    pub got: Text,
}
