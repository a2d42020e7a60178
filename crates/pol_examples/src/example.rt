//! Examples and their parts.
use crate::files::{Holds, Start};
use crate::script::Script;
use crate::settings::Settings;
use pol_types::Text;
use pol_values::Value;

/// A worked example.
#[derive(Drop)]
pub struct Example {
    /// The sentence that says what is shown.
    pub title: Text,
    /// The line of the title, counted from 1.
    pub line: usize,
    pub settings: Settings,
    pub script: Script,
    pub end: End,
    pub holds: Holds,
    /// The values that are asked for in place of a run.
    pub values: Vec<Value>,
}

/// How a run is to end.
#[derive(Drop)]
pub struct End {
    /// The line that says it, or that of the title.
    pub line: usize,
    /// The exit status of the run.
    pub status: u8,
    pub reason: Text,
}

/// Turns that examples begin with, and what their disks hold at the start.
#[derive(Drop)]
pub(crate) struct Opening {
    pub(crate) name: Text,
    pub(crate) script: Script,
    pub(crate) catalogue: Start,
    pub(crate) objects: Start,
}
