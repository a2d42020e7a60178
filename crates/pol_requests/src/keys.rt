//! Keys of JSON that stand both in bodies of requests and in answers.

/// The key of a catalogue's base among its properties.
pub const BASE_KEY: &str = "default-base-location";
