//! The commands of the lines, and the names of their options.

pub const CATALOGUE: &str = "--catalogue";

pub const EXEC: &str = "exec";

pub const INIT: &str = "init";

pub const OBJECTS: &str = "--objects";

pub const ROOT_SECRET: &str = "--root-secret";
