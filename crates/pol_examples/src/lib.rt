//! Worked examples as texts: their lines, the requests and answers that these stand for, and how what came differs from
//! what is wanted.
#![tactic(auto)]

mod comparing;
mod draft;
mod errors;
mod example;
mod files;
mod making;
mod numbers;
mod reader;
mod script;
mod settings;
mod turns;

pub use comparing::first_difference;
pub use example::{End, Example};
pub use files::{DiskSettings, Held, Holds, Image, Start};
pub use reader::Reader;
pub use script::{Part, Script, Token};
pub use settings::{Pieces, Settings};
