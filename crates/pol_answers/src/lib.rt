//! The texts of answers to replies and refusals.
#![tactic(auto)]

mod json;
mod management_json;
mod refusals;
mod table_json;
mod texts;
mod view_json;

pub use refusals::message_of;
pub use texts::{answer_of, draw_fault_answer, head_refused_answer, refusal_answer};
