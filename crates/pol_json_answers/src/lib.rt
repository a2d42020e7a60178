//! Answers with a JSON body, errors among them.
#![tactic(auto)]

mod answers;

pub use answers::{answer_with, error_answer, json_answer, text_of};
