//! HTTP/1.1 messages (RFC 9112): the reader of requests out of the bytes of a connection, and the
//! writer of answers.
#![tactic(auto)]

mod answer;
mod cut;
mod fields;
mod head;
pub mod laws;
mod next;
mod target;

pub use answer::{Answer, Body, CONTINUE, INSUFFICIENT_STORAGE, write_answer};
pub use cut::cut_messages;
pub use fields::lists;
pub use head::{BODY_LIMIT, FIELD_LIMIT, HEAD_LIMIT, Head, HeadRefused};
pub use next::{Next, missing_bytes, next_message};
