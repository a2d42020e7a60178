//! Bytes that several owners share.
#![tactic(auto)]

mod shared_bytes;

pub use shared_bytes::SharedBytes;
