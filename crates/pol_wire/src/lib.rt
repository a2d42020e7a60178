//! The outside world as Vanloquat sees it: sources of bytes, sinks for bytes, clocks and draws of
//! words, each with forms in memory for tests and an adapter of the real one.
#![tactic(auto)]

mod calls;
mod clock;
mod draw;
mod failed;
mod faults;
pub mod laws;
mod link;
mod sink;
mod source;
#[cfg(test)]
mod tests;

pub use calls::Calls;
pub use clock::memory::MemoryClock;
pub use clock::wall::WallClock;
pub use clock::{Clock, LAST_MOMENT};
pub use draw::Draw;
pub use draw::counting::CountingDraw;
pub use draw::file::FileDraw;
pub use draw::memory::MemoryDraw;
pub use failed::Failed;
pub use faults::Faults;
pub use link::Link;
pub use sink::Sink;
pub use sink::memory::MemorySink;
pub use sink::writer::StdSink;
pub use source::Source;
pub use source::memory::MemorySource;
pub use source::reader::StdSource;
