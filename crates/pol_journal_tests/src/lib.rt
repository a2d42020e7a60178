//! Tests of the disk and of the journal: what a crash may leave of a disk, and for which records journals stand then.
#![tactic(auto)]

#[cfg(test)]
mod tests;
