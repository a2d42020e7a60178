//! Tests of the crates below the machine: what no worked example can show.
#![tactic(auto)]

#[cfg(test)]
mod tests;
