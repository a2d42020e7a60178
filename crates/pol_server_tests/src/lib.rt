//! Tests of the shared catalogue and of its links: states that no run reaches, and calls that no run makes.
#![tactic(auto)]

#[cfg(test)]
mod tests;
