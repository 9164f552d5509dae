#![tactic(auto)]

//! Tests of links over UDP of this machine, and of the longest input. The other tests of the crates below handlers and clients
//! are rows.

#[cfg(test)]
mod tests;
