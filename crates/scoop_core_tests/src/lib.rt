//! The theorems on what programs did are called, as a proof calls them.
#![tactic(auto)]

#[cfg(test)]
mod tests;
