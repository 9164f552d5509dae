//! The contents of a store in a file, in words. The store is read from copies of its files in memory, so that nothing
//! on the disk changes.
//!
//! ```
//! let mut store = read_copy(rt, path)?;
//! print_store(&mut store, &mut output)?;
//! ```
#![tactic(auto)]

mod copy;
mod printing;
mod rows;

pub use copy::{CopiedStore, read_copy};
pub use printing::print_state;
pub use rows::{Contents, contents_of};
