//! A handler's state as bytes.
//!
//! Version 1 is one image, in which each private queue is followed by its entries. Version 2 is the
//! same image without them, and a row of the entries of all private queues.

mod error;
mod front;
mod lists;
mod parts;
mod reading;
mod writing;

pub use error::ReadError;
pub use reading::{read_image, read_image_with_entries};
pub use writing::{image, pending_row};
