//! Lines of a script.

mod event;
mod kind;
mod number;
mod party;

pub use event::{EventLine, read_event};
pub use kind::{EventKind, LineKind, line_kind};
pub(crate) use number::{read_u16, read_u32, read_u64};
pub use party::{LineError, PlacedLine, read_client, read_placement};
pub use scoop_lines::is_blank;
