//! The commands `answer`, `world` and `frame` of the program `scoop`, as calls over a reader and a writer.
//!
//! - [`answer_run`] reads a datagram in hex digits from each line of an input, and writes a line with the answer of its
//!   handler. The book's history has all that the handlers heard and ran. A state is stored before its answer is written.
//! - [`open_book`] opens the book of one handler.
//! - [`world_run`] plays a script in a world of handlers and clients.
//! - [`read_message`] and [`print_message`] turn words into messages and back, for `scoop frame`.
//!
//! ```
//! const DOC_SCRIPT: &str = "handler 1 1 cell 0\nclient 7\ntrip 7 1";
//! // a trip: the client sends what it owes, and hears the reply; the histories come after the last line
//! const DOC_OUTPUT: &str = "\
//! sent 1 Hello
//! Greeted sent 2
//! Welcomed 1
//! joint none
//! handler 1 opened none
//! handler 1 ran none
//! client 7 accepted none
//! ";
//! let keeper = MemoryKeeper::new(alloc);
//! let mut written = Vec::new(alloc);
//! world_run(alloc, keeper, DOC_SCRIPT.as_bytes(), &mut written)?;
//! assert!(rt; written.as_slice() == DOC_OUTPUT.as_bytes());
//! ```
#![tactic(auto)]

mod advice;
mod answer;
mod datagram;
mod fault;
mod framing;
mod opening;
mod playing;
mod printing;
mod run;
mod script;

pub use datagram::{MAX_DATAGRAM_LEN, read_datagram};
pub use fault::{InputFault, RunError};
pub use framing::{
    WordsError, print_frame_of, print_message, read_message, tell_frame, tell_frames,
};
pub use opening::open_book;
pub use playing::{Picture, PlayOptions, world_run, world_run_charted, world_run_with};
pub use printing::print_note;
pub use run::answer_run;
pub use script::{
    EventKind, EventLine, LineError, LineKind, PlacedLine, is_blank, line_kind, read_client,
    read_event, read_placement,
};
