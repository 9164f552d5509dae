//! Texts that stand in a file beside a store: which party of which system it belongs to, and how far it goes at least.
//!
//! [`owner_text`] makes the text, which is TOML with one line for each fact. [`first_missing`] compares it with the text that
//! was found. A store whose file lacks a line belongs to another party, system or life, or a class was edited.
//!
//! The text also has a line for each client that a handler has seen, which names its newest block there, as the handler's mark
//! has it: `newest.1.7 = "7.5.2"`. A client's text has a line for its incarnation: `incarnation = 5`. A store that hasn't come
//! as far is older than the text: an old copy, or one whose log was lost. [`first_older`] and [`last_incarnation`] compare.
//!
//! ```
//! let wanted = owner_text(alloc, &system, Owner::Node(4))?;
//! let text = "\
//! system = \"\"
//! life = 0
//! node = 4
//! handler.9 = \"class one 1 word;\"
//! ";
//! assert_eq!(rt; first_missing(wanted.as_str(), text), None);
//! assert_eq!(rt; first_missing(wanted.as_str(), "system = \"\"\nlife = 1\n"), Some("life = 0"));
//!
//! let mark = Newest {
//!     handler: HandlerId(9),
//!     block: Block { client: ClientId(7), inc: 5, num: 2 },
//! };
//! let later = updated_text(alloc, text, &[mark])?;
//! assert_eq!(rt; first_older(later.as_str(), &[mark]), None);
//! assert_eq!(rt; first_older(later.as_str(), &[]), Some("newest.9.7 = \"7.5.2\""));
//! ```
#![tactic(auto)]

mod incarnation;
mod lines;
mod newest;
mod text;
pub mod theorems;

pub use incarnation::{last_incarnation, text_with_incarnation};
pub use lines::{first_missing, line_like};
pub use newest::{Newest, first_older, mark_beside, newest_of, note_newest, updated_text};
pub use text::owner_text;
