//! The commands that need no system: `answer`, `world`, `frame` and `demo`.
//!
//! Each reports on standard error why it ends early, and returns the status with which the program ends. The program
//! hands in the objects, since a library makes no boxes of them.
#![tactic(auto)]

mod answering;
mod framing;
mod kind;
mod playing;
mod reports;
mod showing;

pub use answering::answer;
pub use framing::frame;
pub use playing::play;
pub use reports::report_no_class;
pub use showing::demonstrate;
