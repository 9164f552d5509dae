//! The theorems about every world that can be reached. Each is a function with an empty body, whose clause is the theorem.

mod histories;
mod holding;
mod opening;
mod safety;
mod telling;

pub use histories::{handlers_sound, handlers_stay, in_order, opened_in_joint};
pub use holding::{granted_once, held_until_opened};
pub use opening::opens_safe;
pub use safety::reached_safe;
pub use telling::{
    answer_has_run, hello_is_stored, locked_is_held_opened_or_over, log_was_logged,
    logged_is_received, named_incarnations_known, open_was_granted, opened_has_opened,
    unlock_is_opened_or_abandoned, welcome_has_greeted,
};
