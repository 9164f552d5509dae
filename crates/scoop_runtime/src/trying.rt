//! Pauses between the tries of a client's waiting block.

ghost use Rattle.std.specs.Prelude.{⊤};

use scoop_driver::Pause;
use scoop_texts::tell_tried;
use std::io::Write;

// Whether a user who waits gets a note after this many failed tries: 10, 100, 1000 and so on.
fn is_reported(failed: u32) -> bool {
    matches!(
        failed,
        10 | 100 | 1_000 | 10_000 | 100_000 | 1_000_000 | 10_000_000 | 100_000_000 | 1_000_000_000
    )
}

/// A pause between two tries. Before some of them a user who types reads how many tries failed.
#[derive(Drop)]
pub(crate) struct Between<'p, 'n, P: Pause, N: Write> {
    pause: &'p mut P,
    notes: &'n mut N,
    is_typed: bool,
}

impl<'p, 'n, P: Pause, N: Write> Between<'p, 'n, P, N> {
    /// This pause, and notes for a user who types.
    pub(crate) fn new(pause: &'p mut P, notes: &'n mut N, is_typed: bool) -> Between<'p, 'n, P, N> {
        Between {
            pause,
            notes,
            is_typed,
        }
    }
}

impl<'p, 'n, P: Pause, N: Write> Pause for Between<'p, 'n, P, N> {
    ghost paused = { λ _ _ _. ⊤ };

    fn pause(&mut self, failed: u32) {
        if is_reported(failed) {
            tell_tried(failed, self.is_typed, self.notes);
        }
        self.pause.pause(failed);
    }
}
