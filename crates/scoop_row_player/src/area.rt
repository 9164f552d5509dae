//! What rows are about.

use crate::bad::Bad;
use crate::case::Case;
use crate::sheet::Sheet;
use scoop_refusing::Refusing;
use std::alloc::Global;

/// The heap of a subject. The player counts its growths, and refuses each in turn.
pub type Heap<'a> = &'a Refusing<Global>;

/// What the commands of a case are given to.
pub trait Subject {
    /// Carries out a command, and adds its answer. An error says that the row is bad, not that the answer is wrong.
    fn does(&mut self, command: &[u8], answer: &mut Vec<u8>) -> Result<(), Bad>;
    /// Adds all that can be read of it. A command whose memory is refused must not change this.
    fn shows(&self, text: &mut Vec<u8>) -> Result<(), Bad>;
}

/// The areas of a library.
pub trait Areas {
    /// Plays the rows of a case with a new subject of the area, by [`play_rows`](crate::play_rows). Returns false if the
    /// library has no such area.
    fn play(
        &self,
        area: &str,
        case: Case<'_>,
        heap: Heap<'_>,
        sheet: &mut Sheet,
    ) -> Result<bool, Bad>;
}
