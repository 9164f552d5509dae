//! Laws of the lines that a text beside a store has.

ghost use Rattle.std.specs.Prelude.{◌≡◌, Some};
ghost use Rattle.scoop_owner.specs.Incarnation.{incarnation_line, incarnation_of};
ghost use Rattle.scoop_owner.specs.Newest.{newest_line, newest_of};

use crate::newest::Newest;

/// The line of a block says this block.
pub fn line_reads_back(_newest: Newest)
    ensures { newest_of (newest_line _newest) ≡ Some _newest }
{}

/// The line of an incarnation says this incarnation.
pub fn incarnation_reads_back(_inc: u32)
    ensures { incarnation_of (incarnation_line _inc) ≡ Some _inc }
{}
