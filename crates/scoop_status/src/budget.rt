//! How many lines of one kind a log writes.

ghost use Rattle.std.specs.Prelude.{◌≡◌, ◌≤◌, ◌<◌, ◌+◌, IsTrue, IsFalse};
ghost use Rattle.scoop_status.specs.Budget.{allowance};

/// So many lines may come at once, after a time without any.
pub const AT_ONCE: u64 = 60;

/// After so many seconds one more line may come.
pub const SECONDS_EACH: u64 = 10;

/// The lines of one kind, and those that were left out since the last one. The lines of a day are at most 8,700.
#[derive(Clone, Copy, Debug)]
pub struct Budget {
    // At least as many as were written: what wasn't used in time counts too.
    spent: u64,
    left_out: u64,
}

impl Budget {
    /// The budget of a log that begins.
    pub fn new() -> Budget
        ensures { (result.spent ≡ 0) × (result.left_out ≡ 0) }
    {
        Budget {
            spent: 0,
            left_out: 0,
        }
    }

    /// Whether one more line may be written at this second, counted from the log's beginning. If so, it counts as written.
    pub fn takes(&mut self, second: u64) -> bool
        ensures counted { IsTrue result → self.old.spent < self.new.spent }
        ensures limit { IsTrue result → self.new.spent ≤ allowance second }
        ensures kept { IsFalse result → self.old.spent ≤ self.new.spent }
        ensures full { IsFalse result → allowance second ≤ self.new.spent }
        ensures left_out { self.new.left_out ≡ self.old.left_out }
    {
        let refilled = second / SECONDS_EACH;
        self.spent = self.spent.max(refilled);
        if self.spent - refilled >= AT_ONCE {
            return false;
        }
        self.spent += 1;
        true
    }

    /// Counts lines that weren't written.
    pub fn leave_out(&mut self, lines: u64) {
        self.left_out = self.left_out.saturating_add(lines);
    }

    /// How many lines were left out since the last call.
    pub fn take_left_out(&mut self) -> u64
        ensures value { result ≡ self.old.left_out }
        ensures none { self.new.left_out ≡ 0 }
        ensures spent { self.new.spent ≡ self.old.spent }
    {
        let left_out = self.left_out;
        self.left_out = 0;
        left_out
    }
}
