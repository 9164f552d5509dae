//! The faults of a scripted link.

ghost use Rattle.std.specs.Prelude.{◌≡◌};
ghost use Rattle.scoop_link.specs.Script.{is_every, copies};

/// The faults of a lane or of an end. 0 means never.
#[derive(Clone, Copy, Debug, Default, PartialEq, Eq)]
pub struct Script {
    /// Each put whose number this divides is dropped.
    pub drop_every: u64,
    /// Each other put whose number this divides arrives twice.
    pub double_every: u64,
    /// The call of this number fails.
    pub fail_at: u64,
}

// Whether `every` divides the number `k`.
fn is_every(every: u64, k: u64) -> bool
    ensures { result ≡ is_every every k }
{
    every != 0 && k % every == 0
}

impl Script {
    // The number of copies that the `k`-th put appends.
    pub(crate) fn copies(&self, k: u64) -> usize
        ensures { result ≡ copies self.now k }
    {
        if is_every(self.drop_every, k) {
            0
        } else if is_every(self.double_every, k) {
            2
        } else {
            1
        }
    }
}
