//! Pauses between the tries of a waiting block.

ghost use Rattle.std.specs.Prelude.{ℕ, ⊤};

/// A driver's pauses between two tries of a waiting block. Its client is idle then: it holds no lock and no block.
pub trait Pause {
    /// One pause, after this many failed tries.
    ghost paused: { Self → ℕ → Self → Type 0 };

    /// Pauses. `failed` tries of the block have failed, at least one.
    fn pause(&mut self, failed: u32)
        ensures { paused self.old failed self.new };
}

/// No pause.
#[derive(Clone, Copy, Debug, PartialEq, Eq)]
pub struct NoPause;

impl Pause for NoPause {
    ghost paused = { λ _ _ _. ⊤ };

    fn pause(&mut self, _failed: u32) {}
}
