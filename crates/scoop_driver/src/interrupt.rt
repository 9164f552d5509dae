//! Interrupts, which end a wait early.

ghost use Rattle.std.specs.Prelude.{◌≡◌, Bool, false};

/// A party that may end a wait early.
pub trait Interrupt {
    /// One call, with its result.
    ghost stops: { Self → Bool → Self → Type 0 };

    /// Whether the wait should end now.
    fn stops(&mut self) -> bool
        ensures { stops self.old result self.new };
}

/// An interrupt that never ends a wait.
#[derive(Clone, Copy, Debug, PartialEq, Eq)]
pub struct NoInterrupt;

impl Interrupt for NoInterrupt {
    ghost stops = { λ _ stops _. stops ≡ false };

    fn stops(&mut self) -> bool {
        false
    }
}
