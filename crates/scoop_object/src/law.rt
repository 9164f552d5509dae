//! The law that a request's effect depends on class, words and request alone.

ghost use Rattle.std.specs.Prelude.{◌≡◌};
ghost use Rattle.scoop_object.specs.Effect.{eff};

use crate::behaviour::Behaviour;
use scoop_message::{Answer, Request};

/// Objects of one class with equal words, whatever their types, keep their class under a request. They then have
/// equal words and return equal answers: those of the request's effect.
pub fn apply_both<B: Behaviour, C: Behaviour>(
    left: &mut B,
    right: &mut C,
    request: &Request,
) -> (Answer, Answer)
    requires class { B.class left.old ≡ C.class right.old }
    requires words { B.words left.old ≡ C.words right.old }
    ensures class { B.class left.new ≡ C.class right.new }
    ensures same_class { B.class left.new ≡ B.class left.old }
    ensures words { B.words left.new ≡ C.words right.new }
    ensures answers { result.0 ≡ result.1 }
    ensures new_words { B.words left.new ≡ (eff (B.class left.old) (B.words left.old) request.now).0 }
    ensures answer { result.0 ≡ (eff (B.class left.old) (B.words left.old) request.now).1 }
{
    (left.apply(request), right.apply(request))
}
