//! The words of an object.

ghost use Rattle.std.specs.Prelude.{◌≡◌, length};

use scoop_message::Words;
use scoop_object::Behaviour;

/// Sets the words of an object.
pub(crate) fn set_words<B: Behaviour>(object: &mut B, words: Words)
    requires { length words ≡ (B.class object.old).words }
    ensures class { B.class object.new ≡ B.class object.old }
    ensures words { B.words object.new ≡ words }
{
    match object.restore(words) {
        Ok(()) => {}
        Err(_) => unreachable!(),
    }
}
