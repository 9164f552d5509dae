//! The operations of a stock, as rows of a table.

ghost use Rattle.std.specs.Prelude.{◌≡◌, ◌≤◌, length};
ghost use Rattle.scoop_message.specs.declared.limits.TheConstants.{MAX_WRITES};
ghost use Rattle.own_object.specs.Stock.{stock_class};

use scoop_message::limits::MAX_WRITES;
use scoop_object::{OpRow, Term, Write, Writes};

/// The operation that orders the argument's number, and returns the number left.
pub const ORDER: u16 = 1;

/// The operation that returns the number left.
pub const LEFT: u16 = 2;

const NONE: Term = Term::Const(0);

const LEFT_WORD: Term = Term::Word(0);

const ORDERED_WORD: Term = Term::Word(1);

const WANTED: Term = Term::Arg(0);

/// An order is refused if fewer are left; the second operation gets the number left.
pub fn stock_rows() -> [OpRow; 2]
    ensures { result ≡ stock_class.rows }
{
    let taken = Write {
        word: 0,
        base: LEFT_WORD,
        plus: NONE,
        minus: WANTED,
    };
    let counted = Write {
        word: 1,
        base: ORDERED_WORD,
        plus: WANTED,
        minus: NONE,
    };
    let order = OpRow {
        op: ORDER,
        test: Some((WANTED, LEFT_WORD)),
        writes: list(&[taken, counted]),
        answer: LEFT_WORD,
    };
    let left = OpRow {
        op: LEFT,
        test: None,
        writes: list(&[]),
        answer: LEFT_WORD,
    };
    [order, left]
}

fn list(writes: &[Write]) -> Writes
    requires { length writes.now ≤ MAX_WRITES }
    ensures { result ≡ writes.now }
{
    match Writes::of(writes) {
        Ok(writes) => writes,
        Err(_) => unreachable!(),
    }
}
