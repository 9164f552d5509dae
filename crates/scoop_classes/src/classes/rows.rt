//! The operations of the demo classes.

ghost use Rattle.std.specs.Prelude.{◌≡◌, ◌≤◌, length};
ghost use Rattle.scoop_message.specs.declared.limits.TheConstants.{MAX_WRITES};
ghost use Rattle.scoop_classes.specs.Classes.{row, write, cell_class, counter_class, account_class, exchange_class};

use scoop_message::limits::MAX_WRITES;
use scoop_object::{OpRow, Term, Write, Writes};

const ZERO: Term = Term::Const(0);

const FIRST: Term = Term::Word(0);

const ARG: Term = Term::Arg(0);

/// A cell: 1 sets it, 2 gets it.
pub fn cell_rows() -> [OpRow; 2]
    ensures { result ≡ cell_class.rows }
{
    [
        row(1, None, &[write(0, ARG, ZERO, ZERO)], FIRST),
        row(2, None, &[], FIRST),
    ]
}

/// A counter: 1 adds to it, 2 gets it.
pub fn counter_rows() -> [OpRow; 2]
    ensures { result ≡ counter_class.rows }
{
    [
        row(1, None, &[write(0, FIRST, ARG, ZERO)], FIRST),
        row(2, None, &[], FIRST),
    ]
}

/// An account: 1 deposits, 2 withdraws if there is enough, 3 gets the balance.
pub fn account_rows() -> [OpRow; 3]
    ensures { result ≡ account_class.rows }
{
    [
        row(1, None, &[write(0, FIRST, ARG, ZERO)], FIRST),
        row(2, Some((ARG, FIRST)), &[write(0, FIRST, ZERO, ARG)], FIRST),
        row(3, None, &[], FIRST),
    ]
}

/// An exchange: 1 puts a number, and returns the one before it.
pub fn exchange_rows() -> [OpRow; 1]
    ensures { result ≡ exchange_class.rows }
{
    let put = [write(0, ARG, ZERO, ZERO), write(1, FIRST, ZERO, ZERO)];
    [row(1, None, &put, Term::Word(1))]
}

fn write(word: u8, base: Term, plus: Term, minus: Term) -> Write
    ensures { result ≡ write word base plus minus }
{
    Write {
        word,
        base,
        plus,
        minus,
    }
}

fn row(op: u16, test: Option<(Term, Term)>, writes: &[Write], answer: Term) -> OpRow
    requires { length writes.now ≤ MAX_WRITES }
    ensures { result ≡ row op test writes.now answer }
{
    match Writes::of(writes) {
        Ok(writes) => OpRow {
            op,
            test,
            writes,
            answer,
        },
        Err(_) => unreachable!(),
    }
}
