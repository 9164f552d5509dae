//! The number of arguments that an operation reads.

ghost use Rattle.std.specs.Prelude.{◌≡◌, ◌==◌, ℕ, find, nat_le};
ghost use Rattle.std.specs.Option.{option_copied};
ghost use Rattle.scoop_object.specs.Class.{has_args_below};
ghost use Rattle.scoop_classes.specs.Classes.{table_of};
ghost use Rattle.scoop_system.specs.Arguments.{term_arguments, test_arguments, write_arguments, writes_arguments, row_arguments, rows_arguments};
ghost use Rattle.scoop_system.specs.Arguments.{class_arguments};

use crate::class::{OwnClass, class_named};
use crate::place::HandlerClass;
use scoop_classes::DemoClass;
use scoop_object::{OpRow, Term, Write};

// The number of arguments that the operation of this number reads, if the class has it.
pub(crate) fn class_arguments(classes: &[OwnClass], op: u16, class: HandlerClass) -> Option<usize>
    ensures { result ≡ class_arguments classes.now op class }
{
    match class {
        HandlerClass::Known(class) => known_arguments(class, op),
        HandlerClass::Own(own) => match class_named(classes, own.as_bytes()) {
            Some(found) => rows_arguments(found.class().rows(), op),
            None => None,
        },
    }
}

fn known_arguments(class: DemoClass, op: u16) -> Option<usize>
    ensures { result ≡ rows_arguments op (table_of class).rows }
{
    match (class, op) {
        (DemoClass::Cell | DemoClass::Counter | DemoClass::Account | DemoClass::Exchange, 1) => {
            Some(1)
        }
        (DemoClass::Account, 2) => Some(1),
        (DemoClass::Cell | DemoClass::Counter, 2) | (DemoClass::Account, 3) => Some(0),
        _ => None,
    }
}

fn rows_arguments(rows: &[OpRow], op: u16) -> Option<usize>
    ensures { result ≡ rows_arguments op rows.now }
{
    match row_of(rows, op) {
        Some(row) => Some(row_arguments(row)),
        None => None,
    }
}

fn row_of(rows: &[OpRow], op: u16) -> Option<&OpRow>
    ensures { option_copied result ≡ find (λ row. row.op == op) rows.now }
{
    rows.iter().find(|row| row.op == op)
}

// The number of arguments that an operation reads. The object refuses exactly fewer arguments.
fn row_arguments(row: &OpRow) -> usize
    ensures value { result ≡ row_arguments row.now }
    ensures fewer { (n : ℕ) → has_args_below n row.now ≡ nat_le result n }
{
    let test = test_arguments(row.test);
    let writes = writes_arguments(row.writes.as_slice());
    test.max(writes.max(term_arguments(row.answer)))
}

fn test_arguments(test: Option<(Term, Term)>) -> usize
    ensures { result ≡ test_arguments test }
{
    match test {
        Some((left, right)) => term_arguments(left).max(term_arguments(right)),
        None => 0,
    }
}

fn writes_arguments(writes: &[Write]) -> usize
    ensures { result ≡ writes_arguments writes.now }
{
    match writes {
        [first, rest @ ..] => write_arguments(*first).max(writes_arguments(rest)),
        [] => 0,
    }
}

fn write_arguments(write: Write) -> usize
    ensures { result ≡ write_arguments write }
{
    let plus = term_arguments(write.plus);
    let minus = term_arguments(write.minus);
    term_arguments(write.base).max(plus.max(minus))
}

fn term_arguments(term: Term) -> usize
    ensures { result ≡ term_arguments term }
{
    match term {
        Term::Arg(place) => usize::from(place) + 1,
        Term::Const(_) | Term::Word(_) => 0,
    }
}
