//! The names of the operations that the classes of every system have.

ghost use Rattle.std.specs.Prelude.{◌≡◌};
ghost use Rattle.scoop_system.specs.Operations.{known_operation, known_names};

use scoop_classes::DemoClass;
use scoop_lines::is;

// The names of the operations of a class.
pub(crate) fn known_names(class: DemoClass) -> &'static str
    ensures { result.now ≡ known_names class }
{
    match class {
        DemoClass::Cell => "set, get",
        DemoClass::Counter => "add, get",
        DemoClass::Account => "deposit, withdraw, balance",
        DemoClass::Exchange => "put",
    }
}

// The number of the operation of this name, if the class has it.
pub(crate) fn known_operation(class: DemoClass, name: &[u8]) -> Option<u16>
    ensures { result ≡ known_operation class name.now }
{
    match class {
        DemoClass::Cell => cell_operation(name),
        DemoClass::Counter => counter_operation(name),
        DemoClass::Account => account_operation(name),
        DemoClass::Exchange => exchange_operation(name),
    }
}

fn cell_operation(name: &[u8]) -> Option<u16>
    ensures { result ≡ known_operation DemoClass.Cell name.now }
{
    if is(name, "set") {
        Some(1)
    } else if is(name, "get") {
        Some(2)
    } else {
        None
    }
}

fn counter_operation(name: &[u8]) -> Option<u16>
    ensures { result ≡ known_operation DemoClass.Counter name.now }
{
    if is(name, "add") {
        Some(1)
    } else if is(name, "get") {
        Some(2)
    } else {
        None
    }
}

fn account_operation(name: &[u8]) -> Option<u16>
    ensures { result ≡ known_operation DemoClass.Account name.now }
{
    if is(name, "deposit") {
        Some(1)
    } else if is(name, "withdraw") {
        Some(2)
    } else if is(name, "balance") {
        Some(3)
    } else {
        None
    }
}

fn exchange_operation(name: &[u8]) -> Option<u16>
    ensures { result ≡ known_operation DemoClass.Exchange name.now }
{
    if is(name, "put") { Some(1) } else { None }
}
