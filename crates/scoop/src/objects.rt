//! The objects in boxes, for the commands that run them.

use scoop_classes::{AccountObject, CellObject, CounterObject, DemoClass, ExchangeObject};
use scoop_command_line::{AnswerOptions, DemoOptions};
use scoop_local_commands::{answer, demonstrate, report_no_class};
use scoop_object::Boxed;
use scoop_report::Status;
use scoop_start::report_memory;
use std::net::Net;
use std::sync::Wait;
use std::thread::Threads;
use std::time::Clock;

/// Answers the datagrams of standard input with an object of the class of the options.
pub fn answer_with_object(rt: &HostRuntime, options: &AnswerOptions<'_>) -> Result<(), Status> {
    match options.class {
        Some(DemoClass::Cell) => answer_as_cell(rt, options),
        Some(DemoClass::Counter) => answer_as_counter(rt, options),
        Some(DemoClass::Account) => answer_as_account(rt, options),
        Some(DemoClass::Exchange) => answer_as_exchange(rt, options),
        None => Err(report_no_class(rt)),
    }
}

fn answer_as_cell(rt: &HostRuntime, options: &AnswerOptions<'_>) -> Result<(), Status> {
    match Box::new(rt.alloc(), CellObject::new(options.word)) {
        Ok(cell) => answer(rt, options, DemoClass::Cell, Boxed::new(cell)),
        Err(_) => Err(report_memory(rt)),
    }
}

fn answer_as_counter(rt: &HostRuntime, options: &AnswerOptions<'_>) -> Result<(), Status> {
    match Box::new(rt.alloc(), CounterObject::new(options.word)) {
        Ok(counter) => answer(rt, options, DemoClass::Counter, Boxed::new(counter)),
        Err(_) => Err(report_memory(rt)),
    }
}

fn answer_as_account(rt: &HostRuntime, options: &AnswerOptions<'_>) -> Result<(), Status> {
    match Box::new(rt.alloc(), AccountObject::new(options.word)) {
        Ok(account) => answer(rt, options, DemoClass::Account, Boxed::new(account)),
        Err(_) => Err(report_memory(rt)),
    }
}

fn answer_as_exchange(rt: &HostRuntime, options: &AnswerOptions<'_>) -> Result<(), Status> {
    match Box::new(rt.alloc(), ExchangeObject::new(options.word, 0)) {
        Ok(exchange) => answer(rt, options, DemoClass::Exchange, Boxed::new(exchange)),
        Err(_) => Err(report_memory(rt)),
    }
}

/// Shows the demo with two cells, and with an account where it waits. Returns the program's status.
pub fn show_with_objects<T: Threads + Wait + Clock + Net + Sync>(
    rt: &HostRuntime,
    threads: &T,
    options: &DemoOptions,
) -> Result<u8, Status> {
    let Ok(first) = Box::new(rt.alloc(), CellObject::new(0)) else {
        return Err(report_memory(rt));
    };
    let Ok(second) = Box::new(rt.alloc(), CellObject::new(0)) else {
        return Err(report_memory(rt));
    };
    let account = if options.waits {
        match Box::new(rt.alloc(), AccountObject::new(0)) {
            Ok(account) => Some(Boxed::new(account)),
            Err(_) => return Err(report_memory(rt)),
        }
    } else {
        None
    };
    let cells = (Boxed::new(first), Boxed::new(second));
    demonstrate(rt, threads, options, cells, account)
}
