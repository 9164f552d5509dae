//! `scoop answer`: one handler, and the datagrams of standard input.

ghost use Rattle.std.specs.Prelude.{◌≡◌, ◌∷◌, [], IfOk};
ghost use Rattle.scoop_book.specs.Opening.{AllOpen};
ghost use Rattle.scoop_classes.specs.Classes.{table_of};

use crate::reports::{report_file_error, report_run, report_run_over};
use scoop_book::Book;
use scoop_classes::DemoClass;
use scoop_command_line::{AnswerOptions, StoreChoice};
use scoop_demo::{RunError, answer_run, open_book};
use scoop_files::{FileError, FiledStore, adopt, close, create};
use scoop_keeper::{Keeper, MemoryKeeper};
use scoop_message::{HandlerId, OutOfMemory};
use scoop_object::Behaviour;
use scoop_report::{Hints, Status};
use std::alloc::Global;
use std::io;
use std::io::BufWriter;

/// Answers the datagrams of standard input with this object of the class, over the store of the options.
pub fn answer<B: Behaviour>(
    rt: &HostRuntime,
    options: &AnswerOptions<'_>,
    class: DemoClass,
    object: B,
) -> Result<(), Status>
    requires { table_of class ≡ B.class object }
{
    match options.store {
        StoreChoice::None => answer_in_memory(rt, options, class, object),
        StoreChoice::New(path) => {
            let opened = create(rt, path);
            answer_in_file(rt, options, class, object, path, opened)
        }
        StoreChoice::Old(path) => {
            let opened = adopt(rt, path);
            answer_in_file(rt, options, class, object, path, opened)
        }
    }
}

// Answers over a record that is in memory alone.
fn answer_in_memory<B: Behaviour>(
    rt: &HostRuntime,
    options: &AnswerOptions<'_>,
    class: DemoClass,
    object: B,
) -> Result<(), Status>
    requires { table_of class ≡ B.class object }
{
    let keeper = MemoryKeeper::new(rt.alloc());
    let answered = match answer_over(rt, options, class, object, keeper) {
        Ok((answered, _)) => answered,
        Err(error) => Err(error),
    };
    match answered {
        Ok(()) => Ok(()),
        Err(error) => Err(report_run(rt, Hints::AtTerminal, error)),
    }
}

// Answers over the store in this file, if it was opened, and closes it.
fn answer_in_file<B: Behaviour>(
    rt: &HostRuntime,
    options: &AnswerOptions<'_>,
    class: DemoClass,
    object: B,
    path: &str,
    opened: Result<FiledStore, FileError>,
) -> Result<(), Status>
    requires { table_of class ≡ B.class object }
{
    match opened {
        Ok(store) => answer_and_close(rt, options, class, object, path, store),
        Err(error) => Err(report_file_error(rt, path, error)),
    }
}

// Answers over this store, and closes it.
fn answer_and_close<B: Behaviour>(
    rt: &HostRuntime,
    options: &AnswerOptions<'_>,
    class: DemoClass,
    object: B,
    path: &str,
    store: FiledStore,
) -> Result<(), Status>
    requires { table_of class ≡ B.class object }
{
    match answer_over(rt, options, class, object, store) {
        Ok((answered, store)) => ended(rt, path, answered, close(store)),
        Err(error) => Err(report_run_over(rt, path, error)),
    }
}

// Reports how a run over a store in a file ended, and its closing.
fn ended(
    rt: &HostRuntime,
    path: &str,
    answered: Result<(), RunError>,
    closed: Result<(), FileError>,
) -> Result<(), Status> {
    match (answered, closed) {
        (Err(error), _) => Err(report_run_over(rt, path, error)),
        (Ok(()), Err(error)) => Err(report_file_error(rt, path, error)),
        (Ok(()), Ok(())) => Ok(()),
    }
}

// Answers over this keeper, and returns it with how the run ended. The keeper goes where the book can't be opened.
fn answer_over<B: Behaviour, K: Keeper<Global>, R: Input + Print + AllocGlobal>(
    rt: &R,
    options: &AnswerOptions<'_>,
    class: DemoClass,
    object: B,
    keeper: K,
) -> Result<(Result<(), RunError>, K), RunError>
    requires { table_of class ≡ B.class object }
{
    let handler = HandlerId(options.handler);
    let mut book = open_with(rt.alloc(), keeper, handler, class, object)?;
    let answered = answer_lines(rt, &mut book, options.shows_words.then_some(handler));
    Ok((answered, book.into_keeper()))
}

// Answers the lines of standard input.
fn answer_lines<B: Behaviour, K: Keeper<Global>, R: Input + Print + AllocGlobal>(
    rt: &R,
    book: &mut Book<B, K>,
    shown: Option<HandlerId>,
) -> Result<(), RunError> {
    let mut output = BufWriter::new(rt.alloc(), io::writer(rt)).map_err(|_| OutOfMemory)?;
    answer_run(book, shown, rt.reader(), &mut output)
}

// The book of the handler over what the keeper has for it, with an object of the class. Refused as `open_book` is.
fn open_with<B: Behaviour, K: Keeper<Global>>(
    alloc: Global,
    keeper: K,
    number: HandlerId,
    class: DemoClass,
    object: B,
) -> Result<Book<B, K>, RunError>
    requires { table_of class ≡ B.class object }
    ensures { IfOk result (λ b. AllOpen B.words (K.handlers keeper) (K.is_honest b.keeper) ((number, B.class object, object) ∷ []) b.opening) }
{
    let class = class.class(alloc)?;
    open_book(alloc, keeper, number, class, object)
}
