//! The marks of a handler's clients, by ascending client, for binary search.

ghost use Rattle.std.specs.Prelude.{◌≡◌, ◌≤◌, length, map, MatchOption, OnOk, OnErr, Some};
ghost use Rattle.scoop_handler.specs.Marks.{IsPlaceOf, IsNowhere, mark_of, set_mark, add_mark, place_of};
ghost use Rattle.scoop_handler.specs.Running.{mark_after};
ghost use Rattle.scoop_handler.specs.State.{IsAscending};

use crate::mark::Mark;
use crate::ran::Ran;
use scoop_message::{ClientId, OutOfMemory};
use std::alloc::Allocator;

// How many marks come before one of this client.
fn place_of_client(marks: &[Mark], client: ClientId) -> usize
    requires { IsAscending marks.now }
    ensures place { result ≡ place_of client marks.now }
    ensures within { result ≤ length marks.now }
{
    marks.partition_point(|k| k.client.0 < client.0)
}

// The place of the client's mark.
fn find_place(marks: &[Mark], client: ClientId) -> Option<usize>
    requires { IsAscending marks.now }
    ensures { MatchOption result (IsNowhere client marks.now) (IsPlaceOf client marks.now) }
{
    let place = place_of_client(marks, client);
    if place < marks.len() && marks[place].client == client {
        Some(place)
    } else {
        None
    }
}

/// The client's mark, and its place.
pub(crate) fn find_placed(marks: &[Mark], client: ClientId) -> Option<(usize, Mark)>
    requires { IsAscending marks.now }
    ensures { MatchOption result (IsNowhere client marks.now)
        (λ found. IsPlaceOf client marks.now found.0 × (mark_of client marks.now ≡ Some found.1)) }
{
    match find_place(marks, client) {
        Some(place) => Some((place, marks[place])),
        None => None,
    }
}

/// The client's mark.
pub(crate) fn find_mark(marks: &[Mark], client: ClientId) -> Option<Mark>
    requires { IsAscending marks.now }
    ensures { result ≡ mark_of client marks.now }
{
    match find_place(marks, client) {
        Some(place) => Some(marks[place]),
        None => None,
    }
}

/// Puts the mark in place of its client's, which is at this place.
pub(crate) fn set_mark_in(marks: &mut [Mark], place: usize, mark: Mark)
    requires { IsPlaceOf mark.client marks.old place }
    ensures { marks.new ≡ set_mark mark marks.old }
{
    marks[place] = mark;
}

/// Adds the mark of a client that has none, in the order of the clients. An `Err` changes nothing.
pub(crate) fn add_mark_in<A: Allocator>(
    marks: &mut Vec<Mark, A>,
    mark: Mark,
) -> Result<(), OutOfMemory>
    requires { IsAscending marks.old.items }
    ensures ok { OnOk result (marks.new.items ≡ add_mark mark marks.old.items) }
    ensures err { OnErr result (marks.new.items ≡ marks.old.items) }
{
    let place = place_of_client(marks, mark.client);
    marks.insert(place, mark)?;
    Ok(())
}

/// Keeps the answer of an entry that has run, if it is a query of its client's newest block.
pub(crate) fn keep_answer_in<A: Allocator>(marks: &mut Vec<Mark, A>, ran: &Ran)
    ensures { marks.new.items ≡ map (mark_after ran.now) marks.old.items }
{
    if !ran.is_query() {
        return;
    }
    for k in marks.iter_mut() {
        if k.block() == ran.block {
            *k = k.after(ran);
        }
    }
}
