//! The look ahead at a node's next life, which shows how much of this one was stored.
//!
//! A node writes its entries before it stores the states after them. It stores them in that order, perhaps many together, so a
//! killed one has those after some entry. The next life opens with them.

use crate::cursor::Cursor;
use crate::node::is_at;
use scoop_journal::Line;
use scoop_message::{HandlerId, OutOfMemory};
use scoop_replay::{NodeReplay, ReplayError};
use scoop_weaver::Post;
use std::alloc::Global;

// Messages that a node hears before it stores what they changed, at most. Its link holds back the replies to as many.
const MAX_HEARD: u64 = 64;

// The blobs with which the next life opens a handler, and whether they are those of its state.
#[derive(Clone, Copy)]
struct Opening<'a> {
    image: &'a [u8],
    pending: &'a [u8],
    is_reached: bool,
}

// The place at which the next life begins, and the number of messages that this one still hears. `None` if this life is
// the last one.
fn next_life(mut cursor: Cursor<'_>) -> Option<(Cursor<'_>, u64)> {
    let mut hears: u64 = 0;
    for _ in 0..cursor.rest.len() {
        if cursor.begins_life() {
            return Some((cursor, hears));
        }
        if cursor.next_text()?.starts_with(b"hear") {
            hears = hears.saturating_add(1);
        }
    }
    None
}

// How the handlers open in the life that begins here. If it ended before it had written them all, the life after it shows
// the others.
fn openings_of(alloc: Global, mut cursor: Cursor<'_>) -> Result<Vec<Opening<'_>>, OutOfMemory> {
    let mut openings = Vec::new(alloc);
    let mut place: usize = 0;
    for _ in 0..cursor.rest.len() {
        match cursor.next() {
            Ok(Some(Line::NodeLife(_))) => place = 0,
            Ok(Some(Line::Open(_, image, pending))) => {
                if place == openings.len() {
                    openings.push(Opening {
                        image,
                        pending,
                        is_reached: false,
                    })?;
                }
                place = place.saturating_add(1);
            }
            _ => return Ok(openings),
        }
    }
    Ok(openings)
}

// Looks again at the state of this handler, or at those of all handlers.
fn look(
    alloc: Global,
    node: &NodeReplay,
    handler: Option<HandlerId>,
    openings: &mut [Opening<'_>],
) -> Result<(), OutOfMemory> {
    for place in 0..openings.len() {
        let is_meant = match handler {
            Some(handler) => is_at(node, place, handler),
            None => true,
        };
        if is_meant {
            let Opening { image, pending, .. } = openings[place];
            openings[place].is_reached = node.is_stored_as(alloc, place, image, pending)?;
        }
    }
    Ok(())
}

// An entry that the rules refuse.
fn refused(error: ReplayError) -> Result<Option<(HandlerId, u64)>, OutOfMemory> {
    match error {
        ReplayError::OutOfMemory => Err(OutOfMemory),
        _ => Ok(None),
    }
}

// Makes the entry of a line. Returns its handler, and how many messages it hears. `None` if the rules refuse the entry, or
// the line isn't one.
fn enter(
    line: &Line<'_>,
    node: &mut NodeReplay,
    post: &mut Post,
) -> Result<Option<(HandlerId, u64)>, OutOfMemory> {
    match line {
        Line::Hear(message, reply) => match node.hear(post, message, reply) {
            Ok(_) => Ok(Some((message.handler(), 1))),
            Err(error) => refused(error),
        },
        Line::Begin(handler) => match node.begin(post, *handler) {
            Ok(()) => Ok(Some((*handler, 0))),
            Err(error) => refused(error),
        },
        Line::Finish(handler) => match node.finish(post, *handler) {
            Ok(_) => Ok(Some((*handler, 0))),
            Err(error) => refused(error),
        },
        _ => Ok(None),
    }
}

// Makes the entries of a life that hears this many messages. Returns the highest number of them that leads to the
// states with which the next life opens. `None` if no number does, or an entry can't be made.
fn reach(
    alloc: Global,
    node: &mut NodeReplay,
    mut cursor: Cursor<'_>,
    mut hears: u64,
    openings: &mut [Opening<'_>],
) -> Result<Option<u64>, OutOfMemory> {
    let mut post = Post::new(alloc);
    let mut stored = None;
    let mut changed = None;
    for entries in 0..u64::MAX {
        let is_near = hears <= MAX_HEARD;
        if is_near {
            look(alloc, node, changed, openings)?;
            if openings.iter().all(|opening| opening.is_reached) {
                stored = Some(entries);
            }
        }
        if cursor.begins_life() {
            return Ok(stored);
        }
        let Ok(Some(line)) = cursor.next() else {
            return Ok(None);
        };
        let Some((handler, heard)) = enter(&line, node, &mut post)? else {
            return Ok(None);
        };
        changed = if is_near { Some(handler) } else { None };
        hears = hears.saturating_sub(heard);
    }
    Ok(None)
}

/// How many entries of the life that begins here were stored, if the next life shows it. That opens with the states after
/// them, and after them this life hears at most 64 messages. The most, if there are several answers.
pub(crate) fn stored_entries(
    alloc: Global,
    node: &NodeReplay,
    cursor: &Cursor<'_>,
) -> Result<Option<u64>, OutOfMemory> {
    let Some((next, hears)) = next_life(*cursor) else {
        return Ok(None);
    };
    let mut openings = openings_of(alloc, next)?;
    let mut ahead = node.opened_again(alloc)?;
    reach(alloc, &mut ahead, *cursor, hears, &mut openings)
}
