//! The place of a move in its party's journal.

use crate::cursor::Cursor;
use crate::error::{Move, PartyName};
use crate::lives::Tale;
use scoop_journal::{Arrival, Line};

// How many moves a line of a client is, if it knows so many handlers.
fn moves_of(line: &Line<'_>, handlers: usize) -> usize {
    match line {
        Line::Turn(Arrival::Frame(..)) => handlers.saturating_add(1),
        Line::Turn(_) => handlers,
        Line::Broke(place) => handlers.min(place.saturating_add(1)),
        _ => 1,
    }
}

// The step, counted from 1, that has the move at this place of a life which begins at this line.
fn step_of(bytes: &[u8], line: u64, handlers: usize, place: usize) -> u64 {
    let mut cursor = Cursor::new(bytes);
    let mut step: u64 = 0;
    let mut behind: usize = 0;
    for _ in 0..u64::MAX {
        let Ok(Some(next)) = cursor.next() else {
            return step;
        };
        if cursor.number > line {
            step = step.saturating_add(1);
            behind = behind.saturating_add(moves_of(&next, handlers));
            if behind > place {
                return step;
            }
        }
    }
    step
}

/// The move at this place of a party that knows so many handlers, if it is a client.
pub(crate) fn move_at(tale: &Tale, bytes: &[u8], handlers: usize, place: usize) -> Move {
    let at = tale.life_of(place);
    let (first, line) = match tale.lives.get(at) {
        Some(life) => (life.first, life.line),
        None => (0, 0),
    };
    let within = place.saturating_sub(first);
    let entry = match tale.party() {
        PartyName::Node(_) => (within as u64).saturating_add(1),
        PartyName::Client(_) => step_of(bytes, line, handlers, within),
    };
    Move {
        party: tale.party(),
        life: (at as u64).saturating_add(1),
        entry,
    }
}
