//! The text of a run that has an explanation.

use crate::auditing::Explained;
use crate::blocks::{BlockLine, Blocks, Opening};
use crate::error::PartyName;
use crate::lives::Tale;
use indexmap::IndexSet;
use scoop_message::Block;
use std::alloc::Global;
use std::hash::{BuildHasherDefault, FoldHasher};
use std::io;
use std::io::{ErrorKind, Write};

// One, or several.
fn plural(count: u64, one: &'static str, several: &'static str) -> &'static str {
    if count == 1 { one } else { several }
}

// The lives and entries that the party's journal tells.
fn print_tale<W: Write>(tale: &Tale, writer: &mut W) -> io::Result<()> {
    let party = tale.party();
    if !tale.has_journal() {
        return writeln!(writer, "{party}: no journal");
    }
    let lives = tale.lives() as u64;
    let entries = tale.entries();
    let of_lives = plural(lives, "life", "lives");
    let of_entries = match party {
        PartyName::Node(_) => plural(entries, "entry", "entries"),
        PartyName::Client(_) => plural(entries, "step", "steps"),
    };
    writeln!(
        writer,
        "{party}: {lives} {of_lives}, {entries} {of_entries}"
    )
}

// The last entries of the party's lives that are left out.
fn print_left_out<W: Write>(tale: &Tale, writer: &mut W) -> io::Result<()> {
    let party = tale.party();
    for place in 0..tale.lives() {
        if let Some((first, last)) = tale.left_out(place) {
            let life = place as u64 + 1;
            write!(writer, "supposed: {party}, life {life}: ")?;
            if first == last {
                writeln!(writer, "entry {first} was not stored")?;
            } else {
                writeln!(writer, "entries {first} to {last} were not stored")?;
            }
        }
    }
    Ok(())
}

// The last turns that are supposed.
fn print_turns<W: Write>(tales: &[Tale], writer: &mut W) -> io::Result<()> {
    let mut turns: u64 = 0;
    for tale in tales {
        turns = turns.saturating_add(tale.supposed_turns());
    }
    match turns {
        0 => Ok(()),
        1 => writeln!(writer, "supposed: 1 last turn of a client"),
        _ => writeln!(writer, "supposed: {turns} last turns of clients"),
    }
}

fn print_block<W: Write>(line: &BlockLine, writer: &mut W) -> io::Result<()> {
    let block = line.block;
    write!(writer, "block {block} handlers")?;
    for share in line.shares() {
        let handler = share.handler;
        write!(writer, " {handler}")?;
    }
    for (place, share) in line.shares().iter().enumerate() {
        let before = if place == 0 { ": ran" } else { "," };
        let (handler, ran, logged) = (share.handler, share.ran, share.logged);
        write!(writer, "{before} {ran} of {logged} at {handler}")?;
    }
    let end = if line.is_ended() {
        "ended"
    } else if line.is_cut {
        "cut"
    } else {
        "not ended"
    };
    writeln!(writer, ", {end}")
}

// The opening that this move of the node is, if it is one. The node's openings stand in the order of its moves, and the first
// of them that are not passed yet at this place.
fn opening_at(openings: &[Opening], next: usize, node: PartyName, place: usize) -> Option<Block> {
    let opening = openings.get(next)?;
    if opening.node == node && opening.place == place {
        Some(opening.block)
    } else {
        None
    }
}

// The first opening of the node.
fn first_opening(openings: &[Opening], node: PartyName) -> usize {
    for (place, opening) in openings.iter().enumerate() {
        if opening.node == node {
            return place;
        }
    }
    openings.len()
}

fn no_memory() -> io::Error {
    io::Error::from(ErrorKind::OutOfMemory)
}

// A line for each block that opened, in the order in which they opened first.
fn print_blocks<W: Write>(alloc: Global, run: &Explained, writer: &mut W) -> io::Result<()> {
    let openings = run.blocks().openings();
    let mut places: Vec<usize> = Vec::new(alloc);
    let mut next: Vec<usize> = Vec::new(alloc);
    for tale in run.tales() {
        places.push(0).map_err(|_| no_memory())?;
        next.push(first_opening(openings, tale.party()))
            .map_err(|_| no_memory())?;
    }
    let mut opened: IndexSet<Block, BuildHasherDefault<FoldHasher>> = IndexSet::new(alloc);
    for party in run.order() {
        let at = *party as usize;
        let Some(tale) = run.tales().get(at) else {
            return Ok(());
        };
        if at < places.len() && at < next.len() {
            if let Some(block) = opening_at(openings, next[at], tale.party(), places[at]) {
                next[at] = next[at].saturating_add(1);
                print_first(run.blocks(), block, &mut opened, writer)?;
            }
            places[at] = places[at].saturating_add(1);
        }
    }
    Ok(())
}

// The line of a block that opens, if it opens for the first time.
fn print_first<W: Write>(
    blocks: &Blocks,
    block: Block,
    opened: &mut IndexSet<Block, BuildHasherDefault<FoldHasher>>,
    writer: &mut W,
) -> io::Result<()> {
    if !opened.insert(block).map_err(|_| no_memory())? {
        return Ok(());
    }
    match blocks.block(block) {
        Some(line) => print_block(&line, writer),
        None => Ok(()),
    }
}

/// Prints what each party's journal tells, what is supposed, and how many moves the order has; then, if that is asked, a line
/// for each block.
pub fn print_explained<W: Write>(
    alloc: Global,
    run: &Explained,
    lists_blocks: bool,
    writer: &mut W,
) -> io::Result<()> {
    for tale in run.tales() {
        print_tale(tale, writer)?;
    }
    for tale in run.tales() {
        print_left_out(tale, writer)?;
    }
    print_turns(run.tales(), writer)?;
    let moves = run.moves();
    writeln!(writer, "explained: {moves} moves in one order")?;
    if lists_blocks {
        print_blocks(alloc, run, writer)?;
    }
    Ok(())
}
