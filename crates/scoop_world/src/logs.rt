//! The logs of clients: for each block that was ever reserved its handlers, and the entries logged for each.

ghost use Rattle.std.specs.Prelude.{◌≡◌, ◌<◌, ◌++◌, [], ◌∷◌, None, false, map, MatchOption, IfOk, IfSome, OnOk, slice_get, option_and_then};
ghost use Rattle.std.specs.List.{All};
ghost use Rattle.std.specs.Option.{option_map};
ghost use Rattle.indexmap.specs.IndexMap.{IsUnique, index_map_len, spare};
ghost use Rattle.scoop_message.specs.contracts.name.BlockPartialEq.TheImpl as on_block;
ghost use Rattle.scoop_model.specs.World.{shares_of};
ghost use Rattle.scoop_model.specs.Step.{fresh_log};
ghost use Rattle.scoop_world.specs.Kept.{HasRoom, IsPlaceOf, entries_in, has_log, logged_kept, block_log, logs_kept, with_entry_for};

use indexmap::IndexMap;
use scoop_message::{Block, Entry, HandlerId, OutOfMemory};
use std::alloc::Allocator;
use std::hash::{BuildHasherDefault, FoldHasher};

/// The entries that a block's client has logged for one handler.
#[derive(Drop)]
pub(crate) struct LoggedAt<A: Allocator> {
    handler: HandlerId,
    entries: Vec<Entry, A>,
}

/// The shares of each block, in the order in which the blocks were reserved.
pub(crate) type Logs<A> = IndexMap<Block, Vec<LoggedAt<A>, A>, BuildHasherDefault<FoldHasher>, A>;

// A share with nothing logged.
fn fresh_share<A: Allocator + Copy>(alloc: A, handler: HandlerId) -> LoggedAt<A>
    ensures { logged_kept result ≡ fresh_log handler }
{
    LoggedAt {
        handler,
        entries: Vec::new(alloc),
    }
}

/// Shares with nothing logged for these handlers.
pub(crate) fn fresh_shares<A: Allocator + Copy>(
    alloc: A,
    handlers: &[HandlerId],
) -> Result<Vec<LoggedAt<A>, A>, OutOfMemory>
    ensures { IfOk result (λ ls. map logged_kept ls.items ≡ map fresh_log handlers.now) }
{
    let mut shares = Vec::new(alloc);
    for handler in handlers {
        shares.push(fresh_share(alloc, *handler))?;
    }
    Ok(shares)
}

/// The place of a block that was ever reserved.
pub(crate) fn place_of<A: Allocator + Copy>(logs: &Logs<A>, block: Block) -> Option<usize>
    ensures place { MatchOption result (has_log block (logs_kept logs.now.entries) ≡ false) (IsPlaceOf block (logs_kept logs.now.entries)) }
    ensures within { IfSome result (λ i. i < index_map_len logs.now) }
    ensures unique { IsUnique on_block.eq-value.it logs.now }
{
    logs.get_index_of(&block)
}

/// Adds a block that was never reserved, as the last one. There is room for it.
pub(crate) fn add<A: Allocator + Copy>(
    logs: &mut Logs<A>,
    block: Block,
    shares: Vec<LoggedAt<A>, A>,
)
    requires new { has_log block (logs_kept logs.old.entries) ≡ false }
    requires room { 0 < spare logs.old }
    ensures { logs_kept logs.new.entries ≡ logs_kept logs.old.entries ++ block_log block shares.items ∷ [] }
{
    let Ok(_) = logs.insert(block, shares) else {
        unreachable!()
    };
}

// Makes room for one more entry on a share.
fn make_room_at<A: Allocator + Copy>(share: &mut LoggedAt<A>) -> Result<(), OutOfMemory>
    ensures ok { OnOk result (HasRoom share.new) }
    ensures same { logged_kept share.new ≡ logged_kept share.old }
{
    share.entries.reserve(1)?;
    Ok(())
}

/// Makes room for one more entry on each share.
pub(crate) fn make_room<A: Allocator + Copy>(shares: &mut [LoggedAt<A>]) -> Result<(), OutOfMemory>
    ensures ok { OnOk result (All HasRoom shares.new) }
    ensures same { map logged_kept shares.new ≡ map logged_kept shares.old }
{
    for share in shares.iter_mut() {
        make_room_at(share)?;
    }
    Ok(())
}

// Logs an entry, if it is meant for this share. There is room for it.
fn log_at<A: Allocator + Copy>(share: &mut LoggedAt<A>, only: Option<HandlerId>, entry: &Entry)
    requires { HasRoom share.old }
    ensures { logged_kept share.new ≡ with_entry_for only entry.now (logged_kept share.old) }
{
    let meant = match only {
        Some(handler) => share.handler == handler,
        None => true,
    };
    if meant {
        share.entries.push_reserved(*entry);
    }
}

/// Logs an entry, for one of the handlers or for all. There is room for it on each share.
pub(crate) fn log<A: Allocator + Copy>(
    shares: &mut [LoggedAt<A>],
    only: Option<HandlerId>,
    entry: &Entry,
)
    requires { All HasRoom shares.old }
    ensures { map logged_kept shares.new ≡ map (with_entry_for only entry.now) (map logged_kept shares.old) }
{
    for share in shares.iter_mut() {
        log_at(share, only, entry);
    }
}

/// The block at a place, counted from 0 in the order of the reserves.
pub(crate) fn block_at<A: Allocator + Copy>(logs: &Logs<A>, place: usize) -> Option<Block>
    ensures { result ≡ option_map (λ l. l.block) (slice_get (logs_kept logs.now.entries) place) }
{
    match logs.get_index(place) {
        Some((block, _)) => Some(*block),
        None => None,
    }
}

// The entries logged for a handler.
fn logged_in<A: Allocator + Copy>(shares: &[LoggedAt<A>], handler: HandlerId) -> Option<&[Entry]>
    ensures { option_map (λ es. es.now) result ≡ entries_in handler (map logged_kept shares.now) }
{
    for share in shares {
        if share.handler == handler {
            return Some(&share.entries);
        }
    }
    None
}

/// The entries that the block's client has logged for a handler that the block has reserved.
pub(crate) fn logged<A: Allocator + Copy>(
    logs: &Logs<A>,
    block: Block,
    handler: HandlerId,
) -> Option<&[Entry]>
    ensures { option_map (λ es. es.now) result ≡ entries_in handler (shares_of block (logs_kept logs.now.entries)) }
{
    match place_of(logs, block) {
        Some(place) => logged_in(&logs[place], handler),
        None => None,
    }
}

/// The entries logged for a handler by the client of the block at a place, if that block has reserved the handler.
pub(crate) fn logged_by<A: Allocator + Copy>(
    logs: &Logs<A>,
    place: usize,
    handler: HandlerId,
) -> Option<&[Entry]>
    ensures { option_map (λ es. es.now) result
        ≡ option_and_then (λ l. entries_in handler l.shares) (slice_get (logs_kept logs.now.entries) place) }
{
    match logs.get_index(place) {
        Some((_, shares)) => logged_in(shares, handler),
        None => None,
    }
}
