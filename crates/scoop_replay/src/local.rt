//! A handler of a node, as its journal has led it so far.

ghost use Rattle.std.specs.Prelude.{◌≡◌, ◌↔◌, ℕ, List, None, Some, find, IsTrue, IfNone, IfOk, IfSome, MatchOption, OnErr, OnOk};
ghost use Rattle.scoop_message.specs.declared.name.HandlerId.{HandlerId as Name};
ghost use Rattle.scoop_handler.specs.Local.{Begins, Finishes, Hears, is_handler, number_in};
ghost use Rattle.scoop_handler.specs.Running.{job_out};
ghost use Rattle.hex.specs.Hex.{encode_lower};
ghost use Rattle.scoop_keeper.specs.Keyed.{IsFirst};
ghost use Rattle.scoop_weave.specs.NodeHistories.{reopened};
ghost use Rattle.scoop_replay.specs.Node.{AreBlobs, new_local, IsStoredAs};

use scoop_handler::{Handler, HandlerState, Heard, Job, Ran};
use scoop_message::{Block, HandlerId, Message, OutOfMemory, Words};
use scoop_object::{Class, Table};
use scoop_record::{image, pending_row};
use std::alloc::Global;
use std::marker::Model;

/// A handler whose state is stored, and the job that is out, if one is.
#[derive(Drop)]
pub(crate) struct Local {
    handler: Handler<Table>,
    // The class once more: a handler doesn't show its own.
    class: Class,
    job: Option<Job<Table>>,
}

impl Model for Local {
    ghost use Rattle.std.specs.Prelude.{◌≡◌, Some};
    ghost use Rattle.scoop_handler.specs.Local.{LocalHandler, local_handler};
    ghost use Rattle.scoop_handler.specs.Running.{job_out};

    ghost Value = { LocalHandler };

    ghost view = { λ l. local_handler l.handler (Some l.handler.state) };

    ghost invariant = { λ l. (l.class ≡ l.handler.class) × (l.job ≡ job_out l.handler) };
}

// Whether these hex digits, in lower case, are those of the bytes.
fn are_digits(alloc: Global, digits: &[u8], bytes: &[u8]) -> Result<bool, OutOfMemory>
    ensures { IfOk result (λ are. IsTrue are ↔ (digits.now ≡ encode_lower bytes.now)) }
{
    let text = hex::encode(alloc, bytes)?;
    Ok(text.as_bytes() == digits)
}

// Whether these are the blobs of the state, in hex digits.
fn is_stored_as(
    alloc: Global,
    state: &HandlerState,
    image_digits: &[u8],
    pending_digits: &[u8],
) -> Result<bool, OutOfMemory>
    ensures { IfOk result (λ is. IsTrue is ↔ AreBlobs state.now image_digits.now pending_digits.now) }
{
    let front = image(alloc, state)?;
    if !are_digits(alloc, image_digits, &front)? {
        return Ok(false);
    }
    let pending = pending_row(alloc, state)?;
    are_digits(alloc, pending_digits, &pending)
}

impl Local {
    /// A new handler, whose state is stored. `None` if the words aren't as many as the class has.
    pub(crate) fn new(
        alloc: Global,
        number: HandlerId,
        class: Class,
        words: Words,
    ) -> Result<Option<Local>, OutOfMemory>
        ensures { IfOk result (λ made. IfSome made (λ l. l ≡ new_local number class words)) }
    {
        let kept = class.copy_in(alloc)?;
        let Ok(object) = Table::new(class.copy_in(alloc)?, words) else {
            return Ok(None);
        };
        match Handler::new(alloc, number, class, object) {
            Ok(handler) => Ok(Some(Local {
                handler,
                class: kept,
                job: None,
            })),
            Err(_) => Ok(None),
        }
    }

    /// Its number.
    pub(crate) fn number(&self) -> HandlerId
        ensures { result ≡ number_in self.now }
    {
        self.handler.number()
    }

    /// It hears a message, and its new state is stored.
    pub(crate) fn hear(&mut self, message: &Message) -> Result<Heard, OutOfMemory>
        ensures hears { IfOk result (λ heard. Hears message.now heard self.old self.new) }
        ensures err { OnErr result (self.new ≡ self.old) }
    {
        // For the prover: the handler is sound.
        let _sound = self.handler.number();
        self.handler.hear(message)
    }

    /// Its next entry leaves to be run, if there is one and no job is out. Returns the entry's block and number.
    pub(crate) fn begin(&mut self) -> Option<(Block, u32)>
        ensures { Begins result self.old self.new }
    {
        let Some(job) = self.handler.begin() else {
            return None;
        };
        let left = (job.block(), job.number());
        self.job = Some(job);
        Some(left)
    }

    /// The entry that left has run, and the new state is stored. `None` if none has left.
    pub(crate) fn finish(&mut self) -> Option<Ran>
        ensures finishes { IfSome result (λ ran. Finishes ran self.old self.new) }
        ensures none { result ≡ None → self.new ≡ self.old }
        ensures nothing { result ≡ None → job_out self.old.core ≡ None }
    {
        let Some(job) = self.job.take() else {
            return None;
        };
        self.handler.finish(job.work()).ok()
    }

    /// The same handler as its node opens again: with its stored state, and no job out.
    pub(crate) fn restarted(&self, alloc: Global) -> Result<Local, OutOfMemory>
        ensures again { (words : Name → List ℕ) → IfOk result (λ l. l ≡ reopened words self.now) }
        ensures number { IfOk result (λ l. number_in l ≡ number_in self.now) }
    {
        let Ok(object) = Table::new(self.class.copy_in(alloc)?, self.handler.words()) else {
            return Err(OutOfMemory);
        };
        let state = self.handler.copy()?;
        match Handler::restart(self.class.copy_in(alloc)?, object, state) {
            Ok(handler) => Ok(Local {
                handler,
                class: self.class.copy_in(alloc)?,
                job: None,
            }),
            Err(_) => Err(OutOfMemory),
        }
    }

    /// Whether a store that has its state has these blobs, in hex digits.
    pub(crate) fn is_stored_as(
        &self,
        alloc: Global,
        image: &[u8],
        pending: &[u8],
    ) -> Result<bool, OutOfMemory>
        ensures { IfOk result (λ is. IsTrue is ↔ IsStoredAs self.now image.now pending.now) }
    {
        let state = self.handler.copy()?;
        is_stored_as(alloc, &state, image, pending)
    }
}

/// The handler of this number, if the node has it.
pub(crate) fn place_of(locals: &[Local], handler: HandlerId) -> Option<usize>
    ensures { MatchOption result (find (is_handler handler) locals.now ≡ None) (IsFirst (is_handler handler) locals.now) }
{
    for (i, local) in locals.iter().enumerate() {
        if local.number() == handler {
            return Some(i);
        }
    }
    None
}
