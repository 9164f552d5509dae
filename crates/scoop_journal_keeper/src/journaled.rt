//! A keeper that writes a journal.

ghost use Rattle.std.specs.Prelude.{◌≡◌, ◌++◌, ◌⊎◌, true, false, [], Some, Ok, Err, IfSome, IfOk, IfErr, IsOk, OnOk, OnErr};
ghost use Rattle.scoop_keeper.specs.Keeper.{IsPutError, IsSame, Stays};
ghost use Rattle.scoop_journal.specs.declared.line.Line.TheVariants.{Hear};
ghost use Rattle.scoop_journal.specs.Journal.{ended, journal_state};
ghost use Rattle.scoop_journal_keeper.specs.Journaled.{Finishes, NotesRun, Writes, journaled, run_text, waiting};

use crate::opening::{refusal, write_opening};
use scoop_handler::{HandlerState, Heard};
use scoop_journal::{AppendError, Journal, Line};
use scoop_keeper::{Keeper, KeeperError};
use scoop_message::{ClientId, HandlerId, Message};
use std::alloc::{Allocator, Global};
use std::io::Write;
use std::marker::Model;

/// The place in which the keeper under a journal keeps its states.
#[derive(Clone, Copy, Debug, PartialEq, Eq)]
pub enum Storage {
    /// In a file. The lines of an event are written before the state after it is stored.
    File,
    /// In memory alone. The lines of an entry that has run wait for what a handler hears next. Until then no reply tells of
    /// it, and the node loses the state at its end.
    Memory,
}

/// A keeper that writes the journal of a node, and stores by the keeper under it. When it is let go, it writes the lines that it
/// gathered.
pub struct JournaledKeeper<K: Drop, W: Write + Drop, A: Allocator + Copy = Global> {
    alloc: A,
    keeper: K,
    storage: Storage,
    journal: Journal<W, A>,
    node: u32,
    handlers: Vec<HandlerId, A>,
    has_begun: bool,
    is_told: bool,
}

impl<K: Drop, W: Write + Drop, A: Allocator + Copy> Model for JournaledKeeper<K, W, A> {
    ghost use Rattle.scoop_journal_keeper.specs.Journaled.{JournaledRecord, journaled};

    ghost Value = { JournaledRecord K W };

    ghost view = { λ j. journaled j.keeper j.storage j.journal j.node j.handlers.items j.has_begun j.is_told };
}

impl<K: Drop, W: Write + Drop, A: Allocator + Copy> JournaledKeeper<K, W, A> {
    /// A keeper of this node with these handlers, in their order of placement, that writes its journal by the writer. The
    /// keeper under it keeps its states in this storage. The first lines of the node's life are written before its first
    /// event.
    pub fn new(
        alloc: A,
        keeper: K,
        storage: Storage,
        writer: W,
        node: u32,
        handlers: Vec<HandlerId, A>,
    ) -> JournaledKeeper<K, W, A>
        ensures { result ≡ journaled keeper storage (journal_state writer [] false) node handlers.items false false }
    {
        JournaledKeeper {
            alloc,
            keeper,
            storage,
            journal: Journal::new(alloc, writer),
            node,
            handlers,
            has_begun: false,
            is_told: false,
        }
    }

    /// The keeper under this one. The lines that are gathered are written first.
    pub fn into_inner(mut self) -> K
        ensures { result ≡ self.keeper }
    {
        let _written = self.journal.commit();
        let JournaledKeeper {
            alloc: _,
            keeper,
            storage: _,
            journal: _,
            node: _,
            handlers: _,
            has_begun: _,
            is_told: _,
        } = self;
        keeper
    }
}

impl<K: Drop, W: Write + Drop, A: Allocator + Copy> Drop for JournaledKeeper<K, W, A> {
    fn drop(self) {
        let _keeper = self.into_inner();
    }
}

// Gathers that an entry of this handler left to be run, and that it has run.
fn gather_run<W: Write + Drop, A: Allocator>(
    journal: &mut Journal<W, A>,
    handler: HandlerId,
) -> Result<(), AppendError>
    ensures gathered { OnOk result (journal.new.text ≡ journal.old.text ++ run_text handler) }
    ensures writer { journal.new.writer ≡ journal.old.writer }
    ensures failed { journal.new.has_failed ≡ journal.old.has_failed }
{
    match journal.gather(&Line::Begin(handler)) {
        Ok(()) => journal.gather(&Line::Finish(handler)),
        Err(error) => Err(error),
    }
}

/// Notes that an entry has run. It is written now, by one call of the writer, if the storage is a file.
pub(crate) fn note_run<W: Write + Drop, A: Allocator>(
    journal: &mut Journal<W, A>,
    storage: Storage,
    handler: HandlerId,
) -> Result<(), AppendError>
    ensures { OnOk result (NotesRun W.contents storage journal.old journal.new handler) }
{
    if journal.has_failed() {
        return Err(AppendError::Write);
    }
    match gather_run(journal, handler) {
        Ok(()) => {}
        Err(error) => return Err(error),
    }
    match storage {
        Storage::File => journal.commit(),
        Storage::Memory => Ok(()),
    }
}

// The refusal of a line. If lines that were gathered before may be lost with it, the node can't go on, nor can the journal.
fn refused<W: Write + Drop, A: Allocator>(
    journal: &mut Journal<W, A>,
    storage: Storage,
    error: AppendError,
) -> KeeperError
    ensures named { IsPutError result }
    ensures lost { storage ≡ Storage.Memory → (result ≡ KeeperError.Refused) × (journal.new.has_failed ≡ true) }
{
    match storage {
        Storage::File => refusal(error),
        Storage::Memory => {
            journal.give_up();
            KeeperError::Refused
        }
    }
}

// The keeper's refusal of an event whose line is written already. In memory the journal can't go on either.
fn unnoted<W: Write + Drop, A: Allocator>(
    journal: &mut Journal<W, A>,
    storage: Storage,
    error: KeeperError,
) -> KeeperError
    requires { IsPutError error }
    ensures named { IsPutError result }
    ensures lost { storage ≡ Storage.Memory → (result ≡ KeeperError.Refused) × (journal.new.has_failed ≡ true) }
{
    match storage {
        Storage::File => error,
        Storage::Memory => {
            journal.give_up();
            KeeperError::Refused
        }
    }
}

// Writes the first lines of the node's life, if they aren't written yet.
fn begin<A: Allocator + Copy, K: Keeper<A>, W: Write + Drop>(
    journaled: &mut JournaledKeeper<K, W, A>,
) -> Result<(), KeeperError>
    ensures begun { OnOk result (journaled.new.has_begun ≡ true) }
    ensures once { journaled.old.has_begun ≡ true → IsOk result }
    ensures silent { journaled.old.has_begun ≡ true → journaled.new.journal ≡ journaled.old.journal }
    ensures waiting { OnOk result (journaled.new.journal.text ≡ waiting journaled.old) }
    ensures storage { journaled.new.storage ≡ journaled.old.storage }
    ensures named { IfErr result IsPutError }
    ensures handlers { K.is_honest journaled.new.keeper → Stays (K.handlers journaled.old.keeper) (K.handlers journaled.new.keeper) }
    ensures incarnations { K.is_honest journaled.new.keeper
        → IsSame (K.incarnations journaled.old.keeper) (K.incarnations journaled.new.keeper) }
    ensures honest { K.is_honest journaled.new.keeper → K.is_honest journaled.old.keeper }
{
    if journaled.has_begun {
        return Ok(());
    }
    let opened = write_opening(
        journaled.alloc,
        &mut journaled.keeper,
        &mut journaled.journal,
        journaled.node,
        &journaled.handlers,
    );
    match opened {
        Ok(()) => {
            journaled.has_begun = true;
            Ok(())
        }
        Err(error) => Err(error),
    }
}

// The result of noting an event. Only the state after it may follow.
fn noted<K: Drop, W: Write + Drop, A: Allocator + Copy>(
    journaled: &mut JournaledKeeper<K, W, A>,
    noted: Result<(), AppendError>,
) -> Result<(), KeeperError>
    ensures ok { OnOk result (noted ≡ Ok tt) }
    ensures named { IfErr result IsPutError }
    ensures lost { journaled.old.storage ≡ Storage.Memory
        → OnErr result ((result ≡ Err KeeperError.Refused) × (journaled.new.journal.has_failed ≡ true)) }
    ensures keeper { journaled.new.keeper ≡ journaled.old.keeper }
    ensures storage { journaled.new.storage ≡ journaled.old.storage }
    ensures journal { OnOk result (journaled.new.journal ≡ journaled.old.journal) }
{
    match noted {
        Ok(()) => {
            journaled.is_told = true;
            Ok(())
        }
        Err(error) => Err(refused(&mut journaled.journal, journaled.storage, error)),
    }
}

impl<A: Allocator + Copy, K: Keeper<A>, W: Write + Drop> Keeper<A> for JournaledKeeper<K, W, A> {
    ghost use Rattle.scoop_keeper.specs.Keeper.{Damaged, stored_of, IsTheOne, Stays, Keeps, IsSame, Sets, next_of, last_incarnation, IsPutError};

    ghost handlers = { λ j. K.handlers j.keeper };

    ghost incarnations = { λ j. K.incarnations j.keeper };

    ghost outlasting = { λ j. K.outlasting j.keeper };

    ghost is_honest = { λ j. K.is_honest j.keeper };

    // After the line of an event only the state after it may follow. So a refusal for memory, after which a node would go
    // on, is `Refused` here.
    fn put_handler(&mut self, state: &HandlerState<A>) -> Result<(), KeeperError>
        ensures stored { K.is_honest self.new.keeper → OnOk result (Keeps (K.handlers self.old.keeper) (K.handlers self.new.keeper) state.now) }
        ensures incarnations { K.is_honest self.new.keeper → IsSame (K.incarnations self.old.keeper) (K.incarnations self.new.keeper) }
        ensures refused { K.is_honest self.new.keeper → OnErr result (Stays (K.handlers self.old.keeper) (K.handlers self.new.keeper)) }
        ensures named { IfErr result IsPutError }
        ensures honest { K.is_honest self.new.keeper → K.is_honest self.old.keeper }
        ensures last { self.old.is_told ≡ true → IfErr result (λ e. e ≡ KeeperError.Refused) }
        ensures journal { self.new.journal ≡ self.old.journal }
    {
        let is_told = self.is_told;
        self.is_told = false;
        match self.keeper.put_handler(state) {
            Ok(()) => Ok(()),
            Err(error) => {
                if is_told {
                    Err(KeeperError::Refused)
                } else {
                    Err(error)
                }
            }
        }
    }

    fn load_handler(&mut self, handler: HandlerId) -> Result<Option<HandlerState<A>>, KeeperError>
        ensures loaded { K.is_honest self.new.keeper → IfOk result (λ found. IsTheOne (K.handlers self.old.keeper handler.0) (stored_of found)) }
        ensures own { IfOk result (λ found. IfSome found (λ s. s.number ≡ handler)) }
        ensures bad { K.is_honest self.new.keeper → result ≡ Err (KeeperError.BadImage handler) → IsTheOne (K.handlers self.old.keeper handler.0) Damaged }
        ensures named { IfErr result (λ e. IsPutError e ⊎ (e ≡ KeeperError.BadImage handler)) }
        ensures handlers { K.is_honest self.new.keeper → Stays (K.handlers self.old.keeper) (K.handlers self.new.keeper) }
        ensures incarnations { K.is_honest self.new.keeper → IsSame (K.incarnations self.old.keeper) (K.incarnations self.new.keeper) }
        ensures honest { K.is_honest self.new.keeper → K.is_honest self.old.keeper }
        ensures gives { K.load_gives self.old.keeper handler result self.new.keeper }
        ensures journal { self.new.journal ≡ self.old.journal }
    {
        self.keeper.load_handler(handler)
    }

    fn next_incarnation(&mut self, client: ClientId) -> Result<u32, KeeperError>
        ensures next { K.is_honest self.new.keeper → IfOk result (λ inc. inc ≡ next_of (K.incarnations self.old.keeper client.0)) }
        ensures stored { K.is_honest self.new.keeper → IfOk result (Sets (K.incarnations self.old.keeper) (K.incarnations self.new.keeper) client.0) }
        ensures spent { K.is_honest self.new.keeper → result ≡ Err KeeperError.IncarnationsSpent
            → K.incarnations self.old.keeper client.0 ≡ Some last_incarnation }
        ensures refused { K.is_honest self.new.keeper → OnErr result (IsSame (K.incarnations self.old.keeper) (K.incarnations self.new.keeper)) }
        ensures named { IfErr result (λ e. IsPutError e ⊎ (e ≡ KeeperError.IncarnationsSpent)) }
        ensures handlers { K.is_honest self.new.keeper → Stays (K.handlers self.old.keeper) (K.handlers self.new.keeper) }
        ensures honest { K.is_honest self.new.keeper → K.is_honest self.old.keeper }
        ensures gives { K.next_gives self.old.keeper client result self.new.keeper }
        ensures journal { self.new.journal ≡ self.old.journal }
    {
        self.keeper.next_incarnation(client)
    }

    // The lines of events stand in the journal by now, so a refusal for memory is `Refused` too.
    fn commit(&mut self) -> Result<(), KeeperError>
        ensures outlasts { K.is_honest self.new.keeper → OnOk result (Stays (K.handlers self.new.keeper) (K.outlasting self.new.keeper)) }
        ensures refused { K.is_honest self.new.keeper → OnErr result (Stays (K.outlasting self.old.keeper) (K.outlasting self.new.keeper)) }
        ensures handlers { K.is_honest self.new.keeper → Stays (K.handlers self.old.keeper) (K.handlers self.new.keeper) }
        ensures incarnations { K.is_honest self.new.keeper → IsSame (K.incarnations self.old.keeper) (K.incarnations self.new.keeper) }
        ensures named { IfErr result (λ e. e ≡ KeeperError.Refused) }
        ensures honest { K.is_honest self.new.keeper → K.is_honest self.old.keeper }
        ensures journal { self.new.journal ≡ self.old.journal }
    {
        match self.keeper.commit() {
            Ok(()) => Ok(()),
            Err(_) => Err(KeeperError::Refused),
        }
    }

    fn note_heard(&mut self, message: &Message, heard: &Heard) -> Result<(), KeeperError>
        ensures written { OnOk result (Writes W.contents self.old self.new (waiting self.old ++ ended (Hear message.now heard.now.reply))) }
        ensures lost { self.old.has_begun ≡ true → self.old.storage ≡ Storage.Memory
            → OnErr result ((result ≡ Err KeeperError.Refused) × (self.new.journal.has_failed ≡ true)) }
        ensures handlers { K.is_honest self.new.keeper → Stays (K.handlers self.old.keeper) (K.handlers self.new.keeper) }
        ensures incarnations { K.is_honest self.new.keeper → IsSame (K.incarnations self.old.keeper) (K.incarnations self.new.keeper) }
        ensures named { IfErr result IsPutError }
        ensures honest { K.is_honest self.new.keeper → K.is_honest self.old.keeper }
    {
        match begin(self) {
            Ok(()) => {}
            Err(error) => return Err(error),
        }
        let appended = self.journal.append(&Line::Hear(*message, heard.reply));
        match noted(self, appended) {
            Ok(()) => {}
            Err(error) => return Err(error),
        }
        match self.keeper.note_heard(message, heard) {
            Ok(()) => Ok(()),
            Err(error) => Err(unnoted(&mut self.journal, self.storage, error)),
        }
    }

    fn note_finished(&mut self, handler: HandlerId) -> Result<(), KeeperError>
        ensures written { OnOk result (Finishes W.contents self.old self.new handler) }
        ensures lost { self.old.has_begun ≡ true → self.old.storage ≡ Storage.Memory
            → OnErr result ((result ≡ Err KeeperError.Refused) × (self.new.journal.has_failed ≡ true)) }
        ensures handlers { K.is_honest self.new.keeper → Stays (K.handlers self.old.keeper) (K.handlers self.new.keeper) }
        ensures incarnations { K.is_honest self.new.keeper → IsSame (K.incarnations self.old.keeper) (K.incarnations self.new.keeper) }
        ensures named { IfErr result IsPutError }
        ensures honest { K.is_honest self.new.keeper → K.is_honest self.old.keeper }
    {
        match begin(self) {
            Ok(()) => {}
            Err(error) => return Err(error),
        }
        let run = note_run(&mut self.journal, self.storage, handler);
        noted(self, run)
    }
}
