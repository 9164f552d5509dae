//! The parties of a script, and their world.

ghost use Rattle.std.specs.Prelude.{◌≡◌, ◌≤◌, ℕ, true, false, ◌||◌, not, [], ◌∷◌, ◌++◌, List, length, Option, None, IfErr, OnOk, is_some};
ghost use Rattle.std.specs.List.{All, cons_option};
ghost use Rattle.std.specs.Result.{result_ok, result_err};
ghost use Rattle.scoop_message.specs.declared.limits.TheConstants.{MAX_ENTRIES};
ghost use Rattle.scoop_message.specs.declared.name.ClientId.{ClientId};
ghost use Rattle.scoop_keeper.specs.Memory.{incarnation_at};
ghost use Rattle.scoop_lines.specs.Words.{words_of};
ghost use Rattle.scoop_demo.specs.ScriptLine.{Placed, joining, handler_line, client_line, event_line};
ghost use Rattle.scoop_demo.specs.Script.{Parties, Opens, StopsAtLine, StopsOpening, StopsClosed, parties_of, party_fault, words_fault, is_event, opens_at};
ghost use Rattle.scoop_demo.specs.Script.{unopened};
ghost use Rattle.scoop_demo.specs.Staging.{AreFirst, AreFirstClients, IsStaged, IsWaiting, with_line};

use super::echo::Echo;
use super::events::{Outcome, Stop, play};
use super::histories::print_world;
use super::picture::Picture;
use super::settling::settle;
use crate::fault::{InputFault, RunError};
use crate::playing::PlayOptions;
use crate::script::{
    EventKind, EventLine, LineError, LineKind, PlacedLine, is_blank, line_kind, read_client,
    read_event, read_placement,
};
use scoop_keeper::MemoryKeeper;
use scoop_message::limits::{MAX_CLIENTS, MAX_HANDLERS};
use scoop_message::{ClientId, HandlerId, OutOfMemory};
use scoop_object::{Behaviour, Table};
use scoop_world::{Placement, World, WorldOpenError};
use std::alloc::Global;
use std::io::Write;
use std::{io, mem};

/// The parties that the lines so far named, their world from the first event on, and whether the last event was refused.
#[derive(Drop)]
pub struct Cast {
    alloc: Global,
    pub(super) keeper: MemoryKeeper,
    pub(super) placements: Vec<Placement<Table>>,
    pub(super) clients: Vec<(ClientId, u8)>,
    handlers: Vec<HandlerId>,
    names: Vec<ClientId>,
    pub(super) world: Option<World<Table>>,
    pub(super) is_refused: bool,
    ghost batches: { All (λ c. (1 ≤ c.1) × (c.1 ≤ MAX_ENTRIES)) clients.items },
}

// The fault of the line of this number.
fn fault_at(line: u32, fault: InputFault) -> RunError
    ensures { result ≡ RunError.Input line fault }
{
    RunError::Input { line, fault }
}

// The error at the line of this number if the world doesn't open.
fn unopened(line: u32, error: WorldOpenError) -> RunError
    ensures { result ≡ unopened line error }
{
    match error {
        WorldOpenError::OutOfMemory => RunError::OutOfMemory,
        error => fault_at(line, InputFault::CannotOpen(error)),
    }
}

impl Cast {
    /// A cast without parties. Its world will open over this keeper.
    pub fn new(alloc: Global, keeper: MemoryKeeper) -> Cast
        ensures closed { is_some result.world ≡ false }
        ensures waits { IsWaiting ⟦<Table as Behaviour>⟧.class result.placements.items result.clients.items (incarnation_at result.keeper) (parties_of [])
            (incarnation_at keeper) }
        ensures own { incarnation_at result.keeper ≡ incarnation_at keeper }
    {
        Cast {
            alloc,
            keeper,
            placements: Vec::new(alloc),
            clients: Vec::new(alloc),
            handlers: Vec::new(alloc),
            names: Vec::new(alloc),
            world: None,
            is_refused: false,
        }
    }

    /// Plays the line of this number. With `echoes`, writes the line before its event's. The picture notes each event.
    pub fn play_line<W: Write>(
        &mut self,
        number: u32,
        line: &[u8],
        echoes: bool,
        picture: &mut Picture,
        writer: &mut W,
    ) -> Result<(), RunError>
        ensures ok { OnOk result (words_fault (is_some self.old.world) line.now ≡ None) }
        ensures opened { OnOk result (is_some self.new.world ≡ (is_some self.old.world || is_event line.now)) }
        ensures staged { (parties : Parties) (stored : ℕ → Option ℕ)
            → IsStaged ⟦<Table as Behaviour>⟧.class (is_some self.old.world) self.old.placements.items self.old.clients.items
            (incarnation_at self.old.keeper) parties stored
            → OnOk result (IsStaged ⟦<Table as Behaviour>⟧.class (is_some self.new.world) self.new.placements.items self.new.clients.items
            (incarnation_at self.new.keeper) (with_line parties line.now) stored) }
        ensures err { (parties : Parties) (stored : ℕ → Option ℕ)
            → IsStaged ⟦<Table as Behaviour>⟧.class (is_some self.old.world) self.old.placements.items self.old.clients.items
            (incarnation_at self.old.keeper) parties stored
            → IfErr result (StopsAtLine number (opens_at (is_some self.old.world) line.now) (words_fault (is_some self.old.world) line.now) parties stored) }
    {
        if is_blank(line) {
            return Ok(());
        }
        let Some((kind, words)) = line_kind(line) else {
            return Err(fault_at(number, InputFault::UnknownLine));
        };
        match kind {
            LineKind::Handler => self.place(number, words),
            LineKind::Client => self.join(number, words),
            LineKind::Event(kind) => {
                let echo = Echo::of(echoes, number, line);
                self.play_event(number, kind, words, echo, picture, writer)
            }
        }
    }

    // Places a handler.
    fn place(&mut self, number: u32, words: &[u8]) -> Result<(), RunError>
        ensures ok { OnOk result (party_fault (is_some self.old.world) (result_err (handler_line (words_of words.now))) ≡ None) }
        ensures same { is_some self.new.world ≡ is_some self.old.world }
        ensures kept { (placed : List Placed) → AreFirst ⟦<Table as Behaviour>⟧.class self.old.placements.items placed
            → OnOk result (AreFirst ⟦<Table as Behaviour>⟧.class self.new.placements.items
            (placed ++ cons_option (result_ok (handler_line (words_of words.now))) [])) }
        ensures others { (self.new.clients ≡ self.old.clients) × (self.new.keeper ≡ self.old.keeper) }
        ensures err { (parties : Parties) (stored : ℕ → Option ℕ)
            → IfErr result (StopsAtLine number false (party_fault (is_some self.old.world) (result_err (handler_line (words_of words.now)))) parties stored) }
    {
        if self.world.is_some() {
            return Err(fault_at(number, InputFault::TooLateForParty));
        }
        let placed = match read_placement(self.alloc, words) {
            Ok(placed) => placed,
            Err(LineError::Fault(fault)) => return Err(fault_at(number, fault)),
            Err(LineError::OutOfMemory) => return Err(RunError::OutOfMemory),
        };
        match self.add_placement(placed) {
            Ok(()) => Ok(()),
            Err(_) => Err(RunError::OutOfMemory),
        }
    }

    // Stores a placed handler. One past the limit stands for all later ones.
    fn add_placement(&mut self, placed: PlacedLine) -> Result<(), OutOfMemory>
        requires { length placed.words ≡ placed.class.words }
        ensures same { is_some self.new.world ≡ is_some self.old.world }
        ensures kept { (before : List Placed) → AreFirst ⟦<Table as Behaviour>⟧.class self.old.placements.items before
            → OnOk result (AreFirst ⟦<Table as Behaviour>⟧.class self.new.placements.items
            (before ++ record { node = placed.node; handler = placed.handler; class = placed.class; words = placed.words } ∷ [])) }
        ensures others { (self.new.clients ≡ self.old.clients) × (self.new.keeper ≡ self.old.keeper) }
    {
        if self.placements.len() > MAX_HANDLERS {
            return Ok(());
        }
        let PlacedLine {
            node,
            handler,
            class,
            words,
        } = placed;
        let Ok(object) = Table::new(class.copy()?, words) else {
            unreachable!()
        };
        self.handlers.push(handler)?;
        self.placements.push(Placement {
            node,
            handler,
            class,
            object,
        })?;
        Ok(())
    }

    // Lets a client join.
    fn join(&mut self, number: u32, words: &[u8]) -> Result<(), RunError>
        ensures ok { OnOk result (party_fault (is_some self.old.world) (result_err (client_line (words_of words.now))) ≡ None) }
        ensures same { is_some self.new.world ≡ is_some self.old.world }
        ensures kept { (clients : List (ClientId × ℕ)) → AreFirstClients self.old.clients.items clients
            → OnOk result (AreFirstClients self.new.clients.items (clients ++ cons_option (result_ok (client_line (words_of words.now))) [])) }
        ensures others { (self.new.placements ≡ self.old.placements) × (self.new.keeper ≡ self.old.keeper) }
        ensures err { (parties : Parties) (stored : ℕ → Option ℕ)
            → IfErr result (StopsAtLine number false (party_fault (is_some self.old.world) (result_err (client_line (words_of words.now)))) parties stored) }
    {
        if self.world.is_some() {
            return Err(fault_at(number, InputFault::TooLateForParty));
        }
        let (client, batch) = match read_client(words) {
            Ok(joining) => joining,
            Err(fault) => return Err(fault_at(number, fault)),
        };
        match self.add_client(client, batch) {
            Ok(()) => Ok(()),
            Err(_) => Err(RunError::OutOfMemory),
        }
    }

    // Stores a joining client. One past the limit stands for all later ones.
    fn add_client(&mut self, client: ClientId, batch: u8) -> Result<(), OutOfMemory>
        requires some { 1 ≤ batch }
        requires limit { batch ≤ MAX_ENTRIES }
        ensures same { is_some self.new.world ≡ is_some self.old.world }
        ensures kept { (before : List (ClientId × ℕ)) → AreFirstClients self.old.clients.items before
            → OnOk result (AreFirstClients self.new.clients.items (before ++ joining client batch ∷ [])) }
        ensures others { (self.new.placements ≡ self.old.placements) × (self.new.keeper ≡ self.old.keeper) }
    {
        if self.clients.len() > MAX_CLIENTS {
            return Ok(());
        }
        self.names.push(client)?;
        self.clients.push((client, batch))?;
        Ok(())
    }

    // Plays the line of an event. The first one opens the world before anything else.
    fn play_event<W: Write>(
        &mut self,
        number: u32,
        kind: EventKind,
        words: &[u8],
        echo: Option<Echo<'_>>,
        picture: &mut Picture,
        writer: &mut W,
    ) -> Result<(), RunError>
        ensures ok { OnOk result (result_err (event_line kind (words_of words.now)) ≡ None) }
        ensures opened { OnOk result (is_some self.new.world ≡ true) }
        ensures opens { (parties : Parties) (stored : ℕ → Option ℕ)
            → IsStaged ⟦<Table as Behaviour>⟧.class (is_some self.old.world) self.old.placements.items self.old.clients.items
            (incarnation_at self.old.keeper) parties stored
            → OnOk result (Opens parties stored) }
        ensures err { (parties : Parties) (stored : ℕ → Option ℕ)
            → IsStaged ⟦<Table as Behaviour>⟧.class (is_some self.old.world) self.old.placements.items self.old.clients.items
            (incarnation_at self.old.keeper) parties stored
            → IfErr result (StopsAtLine number (not (is_some self.old.world)) (result_err (event_line kind (words_of words.now))) parties stored) }
    {
        match self.open_by(number, picture) {
            Ok(()) => {}
            Err(error) => return Err(error),
        }
        let event = match read_event(kind, words) {
            Ok(event) => event,
            Err(fault) => return Err(fault_at(number, fault)),
        };
        self.play_in_world(number, &event, echo, picture, writer)
    }

    // Plays events in the open world.
    fn play_in_world<W: Write>(
        &mut self,
        number: u32,
        event: &EventLine,
        echo: Option<Echo<'_>>,
        picture: &mut Picture,
        writer: &mut W,
    ) -> Result<(), RunError>
        requires { is_some self.old.world ≡ true }
        ensures same { is_some self.new.world ≡ true }
        ensures err { (parties : Parties) (stored : ℕ → Option ℕ) → IfErr result (StopsAtLine number false None parties stored) }
    {
        match &mut self.world {
            Some(world) => match play(world, event, echo, picture, writer) {
                Ok(outcome) => {
                    self.is_refused = matches!(outcome, Outcome::Refused);
                    Ok(())
                }
                Err(Stop::Write) => Err(RunError::Write),
                Err(Stop::OutOfMemory) => Err(RunError::OutOfMemory),
            },
            None => unreachable!(),
        }
    }

    /// Opens the world at the line of this number if it hasn't opened yet.
    pub fn open_by(&mut self, number: u32, picture: &mut Picture) -> Result<(), RunError>
        ensures ok { OnOk result (is_some self.new.world ≡ true) }
        ensures opens { (parties : Parties) (stored : ℕ → Option ℕ)
            → IsStaged ⟦<Table as Behaviour>⟧.class (is_some self.old.world) self.old.placements.items self.old.clients.items
            (incarnation_at self.old.keeper) parties stored
            → OnOk result (Opens parties stored) }
        ensures err { (parties : Parties) (stored : ℕ → Option ℕ)
            → IsStaged ⟦<Table as Behaviour>⟧.class (is_some self.old.world) self.old.placements.items self.old.clients.items
            (incarnation_at self.old.keeper) parties stored
            → IfErr result (StopsClosed (is_some self.old.world) number parties stored) }
    {
        if self.world.is_some() {
            return Ok(());
        }
        self.open(number, picture)
    }

    // Begins the picture with the parties.
    fn begin(&self, picture: &mut Picture) -> Result<(), OutOfMemory> {
        let mut handlers = Vec::new(self.alloc);
        for placement in &self.placements {
            handlers.push((placement.node, placement.handler))?;
        }
        picture.begin(&self.names, &handlers)
    }

    // Opens the world at the line of this number.
    fn open(&mut self, number: u32, picture: &mut Picture) -> Result<(), RunError>
        ensures ok { OnOk result (is_some self.new.world ≡ true) }
        ensures opens { (parties : Parties) (stored : ℕ → Option ℕ)
            → IsWaiting ⟦<Table as Behaviour>⟧.class self.old.placements.items self.old.clients.items (incarnation_at self.old.keeper) parties stored
            → OnOk result (Opens parties stored) }
        ensures err { (parties : Parties) (stored : ℕ → Option ℕ)
            → IsWaiting ⟦<Table as Behaviour>⟧.class self.old.placements.items self.old.clients.items (incarnation_at self.old.keeper) parties stored
            → IfErr result (StopsOpening number parties stored) }
    {
        if self.begin(picture).is_err() {
            return Err(RunError::OutOfMemory);
        }
        let placements = mem::replace(&mut self.placements, Vec::new(self.alloc));
        let keeper = mem::replace(&mut self.keeper, MemoryKeeper::new(self.alloc));
        match World::open(self.alloc, placements, &self.clients, keeper) {
            Ok(world) => {
                self.world = Some(world);
                Ok(())
            }
            Err(error) => Err(unopened(number, error)),
        }
    }

    /// Lets an open world settle if the options say so, and then writes its histories.
    pub fn finish<W: Write>(
        &mut self,
        options: PlayOptions,
        picture: &mut Picture,
        writer: &mut W,
    ) -> Result<(), Stop> {
        if options.settles {
            if let Some(world) = &mut self.world {
                settle(self.alloc, world, options.echoes, picture, writer)?;
            }
        }
        match self.print_histories(writer) {
            Ok(()) => Ok(()),
            Err(_) => Err(Stop::Write),
        }
    }

    // Writes the histories of the world if it has opened: the common list, then each handler's and each client's history
    // in ascending order.
    fn print_histories<W: Write>(&mut self, writer: &mut W) -> io::Result<()> {
        let Some(world) = &self.world else {
            return Ok(());
        };
        self.handlers.sort_unstable();
        self.names.sort_unstable();
        print_world(world, &self.handlers, &self.names, writer)
    }
}
