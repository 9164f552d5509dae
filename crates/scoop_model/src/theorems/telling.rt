//! Theorems about every message that was ever sent: what it says of handlers and clients stays true.

ghost use Rattle.std.specs.List.{AllByRecursion};
ghost use Rattle.scoop_model.specs.World.{World};
ghost use Rattle.scoop_model.specs.Reach.{IsReached};
ghost use Rattle.scoop_model.specs.Named.{NamesKnown};
ghost use Rattle.scoop_model.specs.Received.{TellsReceived};
ghost use Rattle.scoop_model.specs.Told.{TellsStored, TellsGreeted, TellsHeld, TellsGranted, TellsOpened, TellsUnlocked, TellsLogged, TellsRan};

/// No Hello that was ever sent has an incarnation above the one stored for its client.
pub fn hello_is_stored()
    ensures { (w : World) → IsReached w → AllByRecursion (TellsStored w) w.sent }
{}

/// If a Welcome was sent, the handler's mark of that client has the Welcome's incarnation or a newer one.
pub fn welcome_has_greeted()
    ensures { (w : World) → IsReached w → AllByRecursion (TellsGreeted w) w.sent }
{}

/// If a message that was ever sent names a block, every handler that the block's client knows has a mark of that
/// client. That mark's incarnation isn't below the block's.
pub fn named_incarnations_known()
    ensures { (w : World) → IsReached w → AllByRecursion (NamesKnown w) w.sent }
{}

/// If a Locked was sent, the block holds the handler's lock or has opened there, or the client's mark there is shut
/// for the block or past it.
pub fn locked_is_held_opened_or_over()
    ensures { (w : World) → IsReached w → AllByRecursion (TellsHeld w) w.sent }
{}

/// If an Open was sent, each handler that the block's reserve named has sent a Locked for the block.
pub fn open_was_granted()
    ensures { (w : World) → IsReached w → AllByRecursion (TellsGranted w) w.sent }
{}

/// If an Opened was sent, the block has opened at the handler.
pub fn opened_has_opened()
    ensures { (w : World) → IsReached w → AllByRecursion (TellsOpened w) w.sent }
{}

/// If an Unlock was sent, the block has opened at each handler that its reserve named. Otherwise no Open of the block
/// was ever sent, and its client has left it or is giving it up.
pub fn unlock_is_opened_or_abandoned()
    ensures { (w : World) → IsReached w → AllByRecursion (TellsUnlocked w) w.sent }
{}

/// If a Log was sent, its entries are those that the client logged there, from the Log's number on. The block has
/// opened at each handler that its reserve named.
pub fn log_was_logged()
    ensures { (w : World) → IsReached w → AllByRecursion (TellsLogged w) w.sent }
{}

/// If a handler has told that it received that many entries of a block, they are the first that the block's client
/// logged for it. Each has run there or is pending in the block's private queue, even if that queue was cut.
pub fn logged_is_received()
    ensures { (w : World) → IsReached w → AllByRecursion (TellsReceived w) w.sent }
{}

/// If an Answer was sent, the block's query of that number has run at the handler, with that answer.
pub fn answer_has_run()
    ensures { (w : World) → IsReached w → AllByRecursion (TellsRan w) w.sent }
{}
