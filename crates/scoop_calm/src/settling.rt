//! Theorems: every reached world comes to a calm one.

ghost use Rattle.std.specs.Prelude.{◌≡◌, ◌≤◌, ◌↔◌, ℕ, true, List, [], Some, None};
ghost use Rattle.scoop_model.specs.declared.event.Event.{Event};
ghost use Rattle.scoop_model.specs.World.{World};
ghost use Rattle.scoop_model.specs.Reach.{IsReached, Leads, steps};
ghost use Rattle.scoop_calm.specs.declared.next.Next.{Next};
ghost use Rattle.scoop_calm.specs.Bound.{left};
ghost use Rattle.scoop_calm.specs.Left.{has_less};
ghost use Rattle.scoop_calm.specs.Next.{events_of, next_of, next_events, settling};
ghost use Rattle.scoop_calm.specs.Settling.{Settles, Calm};

/// A world is never stuck: some events lead from every reached world to a calm one. Before, messages may have been
/// lost, repeated and delayed, and parties may have restarted. In the calm world every client is idle, and each handler
/// has a free lock, no private queue and no job out. No event on the way is refused, and none is a restart. The events
/// begin and finish jobs, end blocks, and let clients ask. Each message is taken right after it was sent, and so is its
/// reply.
pub fn never_stuck()
    ensures { (w : World) → IsReached w → (events : List Event) × (v : World) × Settles w events v × Leads w events v × Calm v }
{}

/// The next events, taken again and again, lead from every reached world to a calm one, in which none are next. They
/// are a function of the world, the first of these that there are:
///
/// - a handler's job that is out is finished;
/// - a job goes out;
/// - a client asks a handler for something that it can do, the message is taken at once, and so is the reply;
/// - a client ends its block.
///
/// They are taken `left w` times at most, one event or three each time.
pub fn settles_by_next_events()
    ensures { (w : World) → IsReached w → (n : ℕ) × (v : World) × Settles w (settling n w) v × Leads w (settling n w) v × Calm v × (next_events v ≡ []) × (n ≤ left w) }
{}

/// The next events leave less to do.
pub fn next_leaves_less()
    ensures { (w : World) → IsReached w → (x : Next) → next_of w ≡ Some x → has_less (steps w (events_of w x)) w ≡ true }
{}

/// Nothing is next exactly if the world is calm.
pub fn calm_has_no_next()
    ensures { (w : World) → IsReached w → (next_of w ≡ None) ↔ Calm w }
{}
