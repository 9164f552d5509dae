//! The safety theorem: every world that can be reached is safe.

ghost use Rattle.scoop_model.specs.World.{World};
ghost use Rattle.scoop_model.specs.Reach.{IsReached};
ghost use Rattle.scoop_model.specs.Safe.{Safe};

/// Every world that a list of events leads to is safe, whatever messages are lost, repeated or delayed, and whenever
/// clients or nodes restart:
///
/// - every handler takes the blocks that open at it in the order of one common list;
/// - it runs the first entries that a block's client logged there, in order and each once;
/// - it runs no other block's request between two of them;
/// - every answer that a client accepts is the object's answer after exactly the requests that ran before it.
pub fn reached_safe()
    ensures { (w : World) → IsReached w → Safe w }
{}
