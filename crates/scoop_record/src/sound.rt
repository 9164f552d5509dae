//! The honesty of a keeper over a database in memory.

ghost use Rattle.sqlite.specs.Held.{Held, state};
ghost use Rattle.sqlite.specs.Steps.{over_memory};
ghost use Rattle.sqlite_trees.specs.declared.memory.MemStore.{MemStore};
ghost use Rattle.scoop_record.specs.Store.{IsSound};

/// A `Store` over a database in memory is honest at every moment.
pub fn memory_is_sound()
    ensures { (store : Held MemStore) → IsSound (state over_memory store) }
{}
