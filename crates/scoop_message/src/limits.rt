//! The limits of a system.

/// Nodes of one world, at most.
pub const MAX_NODES: usize = 64;

/// Handlers of one world or of one node, at most.
pub const MAX_HANDLERS: usize = 64;

/// Marks of one handler, at most. A handler keeps one for each client that it has greeted.
pub const MAX_MARKS: usize = 64;

/// Clients of one world, at most.
pub const MAX_CLIENTS: usize = 64;

/// Private queues of one handler, at most.
pub const MAX_QUEUES: usize = 64;

/// Pending entries of one private queue, at most. The entry of a job counts.
pub const MAX_PENDING: usize = 64;

/// Unacknowledged entries of one client at one handler, at most.
pub const MAX_UNACKNOWLEDGED: usize = 64;

/// Handlers of one block, at most.
pub const MAX_BLOCK_HANDLERS: usize = 8;

/// Arguments of one request, at most.
pub const MAX_ARGS: usize = 4;

/// Words of one object, at most. There is at least one.
pub const MAX_WORDS: usize = 16;

/// Operations of one class, at most.
pub const MAX_OPS: usize = 32;

/// Writes of one operation, at most.
pub const MAX_WRITES: usize = 16;

/// Entries of one Log, at most. There is at least one.
pub const MAX_ENTRIES: usize = 4;

/// Entries of one book's history, at most.
pub const MAX_HISTORY: usize = 1_000_000;

/// Bytes of the shortest frame, which is a header without a body.
pub const MIN_FRAME: usize = 26;

/// Bytes of the longest frame: a Log of four entries with four arguments each.
pub const MAX_FRAME: usize = 171;

/// Bytes of the buffers that frames are written to and datagrams are received in.
pub const BUFFER_LEN: usize = 192;
