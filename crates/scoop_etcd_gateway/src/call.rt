//! Calls and their answers, as clauses see them.

/// A call that was sent.
#[derive(Drop)]
pub enum Call {
    /// A range, by the body of its request.
    Ranges(String),
    /// A transaction, by the body of its request.
    Transacts(String),
}

/// The answer to a call, or its fate if the answer was lost.
#[derive(Drop)]
pub enum Answer {
    /// The body of the response.
    Body(Vec<u8>),
    /// The answer was lost, and a look-up found that the transaction was made at this revision.
    Made(u64),
    /// The answer was lost, and the transaction may have been made.
    Lost,
}
