//! The condition of a waiting block, and its body.

ghost use Rattle.std.specs.Prelude.{◌≡◌};
ghost use Rattle.scoop_driver.specs.Wishes.{call_of, handler_of, holds, query_of};
ghost use Rattle.scoop_driver.specs.declared.condition.BodyEntry.{BodyEntry as TheEntry};

use scoop_message::{Answer, HandlerId, Request};

/// A condition: the handler's answer to the request is a value of at least `least`.
#[derive(Clone, Copy, Debug, PartialEq, Eq)]
pub struct Condition {
    /// The handler of the query.
    pub handler: HandlerId,
    /// The query.
    pub request: Request,
    /// The least value of the answer.
    pub least: u64,
}

/// A test of an answer. `refused` passes none.
#[derive(Clone, Copy, Debug, PartialEq, Eq)]
pub enum Test {
    /// The answer is this value or a greater one.
    Least(u64),
    /// The answer is this value or a smaller one.
    Most(u64),
    /// The answer is this value.
    Is(u64),
}

impl Test {
    /// Whether the answer passes it.
    pub fn holds(self, answer: Answer) -> bool
        ensures { result ≡ holds self answer }
    {
        let Answer::Value(value) = answer else {
            return false;
        };
        match self {
            Test::Least(least) => least <= value,
            Test::Most(most) => value <= most,
            Test::Is(wanted) => value == wanted,
        }
    }
}

/// A part of a wait condition: the handler's answer to the request passes the test.
#[derive(Clone, Copy, Debug, PartialEq, Eq)]
pub struct ConditionPart {
    /// The handler of the query.
    pub handler: HandlerId,
    /// The query.
    pub request: Request,
    /// The test of its answer.
    pub test: Test,
}

/// An entry of the body of a waiting block.
#[derive(Clone, Copy, Debug, PartialEq, Eq)]
pub enum BodyEntry {
    /// A call at this handler.
    Call(HandlerId, Request),
    /// A query at this handler.
    Query(HandlerId, Request),
}

impl BodyEntry {
    /// Its handler.
    pub fn handler(self) -> HandlerId
        ensures { result ≡ handler_of self }
    {
        match self {
            BodyEntry::Call(handler, _) | BodyEntry::Query(handler, _) => handler,
        }
    }
}

/// An entry in another form.
pub(crate) trait AsEntry {
    ghost entry: { Self → TheEntry };

    fn as_entry(&self) -> BodyEntry
        ensures { result ≡ entry self.now };
}

impl AsEntry for BodyEntry {
    ghost entry = { λ e. e };

    fn as_entry(&self) -> BodyEntry {
        *self
    }
}

// A pair is a call.
impl AsEntry for (HandlerId, Request) {
    ghost entry = { call_of };

    fn as_entry(&self) -> BodyEntry {
        BodyEntry::Call(self.0, self.1)
    }
}

impl AsEntry for ConditionPart {
    ghost entry = { query_of };

    fn as_entry(&self) -> BodyEntry {
        BodyEntry::Query(self.handler, self.request)
    }
}
