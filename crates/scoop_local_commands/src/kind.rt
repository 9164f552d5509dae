//! The kinds of messages, and the words of each.

/// A kind of message, as the words of `scoop frame` name it.
#[derive(Clone, Copy)]
pub enum Kind {
    Hello,
    Welcome,
    Lock,
    Locked,
    Busy,
    Open,
    Opened,
    Unlock,
    Unlocked,
    Log,
    Logged,
    Answer,
}

impl Kind {
    /// The kind that a line of words names.
    pub fn named_in(line: &str) -> Option<Kind> {
        let words = line.strip_prefix("v2 ").unwrap_or(line);
        match words.split_once(' ') {
            Some((name, _)) => Kind::named(name),
            None => Kind::named(words),
        }
    }

    fn named(name: &str) -> Option<Kind> {
        Some(match name {
            "Hello" => Kind::Hello,
            "Welcome" => Kind::Welcome,
            "Lock" => Kind::Lock,
            "Locked" => Kind::Locked,
            "Busy" => Kind::Busy,
            "Open" => Kind::Open,
            "Opened" => Kind::Opened,
            "Unlock" => Kind::Unlock,
            "Unlocked" => Kind::Unlocked,
            "Log" => Kind::Log,
            "Logged" => Kind::Logged,
            "Answer" => Kind::Answer,
            _ => return None,
        })
    }

    /// Which words a message of this kind has, and how they are written.
    pub fn form(self) -> &'static str {
        match self {
            Kind::Hello => "Hello H C INC",
            Kind::Welcome => "Welcome H C INC",
            Kind::Lock => "Lock H BLOCK, a block as C.INC.N",
            Kind::Locked => "Locked H BLOCK, a block as C.INC.N",
            Kind::Busy => "Busy H BLOCK, a block as C.INC.N",
            Kind::Open => "Open H BLOCK, a block as C.INC.N",
            Kind::Opened => "Opened H BLOCK, a block as C.INC.N",
            Kind::Unlock => "Unlock H BLOCK, a block as C.INC.N",
            Kind::Unlocked => "Unlocked H BLOCK, a block as C.INC.N",
            Kind::Log => {
                "Log H BLOCK N ENTRY.., a block as C.INC.N, an entry as call:OP:A.., query:OP:A.. or end"
            }
            Kind::Logged => "Logged H BLOCK N, a block as C.INC.N",
            Kind::Answer => {
                "Answer H BLOCK N ANSWER, a block as C.INC.N, an answer as a number or refused"
            }
        }
    }
}
