use scoop_message::Message;

/// How a frame is laid out. The versions differ in the body of a Log alone.
#[derive(Clone, Copy, Debug, PartialEq, Eq)]
pub enum Version {
    /// A Log has one entry.
    One,
    /// A Log has one to four entries, after their count.
    Two,
}

impl Version {
    ghost use Rattle.std.specs.Prelude.{◌≡◌, ◌≢◌, ◌↔◌, IsTrue, MatchOption};
    ghost use Rattle.scoop_frame.specs.Version.{version_byte, Carries};

    /// Whether the message has a frame of this version: all have one but a Log of several entries in
    /// version 1.
    pub fn carries(self, message: &Message) -> bool
        ensures { IsTrue result ↔ Carries self message.now }
    {
        match (self, message) {
            (Version::One, Message::Log(_, _, _, entries)) => entries.len() == 1,
            _ => true,
        }
    }

    // The version of a byte.
    pub(crate) fn from_byte(byte: u8) -> Option<Version>
        ensures { MatchOption result ((byte ≢ 1) × (byte ≢ 2)) (λ version. version_byte version ≡ byte) }
    {
        match byte {
            1 => Some(Version::One),
            2 => Some(Version::Two),
            _ => None,
        }
    }

    // The byte of the version.
    pub(crate) fn byte(self) -> u8
        ensures { result ≡ version_byte self }
    {
        match self {
            Version::One => 1,
            Version::Two => 2,
        }
    }
}
