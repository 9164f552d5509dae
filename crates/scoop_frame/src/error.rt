use std::fmt;
use thiserror::Error;

/// Why bytes are no frame of a message that fits: the first reason that applies, in the order of the variants. Printed as
/// its name, with the version or kind that was met in decimal. The text is written by hand, since clauses cite it.
#[derive(Clone, Copy, Debug, PartialEq, Eq, Error)]
pub enum FrameError {
    /// There are fewer than 26 bytes.
    Short,
    /// The first two bytes aren't those of a frame.
    BadMagic,
    /// The version isn't 1 or 2.
    BadVersion(u8),
    /// The kind isn't one of 1 to 12.
    BadKind(u8),
    /// The length isn't that of the header and of the body that it announces.
    LengthWrong,
    /// A block or entry number that the kind doesn't use isn't 0.
    FieldNotZero,
    /// An incarnation, block or entry number that the kind uses is 0.
    FieldZero,
    /// The body isn't exactly one that the kind has in that version, or the number of a Log's last entry
    /// is above 2^32-1.
    BadBody,
}

impl fmt::Display for FrameError {
    ghost use Rattle.std.specs.Prelude.{Some};
    ghost use Rattle.scoop_frame.specs.Text.{error_text};

    ghost output = { λ e. Some (error_text e) };

    fn fmt<W: fmt::Write>(&self, f: &mut fmt::Formatter<W>) -> fmt::Result {
        match self {
            FrameError::Short => f.write_str("Short"),
            FrameError::BadMagic => f.write_str("BadMagic"),
            FrameError::BadVersion(version) => write!(f, "BadVersion {version}"),
            FrameError::BadKind(kind) => write!(f, "BadKind {kind}"),
            FrameError::LengthWrong => f.write_str("LengthWrong"),
            FrameError::FieldNotZero => f.write_str("FieldNotZero"),
            FrameError::FieldZero => f.write_str("FieldZero"),
            FrameError::BadBody => f.write_str("BadBody"),
        }
    }
}
