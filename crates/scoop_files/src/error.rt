//! Errors of a store in a file.

ghost use Rattle.std.specs.Prelude.{◌≡◌};
ghost use Rattle.scoop_files.specs.Errors.{advice_text};

use scoop_keeper::KeeperError;
use scoop_message::ClientId;
use std::error::Error;
use std::fmt;

// The status with which a program ends if its store isn't opened or closed.
const STATUS: u8 = 3;

/// Why a store in a file isn't opened or closed. Printed as the program prints it after `scoop: `; the text is written
/// by hand, since clauses cite it.
#[derive(Clone, Copy, Debug)]
pub enum FileError {
    /// There is no such file.
    NoFile,
    /// The file of a new store has something already.
    Taken,
    /// Another program has the file open.
    InUse,
    /// The file, or its log beside it, can't be opened or made.
    Unopened,
    /// The file is no database.
    Foreign,
    /// The file has no tables of a store.
    NoStore,
    /// The store has no incarnation of this client.
    NoIncarnation(ClientId),
    /// The log can't be copied into the file.
    Unclosed,
    /// The store's name led to another file or none, or the file was cut, while the store was open.
    Lost,
    /// A node's store is older than the text beside it says.
    Older,
    /// So is a client's store: its last incarnation is below the one in the text.
    OlderClient,
    /// This refusal of the store.
    Store(KeeperError),
}

impl FileError {
    /// The status with which the program ends: 3 for every error.
    pub fn status(self) -> u8
        ensures { result ≡ 3 }
    {
        STATUS
    }

    /// Advice: what is wrong with the file, and what to do. Empty for a refusal of the store, which has its own.
    pub fn advice(self) -> &'static str
        ensures { result.now ≡ advice_text self }
    {
        match self {
            FileError::NoFile =>
                "there is no such file: name the right one, or make one by --new if this is the first run",
            FileError::Taken => {
                "the file has content: resume with --store if it is the right store, else name a new file"
            }
            FileError::InUse => "another program has it open: end that one",
            FileError::Unopened => {
                "it can't be opened or made: check that its folder exists, and that you may read and write the file and its -wal"
            }
            FileError::Foreign => "it is not a store: name another file",
            FileError::NoStore => {
                "it has no tables of a store: first put the -wal file that belongs to it beside it. Use --new only for a file that \
                never had a store"
            }
            FileError::NoIncarnation(_) => {
                "this client never ran with it: name the client's own store, or make one by --new if the client never ran"
            }
            FileError::Unclosed => {
                "its -wal could not be copied into it: keep both files, which have all that was answered, and resume with --store"
            }
            FileError::Lost => {
                "the file or its -wal was moved, replaced, deleted or cut while the store was open. If both were moved, move them \
                back, and resume with --store; else the store is lost"
            }
            FileError::Older => {
                "first put the -wal file that belongs to it back beside it. An old copy has lost what was answered since it was made. \
                To go on with it nevertheless, delete the newest lines from the .system file beside it: what was lost stays lost"
            }
            FileError::OlderClient => {
                "first put the -wal file that belongs to it back beside it. An old copy would take incarnations a second time: make \
                a new store by --new and --after N instead, where N is the incarnation in the .system file beside it"
            }
            FileError::Store(_) => "",
        }
    }
}

impl fmt::Display for FileError {
    ghost use Rattle.std.specs.Prelude.{Some};
    ghost use Rattle.scoop_files.specs.Errors.{error_text};

    ghost output = { λ e. Some (error_text e) };

    fn fmt<W: fmt::Write>(&self, f: &mut fmt::Formatter<W>) -> fmt::Result {
        match self {
            FileError::NoFile
            | FileError::Taken
            | FileError::InUse
            | FileError::Unopened
            | FileError::Foreign
            | FileError::NoStore
            | FileError::Unclosed
            | FileError::Lost
            | FileError::Older
            | FileError::OlderClient => f.write_str("store: Refused"),
            FileError::NoIncarnation(client) => write!(f, "store: NoIncarnation {client}"),
            FileError::Store(KeeperError::OutOfMemory) => f.write_str("out of memory"),
            FileError::Store(refusal) => write!(f, "store: {refusal}"),
        }
    }
}

impl Error for FileError {}

impl From<KeeperError> for FileError {
    fn from(refusal: KeeperError) -> FileError {
        FileError::Store(refusal)
    }
}
