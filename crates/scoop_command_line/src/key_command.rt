//! The command line of `scoop key`.

use crate::rows::{ArgumentRow, CommandRow, Place, Value};

pub(crate) const KEY_MAKER: CommandRow = CommandRow {
    name: "key",
    usage: None,
    about: "Makes a key, by which the programs of a system seal their datagrams",
    help: "Writes 32 bytes of the operating system's random source into a new file, as 64 hex digits and a line feed. Only \
        the file's owner may read and write it. Give each node and client of the system a copy, by --key. A key file that others \
        may read is refused.\n\n\
        Input: none. Output: none.\n\n\
        Statuses: 0; 1 if there is such a file; 2 for the command line; 3 if the file can't be written.\n\n\
        Example: scoop key bank.key",
    arguments: &KEY_ARGUMENTS,
};

const KEY_ARGUMENTS: [ArgumentRow; 1] = [ArgumentRow {
    name: "file",
    place: Place::Word,
    value: Value::Text,
    value_name: "FILE",
    default: None,
    help: "The new file",
}];
