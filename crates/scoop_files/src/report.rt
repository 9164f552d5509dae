//! The report of a store in a file that isn't opened or closed.

use crate::error::FileError;
use scoop_report::{FOLDER, Hints, Status, hint_of_file, is_folder, report};

/// Reports the error of the store in this file, which isn't a refusal of the store itself.
pub fn report_file(rt: &HostRuntime, hints: Hints, path: &str, error: FileError) -> Status {
    match error {
        FileError::Older | FileError::OlderClient => report(
            rt,
            format_args!("{path}: it is older than {path}.system says"),
        ),
        error => report(rt, error),
    }
    let advice = if is_folder(rt, path) {
        FOLDER
    } else {
        error.advice()
    };
    hint_of_file(rt, hints, path, advice);
    Status(error.status())
}
