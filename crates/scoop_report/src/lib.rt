//! Reports on standard error: why a command ends early, and a hint what to do.
//!
//! Programs match the first line, `scoop: ...`, exactly. The second, `hint: ...`, is for people.
#![tactic(auto)]

use std::fmt::Display;
use std::fs;
use std::io::IsTerminal;

/// The hint for a folder that is named in place of a file.
pub const FOLDER: &str = "it is a folder: name a file";

/// The status with which the program ends after its report.
#[derive(Clone, Copy)]
pub struct Status(pub u8);

/// When a command prints hints.
#[derive(Clone, Copy)]
pub enum Hints {
    Always,
    /// Only where standard error is a terminal.
    AtTerminal,
}

/// Prints why a command ends.
pub fn report<E: Display + Drop>(rt: &HostRuntime, why: E) {
    let _ = eprintln!(rt; "scoop: {why}");
}

/// Prints what to do.
pub fn hint<E: Display + Drop>(rt: &HostRuntime, hints: Hints, advice: E) {
    if is_shown(rt, hints) {
        let _ = eprintln!(rt; "hint: {advice}");
    }
}

/// Prints what to do about this file.
pub fn hint_of_file(rt: &HostRuntime, hints: Hints, path: &str, advice: &str) {
    if is_shown(rt, hints) {
        let _ = eprintln!(rt; "hint: {path}: {advice}");
    }
}

fn is_shown(rt: &HostRuntime, hints: Hints) -> bool {
    match hints {
        Hints::Always => true,
        Hints::AtTerminal => rt.stderr().is_terminal(),
    }
}

/// Whether there is a folder of this name.
pub fn is_folder(rt: &HostRuntime, path: &str) -> bool {
    match fs::metadata(rt, path) {
        Ok(about) => about.is_dir(),
        Err(_) => false,
    }
}
