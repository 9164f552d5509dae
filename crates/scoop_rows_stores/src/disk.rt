//! Files in the folder where the program runs.
//!
//! - `write FILE TEXT` puts a text into a file, in which `\n` stands for a newline.
//! - `read FILE` answers the text, or `none`.
//! - `rename FILE FILE` and `remove FILE`.

use crate::keeping::says;
use scoop_lines::two_words;
use scoop_row_player::Bad;
use scoop_row_player::words::{first, last};
use std::{fs, io, str};

/// A name of a file, as text.
pub fn path(file: &[u8]) -> Result<&str, Bad> {
    match str::from_utf8(file) {
        Ok(path) => Ok(path),
        Err(_) => Err(Bad::Words),
    }
}

/// Adds the text of a line after one space, with a newline for each `\n`.
pub fn add_text(line: &[u8], out: &mut Vec<u8>) -> Result<(), Bad> {
    let text = line.get(1..).unwrap_or(&[]);
    for (place, part) in text.split(|byte| *byte == b'\\').enumerate() {
        if place == 0 {
            out.extend_from_slice(part)?;
        } else {
            out.push(b'\n')?;
            out.extend_from_slice(part.get(1..).unwrap_or(&[]))?;
        }
    }
    Ok(())
}

/// Does what a command says with files.
pub fn files(rt: &HostRuntime, name: &[u8], line: &[u8], answer: &mut Vec<u8>) -> Result<(), Bad> {
    match name {
        b"write" => {
            let (file, text) = first(line)?;
            let mut bytes = Vec::new(rt.alloc());
            add_text(text, &mut bytes)?;
            done(fs::write(rt, path(file)?, bytes.as_slice()), answer)
        }
        b"read" => match fs::read_to_string(rt, path(last(line)?)?) {
            Ok(text) => says(text, answer),
            Err(_) => says("none", answer),
        },
        b"rename" => {
            let (from, to) = two_words(line).ok_or(Bad::Words)?;
            done(fs::rename(rt, path(from)?, path(to)?), answer)
        }
        b"remove" => done(fs::remove_file(rt, path(last(line)?)?), answer),
        _ => Err(Bad::Command),
    }
}

fn done(value: io::Result<()>, answer: &mut Vec<u8>) -> Result<(), Bad> {
    says(if value.is_ok() { "ok" } else { "refused" }, answer)
}
