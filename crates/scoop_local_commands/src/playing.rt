//! `scoop world`: the script of standard input.

use crate::reports::report_run;
use scoop_command_line::WorldOptions;
use scoop_demo::{Picture, PlayOptions, RunError, world_run_charted};
use scoop_keeper::MemoryKeeper;
use scoop_message::OutOfMemory;
use scoop_report::{FOLDER, Hints, Status, hint_of_file, is_folder, report};
use std::fs::File;
use std::io;
use std::io::{BufWriter, Write};

// The status when the chart's file can't be written.
const UNWRITTEN_STATUS: u8 = 3;

// The status when the run has more events than a chart shows.
const LONG_STATUS: u8 = 1;

// How a run with a chart went.
#[derive(Clone, Copy)]
enum Charted {
    Drawn,
    TooLong,
    Unwritten,
}

/// Plays the script of standard input, in a world that nothing is stored for.
pub fn play(rt: &HostRuntime, options: &WorldOptions<'_>) -> Result<(), Status> {
    match options.chart {
        Some(path) => play_charted(rt, options, path),
        None => play_plainly(rt, options),
    }
}

// Plays the script, with no chart.
fn play_plainly(rt: &HostRuntime, options: &WorldOptions<'_>) -> Result<(), Status> {
    let mut unwanted = Picture::unwanted(rt.alloc());
    match play_script(rt, options, &mut unwanted) {
        Ok(()) => Ok(()),
        Err(error) => Err(report_run(rt, Hints::AtTerminal, error)),
    }
}

// Plays the script, with the run's chart in a file, which is made before the run and written whatever ended it.
fn play_charted(rt: &HostRuntime, options: &WorldOptions<'_>, path: &str) -> Result<(), Status> {
    let Ok(file) = File::create(rt, path) else {
        return Err(report_unwritten(rt, path));
    };
    match play_into(rt, options, file) {
        Ok(Charted::Drawn) => Ok(()),
        Ok(Charted::TooLong) => Err(report_long(rt, path)),
        Ok(Charted::Unwritten) => Err(report_unwritten(rt, path)),
        Err(error) => Err(report_run(rt, Hints::AtTerminal, error)),
    }
}

// Plays the script, and draws the run into the file.
fn play_into(
    rt: &HostRuntime,
    options: &WorldOptions<'_>,
    file: File,
) -> Result<Charted, RunError> {
    let mut chart = BufWriter::new(rt.alloc(), file).map_err(|_| OutOfMemory)?;
    let mut picture = Picture::wanted(rt.alloc());
    let played = play_script(rt, options, &mut picture);
    let drawn = picture.draw(&mut chart).and_then(|()| chart.flush());
    played?;
    Ok(if picture.is_too_long() {
        Charted::TooLong
    } else if drawn.is_ok() {
        Charted::Drawn
    } else {
        Charted::Unwritten
    })
}

fn play_script(
    rt: &HostRuntime,
    options: &WorldOptions<'_>,
    picture: &mut Picture,
) -> Result<(), RunError> {
    let options = PlayOptions {
        echoes: options.echoes,
        is_strict: options.is_strict,
        settles: options.settles,
    };
    let keeper = MemoryKeeper::new(rt.alloc());
    let mut output = BufWriter::new(rt.alloc(), io::writer(rt)).map_err(|_| OutOfMemory)?;
    world_run_charted(
        rt.alloc(),
        keeper,
        options,
        rt.reader(),
        picture,
        &mut output,
    )
}

// Reports that the run has more events than a chart shows, and which file is left empty.
fn report_long(rt: &HostRuntime, path: &str) -> Status {
    report(
        rt,
        "chart: a chart shows at most 2000 events, and the run has more",
    );
    hint_of_file(
        rt,
        Hints::AtTerminal,
        path,
        "it is empty: draw a shorter script, or a part of this one",
    );
    Status(LONG_STATUS)
}

// Reports that the chart's file could not be written.
fn report_unwritten(rt: &HostRuntime, path: &str) -> Status {
    report(rt, "chart: the file could not be written");
    let advice = if is_folder(rt, path) {
        FOLDER
    } else {
        "check that its folder exists, that you may write the file, and that the disk has room"
    };
    hint_of_file(rt, Hints::AtTerminal, path, advice);
    Status(UNWRITTEN_STATUS)
}
