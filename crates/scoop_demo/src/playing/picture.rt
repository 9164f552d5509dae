//! The chart of a run, where a caller asks for it.

use crate::printing::print_note;
use scoop_chart::{Chart, ChartError};
use scoop_message::{ClientId, HandlerId, OutOfMemory};
use scoop_object::Table;
use scoop_world::{Event, World, WorldError, WorldNote};
use std::alloc::Global;
use std::io;
use std::io::Write;

/// The sequence chart of a run, where a caller asks for it: the parties of the script, from its first event on.
#[derive(Drop)]
pub struct Picture {
    alloc: Global,
    is_wanted: bool,
    // `None` before the world opens, and after more events than a chart shows
    chart: Option<Chart>,
    is_too_long: bool,
}

impl Picture {
    /// A picture of a run to be drawn.
    pub fn wanted(alloc: Global) -> Picture {
        Picture::with(alloc, true)
    }

    /// A picture that isn't wanted.
    pub fn unwanted(alloc: Global) -> Picture {
        Picture::with(alloc, false)
    }

    fn with(alloc: Global, is_wanted: bool) -> Picture {
        Picture {
            alloc,
            is_wanted,
            chart: None,
            is_too_long: false,
        }
    }

    /// Whether the run has more events than a chart shows. Then nothing is drawn.
    pub fn is_too_long(&self) -> bool {
        self.is_too_long
    }

    /// Writes the chart as SVG, if there is one. A script has one after its world opened.
    pub fn draw<W: Write>(&self, writer: &mut W) -> io::Result<()> {
        match &self.chart {
            Some(chart) => chart.draw(writer),
            None => Ok(()),
        }
    }

    // Begins the chart: the world opened with these clients and handlers.
    pub(super) fn begin(
        &mut self,
        clients: &[ClientId],
        handlers: &[(u32, HandlerId)],
    ) -> Result<(), OutOfMemory> {
        if !self.is_wanted {
            return Ok(());
        }
        let chart = Chart::new(self.alloc, clients, handlers).map_err(|_| OutOfMemory)?;
        self.chart = Some(chart);
        Ok(())
    }

    // Notes an event of the world.
    pub(super) fn note(
        &mut self,
        world: &World<Table>,
        event: &Event,
        outcome: &Result<WorldNote, WorldError>,
    ) -> Result<(), OutOfMemory> {
        let Some(chart) = &mut self.chart else {
            return Ok(());
        };
        let mut label = Vec::new(self.alloc);
        if print_outcome(world, outcome, &mut label).is_err() {
            return Err(OutOfMemory);
        }
        label.pop();
        match chart.note(event, outcome, &label) {
            Ok(()) => Ok(()),
            Err(ChartError::TooLong) => {
                self.chart = None;
                self.is_too_long = true;
                Ok(())
            }
            Err(ChartError::OutOfMemory) => Err(OutOfMemory),
        }
    }
}

// Writes the line of what an event did.
fn print_outcome<W: Write>(
    world: &World<Table>,
    outcome: &Result<WorldNote, WorldError>,
    writer: &mut W,
) -> io::Result<()> {
    match outcome {
        Ok(WorldNote::Sent(place)) => {
            print_note(&WorldNote::Sent(*place), world.sent(*place), writer)
        }
        Ok(note) => print_note(note, None, writer),
        Err(error) => writeln!(writer, "refused {error}"),
    }
}
