//! Sequence charts of the runs of a world, as SVG.
//!
//! A chart has a lifeline for each client and handler and a row for each event. It takes the events as they
//! happen, with their outcomes, and is drawn when the run is over. An arrow goes from a sent message to each place
//! where it was taken; a short one with a cross means that it never was. A block that runs is a thick piece of its
//! handler's lifeline, and a restart is a bar. Each row's label stands in a column of its own, so that nothing
//! overlaps.
//!
//! ```
//! // client 7, and handler 1 of node 1
//! let mut chart = Chart::new(alloc, &[SEVEN], &[(1, ONE)])?;
//! // each event is recorded as it happens, with its outcome and the text of its row
//! let sent = Ok(WorldNote::Sent(1));
//! chart.note(&Event::Tick(SEVEN, ONE), &sent, b"sent 1 Hello")?;
//! let greeted = Ok(WorldNote::Handler(Note::Greeted, Some(2)));
//! chart.note(&Event::Take(1), &greeted, b"Greeted sent 2")?;
//! assert_eq!(rt; chart.rows(), 2);
//! // once the run is over the chart is drawn
//! let mut picture = Vec::new(alloc);
//! assert!(rt; chart.draw(&mut picture).is_ok());
//! assert!(rt; picture.starts_with(b"<svg "));
//! ```
#![tactic(auto)]

mod chart;
mod drawing;
mod error;
mod lifeline;

pub use chart::{Chart, MAX_ROWS};
pub use error::ChartError;
