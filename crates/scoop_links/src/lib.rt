//! Links of a running node or client, each around another link.
//!
//! A [`PatientLink`] tolerates failed calls. A [`NewsLink`] drops stale replies. A [`WaitingLink`] reports the handlers
//! that its client waits for. A [`TurningLink`] turns to the next address of a node that doesn't reply. The call [`client_link`] puts them around a client's link. A [`LentLink`] is a link that
//! one life of a client borrows. The call [`print_numbers`] writes the numbers of handlers, as the reports do.
//!
//! ```
//! // failed calls are noted in `faults`, and the handlers that the client waits for in `waits`
//! let mut link = client_link(alloc, link, waits, faults, &known)?;
//! let client = Client::begin(alloc, client, incarnation, &known)?;
//! let driver = Driver::new(client, LentLink::new(&mut link), TURNS);
//! ```
#![tactic(auto)]

mod client_links;
mod lent_link;
mod news_link;
mod numbers;
mod patient_link;
mod turning_link;
mod waiting_link;

pub use client_links::client_link;
pub use lent_link::LentLink;
pub use news_link::{NewsLink, Talk};
pub use numbers::print_numbers;
pub use patient_link::PatientLink;
pub use turning_link::{Road, TurningLink};
pub use waiting_link::{Awaited, WaitingLink};
