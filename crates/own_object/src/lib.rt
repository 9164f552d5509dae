//! An example: an object of one's own, and the table of its class, proved to agree.
//!
//! Handlers run an object of any type, as long as it follows the table of a class. Then a client's answers, a
//! node's record and the replay of a history mean the same for this type and for a `Table` that interprets the
//! rows. The table is `stock_class` in `specs/Stock.antt`. The contract of the trait `Object` says that the type
//! follows it.
//!
//! ```
//! let mut stock = StockObject::new(10, 0);
//! let order = Request {
//!     op: ORDER,
//!     args: Args::of(&[4])?,
//! };
//! assert_eq!(rt; stock.apply(&order), Answer::Value(6));
//! assert_eq!(rt; stock.words(), Words::of(&[6, 4])?);
//! // a table that interprets the rows does the same
//! let class = Class::build(rt.alloc(), 2, &stock_rows())?;
//! let mut table = Table::new(class, Words::of(&[10, 0])?)?;
//! assert_eq!(rt; table.apply(&order), Answer::Value(6));
//! assert_eq!(rt; table.words(), stock.words());
//! ```
#![tactic(auto)]

mod rows;
mod stock;

pub use rows::{LEFT, ORDER, stock_rows};
pub use stock::StockObject;

#[cfg(test)]
mod tests;
