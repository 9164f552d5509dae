//! The demo classes, each with an object of a type of its own.
//!
//! [`DemoClass`] names them: a cell, a counter, an account and an exchange. [`demo_class`] makes the class of a
//! name. A [`CellObject`], [`CounterObject`], [`AccountObject`] or [`ExchangeObject`] computes by its own code,
//! and is proved to follow the rows of its class.
//!
//! ```
//! let class = DemoClass::Account.class(rt.alloc())?;
//! let mut account = AccountObject::new(100);
//! assert!(rt; account.has_class(&class));
//! let args = Args::of(&[70])?;
//! let withdraw = Request { op: 2, args };
//! assert_eq!(rt; account.apply(&withdraw), Answer::Value(30));
//! assert_eq!(rt; account.apply(&withdraw), Answer::Refused);
//! // a table interprets the rows of the class, and does the same
//! let mut table = Table::new(class, Words::of(&[100])?)?;
//! assert_eq!(rt; table.apply(&withdraw), Answer::Value(30));
//! assert_eq!(rt; table.words(), account.words());
//! ```
#![tactic(auto)]

mod classes;
mod objects;

pub use classes::{DemoClass, demo_class};
pub use objects::{AccountObject, CellObject, CounterObject, ExchangeObject};
