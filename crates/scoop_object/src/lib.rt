//! Classes, and objects that run the operations of their class.
//!
//! A class is a table: the number of words of its objects, and for each operation the words that it writes and its
//! answer. This table alone defines the effect of a request on an object's words. An object is a `Table`, which
//! interprets the rows of its class, or a boxed type of one's own, which is proved to do the same. Contracts see
//! an object by its class and its words.
//!
//! ```
//! let add = OpRow {
//!     op: 1,
//!     test: None,
//!     writes: Writes::of(&[Write {
//!         word: 0,
//!         base: Term::Word(0),
//!         plus: Term::Arg(0),
//!         minus: Term::Const(0),
//!     }])?,
//!     answer: Term::Word(0),
//! };
//! let class = Class::build(rt.alloc(), 1, &[add])?;
//! let mut counter = Table::new(class, Words::of(&[5])?)?;
//! let args = Args::of(&[2])?;
//! assert_eq!(rt; counter.apply(&Request { op: 1, args }), Answer::Value(7));
//! ```
#![tactic(auto)]

mod behaviour;
mod boxed;
mod class;
mod effect;
mod fault;
mod law;
mod object;
mod row;
mod table;
mod term;
mod writes;

pub use behaviour::Behaviour;
pub use boxed::Boxed;
pub use class::Class;
pub use fault::ClassError;
pub use law::apply_both;
pub use object::{Object, WrongWords};
pub use row::OpRow;
pub use table::Table;
pub use term::{Term, Write};
pub use writes::{TooManyWrites, Writes};
