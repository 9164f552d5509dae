//! An object of a type of its own for each demo class.

mod account;
mod cell;
mod counter;
mod exchange;

pub use account::AccountObject;
pub use cell::CellObject;
pub use counter::CounterObject;
pub use exchange::ExchangeObject;
