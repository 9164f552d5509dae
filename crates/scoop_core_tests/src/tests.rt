//! The tests.

mod theorems;
