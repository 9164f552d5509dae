//! Classes of objects.

ghost use Rattle.std.specs.Prelude.{◌≡◌, ◌≤◌, ◌↔◌, IsOkAnd, IfOk, OnOk, IfErr, IsTrue, unwrap_or, None};
ghost use Rattle.scoop_object.specs.Class.{fault_of};

use crate::fault::{ClassError, fault_of};
use crate::row::OpRow;
use scoop_message::OutOfMemory;
use scoop_message::limits::MAX_WORDS;
use std::alloc::{AllocError, Allocator, Global};
use std::marker::Model;

/// A class. Contracts see it as the number of words of its objects, from 1 to 16, and the rows of
/// its operations, in order.
#[derive(Drop, Debug)]
pub struct Class<A: Allocator = Global> {
    words: u8,
    rows: Vec<OpRow, A>,
}

impl<A: Allocator> Model for Class<A> {
    ghost use Rattle.scoop_object.specs.Class.{ClassTable, IsClass};

    ghost Value = { ClassTable };

    ghost view = { λ c. record { words = c.words; rows = c.rows.items } };

    ghost invariant = { λ c. IsClass c.words c.rows.items };
}

impl<A: Allocator> Class<A> {
    /// Builds the class of these rows, whose objects have `words` words. A refusal names the first reason that
    /// applies: `TooManyOps`, `WordOutOfRange`, `ArgOutOfRange`, `RepeatedOp`, `RepeatedWrite`, and last
    /// `OutOfMemory`.
    pub fn build(alloc: A, words: u8, rows: &[OpRow]) -> Result<Class<A>, ClassError>
        requires some { 1 ≤ words }
        requires few { words ≤ MAX_WORDS }
        ensures sound { OnOk result (fault_of words rows.now ≡ None) }
        ensures built { IfOk result (λ class. class ≡ record { words = words; rows = rows.now }) }
        ensures refused { IfErr result (λ e. e ≡ unwrap_or (fault_of words rows.now) ClassError.OutOfMemory) }
    {
        if let Some(fault) = fault_of(words, rows) {
            return Err(fault);
        }
        match Vec::from_slice(alloc, rows) {
            Ok(rows) => Ok(Class { words, rows }),
            Err(AllocError) => Err(ClassError::OutOfMemory),
        }
    }

    /// How many words an object of the class has.
    pub fn words(&self) -> usize
        ensures value { result ≡ self.now.words }
        ensures some { 1 ≤ self.now.words }
        ensures limit { self.now.words ≤ MAX_WORDS }
    {
        usize::from(self.words)
    }

    /// The rows of the operations, in order.
    pub fn rows(&self) -> &[OpRow]
        ensures value { result.now ≡ self.now.rows }
        ensures sound { fault_of self.now.words self.now.rows ≡ None }
    {
        self.rows.as_slice()
    }

    /// Whether the class has this number of words and these rows, in this order.
    pub fn is(&self, words: u8, rows: &[OpRow]) -> bool
        ensures { IsTrue result ↔ (self.now ≡ record { words = words; rows = rows.now }) }
    {
        self.words == words && self.rows.as_slice() == rows
    }

    /// Whether the other class is the same: as many words, and the same rows in the same order.
    pub fn same<B: Allocator>(&self, other: &Class<B>) -> bool
        ensures { IsTrue result ↔ (self.now ≡ other.now) }
    {
        self.is(other.words, other.rows())
    }

    /// The same class again, kept by another allocator.
    pub fn copy_in<B: Allocator>(&self, alloc: B) -> Result<Class<B>, OutOfMemory>
        ensures { IfOk result (λ class. class ≡ self.now) }
    {
        let rows = Vec::from_slice(alloc, self.rows.as_slice())?;
        Ok(Class {
            words: self.words,
            rows,
        })
    }
}

impl<A: Allocator + Clone> Class<A> {
    /// The same class again, kept by the same allocator.
    pub fn copy(&self) -> Result<Class<A>, OutOfMemory>
        ensures { IfOk result (λ class. class ≡ self.now) }
    {
        self.copy_in(self.rows.allocator().clone()?)
    }
}
