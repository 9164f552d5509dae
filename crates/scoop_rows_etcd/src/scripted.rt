//! An etcd in memory that several programs use, and that fails as a script says.

use scoop_etcd::{Etcd, EtcdError};
use scoop_etcd_calls::{Compare, Found, Outcome, Pair, Range, Txn};
use scoop_message::OutOfMemory;
use std::alloc::Global;
use std::cell::RefCell;

/// The fate of a transaction.
#[derive(Clone, Copy)]
pub enum Event {
    /// It is made and answered.
    Answered,
    /// It is made, and its answer is lost.
    AnswerLost,
    /// It isn't made, and fails with this error.
    Fails(EtcdError),
    /// Another program puts its own token first, as it does when it takes the store over.
    TakenOver,
    /// A call that the program had given up is made first: it puts handler 1's state.
    Late,
}

/// The values under keys, by ascending keys, with a script for the next transactions.
#[derive(Drop)]
pub struct ScriptedEtcd {
    alloc: Global,
    revision: u64,
    pairs: Vec<Pair>,
    /// The fates of the next transactions. All after them are answered.
    pub script: Vec<Event>,
    /// Why every range fails, if it does.
    pub failing: Option<EtcdError>,
    /// How many transactions were asked.
    pub transactions: u64,
    /// How many ranges were asked.
    pub ranges: u64,
}

/// The key at which another program puts its token.
const OWNER: &[u8] = b"shop/owner/node/1";

/// The key at which a late call puts a state.
const HANDLER: &[u8] = b"shop/handlers/1";

fn pair(alloc: Global, key: &[u8], value: &[u8], revision: u64) -> Result<Pair, OutOfMemory> {
    Ok(Pair {
        key: Vec::from_slice(alloc, key)?,
        value: Vec::from_slice(alloc, value)?,
        revision,
    })
}

// Whether the range asks for the key.
fn asks(range: &Range, key: &[u8]) -> bool {
    match &range.to {
        Some(to) => range.from.as_slice().cmp(key).is_le() && key.cmp(to.as_slice()).is_lt(),
        None => key.cmp(range.from.as_slice()).is_eq(),
    }
}

impl ScriptedEtcd {
    /// An etcd with no keys.
    pub fn new(alloc: Global) -> ScriptedEtcd {
        ScriptedEtcd {
            alloc,
            revision: 1,
            pairs: Vec::new(alloc),
            script: Vec::new(alloc),
            failing: None,
            transactions: 0,
            ranges: 0,
        }
    }

    // How many pairs have lower keys.
    fn place_of(&self, key: &[u8]) -> usize {
        let mut place = 0;
        for (i, pair) in self.pairs.iter().enumerate() {
            if pair.key.as_slice().cmp(key).is_lt() {
                place = i + 1;
            }
        }
        place
    }

    fn look(&self, key: &[u8]) -> Option<&Pair> {
        match self.pairs.get(self.place_of(key)) {
            Some(pair) if pair.key.as_slice() == key => Some(pair),
            _ => None,
        }
    }

    fn holds(&self, compare: &Compare) -> bool {
        match compare {
            Compare::Value(key, value) => match self.look(key) {
                Some(pair) => pair.value.as_slice() == value.as_slice(),
                None => false,
            },
            Compare::Revision(key, revision) => match self.look(key) {
                Some(pair) => pair.revision == *revision,
                None => *revision == 0,
            },
        }
    }

    fn put(&mut self, key: &[u8], value: &[u8]) -> Result<(), OutOfMemory> {
        let place = self.place_of(key);
        let is_there = self.look(key).is_some();
        let pair = pair(self.alloc, key, value, self.revision)?;
        if is_there {
            match self.pairs.get_mut(place) {
                Some(old) => *old = pair,
                None => drop(pair),
            }
        } else if place <= self.pairs.len() {
            self.pairs.insert(place, pair)?;
        } else {
            drop(pair);
        }
        Ok(())
    }

    /// Puts a value, as another program does.
    pub fn other(&mut self, key: &[u8], value: &[u8]) -> Result<(), OutOfMemory> {
        self.revision = self.revision.wrapping_add(1);
        self.put(key, value)
    }

    fn find(&self, range: &Range, found: &mut Vec<Pair>) -> Result<(), OutOfMemory> {
        for one in &self.pairs {
            if asks(range, &one.key) {
                found.push(pair(self.alloc, &one.key, &one.value, one.revision)?)?;
            }
        }
        Ok(())
    }

    pub fn range(&mut self, range: &Range) -> Result<Found, EtcdError> {
        self.ranges = self.ranges.wrapping_add(1);
        if let Some(error) = self.failing {
            return Err(error);
        }
        let mut pairs = Vec::new(self.alloc);
        self.find(range, &mut pairs)?;
        Ok(Found {
            revision: self.revision,
            pairs,
        })
    }

    // Running out of memory leaves a part of it, which no row gets to.
    fn make(&mut self, txn: &Txn) -> Result<Outcome, OutOfMemory> {
        let mut succeeded = true;
        for compare in &txn.compares {
            succeeded = succeeded && self.holds(compare);
        }
        if succeeded && !txn.puts.is_empty() {
            self.revision = self.revision.wrapping_add(1);
            for put in &txn.puts {
                self.put(&put.key, &put.value)?;
            }
        }
        Ok(Outcome {
            succeeded,
            revision: self.revision,
        })
    }

    pub fn transact(&mut self, txn: &Txn) -> Result<Outcome, EtcdError> {
        self.transactions = self.transactions.wrapping_add(1);
        let event = if self.script.is_empty() {
            Event::Answered
        } else {
            self.script.remove(0)
        };
        match event {
            Event::Fails(error) => return Err(error),
            Event::TakenOver => self.other(OWNER, b"another")?,
            Event::Late => self.other(HANDLER, b"late")?,
            Event::Answered | Event::AnswerLost => {}
        }
        let outcome = self.make(txn)?;
        match event {
            Event::AnswerLost => Err(EtcdError::Unreachable),
            _ => Ok(outcome),
        }
    }
}

/// One program's way to an etcd that other programs use too.
#[derive(Drop)]
pub struct LentEtcd<'a>(pub &'a RefCell<ScriptedEtcd>);

impl Etcd for LentEtcd<'_> {
    ghost use Rattle.std.specs.Prelude.{None};
    ghost use Rattle.scoop_etcd.specs.Etcd.{contents};

    // A script says how it answers. Nothing is promised of that.
    ghost contents = { λ _. contents 0 (λ _. None) };

    ghost is_honest = { λ _. ⊥ };

    ghost is_alone = { λ _. ⊥ };

    fn range(&mut self, range: &Range) -> Result<Found, EtcdError> {
        match self.0.try_borrow_mut() {
            Ok(mut etcd) => etcd.range(range),
            Err(_) => Err(EtcdError::Unreachable),
        }
    }

    fn transact(&mut self, txn: &Txn) -> Result<Outcome, EtcdError> {
        match self.0.try_borrow_mut() {
            Ok(mut etcd) => etcd.transact(txn),
            Err(_) => Err(EtcdError::Unreachable),
        }
    }
}
