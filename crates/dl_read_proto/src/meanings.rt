//! What the names of a file were declared as.

use dl_term::Sort;
use sqlite_items::Items;
use std::alloc::{AllocError, Global};

/// What a name was declared as. Fields, rows and tags are declared within their protocols alone.
#[derive(Clone, Copy, Debug)]
pub enum Meaning {
    /// Nothing so far: the name of a variable, a message, a hypothesis, a field or a tag.
    Nothing,
    /// A node or an enumerator, with its value.
    Word(i64),
    /// A sort.
    Sort(Sort),
    /// A protocol, by its position among the protocols of the file.
    Protocol(u8),
    /// A label, by its position.
    Label(u8),
    /// A hook, by its position.
    Hook(u8),
    /// A world, by its position.
    World(u8),
    /// An invariant, by its position.
    Invariant(u8),
    /// A procedure, by its position.
    Procedure(u8),
}

/// What each name was declared as, by its number.
#[derive(Drop)]
pub struct Meanings {
    by_number: Items<Meaning>,
}

impl Meanings {
    /// The sorts that need no declaration, for so many nodes. Its only error is want of memory.
    pub fn new(alloc: Global, nodes: u32) -> Result<Meanings, AllocError> {
        let int = Sort {
            low: i64::MIN,
            high: i64::MAX,
        };
        let node = Sort {
            low: 0,
            high: i64::from(nodes) - 1,
        };
        let words = [
            Meaning::Sort(int),
            Meaning::Sort(Sort { low: 0, high: 1 }),
            Meaning::Sort(node),
        ];
        match Items::from_slice(alloc, &words) {
            Ok(by_number) => Ok(Meanings { by_number }),
            Err(error) => Err(error),
        }
    }

    /// Notes what the name was declared as. Its only error is want of memory.
    pub fn declare(&mut self, sym: u32, meaning: Meaning) -> Result<(), AllocError> {
        let at = sym as usize;
        for _ in self.by_number.len()..at + 1 {
            self.by_number.push(Meaning::Nothing)?;
        }
        if at < self.by_number.len() {
            self.by_number.set(at, meaning);
        }
        Ok(())
    }

    /// What the name was declared as.
    pub fn of(&self, sym: u32) -> Meaning {
        match self.by_number.get(sym as usize) {
            Some(meaning) => *meaning,
            None => Meaning::Nothing,
        }
    }
}
