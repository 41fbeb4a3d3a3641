//! Values made of parts, in tests that end where memory is refused.

use dl_term::{Formula, Lab, Term};
use sqlite_items::{Boxed, Items};
use std::alloc::Global;
use std::process::Abort;

/// Makes values of parts. The test ends where memory is refused.
#[derive(Drop)]
pub(crate) struct Maker<'a, R: Abort> {
    rt: &'a R,
    pub(crate) alloc: Global,
}

impl<'a, R: Abort> Maker<'a, R> {
    /// Makes values with this allocator, and ends the test by this runtime.
    pub(crate) fn new(rt: &'a R, alloc: Global) -> Maker<'a, R> {
        Maker { rt, alloc }
    }

    /// A term in a box.
    pub(crate) fn boxed_term(&self, term: Term) -> Boxed<Term> {
        Boxed::new(self.alloc, term).expect(self.rt, "memory")
    }

    /// A formula in a box.
    pub(crate) fn boxed(&self, formula: Formula) -> Boxed<Formula> {
        Boxed::new(self.alloc, formula).expect(self.rt, "memory")
    }

    /// What was looked for. The test ends where it is missing.
    pub(crate) fn found<T>(&self, item: Option<T>) -> T {
        item.expect(self.rt, "an item")
    }

    /// Adds an item to a list.
    pub(crate) fn push<T: Drop>(&self, items: &mut Items<T>, item: T) {
        items.push(item).expect(self.rt, "memory");
    }

    /// A list of one item.
    pub(crate) fn one<T: Drop>(&self, item: T) -> Items<T> {
        let mut items = Items::new(self.alloc);
        self.push(&mut items, item);
        items
    }

    /// A list of two items.
    pub(crate) fn two<T: Drop>(&self, first: T, second: T) -> Items<T> {
        let mut items = self.one(first);
        self.push(&mut items, second);
        items
    }

    /// The first field of a node at the first label.
    pub(crate) fn field(&self, node: Term) -> Term {
        let node = self.boxed_term(node);
        Term::Field {
            label: Lab::At(0),
            field: 0,
            node,
        }
    }
}
