//! Three nodes, a mailbox and a commit: the declarations that reports are about.

use dl_model::{Decls, FieldDecl, Instances, Protocol, Tag, Transition};
use dl_term::{Formula, Sort, Term};
use dl_tree::Name;
use sqlite_items::Items;
use std::alloc::Global;
use std::process::Abort;

/// The texts of names 18 and up. The numbers below belong to the reserved words.
const TEXTS: [&str; 15] = [
    "a", "c", "b", "mail", "got", "req", "v", "r", "tpc", "dec", "ack", "prep", "fix", "d", "t",
];

/// Makes the declarations. The test ends where memory is refused.
#[derive(Drop)]
pub(crate) struct Maker<'a, R: Abort> {
    rt: &'a R,
    pub(crate) alloc: Global,
}

impl<'a, R: Abort> Maker<'a, R> {
    pub(crate) fn new(rt: &'a R, alloc: Global) -> Maker<'a, R> {
        Maker { rt, alloc }
    }

    /// Adds an item to a list.
    pub(crate) fn push<T: Drop>(&self, items: &mut Items<T>, item: T) {
        items.push(item).expect(self.rt, "memory");
    }

    /// A list of one item.
    fn one<T: Drop>(&self, item: T) -> Items<T> {
        let mut items = Items::new(self.alloc);
        self.push(&mut items, item);
        items
    }

    /// A list of two items.
    fn two<T: Drop>(&self, first: T, second: T) -> Items<T> {
        let mut items = self.one(first);
        self.push(&mut items, second);
        items
    }

    fn name(&self, text: &str) -> Name {
        let text = if text.len() <= 64 { text } else { "" };
        Name::new(self.alloc, text).expect(self.rt, "memory")
    }

    /// The names of the file, by their numbers.
    pub(crate) fn names(&self) -> Items<Name> {
        let mut names = Items::new(self.alloc);
        for _ in 0..18 {
            let name = self.name("word");
            self.push(&mut names, name);
        }
        for text in &TEXTS {
            let name = self.name(text);
            self.push(&mut names, name);
        }
        names
    }

    fn step(&self) -> Transition {
        Transition {
            guard: Formula::True,
            updates: Items::new(self.alloc),
        }
    }

    fn tag(&self, sym: u32, args: Items<(u32, Sort)>) -> Tag {
        Tag {
            sym,
            args,
            send: self.step(),
            receive: Some(self.step()),
        }
    }

    fn field(&self, sym: u32, row: bool) -> FieldDecl {
        FieldDecl {
            sym,
            row,
            sort: Sort { low: 0, high: 1 },
            first: Term::Num(0),
        }
    }

    fn arg(&self, sym: u32) -> Items<(u32, Sort)> {
        self.one((
            sym,
            Sort {
                low: i64::MIN,
                high: i64::MAX,
            },
        ))
    }

    fn mail(&self) -> Protocol {
        Protocol {
            sym: 21,
            fields: self.one(self.field(22, false)),
            tags: self.one(self.tag(23, self.arg(24))),
            coherence: None,
        }
    }

    fn commit(&self) -> Protocol {
        Protocol {
            sym: 26,
            fields: self.two(self.field(27, false), self.field(28, true)),
            tags: self.two(
                self.tag(29, Items::new(self.alloc)),
                self.tag(30, self.arg(31)),
            ),
            coherence: None,
        }
    }

    /// The nodes a, c and b, the mailbox r, and the commit t.
    pub(crate) fn decls(&self) -> Decls {
        Decls {
            inst: Instances {
                nodes: 3,
                protocols: self.two(self.mail(), self.commit()),
                of: self.two(0, 1),
            },
            labels: self.two(25, 32),
            hooks: Items::new(self.alloc),
            worlds: Items::new(self.alloc),
            invariants: Items::new(self.alloc),
            procs: Items::new(self.alloc),
            deploy: None,
        }
    }
}
