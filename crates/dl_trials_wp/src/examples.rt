//! The protocols of example files, so far as backward steps see them: their fields, and what sends and receives set.
//!
//! No guard stands here, and each sort holds 0 to 2. A tag's arguments are named by numbers of their own.

ghost use Rattle.std.specs.Prelude.{◌≤◌};

use crate::maker::Maker;
use crate::words::Word::{Add, If, Name, Num, Row, Var};
use dl_model::{FieldDecl, Instances, Protocol, Tag, Transition, Update};
use dl_term::{Formula, Lab, Sort, Term};
use sqlite_items::Items;
use std::process::Abort;

/// A file, by what its protocol declares.
#[derive(Clone, Copy)]
pub(crate) enum Example {
    Mail,
    Vote,
    Commit,
    Rows,
    /// Not a file's: a tag has two arguments of one name.
    Twins,
}

// Names that have a number of their own in each file.
const ME: u32 = 4;

const TO: u32 = 5;

const FROM: u32 = 6;

// The arguments of each tag.
const VALUE: u32 = 200;

const PLACE: u32 = 201;

// The name of the enumerator that is the first value of the field of `Commit`.
const NONE: u32 = 26;

const SORT: Sort = Sort { low: 0, high: 2 };

fn set(field: u8, value: Term) -> Update {
    Update {
        field,
        index: None,
        value,
    }
}

fn set_row(field: u8, index: u32, value: Term) -> Update {
    Update {
        field,
        index: Some(Term::Var(index)),
        value,
    }
}

fn sets(updates: Items<Update>) -> Transition {
    Transition {
        guard: Formula::True,
        updates,
    }
}

fn field(sym: u32, row: bool, first: Term) -> FieldDecl {
    FieldDecl {
        sym,
        row,
        sort: SORT,
        first,
    }
}

fn protocol(fields: Items<FieldDecl>, tags: Items<Tag>) -> Protocol {
    Protocol {
        sym: 0,
        fields,
        tags,
        coherence: None,
    }
}

fn nodes(example: Example) -> u32
    ensures { 1 ≤ result }
{
    match example {
        Example::Mail => 2,
        Example::Vote => 2,
        Example::Commit => 3,
        Example::Rows => 3,
        Example::Twins => 2,
    }
}

impl<'a, R: Abort> Maker<'a, R> {
    /// The nodes and the protocol of a file. Labels 0 and 1 have the protocol.
    pub(crate) fn instances(&self, example: Example) -> Instances
        ensures { 1 ≤ result.nodes }
    {
        let protocol = self.protocol_of(example);
        Instances {
            nodes: nodes(example),
            protocols: self.one(protocol),
            of: self.two(0, 0),
        }
    }

    fn protocol_of(&self, example: Example) -> Protocol {
        match example {
            Example::Mail => self.mail(),
            Example::Vote => self.vote(),
            Example::Commit => self.commit(),
            Example::Rows => self.rows(),
            Example::Twins => self.twins(),
        }
    }

    fn tag(&self, send: Transition, receive: Option<Transition>) -> Tag {
        Tag {
            sym: 0,
            args: self.two((VALUE, SORT), (PLACE, SORT)),
            send,
            receive,
        }
    }

    // The transition that sets nothing.
    fn idle(&self) -> Transition {
        sets(Items::new(self.alloc))
    }

    // A receive of `req` sets the field to 1.
    fn mail(&self) -> Protocol {
        let heard = self.one(set(0, Term::Num(1)));
        let req = self.tag(self.idle(), Some(sets(heard)));
        let got = field(0, false, Term::Num(0));
        protocol(self.one(got), self.one(req))
    }

    // A send of `cast` sets the field to 1.
    fn vote(&self) -> Protocol {
        let sent = self.one(set(0, Term::Num(1)));
        let cast = self.tag(sets(sent), Some(self.idle()));
        let done = field(0, false, Term::Num(0));
        protocol(self.one(done), self.one(cast))
    }

    fn commit(&self) -> Protocol {
        let none = Term::Word {
            sym: NONE,
            value: 0,
        };
        let fields = self.two(field(0, false, none), field(1, true, Term::Num(0)));
        let mut tags = self.two(self.prep(), self.yes());
        self.push(&mut tags, self.fix());
        self.push(&mut tags, self.tell());
        protocol(fields, tags)
    }

    fn prep(&self) -> Tag {
        self.tag(self.idle(), Some(self.idle()))
    }

    // A receive of it sets the row at the sender.
    fn yes(&self) -> Tag {
        let heard = self.one(set_row(1, FROM, Term::Num(1)));
        self.tag(self.idle(), Some(sets(heard)))
    }

    // Its send sets the field to the argument, and it is never received.
    fn fix(&self) -> Tag {
        let decided = self.one(set(0, Term::Var(VALUE)));
        self.tag(sets(decided), None)
    }

    // A receive of it sets the field to the argument.
    fn tell(&self) -> Tag {
        let told = self.one(set(0, Term::Var(VALUE)));
        self.tag(self.idle(), Some(sets(told)))
    }

    // The row is 1 at first for node 0, and else 0. The field is the node itself.
    fn rows(&self) -> Protocol {
        let first = self.term(&[Var(ME), Name(20, 0), Num(1), Num(0), If]);
        let fields = self.two(field(0, false, Term::Var(ME)), field(1, true, first));
        protocol(fields, self.two(self.put(), self.ask()))
    }

    // A send sets the field to an argument and the row at the addressee to the other. A receive sets the field to the
    // sender, and adds to the row.
    fn put(&self) -> Tag {
        let near = set(0, Term::Var(PLACE));
        let sent = self.two(near, set_row(1, TO, Term::Var(VALUE)));
        let sum = self.term(&[Var(ME), Var(PLACE), Row(Lab::Own, 1), Var(VALUE), Add]);
        let near = set(0, Term::Var(FROM));
        let heard = self.two(near, set_row(1, PLACE, sum));
        self.tag(sets(sent), Some(sets(heard)))
    }

    fn ask(&self) -> Tag {
        self.tag(self.idle(), Some(self.idle()))
    }

    // A send sets the field to the argument.
    fn twins(&self) -> Protocol {
        let sent = self.one(set(0, Term::Var(VALUE)));
        let tag = Tag {
            sym: 0,
            args: self.two((VALUE, SORT), (VALUE, SORT)),
            send: sets(sent),
            receive: None,
        };
        let set_twice = field(0, false, Term::Num(0));
        protocol(self.one(set_twice), self.one(tag))
    }
}
