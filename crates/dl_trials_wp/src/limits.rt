//! Backward steps whose results are too large, and smaller ones of the same kind.

use crate::examples::Example;
use crate::maker::Maker;
use dl_term::{Formula, Lab, Part, Term, depth, size};
use dl_wp::{ReceiveStep, SendStep, WpFault, at_init};
use sqlite_items::Items;
use std::process::Abort;

// The names of the step's node and of another one.
const STEP: u32 = 30;

const OTHER: u32 = 31;

// The names of a message that is bound and of the one that is received.
const BOUND: u32 = 40;

const RECEIVED: u32 = 41;

// What a call came to.
#[derive(Clone, Copy, PartialEq, Eq)]
enum Outcome {
    // The result's parts, and how deep it nests.
    Made(u64, u64),
    TooLarge,
    Other,
}

fn outcome_of(made: Result<Formula, WpFault>) -> Outcome {
    let outcome = match &made {
        Ok(made) => Outcome::Made(size(made), depth(made)),
        Err(WpFault::Size) => Outcome::TooLarge,
        Err(_) => Outcome::Other,
    };
    drop(made);
    outcome
}

// The first argument of the bound message is 0.
fn equation() -> Formula {
    let argument = Term::Msg {
        msg: BOUND,
        part: Part::Arg(0),
    };
    Formula::Eq(argument, Term::Num(0))
}

impl<'a, R: Abort> Maker<'a, R> {
    fn one_more(&self, term: Term) -> Term {
        let one = self.boxed_term(Term::Num(1));
        Term::Add(one, self.boxed_term(term))
    }

    // A sum of so many numbers, which has twice as many parts, less one.
    fn sum(&self, numbers: u32) -> Term {
        let mut sum = Term::Num(1);
        for _ in 1..numbers {
            sum = self.one_more(sum);
        }
        sum
    }

    fn and_equation(&self, formula: Formula) -> Formula {
        let left = self.boxed(equation());
        Formula::And(left, self.boxed(formula))
    }

    // The equation of each message, so many times.
    fn every(&self, times: u32) -> Formula {
        let mut body = equation();
        for _ in 1..times {
            body = self.and_equation(body);
        }
        Formula::Each {
            msg: BOUND,
            label: Lab::At(0),
            tag: 0,
            body: self.boxed(body),
        }
    }

    // The send of an argument.
    fn sent_with(&self, argument: Term) -> Outcome {
        let after = self.every(512);
        let inst = self.instances(Example::Vote);
        let step = SendStep {
            label: Lab::At(0),
            tag: 0,
            sender: Term::Var(STEP),
            to: Term::Var(OTHER),
            args: self.one(argument),
        };
        let made = self.sent(&inst, None, step, &after);
        drop(after);
        drop(inst);
        outcome_of(made)
    }

    // The field of the node that is the field of a node, so many times, is 0. The receive sets the field.
    fn received_at(&self, reads: u32) -> Outcome {
        let mut node = Term::Var(OTHER);
        for _ in 0..reads {
            node = self.field(node);
        }
        let after = Formula::Eq(node, Term::Num(0));
        let inst = self.instances(Example::Mail);
        let step = ReceiveStep {
            label: Lab::At(0),
            tag: 0,
            receiver: Term::Var(STEP),
            msg: RECEIVED,
        };
        let made = self.received(&inst, None, step, &after);
        drop(after);
        drop(inst);
        outcome_of(made)
    }

    fn row(&self, node: Term) -> Term {
        let node = self.boxed_term(node);
        let index = self.boxed_term(Term::Var(OTHER));
        Term::Row {
            label: Lab::At(0),
            field: 1,
            node,
            index,
        }
    }

    // The row of the node that is the row of a node, so many times, is 0, for each node.
    fn first_at(&self, reads: u32) -> Outcome {
        let mut node = Term::Var(OTHER);
        for _ in 0..reads {
            node = self.row(node);
        }
        let formula = Formula::All {
            sym: OTHER,
            body: self.boxed(Formula::Eq(node, Term::Num(0))),
        };
        let inst = self.instances(Example::Rows);
        let made = at_init(self.alloc, &inst, None, &formula);
        drop(formula);
        drop(inst);
        outcome_of(made)
    }
}

// The 512 equations stand once with the bound message, with 3 parts each, and once with the new one, with 2 and those of the
// argument: of n parts, 512 * (n + 7) in all.
#[test]
fn sizes_before_a_send(rt: HostRuntime) {
    let m = Maker::new(&rt, rt.alloc());
    assert!(rt; m.sent_with(m.sum(4)) == Outcome::Made(7_168, 517));
    assert!(rt; m.sent_with(m.sum(974)) == Outcome::TooLarge);
}

// A read of the field at a node of n parts is a choice of 2n + 4 parts before the step, two deeper than the node. So k
// reads, one at the other, have 5 * 2^k - 4 parts, and the equation two more.
#[test]
fn sizes_before_a_receive(rt: HostRuntime) {
    let m = Maker::new(&rt, rt.alloc());
    assert!(rt; m.received_at(10) == Outcome::Made(5_118, 22));
    assert!(rt; m.received_at(18) == Outcome::TooLarge);
}

// With three nodes a read of the row at a read of n parts is a choice of 3n + 22 parts, three deeper than that. So k reads,
// one at the other, have 16 * 3^(k - 1) - 11 parts, and the formula three more.
#[test]
fn sizes_at_first(rt: HostRuntime) {
    let m = Maker::new(&rt, rt.alloc());
    assert!(rt; m.first_at(6) == Outcome::Made(3_880, 19));
    assert!(rt; m.first_at(12) == Outcome::TooLarge);
}
