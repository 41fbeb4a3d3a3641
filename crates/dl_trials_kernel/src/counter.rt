//! The step of a counter that one node raises by 1, whose number stays at least 0.

use crate::lines::Line::{Over, Plus, Times, Use};
use crate::names::{GOAL, NEW, S, X};
use crate::replays::Case;
use crate::replays::Outcome::{Fails, Proved};
use crate::scripts::Step::{Decide, Inst, Linear, Open, Reduce};
use crate::words::Word::{self, Add, All, And, Eq, Field, If, Le, Mul, Num, True, Var};

// The names of the hypotheses of a step that the notation fixes, and that of the invariant.
const GUARD: u32 = 10;

const FITS: u32 = 11;

const HOOKS: u32 = 12;

const INVARIANT: u32 = 30;

// What the invariant says of a node and of the sender, and whether these are one.
const AT_NODE: u32 = 31;

const AT_SENDER: u32 = 32;

const TEST: u32 = 33;

// The number of each node is at least 0.
const COUNTED: &[Word] = &[Num(0), Var(X), Field, Le, All(X)];

// The same after the step, where that of the sender S is raised.
#[rattlefmt::skip]
const COUNTED_THEN: &[Word] = &[Num(0), Var(X), Var(S), Var(S), Field, Num(1), Add, Var(X), Field, If, Le, All(X)];

// The raised number is one of 64 bits.
#[rattlefmt::skip]
const FITTING: &[Word] = &[
    Num(i64::MIN), Var(S), Field, Num(1), Add, Le, Var(S), Field, Num(1), Add, Num(i64::MAX), Le, And,
];

// Twice the sender's number is 1, which is so of no number.
const HALVED: &[Word] = &[Num(2), Var(S), Field, Mul, Num(1), Eq];

#[rattlefmt::skip]
pub(crate) const COUNTER: &[Case] = &[
    Case {
        name: "the step keeps the invariant",
        facts: &[(INVARIANT, COUNTED), (GUARD, &[True]), (FITS, FITTING), (HOOKS, &[True])],
        goal: COUNTED_THEN,
        script: &[
            Linear(&[Use(GOAL), Use(AT_SENDER), Plus]), Reduce(TEST, GOAL),
            Linear(&[Use(GOAL), Use(AT_NODE), Plus]), Reduce(TEST, GOAL),
            Decide(&[Var(NEW), Var(S), Eq], TEST), Inst(INVARIANT, S, AT_SENDER), Inst(INVARIANT, NEW, AT_NODE),
            Open(NEW),
        ],
        outcome: Proved,
    },
    // The lines are n <= 0 and -n <= -1.
    Case {
        name: "the guard and its negative, each divided by 2",
        facts: &[(INVARIANT, COUNTED), (GUARD, HALVED), (FITS, FITTING), (HOOKS, &[True])],
        goal: COUNTED_THEN,
        script: &[Linear(&[Use(GUARD), Over(2), Use(GUARD), Times(-1), Over(2), Plus]), Open(NEW)],
        outcome: Proved,
    },
    Case {
        name: "4 doesn't divide 2",
        facts: &[(INVARIANT, COUNTED), (GUARD, HALVED), (FITS, FITTING), (HOOKS, &[True])],
        goal: COUNTED_THEN,
        script: &[Linear(&[Use(GUARD), Over(4), Use(GUARD), Times(-1), Over(2), Plus]), Open(NEW)],
        outcome: Fails(1),
    },
];
