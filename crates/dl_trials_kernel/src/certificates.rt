//! Certificates of goals, and those that are refused.

use crate::lines::Line::{Over, Plus, Times, Use};
use crate::names::{BOTH, FIRST, GOAL, H, J, S};
use crate::replays::Case;
use crate::replays::Outcome::{Fails, Proved};
use crate::scripts::Step::{Equal, Linear};
use crate::words::Word::{self, Eq, False, Le, Lt, Mul, Not, Num, Var};

const AT_MOST: &[Word] = &[Var(S), Num(0), Le];

const ABOVE: &[Word] = &[Var(S), Num(0), Le, Not];

// Twice S is at most 1.
const TWICE: &[Word] = &[Num(2), Var(S), Mul, Num(1), Le];

#[rattlefmt::skip]
pub(crate) const CERTIFICATES: &[Case] = &[
    Case {
        name: "linear: a goal that computes",
        facts: &[], goal: &[Num(1), Num(2), Lt], script: &[Linear(&[Use(GOAL)])], outcome: Proved,
    },
    Case {
        name: "linear: a negated goal",
        facts: &[], goal: &[Num(1), Num(0), Le, Not], script: &[Linear(&[Use(GOAL)])], outcome: Proved,
    },
    Case {
        name: "linear: an equation",
        facts: &[], goal: &[Var(S), Var(S), Eq], script: &[Equal(&[Use(GOAL)], &[Use(GOAL)])], outcome: Proved,
    },
    Case {
        name: "linear: hypotheses",
        facts: &[(H, AT_MOST), (J, ABOVE)], goal: &[False], script: &[Linear(&[Use(H), Use(J), Plus])], outcome: Proved,
    },
    Case {
        name: "linear: a divided hypothesis",
        facts: &[(H, TWICE)], goal: AT_MOST, script: &[Linear(&[Use(GOAL), Use(H), Over(2), Plus])], outcome: Proved,
    },
    Case {
        name: "linear: a multiplied hypothesis",
        facts: &[(H, AT_MOST)], goal: &[Num(2), Var(S), Mul, Num(0), Le],
        script: &[Linear(&[Use(GOAL), Use(H), Times(2), Plus])], outcome: Proved,
    },
    Case {
        name: "linear: a negative share of an equation",
        facts: &[(H, FIRST)], goal: &[Num(0), Var(S), Le], script: &[Linear(&[Use(GOAL), Use(H), Times(-1), Plus])],
        outcome: Proved,
    },

    Case {
        name: "linear: one certificate of an equation",
        facts: &[], goal: &[Var(S), Var(S), Eq], script: &[Linear(&[Use(GOAL)])], outcome: Fails(1),
    },
    Case {
        name: "linear: two certificates of a comparison",
        facts: &[], goal: &[Num(1), Num(2), Lt], script: &[Equal(&[Use(GOAL)], &[Use(GOAL)])], outcome: Fails(1),
    },
    Case {
        name: "linear: no contradiction",
        facts: &[], goal: &[Num(2), Num(2), Lt], script: &[Linear(&[Use(GOAL)])], outcome: Fails(1),
    },
    Case {
        name: "linear: an atom is left",
        facts: &[(H, AT_MOST)], goal: &[False], script: &[Linear(&[Use(H)])], outcome: Fails(1),
    },
    Case {
        name: "linear: no contradiction the second way",
        facts: &[(H, &[Num(0), Var(S), Le])], goal: FIRST,
        script: &[Equal(&[Use(GOAL), Use(H), Plus], &[Use(GOAL), Use(H), Plus])],
        outcome: Fails(1),
    },
    Case {
        name: "linear: no line of false",
        facts: &[], goal: &[False], script: &[Linear(&[Use(GOAL)])], outcome: Fails(1),
    },
    Case {
        name: "linear: no line of and",
        facts: &[(H, BOTH)], goal: &[False], script: &[Linear(&[Use(H)])], outcome: Fails(1),
    },
    Case {
        name: "linear: no hypothesis",
        facts: &[(H, &[Num(1), Num(0), Le])], goal: &[False], script: &[Linear(&[Use(J)])], outcome: Fails(1),
    },
    Case {
        name: "linear: a negative share",
        facts: &[(H, &[Num(0), Num(1), Le])], goal: &[False], script: &[Linear(&[Use(H), Times(-1)])],
        outcome: Fails(1),
    },
    Case {
        name: "linear: divided by 0",
        facts: &[(H, &[Num(1), Num(0), Le])], goal: &[False], script: &[Linear(&[Use(H), Over(0)])], outcome: Fails(1),
    },
    Case {
        name: "linear: divided by a number below 0",
        facts: &[(H, &[Num(1), Num(0), Le])], goal: &[False], script: &[Linear(&[Use(H), Over(-1)])], outcome: Fails(1),
    },
    Case {
        name: "linear: a coefficient isn't divided",
        facts: &[(H, TWICE)], goal: AT_MOST, script: &[Linear(&[Use(GOAL), Use(H), Over(4), Plus])], outcome: Fails(1),
    },
    Case {
        name: "linear: too wide",
        facts: &[(H, TWICE), (J, &[Num(1), Num(0), Le])], goal: &[False],
        script: &[Linear(&[Use(H), Times(i64::MAX), Use(J), Plus])], outcome: Fails(1),
    },
    Case {
        name: "linear: the line of a hypothesis is too wide",
        facts: &[(H, &[Num(i64::MIN), Num(0), Le]), (J, &[Num(1), Num(0), Le])], goal: &[False],
        script: &[Linear(&[Use(H), Times(0), Use(J), Plus])], outcome: Fails(1),
    },
    Case {
        name: "linear: a hypothesis that isn't used may be too wide",
        facts: &[(H, &[Num(i64::MIN), Num(0), Le]), (J, &[Num(1), Num(0), Le])], goal: &[False],
        script: &[Linear(&[Use(J)])], outcome: Proved,
    },
];
