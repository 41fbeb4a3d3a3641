//! The rules that use equations, and that of ranges: for each, sequents that it fits and sequents that it doesn't.

use crate::lines::Line::Use;
use crate::names::{A, FIRST, GOAL, H, J, K, M, NEW, NOT_FIRST, S, X};
use crate::replays::Case;
use crate::replays::Outcome::{Fails, Proved};
use crate::scripts::Step::{By, Equal, Range, Reduce, Rewrite};
use crate::words::Word::{self, Add, All, And, Eq, If, Le, Len, Lt, Msg, Not, Num, Var};
use dl_term::Part;

// S is at most the first node, which is no equation.
const AT_MOST: &[Word] = &[Var(S), Num(0), Le];

// S, or the first node, is at most the sender of M.
const S_BELOW: &[Word] = &[Var(S), Msg(M, Part::From), Le];

const FIRST_BELOW: &[Word] = &[Num(0), Msg(M, Part::From), Le];

// 0 is what is chosen by whether S is the first node: 0 where it is, and 1 elsewhere.
const CHOICE: &[Word] = &[Num(0), Var(S), Num(0), Num(0), Num(1), If, Eq];

#[rattlefmt::skip]
pub(crate) const EQUATIONS: &[Case] = &[
    Case {
        name: "rewrite: the goal",
        facts: &[(H, FIRST), (J, FIRST_BELOW)], goal: S_BELOW, script: &[By(J), Rewrite(H, GOAL)], outcome: Proved,
    },
    Case {
        name: "rewrite: a hypothesis",
        facts: &[(H, FIRST), (J, S_BELOW)], goal: FIRST_BELOW, script: &[By(J), Rewrite(H, J)], outcome: Proved,
    },
    Case {
        name: "rewrite: not from right to left",
        facts: &[(H, FIRST), (J, FIRST_BELOW)], goal: S_BELOW, script: &[By(J), Rewrite(H, J)], outcome: Fails(1),
    },
    Case {
        name: "rewrite: what isn't there stays",
        facts: &[(H, FIRST)], goal: &[Num(0), Len, Eq], script: &[By(H), Rewrite(H, GOAL)], outcome: Fails(1),
    },
    Case {
        name: "rewrite: a message",
        facts: &[(H, &[Msg(M, Part::Id), Msg(K, Part::Id), Eq]), (J, &[Msg(K, Part::From), Num(0), Eq])],
        goal: &[Msg(M, Part::From), Num(0), Eq], script: &[By(J), Rewrite(H, GOAL)], outcome: Proved,
    },
    Case {
        name: "rewrite: under a quantifier",
        facts: &[(H, &[Msg(M, Part::From), Num(0), Eq]), (J, &[Msg(M, Part::From), Var(X), Eq, All(X)])],
        goal: &[Num(0), Var(X), Eq, All(X)], script: &[By(J), Rewrite(H, J)], outcome: Proved,
    },
    Case {
        name: "rewrite: by a comparison",
        facts: &[(H, AT_MOST)], goal: FIRST, script: &[By(H), Rewrite(H, GOAL)], outcome: Fails(2),
    },
    Case {
        name: "rewrite: by a negated equation",
        facts: &[(H, NOT_FIRST)], goal: FIRST, script: &[By(H), Rewrite(H, GOAL)], outcome: Fails(2),
    },
    Case {
        name: "rewrite: itself",
        facts: &[(H, FIRST)], goal: FIRST, script: &[By(H), Rewrite(H, H)], outcome: Fails(2),
    },
    Case {
        name: "rewrite: at no hypothesis",
        facts: &[(H, FIRST)], goal: FIRST, script: &[By(H), Rewrite(H, J)], outcome: Fails(2),
    },
    Case {
        name: "rewrite: by no hypothesis",
        facts: &[(H, FIRST)], goal: FIRST, script: &[By(H), Rewrite(J, GOAL)], outcome: Fails(2),
    },

    Case {
        name: "reduce: by an equation",
        facts: &[(H, FIRST)], goal: CHOICE, script: &[Equal(&[Use(GOAL)], &[Use(GOAL)]), Reduce(H, GOAL)],
        outcome: Proved,
    },
    Case {
        name: "reduce: by a negated equation",
        facts: &[(H, NOT_FIRST)], goal: &[Num(1), Var(S), Num(0), Num(0), Num(1), If, Eq],
        script: &[Equal(&[Use(GOAL)], &[Use(GOAL)]), Reduce(H, GOAL)], outcome: Proved,
    },
    Case {
        name: "reduce: where the sides are exchanged",
        facts: &[(H, FIRST)], goal: &[Num(0), Num(0), Var(S), Num(0), Num(1), If, Eq],
        script: &[Equal(&[Use(GOAL)], &[Use(GOAL)]), Reduce(H, GOAL)], outcome: Proved,
    },
    Case {
        name: "reduce: a hypothesis",
        facts: &[(H, NOT_FIRST), (J, CHOICE)], goal: &[Num(0), Num(1), Eq], script: &[By(J), Reduce(H, J)],
        outcome: Proved,
    },
    Case {
        name: "reduce: to the other side",
        facts: &[(H, NOT_FIRST)], goal: CHOICE, script: &[Equal(&[Use(GOAL)], &[Use(GOAL)]), Reduce(H, GOAL)],
        outcome: Fails(1),
    },
    Case {
        name: "reduce: by a comparison",
        facts: &[(H, AT_MOST)], goal: FIRST, script: &[By(H), Reduce(H, GOAL)], outcome: Fails(2),
    },
    Case {
        name: "reduce: by a negated comparison",
        facts: &[(H, &[Var(S), Num(0), Le, Not])], goal: FIRST, script: &[By(H), Reduce(H, GOAL)], outcome: Fails(2),
    },
    Case {
        name: "reduce: itself",
        facts: &[(H, FIRST)], goal: FIRST, script: &[By(H), Reduce(H, H)], outcome: Fails(2),
    },
    Case {
        name: "reduce: at no hypothesis",
        facts: &[(H, FIRST)], goal: FIRST, script: &[By(H), Reduce(H, J)], outcome: Fails(2),
    },
    Case {
        name: "reduce: by no hypothesis",
        facts: &[(H, FIRST)], goal: FIRST, script: &[By(H), Reduce(J, GOAL)], outcome: Fails(2),
    },

    Case {
        name: "range: a sender",
        facts: &[], goal: &[Num(0), Msg(M, Part::From), Le, Msg(M, Part::From), Num(1), Le, And],
        script: &[By(A), Range(&[Msg(M, Part::From)], A)], outcome: Proved,
    },
    Case {
        name: "range: a variable",
        facts: &[], goal: &[Num(0), Var(S), Le, Var(S), Num(1), Le, And], script: &[By(A), Range(&[Var(S)], A)],
        outcome: Proved,
    },
    Case {
        name: "range: a mark",
        facts: &[], goal: &[Num(0), Msg(M, Part::Live), Le, Msg(M, Part::Live), Num(1), Le, And],
        script: &[By(A), Range(&[Msg(M, Part::Live)], A)], outcome: Proved,
    },
    Case {
        name: "range: an id",
        facts: &[], goal: &[Num(0), Msg(M, Part::Id), Le, Msg(M, Part::Id), Len, Lt, And],
        script: &[By(A), Range(&[Msg(M, Part::Id)], A)], outcome: Proved,
    },
    Case {
        name: "range: a length",
        facts: &[], goal: &[Num(0), Len, Le], script: &[By(A), Range(&[Len], A)], outcome: Proved,
    },
    Case {
        name: "range: a sum",
        facts: &[(H, FIRST)], goal: FIRST, script: &[By(H), Range(&[Var(S), Num(0), Add], A)], outcome: Fails(2),
    },
    Case {
        name: "range: an unknown variable",
        facts: &[(H, FIRST)], goal: FIRST, script: &[By(H), Range(&[Var(NEW)], A)], outcome: Fails(2),
    },
    Case {
        name: "range: an unknown message",
        facts: &[(H, FIRST)], goal: FIRST, script: &[By(H), Range(&[Msg(NEW, Part::Id)], A)], outcome: Fails(2),
    },
    Case {
        name: "range: a known name",
        facts: &[(H, FIRST)], goal: FIRST, script: &[By(H), Range(&[Msg(M, Part::Id)], H)], outcome: Fails(2),
    },
];
