//! The rules of quantifiers: for each, sequents that it fits and sequents that it doesn't.

use crate::lines::Line::Use;
use crate::names::{A, FIRST, GOAL, H, J, K, M, NEW, S, SECOND, X, Y};
use crate::replays::Case;
use crate::replays::Outcome::{Fails, Proved};
use crate::scripts::Step::{By, Equal, Give, GiveTerm, Inst, InstTerm, Open, Unpack};
use crate::words::Word::{self, All, Any, Each, Eq, Exists, Msg, Num, Var};
use dl_term::Part;

// Each node, or some node, is the first one.
const ALL_FIRST: &[Word] = &[Var(X), Num(0), Eq, All(X)];

const SOME_FIRST: &[Word] = &[Var(X), Num(0), Eq, Exists(X)];

// No message, or some message, with the tag of the sequent's messages is taken.
const EACH_TAKEN: &[Word] = &[Msg(X, Part::Live), Num(0), Eq, Each(X, 0)];

const ANY_TAKEN: &[Word] = &[Msg(X, Part::Live), Num(0), Eq, Any(X, 0)];

// The same of another tag.
const EACH_OTHER: &[Word] = &[Msg(X, Part::Live), Num(0), Eq, Each(X, 1)];

const ANY_OTHER: &[Word] = &[Msg(X, Part::Live), Num(0), Eq, Any(X, 1)];

// The message M is taken.
const M_TAKEN: &[Word] = &[Msg(M, Part::Live), Num(0), Eq];

#[rattlefmt::skip]
pub(crate) const QUANTIFIERS: &[Case] = &[
    Case {
        name: "open: all",
        facts: &[], goal: &[Var(X), Var(X), Eq, All(X)], script: &[Equal(&[Use(GOAL)], &[Use(GOAL)]), Open(NEW)],
        outcome: Proved,
    },
    Case {
        name: "open: each",
        facts: &[], goal: &[Msg(X, Part::From), Msg(X, Part::From), Eq, Each(X, 0)],
        script: &[Equal(&[Use(GOAL)], &[Use(GOAL)]), Open(NEW)], outcome: Proved,
    },
    Case {
        name: "open: each is of the tag",
        facts: &[(H, EACH_TAKEN)], goal: EACH_TAKEN, script: &[By(A), Inst(H, NEW, A), Open(NEW)], outcome: Proved,
    },
    Case {
        name: "open: each of another tag",
        facts: &[(H, EACH_TAKEN)], goal: EACH_OTHER, script: &[By(A), Inst(H, NEW, A), Open(NEW)], outcome: Fails(2),
    },
    Case {
        name: "open: a variable",
        facts: &[(H, FIRST)], goal: ALL_FIRST, script: &[By(H), Open(S)], outcome: Fails(2),
    },
    Case {
        name: "open: a message",
        facts: &[(H, FIRST)], goal: ALL_FIRST, script: &[By(H), Open(M)], outcome: Fails(2),
    },
    Case {
        name: "open: bound in the goal",
        facts: &[(H, FIRST)], goal: ALL_FIRST, script: &[By(H), Open(X)], outcome: Fails(2),
    },
    Case {
        name: "open: bound in a hypothesis",
        facts: &[(H, &[Var(Y), Num(0), Eq, Exists(Y)])], goal: ALL_FIRST, script: &[By(H), Open(Y)], outcome: Fails(2),
    },
    Case {
        name: "open: a message, of each",
        facts: &[(H, FIRST)], goal: EACH_TAKEN, script: &[By(H), Open(K)], outcome: Fails(2),
    },
    Case { name: "open: some", facts: &[(H, FIRST)], goal: SOME_FIRST, script: &[By(H), Open(NEW)], outcome: Fails(2) },
    Case { name: "open: any", facts: &[(H, FIRST)], goal: ANY_TAKEN, script: &[By(H), Open(NEW)], outcome: Fails(2) },

    Case {
        name: "give: a node",
        facts: &[], goal: SOME_FIRST, script: &[Equal(&[Use(GOAL)], &[Use(GOAL)]), GiveTerm(&[Num(0)])],
        outcome: Proved,
    },
    Case {
        name: "give: the addressee of a message",
        facts: &[(H, &[Msg(K, Part::To), Num(0), Eq])], goal: SOME_FIRST,
        script: &[By(H), GiveTerm(&[Msg(K, Part::To)])],
        outcome: Proved,
    },
    Case {
        name: "give: a variable by its name",
        facts: &[(H, FIRST)], goal: SOME_FIRST, script: &[By(H), Give(S)], outcome: Proved,
    },
    Case {
        name: "give: a message",
        facts: &[(H, M_TAKEN)], goal: ANY_TAKEN, script: &[By(H), Give(M)], outcome: Proved,
    },
    Case {
        name: "give: a node past the last",
        facts: &[(H, FIRST)], goal: SOME_FIRST, script: &[By(H), GiveTerm(&[Num(2)])], outcome: Fails(2),
    },
    Case {
        name: "give: a message for a node",
        facts: &[(H, FIRST)], goal: SOME_FIRST, script: &[By(H), Give(M)], outcome: Fails(2),
    },
    Case {
        name: "give: an unknown name",
        facts: &[(H, FIRST)], goal: SOME_FIRST, script: &[By(H), GiveTerm(&[Var(NEW)])], outcome: Fails(2),
    },
    Case {
        name: "give: to a goal of all",
        facts: &[(H, FIRST)], goal: ALL_FIRST, script: &[By(H), Give(S)], outcome: Fails(2),
    },
    Case {
        name: "give: to a goal of each",
        facts: &[(H, M_TAKEN)], goal: EACH_TAKEN, script: &[By(H), Give(M)], outcome: Fails(2),
    },
    Case {
        name: "give: a message of another tag",
        facts: &[(H, M_TAKEN)], goal: ANY_OTHER, script: &[By(H), Give(M)], outcome: Fails(2),
    },
    Case {
        name: "give: a variable for a message",
        facts: &[(H, FIRST)], goal: ANY_TAKEN, script: &[By(H), Give(S)], outcome: Fails(2),
    },
    Case {
        name: "give: a term for a message",
        facts: &[(H, M_TAKEN)], goal: ANY_TAKEN, script: &[By(H), GiveTerm(&[Msg(M, Part::Id)])], outcome: Fails(2),
    },

    Case {
        name: "inst: a variable by its name",
        facts: &[(H, ALL_FIRST)], goal: FIRST, script: &[By(A), Inst(H, S, A)], outcome: Proved,
    },
    Case {
        name: "inst: a node",
        facts: &[(H, ALL_FIRST)], goal: &[Num(1), Num(0), Eq], script: &[By(A), InstTerm(H, &[Num(1)], A)],
        outcome: Proved,
    },
    Case {
        name: "inst: a message",
        facts: &[(H, EACH_TAKEN)], goal: M_TAKEN, script: &[By(A), Inst(H, M, A)], outcome: Proved,
    },
    Case {
        name: "inst: a node past the last",
        facts: &[(H, ALL_FIRST)], goal: FIRST, script: &[By(H), InstTerm(H, &[Num(2)], A)], outcome: Fails(2),
    },
    Case {
        name: "inst: a message for a node",
        facts: &[(H, ALL_FIRST)], goal: FIRST, script: &[By(H), Inst(H, M, A)], outcome: Fails(2),
    },
    Case {
        name: "inst: a number that is no node",
        facts: &[(H, ALL_FIRST)], goal: FIRST, script: &[By(H), InstTerm(H, &[Msg(M, Part::Id)], A)], outcome: Fails(2),
    },
    Case {
        name: "inst: an unknown name",
        facts: &[(H, ALL_FIRST)], goal: FIRST, script: &[By(H), Inst(H, NEW, A)], outcome: Fails(2),
    },
    Case {
        name: "inst: of some",
        facts: &[(H, SOME_FIRST)], goal: FIRST, script: &[By(H), Inst(H, S, A)], outcome: Fails(2),
    },
    Case {
        name: "inst: of any",
        facts: &[(H, ANY_TAKEN)], goal: M_TAKEN, script: &[By(H), Inst(H, M, A)], outcome: Fails(2),
    },
    Case {
        name: "inst: a message of another tag",
        facts: &[(H, EACH_OTHER)], goal: M_TAKEN, script: &[By(A), Inst(H, M, A)], outcome: Fails(2),
    },
    Case {
        name: "inst: a variable for a message",
        facts: &[(H, EACH_TAKEN)], goal: FIRST, script: &[By(H), Inst(H, S, A)], outcome: Fails(2),
    },
    Case {
        name: "inst: a known name, of all",
        facts: &[(H, ALL_FIRST)], goal: FIRST, script: &[By(H), Inst(H, S, H)], outcome: Fails(2),
    },
    Case {
        name: "inst: a known name, of each",
        facts: &[(H, EACH_TAKEN)], goal: M_TAKEN, script: &[By(H), Inst(H, K, H)], outcome: Fails(2),
    },
    Case {
        name: "inst: a term with an unknown name",
        facts: &[(H, ALL_FIRST)], goal: FIRST, script: &[By(H), InstTerm(H, &[Var(NEW)], A)], outcome: Fails(2),
    },
    Case {
        name: "inst: no hypothesis",
        facts: &[(H, ALL_FIRST)], goal: FIRST, script: &[By(H), Inst(J, S, A)], outcome: Fails(2),
    },

    Case {
        name: "unpack: some",
        facts: &[(H, SOME_FIRST)], goal: SOME_FIRST, script: &[By(A), Give(NEW), Unpack(H, NEW, A)], outcome: Proved,
    },
    Case {
        name: "unpack: any",
        facts: &[(H, ANY_TAKEN)], goal: ANY_TAKEN, script: &[By(A), Give(NEW), Unpack(H, NEW, A)], outcome: Proved,
    },
    Case {
        name: "unpack: a variable",
        facts: &[(H, SOME_FIRST), (J, SECOND)], goal: SECOND, script: &[By(J), Unpack(H, S, A)], outcome: Fails(2),
    },
    Case {
        name: "unpack: a message",
        facts: &[(H, ANY_TAKEN), (J, SECOND)], goal: SECOND, script: &[By(J), Unpack(H, M, A)], outcome: Fails(2),
    },
    Case {
        name: "unpack: a bound name",
        facts: &[(H, SOME_FIRST), (J, SECOND)], goal: SECOND, script: &[By(J), Unpack(H, X, A)], outcome: Fails(2),
    },
    Case {
        name: "unpack: a known name",
        facts: &[(H, SOME_FIRST), (J, SECOND)], goal: SECOND, script: &[By(J), Unpack(H, NEW, J)], outcome: Fails(2),
    },
    Case {
        name: "unpack: all",
        facts: &[(H, ALL_FIRST), (J, SECOND)], goal: SECOND, script: &[By(J), Unpack(H, NEW, A)], outcome: Fails(2),
    },
    Case {
        name: "unpack: each",
        facts: &[(H, EACH_TAKEN), (J, SECOND)], goal: SECOND, script: &[By(J), Unpack(H, NEW, A)], outcome: Fails(2),
    },
    Case {
        name: "unpack: no hypothesis",
        facts: &[(H, SECOND)], goal: SECOND, script: &[By(H), Unpack(J, NEW, A)], outcome: Fails(2),
    },
];
