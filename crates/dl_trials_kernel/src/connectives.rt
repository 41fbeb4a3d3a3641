//! The rules that close a goal and those of connectives: for each, sequents that it fits and sequents that it doesn't.

use crate::names::{A, B, BOTH, EITHER, FIRST, H, J, K, NEW, NOT_FIRST, S, SECOND};
use crate::replays::Case;
use crate::replays::Outcome::{Fails, Proved};
use crate::scripts::Step::{Apply, By, Cases, Close, Decide, Have, Intro, Parts, Pick, Split};
use crate::words::Word::{All, Eq, Exists, False, Implies, Msg, Not, Num, Or, True, Var};
use dl_term::Part;

#[rattlefmt::skip]
pub(crate) const CONNECTIVES: &[Case] = &[
    Case { name: "by: the goal", facts: &[(H, FIRST)], goal: FIRST, script: &[By(H)], outcome: Proved },
    Case { name: "by: another formula", facts: &[(H, SECOND)], goal: FIRST, script: &[By(H)], outcome: Fails(1) },
    Case { name: "by: no hypothesis", facts: &[(H, FIRST)], goal: FIRST, script: &[By(J)], outcome: Fails(1) },
    Case { name: "by: a variable", facts: &[(H, FIRST)], goal: FIRST, script: &[By(S)], outcome: Fails(1) },

    Case { name: "close: true", facts: &[], goal: &[True], script: &[Close], outcome: Proved },
    Case {
        name: "close: of false",
        facts: &[(H, FIRST), (J, &[False])], goal: SECOND, script: &[Close], outcome: Proved,
    },
    Case { name: "close: false", facts: &[(H, FIRST)], goal: &[False], script: &[Close], outcome: Fails(1) },
    Case { name: "close: of true", facts: &[(H, &[True])], goal: FIRST, script: &[Close], outcome: Fails(1) },

    Case {
        name: "split: and",
        facts: &[(H, FIRST), (J, SECOND)], goal: BOTH, script: &[By(H), By(J), Split], outcome: Proved,
    },
    Case {
        name: "split: or",
        facts: &[(H, FIRST), (J, SECOND)], goal: EITHER, script: &[By(H), By(J), Split], outcome: Fails(3),
    },
    Case {
        name: "split: the right part isn't shown",
        facts: &[(H, FIRST), (J, SECOND)], goal: BOTH, script: &[By(H), By(H), Split], outcome: Fails(2),
    },
    Case {
        name: "split: neither part is shown, and the left one stands first",
        facts: &[(H, FIRST), (J, SECOND)], goal: BOTH, script: &[By(J), By(H), Split], outcome: Fails(1),
    },

    Case {
        name: "pick: the left part",
        facts: &[(H, FIRST)], goal: EITHER, script: &[By(H), Pick(1)], outcome: Proved,
    },
    Case {
        name: "pick: the right part",
        facts: &[(H, SECOND)], goal: EITHER, script: &[By(H), Pick(2)], outcome: Proved,
    },
    Case {
        name: "pick: the other part",
        facts: &[(H, SECOND)], goal: EITHER, script: &[By(H), Pick(1)], outcome: Fails(1),
    },
    Case { name: "pick: and", facts: &[(H, FIRST)], goal: BOTH, script: &[By(H), Pick(1)], outcome: Fails(2) },
    Case { name: "pick: part 0", facts: &[(H, FIRST)], goal: EITHER, script: &[By(H), Pick(0)], outcome: Fails(2) },
    Case { name: "pick: part 3", facts: &[(H, FIRST)], goal: EITHER, script: &[By(H), Pick(3)], outcome: Fails(2) },

    Case {
        name: "intro: implies",
        facts: &[(H, SECOND)], goal: &[Var(S), Num(0), Eq, Var(S), Num(0), Eq, Implies], script: &[By(A), Intro(A)],
        outcome: Proved,
    },
    Case { name: "intro: not", facts: &[], goal: &[False, Not], script: &[By(A), Intro(A)], outcome: Proved },
    Case { name: "intro: or", facts: &[(H, FIRST)], goal: EITHER, script: &[By(H), Intro(A)], outcome: Fails(2) },
    Case {
        name: "intro: implies, with a known name",
        facts: &[(H, FIRST)], goal: &[Var(S), Num(0), Eq, Var(S), Num(0), Eq, Implies], script: &[By(H), Intro(H)],
        outcome: Fails(2),
    },
    Case {
        name: "intro: not, with a known name",
        facts: &[(H, &[False])], goal: &[False, Not], script: &[By(H), Intro(H)], outcome: Fails(2),
    },

    Case { name: "parts: and", facts: &[(H, BOTH)], goal: SECOND, script: &[By(B), Parts(H, A, B)], outcome: Proved },
    Case {
        name: "parts: or",
        facts: &[(H, EITHER)], goal: SECOND, script: &[By(B), Parts(H, A, B)], outcome: Fails(2),
    },
    Case {
        name: "parts: one name",
        facts: &[(H, BOTH)], goal: SECOND, script: &[By(A), Parts(H, A, A)], outcome: Fails(2),
    },
    Case {
        name: "parts: a known name on the left",
        facts: &[(H, BOTH)], goal: SECOND, script: &[By(B), Parts(H, H, B)], outcome: Fails(2),
    },
    Case {
        name: "parts: a known name on the right",
        facts: &[(H, BOTH)], goal: FIRST, script: &[By(A), Parts(H, A, H)], outcome: Fails(2),
    },
    Case {
        name: "parts: no hypothesis",
        facts: &[(H, BOTH)], goal: SECOND, script: &[By(B), Parts(J, A, B)], outcome: Fails(2),
    },

    Case {
        name: "cases: or",
        facts: &[(H, EITHER), (J, FIRST)], goal: FIRST, script: &[By(A), By(J), Cases(H, A)], outcome: Proved,
    },
    Case {
        name: "cases: the right part is no reason",
        facts: &[(H, EITHER), (J, FIRST)], goal: FIRST, script: &[By(A), By(A), Cases(H, A)], outcome: Fails(2),
    },
    Case {
        name: "cases: and",
        facts: &[(H, BOTH), (J, FIRST)], goal: FIRST, script: &[By(A), By(J), Cases(H, A)], outcome: Fails(3),
    },
    Case {
        name: "cases: a known name",
        facts: &[(H, EITHER), (J, FIRST)], goal: FIRST, script: &[By(J), By(J), Cases(H, H)], outcome: Fails(3),
    },
    Case {
        name: "cases: no hypothesis",
        facts: &[(H, EITHER)], goal: FIRST, script: &[By(A), By(A), Cases(J, A)], outcome: Fails(3),
    },

    Case {
        name: "apply: implies",
        facts: &[(H, &[Var(S), Num(0), Eq, Var(S), Num(1), Eq, Implies]), (J, FIRST)], goal: SECOND,
        script: &[By(J), By(A), Apply(H, A)], outcome: Proved,
    },
    Case {
        name: "apply: not",
        facts: &[(H, NOT_FIRST), (J, FIRST)], goal: SECOND, script: &[By(J), Close, Apply(H, A)], outcome: Proved,
    },
    Case {
        name: "apply: the left side isn't shown",
        facts: &[(H, &[Var(S), Num(0), Eq, Var(S), Num(1), Eq, Implies]), (J, SECOND)], goal: SECOND,
        script: &[By(J), By(A), Apply(H, A)], outcome: Fails(1),
    },
    Case {
        name: "apply: or",
        facts: &[(H, EITHER), (J, FIRST)], goal: SECOND, script: &[By(J), By(A), Apply(H, A)], outcome: Fails(3),
    },
    Case {
        name: "apply: implies, with a known name",
        facts: &[(H, &[Var(S), Num(0), Eq, Var(S), Num(1), Eq, Implies]), (J, FIRST)], goal: SECOND,
        script: &[By(J), By(H), Apply(H, H)], outcome: Fails(3),
    },
    Case {
        name: "apply: not, with a known name",
        facts: &[(H, NOT_FIRST), (J, FIRST)], goal: SECOND, script: &[By(J), Close, Apply(H, J)], outcome: Fails(3),
    },
    Case {
        name: "apply: no hypothesis",
        facts: &[(H, FIRST)], goal: FIRST, script: &[By(H), By(H), Apply(J, A)], outcome: Fails(3),
    },

    Case { name: "have", facts: &[(H, FIRST)], goal: FIRST, script: &[By(H), By(A), Have(FIRST, A)], outcome: Proved },
    Case {
        name: "have: it isn't shown",
        facts: &[(H, FIRST)], goal: SECOND, script: &[By(H), By(A), Have(SECOND, A)], outcome: Fails(1),
    },
    Case {
        name: "have: an unknown name",
        facts: &[(H, FIRST)], goal: FIRST, script: &[By(H), By(H), Have(&[Var(NEW), Num(0), Eq], A)], outcome: Fails(3),
    },
    Case {
        name: "have: a variable is bound",
        facts: &[(H, FIRST)], goal: FIRST, script: &[By(H), By(H), Have(&[True, All(S)], A)], outcome: Fails(3),
    },
    Case {
        name: "have: a known name",
        facts: &[(H, FIRST)], goal: FIRST, script: &[By(H), By(H), Have(FIRST, H)], outcome: Fails(3),
    },

    Case {
        name: "decide",
        facts: &[], goal: &[Var(S), Num(0), Eq, Var(S), Num(0), Eq, Not, Or],
        script: &[By(A), Pick(1), By(A), Pick(2), Decide(FIRST, A)], outcome: Proved,
    },
    Case {
        name: "decide: the formula where it doesn't hold",
        facts: &[], goal: FIRST, script: &[By(A), By(A), Decide(FIRST, A)], outcome: Fails(2),
    },
    Case {
        name: "decide: an unknown message",
        facts: &[(H, FIRST)], goal: FIRST, script: &[By(H), By(H), Decide(&[Msg(NEW, Part::From), Num(0), Eq], A)],
        outcome: Fails(3),
    },
    Case {
        name: "decide: a message is bound",
        facts: &[(H, FIRST)], goal: FIRST, script: &[By(H), By(H), Decide(&[True, Exists(K)], A)], outcome: Fails(3),
    },
    Case {
        name: "decide: a known name",
        facts: &[(H, FIRST)], goal: FIRST, script: &[By(H), By(H), Decide(SECOND, H)], outcome: Fails(3),
    },
];
