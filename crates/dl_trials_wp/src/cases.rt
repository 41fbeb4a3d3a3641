//! Backward steps of example files, each with the formula after it and the formula before it.
//!
//! Made by bench/backward_cases.py from the texts of bench/texts. The formulas before are those of another reading of
//! the notation. The words of a formula stand after their parts.

use crate::examples::Example;
use crate::steps::{Case, Step};
use crate::words::Word::{
    Add, All, And, Any, Each, Eq, Exists, Field, If, Implies, Le, Len, Lt, Msg, Name, Not, Num, Or,
    Row, Sub, True, Var,
};
use dl_term::{Lab, Part};

const OWN: Lab = Lab::Own;

const T: Lab = Lab::At(0);

const U: Lab = Lab::At(1);

#[rattlefmt::skip]
pub(crate) const CASES: [Case; 35] = [
    Case {
        name: "(init seen)",
        example: Example::Mail,
        own: None,
        step: Step::First,
        after: &[Msg(41, Part::Live), Num(0), Eq, Msg(41, Part::To), Field(T, 0), Num(1), Eq, Implies, Each(41, T, 0)],
        before: Some(&[True]),
    },
    Case {
        name: "(step seen r req send)",
        example: Example::Mail,
        own: None,
        step: Step::Send { label: T, tag: 0, sender: &[Var(87)], to: &[Var(88)], args: &[Var(86)] },
        after: &[Msg(41, Part::Live), Num(0), Eq, Msg(41, Part::To), Field(T, 0), Num(1), Eq, Implies, Each(41, T, 0)],
        before: Some(&[
            Msg(41, Part::Live), Num(0), Eq, Msg(41, Part::To), Field(T, 0), Num(1), Eq, Implies, Each(41, T, 0), Num(1),
            Num(0), Eq, Var(88), Field(T, 0), Num(1), Eq, Implies, And,
        ]),
    },
    Case {
        name: "(step seen r req receive)",
        example: Example::Mail,
        own: None,
        step: Step::Receive { label: T, tag: 0, receiver: &[Var(87)], msg: 88 },
        after: &[Msg(41, Part::Live), Num(0), Eq, Msg(41, Part::To), Field(T, 0), Num(1), Eq, Implies, Each(41, T, 0)],
        before: Some(&[
            Msg(41, Part::Id), Msg(88, Part::Id), Num(0), Msg(41, Part::Live), If, Num(0), Eq, Msg(41, Part::To), Var(87),
            Num(1), Msg(41, Part::To), Field(T, 0), If, Num(1), Eq, Implies, Each(41, T, 0),
        ]),
    },
    Case {
        name: "(got server 1)",
        example: Example::Mail,
        own: None,
        step: Step::Receive { label: T, tag: 0, receiver: &[Var(4)], msg: 87 },
        after: &[Var(4), Field(T, 0), Num(1), Eq],
        before: Some(&[Num(1), Num(1), Eq]),
    },
    Case {
        name: "(after p 1)",
        example: Example::Vote,
        own: None,
        step: Step::Send { label: T, tag: 0, sender: &[Var(4)], to: &[Name(21, 1)], args: &[] },
        after: &[Var(4), Field(T, 0), Num(1), Eq],
        before: Some(&[Num(1), Num(1), Eq]),
    },
    Case {
        name: "(init told)",
        example: Example::Commit,
        own: None,
        step: Step::First,
        after: &[
            Msg(57, Part::Arg(0)), Name(20, 0), Field(T, 0), Eq, Msg(57, Part::Arg(0)), Name(26, 0), Eq, Not, And,
            Each(57, T, 3),
        ],
        before: Some(&[True]),
    },
    Case {
        name: "(step told t fix send)",
        example: Example::Commit,
        own: None,
        step: Step::Send { label: T, tag: 2, sender: &[Var(111)], to: &[Var(112)], args: &[Var(110)] },
        after: &[
            Msg(57, Part::Arg(0)), Name(20, 0), Field(T, 0), Eq, Msg(57, Part::Arg(0)), Name(26, 0), Eq, Not, And,
            Each(57, T, 3),
        ],
        before: Some(&[
            Msg(57, Part::Arg(0)), Name(20, 0), Var(111), Var(110), Name(20, 0), Field(T, 0), If, Eq,
            Msg(57, Part::Arg(0)), Name(26, 0), Eq, Not, And, Each(57, T, 3),
        ]),
    },
    Case {
        name: "(step told t tell send)",
        example: Example::Commit,
        own: None,
        step: Step::Send { label: T, tag: 3, sender: &[Var(111)], to: &[Var(112)], args: &[Var(110)] },
        after: &[
            Msg(57, Part::Arg(0)), Name(20, 0), Field(T, 0), Eq, Msg(57, Part::Arg(0)), Name(26, 0), Eq, Not, And,
            Each(57, T, 3),
        ],
        before: Some(&[
            Msg(57, Part::Arg(0)), Name(20, 0), Field(T, 0), Eq, Msg(57, Part::Arg(0)), Name(26, 0), Eq, Not, And,
            Each(57, T, 3), Var(110), Name(20, 0), Field(T, 0), Eq, Var(110), Name(26, 0), Eq, Not, And, And,
        ]),
    },
    Case {
        name: "(step told t tell receive)",
        example: Example::Commit,
        own: None,
        step: Step::Receive { label: T, tag: 3, receiver: &[Var(111)], msg: 112 },
        after: &[
            Msg(57, Part::Arg(0)), Name(20, 0), Field(T, 0), Eq, Msg(57, Part::Arg(0)), Name(26, 0), Eq, Not, And,
            Each(57, T, 3),
        ],
        before: Some(&[
            Msg(57, Part::Arg(0)), Name(20, 0), Var(111), Msg(112, Part::Arg(0)), Name(20, 0), Field(T, 0), If, Eq,
            Msg(57, Part::Arg(0)), Name(26, 0), Eq, Not, And, Each(57, T, 3),
        ]),
    },
    Case {
        name: "(init agree)",
        example: Example::Commit,
        own: None,
        step: Step::First,
        after: &[Var(61), Field(T, 0), Name(26, 0), Eq, Var(61), Field(T, 0), Name(20, 0), Field(T, 0), Eq, Or, All(61)],
        before: Some(&[Name(26, 0), Name(26, 0), Eq, Name(26, 0), Name(26, 0), Eq, Or, All(61)]),
    },
    Case {
        name: "(step agree t fix send)",
        example: Example::Commit,
        own: None,
        step: Step::Send { label: T, tag: 2, sender: &[Var(111)], to: &[Var(112)], args: &[Var(110)] },
        after: &[Var(61), Field(T, 0), Name(26, 0), Eq, Var(61), Field(T, 0), Name(20, 0), Field(T, 0), Eq, Or, All(61)],
        before: Some(&[
            Var(61), Var(111), Var(110), Var(61), Field(T, 0), If, Name(26, 0), Eq, Var(61), Var(111), Var(110), Var(61),
            Field(T, 0), If, Name(20, 0), Var(111), Var(110), Name(20, 0), Field(T, 0), If, Eq, Or, All(61),
        ]),
    },
    Case {
        name: "(step agree t tell receive)",
        example: Example::Commit,
        own: None,
        step: Step::Receive { label: T, tag: 3, receiver: &[Var(111)], msg: 112 },
        after: &[Var(61), Field(T, 0), Name(26, 0), Eq, Var(61), Field(T, 0), Name(20, 0), Field(T, 0), Eq, Or, All(61)],
        before: Some(&[
            Var(61), Var(111), Msg(112, Part::Arg(0)), Var(61), Field(T, 0), If, Name(26, 0), Eq, Var(61), Var(111),
            Msg(112, Part::Arg(0)), Var(61), Field(T, 0), If, Name(20, 0), Var(111), Msg(112, Part::Arg(0)), Name(20, 0),
            Field(T, 0), If, Eq, Or, All(61),
        ]),
    },
    Case {
        name: "(after lead 7)",
        example: Example::Commit,
        own: None,
        step: Step::Send { label: T, tag: 2, sender: &[Var(4)], to: &[Name(20, 0)], args: &[Name(27, 1)] },
        after: &[Var(4), Name(20, 0), Eq, Var(4), Field(T, 0), Name(26, 0), Eq, Not, And],
        before: Some(&[Var(4), Name(20, 0), Eq, Name(27, 1), Name(26, 0), Eq, Not, And]),
    },
    Case {
        name: "(after lead 8)",
        example: Example::Commit,
        own: None,
        step: Step::Send { label: T, tag: 2, sender: &[Var(4)], to: &[Name(20, 0)], args: &[Name(28, 2)] },
        after: &[Var(4), Name(20, 0), Eq, Var(4), Field(T, 0), Name(26, 0), Eq, Not, And],
        before: Some(&[Var(4), Name(20, 0), Eq, Name(28, 2), Name(26, 0), Eq, Not, And]),
    },
    Case {
        name: "(got member 3)",
        example: Example::Commit,
        own: None,
        step: Step::Receive { label: T, tag: 3, receiver: &[Var(4)], msg: 111 },
        after: &[Msg(111, Part::Arg(0)), Var(4), Field(T, 0), Eq],
        before: Some(&[Msg(111, Part::Arg(0)), Msg(111, Part::Arg(0)), Eq]),
    },
    Case {
        name: "(deploy c)",
        example: Example::Commit,
        own: None,
        step: Step::First,
        after: &[Num(0), Name(20, 0), Eq, Num(0), Field(T, 0), Name(26, 0), Eq, And],
        before: Some(&[Num(0), Name(20, 0), Eq, Name(26, 0), Name(26, 0), Eq, And]),
    },
    Case {
        name: "(init tally)",
        example: Example::Rows,
        own: Some(0),
        step: Step::First,
        after: &[
            Var(43), Var(43), Field(OWN, 0), Row(OWN, 1), Var(43), Name(20, 0), Row(OWN, 1), Le, All(43),
            Msg(45, Part::Live), Msg(47, Part::Live), Eq, Msg(45, Part::Id), Len(OWN), Lt, Or, Any(47, OWN, 1),
            Each(45, OWN, 0), And,
        ],
        before: Some(&[Var(43), Name(20, 0), Num(1), Num(0), If, Var(43), Name(20, 0), Num(1), Num(0), If, Le, All(43), True, And]),
    },
    Case {
        name: "(step tally put send)",
        example: Example::Rows,
        own: Some(0),
        step: Step::Send { label: OWN, tag: 0, sender: &[Var(68)], to: &[Var(69)], args: &[Var(66), Var(67)] },
        after: &[
            Var(43), Var(43), Field(OWN, 0), Row(OWN, 1), Var(43), Name(20, 0), Row(OWN, 1), Le, All(43),
            Msg(45, Part::Live), Msg(47, Part::Live), Eq, Msg(45, Part::Id), Len(OWN), Lt, Or, Any(47, OWN, 1),
            Each(45, OWN, 0), And,
        ],
        before: Some(&[
            Var(43), Var(68), Var(43), Var(68), Var(67), Var(43), Field(OWN, 0), If, Var(69), Var(66), Var(43), Var(43),
            Var(68), Var(67), Var(43), Field(OWN, 0), If, Row(OWN, 1), If, Var(43), Var(43), Var(68), Var(67), Var(43),
            Field(OWN, 0), If, Row(OWN, 1), If, Var(43), Var(68), Name(20, 0), Var(69), Var(66), Var(43), Name(20, 0),
            Row(OWN, 1), If, Var(43), Name(20, 0), Row(OWN, 1), If, Le, All(43), Msg(45, Part::Live), Msg(47, Part::Live),
            Eq, Msg(45, Part::Id), Len(OWN), Num(1), Add, Lt, Or, Any(47, OWN, 1), Each(45, OWN, 0), Num(1),
            Msg(47, Part::Live), Eq, Len(OWN), Len(OWN), Num(1), Add, Lt, Or, Any(47, OWN, 1), And, And,
        ]),
    },
    Case {
        name: "(step tally put receive)",
        example: Example::Rows,
        own: Some(0),
        step: Step::Receive { label: OWN, tag: 0, receiver: &[Var(68)], msg: 69 },
        after: &[
            Var(43), Var(43), Field(OWN, 0), Row(OWN, 1), Var(43), Name(20, 0), Row(OWN, 1), Le, All(43),
            Msg(45, Part::Live), Msg(47, Part::Live), Eq, Msg(45, Part::Id), Len(OWN), Lt, Or, Any(47, OWN, 1),
            Each(45, OWN, 0), And,
        ],
        before: Some(&[
            Var(43), Var(68), Var(43), Var(68), Msg(69, Part::From), Var(43), Field(OWN, 0), If, Msg(69, Part::Arg(1)),
            Var(68), Msg(69, Part::Arg(1)), Row(OWN, 1), Msg(69, Part::Arg(0)), Add, Var(43), Var(43), Var(68),
            Msg(69, Part::From), Var(43), Field(OWN, 0), If, Row(OWN, 1), If, Var(43), Var(43), Var(68),
            Msg(69, Part::From), Var(43), Field(OWN, 0), If, Row(OWN, 1), If, Var(43), Var(68), Name(20, 0),
            Msg(69, Part::Arg(1)), Var(68), Msg(69, Part::Arg(1)), Row(OWN, 1), Msg(69, Part::Arg(0)), Add, Var(43),
            Name(20, 0), Row(OWN, 1), If, Var(43), Name(20, 0), Row(OWN, 1), If, Le, All(43), Msg(45, Part::Id),
            Msg(69, Part::Id), Num(0), Msg(45, Part::Live), If, Msg(47, Part::Live), Eq, Msg(45, Part::Id), Len(OWN), Lt,
            Or, Any(47, OWN, 1), Each(45, OWN, 0), And,
        ]),
    },
    Case {
        name: "(step tally ask send)",
        example: Example::Rows,
        own: Some(0),
        step: Step::Send { label: OWN, tag: 1, sender: &[Var(68)], to: &[Var(69)], args: &[] },
        after: &[
            Var(43), Var(43), Field(OWN, 0), Row(OWN, 1), Var(43), Name(20, 0), Row(OWN, 1), Le, All(43),
            Msg(45, Part::Live), Msg(47, Part::Live), Eq, Msg(45, Part::Id), Len(OWN), Lt, Or, Any(47, OWN, 1),
            Each(45, OWN, 0), And,
        ],
        before: Some(&[
            Var(43), Var(43), Field(OWN, 0), Row(OWN, 1), Var(43), Name(20, 0), Row(OWN, 1), Le, All(43),
            Msg(45, Part::Live), Msg(47, Part::Live), Eq, Msg(45, Part::Id), Len(OWN), Num(1), Add, Lt, Or,
            Any(47, OWN, 1), Msg(45, Part::Live), Num(1), Eq, Msg(45, Part::Id), Len(OWN), Num(1), Add, Lt, Or, Or,
            Each(45, OWN, 0), And,
        ]),
    },
    Case {
        name: "(step tally ask receive)",
        example: Example::Rows,
        own: Some(0),
        step: Step::Receive { label: OWN, tag: 1, receiver: &[Var(68)], msg: 69 },
        after: &[
            Var(43), Var(43), Field(OWN, 0), Row(OWN, 1), Var(43), Name(20, 0), Row(OWN, 1), Le, All(43),
            Msg(45, Part::Live), Msg(47, Part::Live), Eq, Msg(45, Part::Id), Len(OWN), Lt, Or, Any(47, OWN, 1),
            Each(45, OWN, 0), And,
        ],
        before: Some(&[
            Var(43), Var(43), Field(OWN, 0), Row(OWN, 1), Var(43), Name(20, 0), Row(OWN, 1), Le, All(43),
            Msg(45, Part::Live), Msg(47, Part::Id), Msg(69, Part::Id), Num(0), Msg(47, Part::Live), If, Eq,
            Msg(45, Part::Id), Len(OWN), Lt, Or, Any(47, OWN, 1), Each(45, OWN, 0), And,
        ]),
    },
    Case {
        name: "(init rows)",
        example: Example::Rows,
        own: None,
        step: Step::First,
        after: &[Var(43), Field(T, 0), Var(60), Row(T, 1), Var(43), Var(60), Row(U, 1), Len(T), Sub, Eq, Exists(60), All(43)],
        before: Some(&[
            Var(43), Name(20, 0), Num(1), Num(0), If, Var(43), Name(20, 0), Num(1), Num(0), If, Num(0), Sub, Eq,
            Exists(60), All(43),
        ]),
    },
    Case {
        name: "(step rows t put send)",
        example: Example::Rows,
        own: None,
        step: Step::Send { label: T, tag: 0, sender: &[Var(68)], to: &[Var(69)], args: &[Var(66), Var(67)] },
        after: &[Var(43), Field(T, 0), Var(60), Row(T, 1), Var(43), Var(60), Row(U, 1), Len(T), Sub, Eq, Exists(60), All(43)],
        before: Some(&[
            Var(43), Var(68), Var(67), Var(43), Field(T, 0), If, Var(68), Var(60), Var(69), Var(66), Var(43), Var(68),
            Var(67), Var(43), Field(T, 0), If, Var(60), Row(T, 1), If, Var(43), Var(68), Var(67), Var(43), Field(T, 0), If,
            Var(60), Row(T, 1), If, Var(43), Var(60), Row(U, 1), Len(T), Num(1), Add, Sub, Eq, Exists(60), All(43),
        ]),
    },
    Case {
        name: "(step rows t put receive)",
        example: Example::Rows,
        own: None,
        step: Step::Receive { label: T, tag: 0, receiver: &[Var(68)], msg: 69 },
        after: &[Var(43), Field(T, 0), Var(60), Row(T, 1), Var(43), Var(60), Row(U, 1), Len(T), Sub, Eq, Exists(60), All(43)],
        before: Some(&[
            Var(43), Var(68), Msg(69, Part::From), Var(43), Field(T, 0), If, Var(68), Var(60), Msg(69, Part::Arg(1)),
            Var(68), Msg(69, Part::Arg(1)), Row(T, 1), Msg(69, Part::Arg(0)), Add, Var(43), Var(68), Msg(69, Part::From),
            Var(43), Field(T, 0), If, Var(60), Row(T, 1), If, Var(43), Var(68), Msg(69, Part::From), Var(43), Field(T, 0),
            If, Var(60), Row(T, 1), If, Var(43), Var(60), Row(U, 1), Len(T), Sub, Eq, Exists(60), All(43),
        ]),
    },
    Case {
        name: "(step rows t ask send)",
        example: Example::Rows,
        own: None,
        step: Step::Send { label: T, tag: 1, sender: &[Var(68)], to: &[Var(69)], args: &[] },
        after: &[Var(43), Field(T, 0), Var(60), Row(T, 1), Var(43), Var(60), Row(U, 1), Len(T), Sub, Eq, Exists(60), All(43)],
        before: Some(&[
            Var(43), Field(T, 0), Var(60), Row(T, 1), Var(43), Var(60), Row(U, 1), Len(T), Num(1), Add, Sub, Eq,
            Exists(60), All(43),
        ]),
    },
    Case {
        name: "(step rows u put send)",
        example: Example::Rows,
        own: None,
        step: Step::Send { label: U, tag: 0, sender: &[Var(68)], to: &[Var(69)], args: &[Var(66), Var(67)] },
        after: &[Var(43), Field(T, 0), Var(60), Row(T, 1), Var(43), Var(60), Row(U, 1), Len(T), Sub, Eq, Exists(60), All(43)],
        before: Some(&[
            Var(43), Field(T, 0), Var(60), Row(T, 1), Var(43), Var(68), Var(60), Var(69), Var(66), Var(43), Var(60),
            Row(U, 1), If, Var(43), Var(60), Row(U, 1), If, Len(T), Sub, Eq, Exists(60), All(43),
        ]),
    },
    Case {
        name: "(step rows u put receive)",
        example: Example::Rows,
        own: None,
        step: Step::Receive { label: U, tag: 0, receiver: &[Var(68)], msg: 69 },
        after: &[Var(43), Field(T, 0), Var(60), Row(T, 1), Var(43), Var(60), Row(U, 1), Len(T), Sub, Eq, Exists(60), All(43)],
        before: Some(&[
            Var(43), Field(T, 0), Var(60), Row(T, 1), Var(43), Var(68), Var(60), Msg(69, Part::Arg(1)), Var(68),
            Msg(69, Part::Arg(1)), Row(U, 1), Msg(69, Part::Arg(0)), Add, Var(43), Var(60), Row(U, 1), If, Var(43),
            Var(60), Row(U, 1), If, Len(T), Sub, Eq, Exists(60), All(43),
        ]),
    },
    Case {
        name: "(init pairs)",
        example: Example::Rows,
        own: None,
        step: Step::First,
        after: &[
            Msg(45, Part::Arg(0)), Msg(47, Part::Arg(0)), Eq, Msg(45, Part::Live), Msg(47, Part::Live), Eq,
            Msg(45, Part::Id), Msg(47, Part::Id), Lt, Or, Implies, Each(47, T, 0), Each(45, T, 0),
        ],
        before: Some(&[True]),
    },
    Case {
        name: "(step pairs t put send)",
        example: Example::Rows,
        own: None,
        step: Step::Send { label: T, tag: 0, sender: &[Var(68)], to: &[Var(69)], args: &[Var(66), Var(67)] },
        after: &[
            Msg(45, Part::Arg(0)), Msg(47, Part::Arg(0)), Eq, Msg(45, Part::Live), Msg(47, Part::Live), Eq,
            Msg(45, Part::Id), Msg(47, Part::Id), Lt, Or, Implies, Each(47, T, 0), Each(45, T, 0),
        ],
        before: Some(&[
            Msg(45, Part::Arg(0)), Msg(47, Part::Arg(0)), Eq, Msg(45, Part::Live), Msg(47, Part::Live), Eq,
            Msg(45, Part::Id), Msg(47, Part::Id), Lt, Or, Implies, Each(47, T, 0), Msg(45, Part::Arg(0)), Var(66), Eq,
            Msg(45, Part::Live), Num(1), Eq, Msg(45, Part::Id), Len(T), Lt, Or, Implies, And, Each(45, T, 0), Var(66),
            Msg(47, Part::Arg(0)), Eq, Num(1), Msg(47, Part::Live), Eq, Len(T), Msg(47, Part::Id), Lt, Or, Implies,
            Each(47, T, 0), Var(66), Var(66), Eq, Num(1), Num(1), Eq, Len(T), Len(T), Lt, Or, Implies, And, And,
        ]),
    },
    Case {
        name: "(step pairs t put receive)",
        example: Example::Rows,
        own: None,
        step: Step::Receive { label: T, tag: 0, receiver: &[Var(68)], msg: 69 },
        after: &[
            Msg(45, Part::Arg(0)), Msg(47, Part::Arg(0)), Eq, Msg(45, Part::Live), Msg(47, Part::Live), Eq,
            Msg(45, Part::Id), Msg(47, Part::Id), Lt, Or, Implies, Each(47, T, 0), Each(45, T, 0),
        ],
        before: Some(&[
            Msg(45, Part::Arg(0)), Msg(47, Part::Arg(0)), Eq, Msg(45, Part::Id), Msg(69, Part::Id), Num(0),
            Msg(45, Part::Live), If, Msg(47, Part::Id), Msg(69, Part::Id), Num(0), Msg(47, Part::Live), If, Eq,
            Msg(45, Part::Id), Msg(47, Part::Id), Lt, Or, Implies, Each(47, T, 0), Each(45, T, 0),
        ]),
    },
    Case {
        name: "(init chains)",
        example: Example::Rows,
        own: None,
        step: Step::First,
        after: &[Var(43), Var(43), Row(T, 1), Field(T, 0), Var(43), Name(20, 0), Var(43), Row(U, 1), Row(T, 1), Le, All(43)],
        before: Some(&[
            Var(43), Name(20, 0), Num(1), Num(0), If, Num(0), Num(0), Var(43), Name(20, 0), Num(1), Num(0), If, Num(1),
            Num(1), Var(43), Name(20, 0), Num(1), Num(0), If, Num(2), Num(2), Num(0), If, If, If, Name(20, 0), Name(20, 0),
            Num(1), Num(0), If, Num(0), Var(43), Name(20, 0), Num(1), Num(0), If, Name(20, 0), Name(20, 0), Num(1), Num(0),
            If, Num(1), Var(43), Name(20, 0), Num(1), Num(0), If, Name(20, 0), Name(20, 0), Num(1), Num(0), If, Num(2),
            Var(43), Name(20, 0), Num(1), Num(0), If, Num(0), If, If, If, Le, All(43),
        ]),
    },
    Case {
        name: "(step chains t put send)",
        example: Example::Rows,
        own: None,
        step: Step::Send { label: T, tag: 0, sender: &[Var(68)], to: &[Var(69)], args: &[Var(66), Var(67)] },
        after: &[Var(43), Var(43), Row(T, 1), Field(T, 0), Var(43), Name(20, 0), Var(43), Row(U, 1), Row(T, 1), Le, All(43)],
        before: Some(&[
            Var(43), Var(68), Var(43), Var(69), Var(66), Var(43), Var(43), Row(T, 1), If, Var(43), Var(43), Row(T, 1), If,
            Var(68), Var(67), Var(43), Var(68), Var(43), Var(69), Var(66), Var(43), Var(43), Row(T, 1), If, Var(43),
            Var(43), Row(T, 1), If, Field(T, 0), If, Var(43), Var(68), Name(20, 0), Var(43), Row(U, 1), Var(69), Var(66),
            Var(43), Name(20, 0), Var(43), Row(U, 1), Row(T, 1), If, Var(43), Name(20, 0), Var(43), Row(U, 1), Row(T, 1),
            If, Le, All(43),
        ]),
    },
    Case {
        name: "(step chains t put receive)",
        example: Example::Rows,
        own: None,
        step: Step::Receive { label: T, tag: 0, receiver: &[Var(68)], msg: 69 },
        after: &[Var(43), Var(43), Row(T, 1), Field(T, 0), Var(43), Name(20, 0), Var(43), Row(U, 1), Row(T, 1), Le, All(43)],
        before: Some(&[
            Var(43), Var(68), Var(43), Msg(69, Part::Arg(1)), Var(68), Msg(69, Part::Arg(1)), Row(T, 1),
            Msg(69, Part::Arg(0)), Add, Var(43), Var(43), Row(T, 1), If, Var(43), Var(43), Row(T, 1), If, Var(68),
            Msg(69, Part::From), Var(43), Var(68), Var(43), Msg(69, Part::Arg(1)), Var(68), Msg(69, Part::Arg(1)),
            Row(T, 1), Msg(69, Part::Arg(0)), Add, Var(43), Var(43), Row(T, 1), If, Var(43), Var(43), Row(T, 1), If,
            Field(T, 0), If, Var(43), Var(68), Name(20, 0), Var(43), Row(U, 1), Msg(69, Part::Arg(1)), Var(68),
            Msg(69, Part::Arg(1)), Row(T, 1), Msg(69, Part::Arg(0)), Add, Var(43), Name(20, 0), Var(43), Row(U, 1),
            Row(T, 1), If, Var(43), Name(20, 0), Var(43), Row(U, 1), Row(T, 1), If, Le, All(43),
        ]),
    },
    Case {
        name: "(step chains u put send)",
        example: Example::Rows,
        own: None,
        step: Step::Send { label: U, tag: 0, sender: &[Var(68)], to: &[Var(69)], args: &[Var(66), Var(67)] },
        after: &[Var(43), Var(43), Row(T, 1), Field(T, 0), Var(43), Name(20, 0), Var(43), Row(U, 1), Row(T, 1), Le, All(43)],
        before: Some(&[
            Var(43), Var(43), Row(T, 1), Field(T, 0), Var(43), Name(20, 0), Var(68), Var(43), Var(69), Var(66),
            Name(20, 0), Var(43), Row(U, 1), If, Name(20, 0), Var(43), Row(U, 1), If, Row(T, 1), Le, All(43),
        ]),
    },
    Case {
        name: "(step chains u put receive)",
        example: Example::Rows,
        own: None,
        step: Step::Receive { label: U, tag: 0, receiver: &[Var(68)], msg: 69 },
        after: &[Var(43), Var(43), Row(T, 1), Field(T, 0), Var(43), Name(20, 0), Var(43), Row(U, 1), Row(T, 1), Le, All(43)],
        before: Some(&[
            Var(43), Var(43), Row(T, 1), Field(T, 0), Var(43), Name(20, 0), Var(68), Var(43), Msg(69, Part::Arg(1)),
            Var(68), Msg(69, Part::Arg(1)), Row(U, 1), Msg(69, Part::Arg(0)), Add, Name(20, 0), Var(43), Row(U, 1), If,
            Name(20, 0), Var(43), Row(U, 1), If, Row(T, 1), Le, All(43),
        ]),
    },
];
