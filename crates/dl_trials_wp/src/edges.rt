//! Backward steps that are worked out by hand: each call once, and names that are captured, hidden or missing.

use crate::examples::Example;
use crate::steps::{Case, Step};
use crate::words::Word::{All, Each, Eq, Field, If, Msg, Num, Row, Var};
use dl_term::{Lab, Part};

const T: Lab = Lab::At(0);

#[rattlefmt::skip]
pub(crate) const EDGES: [Case; 13] = [
    Case {
        name: "a field before a send that sets it",
        example: Example::Vote,
        own: None,
        step: Step::Send { label: T, tag: 0, sender: &[Var(30)], to: &[Var(31)], args: &[] },
        after: &[Var(42), Field(T, 0), Num(1), Eq, All(42)],
        before: Some(&[Var(42), Var(30), Num(1), Var(42), Field(T, 0), If, Num(1), Eq, All(42)]),
    },
    Case {
        name: "the sender is bound around a read of the field",
        example: Example::Vote,
        own: None,
        step: Step::Send { label: T, tag: 0, sender: &[Var(30)], to: &[Var(31)], args: &[] },
        after: &[Var(30), Field(T, 0), Num(1), Eq, All(30)],
        before: None,
    },
    Case {
        name: "a mark before a receive",
        example: Example::Mail,
        own: None,
        step: Step::Receive { label: T, tag: 0, receiver: &[Var(30)], msg: 41 },
        after: &[Msg(42, Part::Live), Num(1), Eq, Each(42, T, 0)],
        before: Some(&[
            Msg(42, Part::Id), Msg(41, Part::Id), Num(0), Msg(42, Part::Live), If, Num(1), Eq, Each(42, T, 0),
        ]),
    },
    Case {
        name: "the received message is bound as the one whose mark is read",
        example: Example::Mail,
        own: None,
        step: Step::Receive { label: T, tag: 0, receiver: &[Var(30)], msg: 41 },
        after: &[Msg(41, Part::Live), Num(1), Eq, Each(41, T, 0)],
        before: None,
    },
    Case {
        name: "a field at first",
        example: Example::Mail,
        own: None,
        step: Step::First,
        after: &[Var(42), Field(T, 0), Num(1), Eq, All(42)],
        before: Some(&[Num(0), Num(1), Eq, All(42)]),
    },
    Case {
        name: "the addressee, at whom a row is set, is bound around a read of the row",
        example: Example::Rows,
        own: None,
        step: Step::Send { label: T, tag: 0, sender: &[Var(30)], to: &[Var(31)], args: &[Num(1), Num(2)] },
        after: &[Var(32), Var(31), Row(T, 1), Num(0), Eq, All(31)],
        before: None,
    },
    Case {
        name: "the index of a row in the sender is bound around a read of the field",
        example: Example::Vote,
        own: None,
        step: Step::Send { label: T, tag: 0, sender: &[Num(0), Var(31), Row(T, 1)], to: &[Num(1)], args: &[] },
        after: &[Var(31), Field(T, 0), Num(0), Eq, All(31)],
        before: None,
    },
    Case {
        name: "the received message is bound around a mark",
        example: Example::Rows,
        own: None,
        step: Step::Receive { label: T, tag: 0, receiver: &[Var(30)], msg: 41 },
        after: &[Msg(42, Part::Live), Num(1), Eq, Each(41, T, 1), Each(42, T, 0)],
        before: None,
    },
    Case {
        name: "the received message's name is that of a message of another tag",
        example: Example::Rows,
        own: None,
        step: Step::Receive { label: T, tag: 0, receiver: &[Var(30)], msg: 41 },
        after: &[Msg(41, Part::Live), Num(1), Eq, Each(41, T, 1)],
        before: Some(&[Msg(41, Part::Live), Num(1), Eq, Each(41, T, 1)]),
    },
    Case {
        name: "a message of the tag is hidden by one of another tag",
        example: Example::Rows,
        own: None,
        step: Step::Receive { label: T, tag: 0, receiver: &[Var(30)], msg: 42 },
        after: &[Msg(41, Part::Live), Num(1), Eq, Each(41, T, 1), Each(41, T, 0)],
        before: Some(&[Msg(41, Part::Live), Num(1), Eq, Each(41, T, 1), Each(41, T, 0)]),
    },
    Case {
        name: "a receive of a tag that has none changes nothing",
        example: Example::Commit,
        own: None,
        step: Step::Receive { label: T, tag: 2, receiver: &[Var(30)], msg: 42 },
        after: &[Var(31), Field(T, 0), Num(0), Eq],
        before: Some(&[Var(31), Field(T, 0), Num(0), Eq]),
    },
    Case {
        name: "a number past the nodes is no node",
        example: Example::Vote,
        own: None,
        step: Step::First,
        after: &[Num(2), Field(T, 0), Num(0), Eq],
        before: Some(&[Num(2), Num(0), Num(0), Num(2), Num(1), Num(0), Num(0), If, If, Num(0), Eq]),
    },
    Case {
        name: "of two arguments of one name the last one counts",
        example: Example::Twins,
        own: None,
        step: Step::Send { label: T, tag: 0, sender: &[Var(30)], to: &[Var(31)], args: &[Num(1), Num(2)] },
        after: &[Var(30), Field(T, 0), Num(0), Eq],
        before: Some(&[Num(2), Num(0), Eq]),
    },
];
