//! Scripts of rules.
use dl_linear::Certificate;
use dl_term::{Formula, Term};
use dl_tree::Place;
use sqlite_items::Boxed;

/// What stands for a bound name.
#[derive(Drop)]
pub enum Given {
    /// A term for a node.
    Node(Term),
    /// The name of a message. Where the sequent has a variable of this name, and a node is wanted, it is that variable.
    Message(u32),
}

/// A rule of proof, with its place in the text.
#[cycle(script)]
#[derive(Drop)]
pub struct Script {
    pub rule: Rule,
    pub place: Place,
}

/// A rule of proof, with the scripts for what it leaves to show.
///
/// Hypotheses, variables and messages go by the numbers of their names. `hyp` is the hypothesis that the rule uses,
/// `name` the name of the one that it adds. `at` is a hypothesis, or the goal where it is the number of the word `goal`.
#[cycle(script)]
#[derive(Drop)]
pub enum Rule {
    /// The goal is the hypothesis.
    By {
        hyp: u32,
    },
    /// The goal is `true`, or a hypothesis is `false`.
    Close,
    /// A goal `and`, part by part.
    Split {
        left: Boxed<Script>,
        right: Boxed<Script>,
    },
    /// One part of a goal `or`: 1 for the left one, 2 for the right one.
    Pick {
        part: u8,
        then: Boxed<Script>,
    },
    /// The left side of a goal `implies`, or what a goal `not` denies, becomes a hypothesis.
    Intro {
        name: u32,
        then: Boxed<Script>,
    },
    /// A goal `all` or `each`, for a new variable or message.
    Open {
        var: u32,
        then: Boxed<Script>,
    },
    /// What a goal `some` or `any` asks for.
    Give {
        what: Given,
        then: Boxed<Script>,
    },
    /// Both parts of a hypothesis `and`.
    Parts {
        hyp: u32,
        left: u32,
        right: u32,
        then: Boxed<Script>,
    },
    /// Either part of a hypothesis `or`.
    Cases {
        hyp: u32,
        name: u32,
        left: Boxed<Script>,
        right: Boxed<Script>,
    },
    /// The right side of a hypothesis `implies`, once its left side is shown, or `false` from a hypothesis `not`.
    Apply {
        hyp: u32,
        name: u32,
        first: Boxed<Script>,
        then: Boxed<Script>,
    },
    /// A hypothesis `all` or `each`, of the thing that is given.
    Inst {
        hyp: u32,
        what: Given,
        name: u32,
        then: Boxed<Script>,
    },
    /// A hypothesis `some` or `any`, of a new variable or message.
    Unpack {
        hyp: u32,
        var: u32,
        name: u32,
        then: Boxed<Script>,
    },
    /// A formula that is shown first and used then.
    Have {
        formula: Formula,
        name: u32,
        first: Boxed<Script>,
        then: Boxed<Script>,
    },
    /// A formula that holds, or doesn't.
    Decide {
        formula: Formula,
        name: u32,
        yes: Boxed<Script>,
        no: Boxed<Script>,
    },
    /// The right side of an equation in the place of its left side.
    Rewrite {
        hyp: u32,
        at: u32,
        then: Boxed<Script>,
    },
    /// What a term `if` comes to where the hypothesis decides its test.
    Reduce {
        hyp: u32,
        at: u32,
        then: Boxed<Script>,
    },
    /// The bounds of a term.
    Range {
        term: Term,
        name: u32,
        then: Boxed<Script>,
    },
    /// A certificate that the hypotheses and the goal's negation can't hold together, or two for a goal that is an
    /// equation. `Use` names a hypothesis, or is the number of the word `goal` for the goal's negation.
    Linear {
        first: Certificate,
        second: Option<Certificate>,
    },
}
