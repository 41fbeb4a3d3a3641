//! Terms, formulas and the names in scope, as the code holds them.

use sqlite_items::Boxed;

/// An interval of whole numbers, from `low` to `high`, both included. It holds 0.
#[derive(Clone, Copy, Debug, PartialEq, Eq)]
pub struct Sort {
    pub low: i64,
    pub high: i64,
}

/// A label as a term or formula writes it.
#[derive(Clone, Copy, Debug, PartialEq, Eq)]
pub enum Lab {
    /// The label of the protocol that the formula belongs to, written `self`.
    Own,
    /// The label with this index in the list of labels.
    At(u8),
}

/// A part of a message.
#[derive(Clone, Copy, Debug, PartialEq, Eq)]
pub enum Part {
    /// The message's place in its soup.
    Id,
    /// The node that sent it.
    From,
    /// The node that it is addressed to, or another number where it was addressed to none.
    To,
    /// 1 until the message is received, then 0.
    Live,
    /// The argument at this place, from 0, or 0 past the last one.
    Arg(u8),
}

/// A whole number that depends on the names in scope and on the state.
#[derive(Drop)]
pub enum Term {
    /// A number written as such.
    Num(i64),
    /// A node or an enumerator, which is written by its name.
    Word {
        /// The number of the name.
        sym: u32,
        /// The node's index in the node list, or the enumerator's in its sort.
        value: i64,
    },
    /// The number of the variable with this name.
    Var(u32),
    /// A field of a node at a label.
    Field {
        label: Lab,
        /// The field's index in its protocol.
        field: u8,
        node: Boxed<Term>,
    },
    /// A row of a node at a label, read at an index that is a node.
    Row {
        label: Lab,
        /// The row's index among the fields of its protocol.
        field: u8,
        node: Boxed<Term>,
        index: Boxed<Term>,
    },
    /// The number of messages in the label's soup, live or not.
    Len(Lab),
    /// A part of the message with the name `msg`.
    Msg {
        msg: u32,
        part: Part,
    },
    Add(Boxed<Term>, Boxed<Term>),
    Sub(Boxed<Term>, Boxed<Term>),
    Mul(Boxed<Term>, Boxed<Term>),
    /// The third where the first two are equal, and else the fourth.
    If(Boxed<Term>, Boxed<Term>, Boxed<Term>, Boxed<Term>),
}

/// A statement about the names in scope and the state.
#[derive(Drop)]
pub enum Formula {
    True,
    False,
    /// The two values are equal.
    Eq(Term, Term),
    /// The first value is less than the second.
    Lt(Term, Term),
    /// The first value is at most the second.
    Le(Term, Term),
    Not(Boxed<Formula>),
    And(Boxed<Formula>, Boxed<Formula>),
    Or(Boxed<Formula>, Boxed<Formula>),
    Implies(Boxed<Formula>, Boxed<Formula>),
    /// For each node, which the variable `sym` stands for.
    All {
        sym: u32,
        body: Boxed<Formula>,
    },
    /// For some node, which the variable `sym` stands for.
    Exists {
        sym: u32,
        body: Boxed<Formula>,
    },
    /// For each message of the tag in the label's soup, live or not, which the message name `msg` stands for.
    Each {
        msg: u32,
        label: Lab,
        /// The tag's index in its protocol.
        tag: u8,
        body: Boxed<Formula>,
    },
    /// For some message of the tag in the label's soup, live or not, which the message name `msg` stands for.
    Any {
        msg: u32,
        label: Lab,
        /// The tag's index in its protocol.
        tag: u8,
        body: Boxed<Formula>,
    },
}

/// What the names in scope stand for, from the innermost.
///
/// Variables and messages are named apart: one number may be the name of both. A name that is missing reads 0.
#[derive(Clone, Copy)]
pub enum Env<'a> {
    /// No names. The number is the label that `Lab::Own` stands for.
    Empty(u8),
    /// A variable's name and its number.
    Number(&'a Env<'a>, u32, i64),
    /// A message's name, the label in whose soup it stands, and its id there.
    Message(&'a Env<'a>, u32, u8, u32),
}
