//! The words that forms begin with.

ghost use Rattle.std.specs.Prelude.{◌≡◌};
ghost use Rattle.dl_forms.specs.Form.{head_of, head_named};

use crate::names::is;
use dl_tree::{Name, Tree};

/// The word that a form begins with.
#[derive(Clone, Copy, Debug, Drop, PartialEq, Eq)]
pub enum Head {
    /// `get`: a read of a field or a row.
    Get,
    /// `len`: the length of a soup.
    Len,
    /// `id`: the place of a message in its soup.
    Id,
    /// `from`: the node that sent a message.
    From,
    /// `to`: the node that a message is addressed to.
    To,
    /// `live`: whether a message is not received yet.
    Live,
    /// `arg`: an argument of a message.
    Arg,
    /// `+`: a sum.
    Add,
    /// `-`: a difference.
    Sub,
    /// `*`: a product.
    Mul,
    /// `if`: a choice between two terms.
    If,
    /// `=`: two terms are equal.
    Eq,
    /// `<`: a term is less than another.
    Lt,
    /// `<=`: a term is at most another.
    Le,
    /// `not`: a negation.
    Not,
    /// `and`: a conjunction.
    And,
    /// `or`: a disjunction.
    Or,
    /// `implies`: an implication.
    Implies,
    /// `all`: a formula holds of each number.
    All,
    /// `some`: a formula holds of some number.
    Some,
    /// `each`: a formula holds of each message.
    Each,
    /// `any`: a formula holds of some message.
    Any,
    /// Any other word, or none.
    Other,
}

#[tactic(auto, unfolding(crate::specs::Form::head_named))]
fn head_named(name: &Name) -> Head
    ensures { result ≡ head_named name.now }
{
    if is(name, b"get") {
        Head::Get
    } else if is(name, b"len") {
        Head::Len
    } else if is(name, b"id") {
        Head::Id
    } else if is(name, b"from") {
        Head::From
    } else if is(name, b"to") {
        Head::To
    } else if is(name, b"live") {
        Head::Live
    } else if is(name, b"arg") {
        Head::Arg
    } else if is(name, b"+") {
        Head::Add
    } else if is(name, b"-") {
        Head::Sub
    } else if is(name, b"*") {
        Head::Mul
    } else if is(name, b"if") {
        Head::If
    } else if is(name, b"=") {
        Head::Eq
    } else if is(name, b"<") {
        Head::Lt
    } else if is(name, b"<=") {
        Head::Le
    } else if is(name, b"not") {
        Head::Not
    } else if is(name, b"and") {
        Head::And
    } else if is(name, b"or") {
        Head::Or
    } else if is(name, b"implies") {
        Head::Implies
    } else if is(name, b"all") {
        Head::All
    } else if is(name, b"some") {
        Head::Some
    } else if is(name, b"each") {
        Head::Each
    } else if is(name, b"any") {
        Head::Any
    } else {
        Head::Other
    }
}

/// The word that a list begins with, by its first part.
pub fn head_of(tree: &Tree) -> Head
    ensures { result ≡ head_of tree.now }
{
    match tree {
        Tree::Sym { name, .. } => head_named(name),
        _ => Head::Other,
    }
}
