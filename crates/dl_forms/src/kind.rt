//! What a formula or a term may hold, by its kind.

ghost use Rattle.std.specs.Prelude.{◌≡◌, not, codes};
ghost use Rattle.std.specs.Str.{bytes_eq};
ghost use Rattle.dl_forms.specs.Judge.{text_of, is_plain, is_limited, breaks_at, breaks_read, breaks_kind};

use crate::head::Head;
use crate::names::is;
use crate::scope::Kind;
use dl_tree::Tree;

fn is_plain(kind: Kind) -> bool
    ensures { result ≡ is_plain kind }
{
    match kind {
        Kind::Plain => true,
        Kind::Whole | Kind::Local => false,
    }
}

fn is_limited(kind: Kind) -> bool
    ensures { result ≡ is_limited kind }
{
    match kind {
        Kind::Whole => false,
        Kind::Local | Kind::Plain => true,
    }
}

fn is_other_node(node: &Tree) -> bool
    ensures { result ≡ not (bytes_eq (text_of node.now) (codes "me")) }
{
    match node {
        Tree::Sym { name, .. } => !is(name, b"me"),
        Tree::Num { .. } => true,
        Tree::List { .. } => true,
    }
}

fn breaks_at(kind: Kind, node: &Tree) -> bool
    ensures { result ≡ breaks_at kind node.now }
{
    match kind {
        Kind::Whole => false,
        Kind::Local => is_other_node(node),
        Kind::Plain => true,
    }
}

fn breaks_read(kind: Kind, parts: &[Tree]) -> bool
    ensures { result ≡ breaks_read kind parts.now }
{
    match parts {
        [_, _, node, ..] => breaks_at(kind, node),
        _ => false,
    }
}

/// Whether a list makes a formula not local, or an expression not of its kind.
pub fn breaks_kind(kind: Kind, head: Head, parts: &[Tree]) -> bool
    ensures { result ≡ breaks_kind kind head parts.now }
{
    match head {
        Head::Get => breaks_read(kind, parts),
        Head::Len | Head::Each | Head::Any => is_limited(kind),
        Head::Id | Head::From | Head::To | Head::Live | Head::Arg => is_plain(kind),
        Head::All | Head::Some => is_plain(kind),
        Head::Add | Head::Sub | Head::Mul | Head::If => false,
        Head::Eq | Head::Lt | Head::Le | Head::Not => false,
        Head::And | Head::Or | Head::Implies | Head::Other => false,
    }
}
