//! Procedures.

use crate::commands::block;
use dl_model::Proc;
use dl_read_proto::{
    Around, both, finished, formula, lost, numbers, params, parts_behind, term, word_of,
    world_position,
};
use dl_term::{Formula, Term};
use dl_tree::Tree;
use sqlite_items::Items;
use std::alloc::{AllocError, Global};

/// The procedure with this name, by the parts behind it.
pub(crate) fn procedure(
    alloc: Global,
    around: &Around,
    sym: u32,
    parts: &[Tree],
) -> Result<Proc, AllocError> {
    let [world, params_tree, locals, pre, post, body, value] = parts else {
        return lost();
    };
    let world = world_position(around, world)?;
    let params = params(alloc, around, params_tree);
    let names = both(params, numbers(alloc, around.names, parts_behind(locals)));
    let pre = only_formula(alloc, around, parts_behind(pre));
    let claims = both(pre, only_formula(alloc, around, parts_behind(post)));
    let body = block(alloc, around, body);
    let code = both(body, only_term(alloc, around, parts_behind(value)));
    match both(names, both(claims, code)) {
        Ok(((params, locals), ((pre, post), (body, result)))) => Ok(Proc {
            sym,
            world,
            params,
            locals,
            pre,
            post,
            body,
            result,
        }),
        Err(error) => Err(error),
    }
}

fn only_formula(alloc: Global, around: &Around, parts: &[Tree]) -> Result<Formula, AllocError> {
    let [body] = parts else {
        return lost();
    };
    formula(alloc, around, body)
}

fn only_term(alloc: Global, around: &Around, parts: &[Tree]) -> Result<Term, AllocError> {
    let [body] = parts else {
        return lost();
    };
    term(alloc, around, body)
}

/// Of each point of a procedure, in the order of their numbers, whether it is a read. A point is a command with an
/// annotation.
pub(crate) fn points(alloc: Global, parts: &[Tree]) -> Result<Items<bool>, AllocError> {
    let [_, _, _, _, _, body, _] = parts else {
        return lost();
    };
    let mut points = Items::new(alloc);
    let done = add_points(body, &mut points);
    finished(points, done)
}

/// Adds the points of a command, or of a list of commands.
fn add_points(tree: &Tree, points: &mut Items<bool>) -> Result<(), AllocError> {
    match tree {
        Tree::Num { .. } => Ok(()),
        Tree::Sym { .. } => Ok(()),
        Tree::List { items, .. } => {
            let word = word_of(tree);
            if is_point(word) {
                points.push(word == "read")?;
            }
            if has_commands(word) {
                for part in items.as_slice() {
                    add_points(part, points)?;
                }
            }
            Ok(())
        }
    }
}

fn is_point(word: &str) -> bool {
    word == "send"
        || word == "await"
        || word == "poll"
        || word == "read"
        || word == "while"
        || word == "call"
}

/// Whether commands may stand among the parts of a list with this word. A term with the word `if` has none.
fn has_commands(word: &str) -> bool {
    word == "body" || word == "if" || word == "then" || word == "else" || word == "while"
}
