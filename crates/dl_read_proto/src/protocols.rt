//! Protocols.

use crate::around::{Around, number_of, parts_behind, parts_of, sort_of, word_of};
use crate::formulas::formula;
use crate::results::{add, both, finished, lost, some};
use crate::terms::term;
use crate::transitions::transition;
use dl_model::{FieldDecl, Protocol, Tag, Transition};
use dl_term::{Formula, Sort};
use dl_tree::Tree;
use sqlite_items::Items;
use std::alloc::{AllocError, Global};

/// The protocol with this name and these parts. Its fields come before its tags, and these before its coherence, as
/// the parts of a protocol know no other ones.
pub(crate) fn protocol(
    alloc: Global,
    around: &Around,
    sym: u32,
    parts: &[Tree],
) -> Result<Protocol, AllocError> {
    let mut fields = Items::new(alloc);
    let done = add_fields(alloc, around, parts, &mut fields);
    match finished(fields, done) {
        Ok(fields) => with_fields(alloc, around, sym, fields, parts),
        Err(error) => Err(error),
    }
}

fn with_fields(
    alloc: Global,
    around: &Around,
    sym: u32,
    fields: Items<FieldDecl>,
    parts: &[Tree],
) -> Result<Protocol, AllocError> {
    match all_tags(alloc, around, fields.as_slice(), parts) {
        Ok(tags) => with_tags(alloc, around, sym, fields, tags, parts),
        Err(error) => {
            drop(fields);
            Err(error)
        }
    }
}

fn with_tags(
    alloc: Global,
    around: &Around,
    sym: u32,
    fields: Items<FieldDecl>,
    tags: Items<Tag>,
    parts: &[Tree],
) -> Result<Protocol, AllocError> {
    match coherence(alloc, around, fields.as_slice(), tags.as_slice(), parts) {
        Ok(coherence) => Ok(Protocol {
            sym,
            fields,
            tags,
            coherence,
        }),
        Err(error) => {
            drop(fields);
            drop(tags);
            Err(error)
        }
    }
}

/// What names stand for within a protocol with these fields and tags.
fn within<'a>(around: &Around<'a>, fields: &'a [FieldDecl], tags: &'a [Tag]) -> Around<'a> {
    Around {
        names: around.names,
        meanings: around.meanings,
        inst: around.inst,
        fields,
        tags,
        hiding: around.hiding,
    }
}

/// Adds the fields and rows among the parts of a protocol.
fn add_fields(
    alloc: Global,
    around: &Around,
    parts: &[Tree],
    fields: &mut Items<FieldDecl>,
) -> Result<(), AllocError> {
    for part in parts {
        if is_field(word_of(part)) {
            add(
                fields,
                field_decl(alloc, around, word_of(part) == "row", parts_behind(part)),
            )?;
        }
    }
    Ok(())
}

fn is_field(word: &str) -> bool {
    word == "field" || word == "row"
}

/// A field or a row, by its name, its sort and its first value.
fn field_decl(
    alloc: Global,
    around: &Around,
    row: bool,
    parts: &[Tree],
) -> Result<FieldDecl, AllocError> {
    let [name, sort, first] = parts else {
        return lost();
    };
    let sym = number_of(around.names, name)?;
    let sort = sort_of(around, sort)?;
    match term(alloc, around, first) {
        Ok(first) => Ok(FieldDecl {
            sym,
            row,
            sort,
            first,
        }),
        Err(error) => Err(error),
    }
}

/// The tags among the parts of a protocol, which know its fields.
fn all_tags(
    alloc: Global,
    around: &Around,
    fields: &[FieldDecl],
    parts: &[Tree],
) -> Result<Items<Tag>, AllocError> {
    let mut tags = Items::new(alloc);
    let done = add_tags(alloc, &within(around, fields, &[]), parts, &mut tags);
    finished(tags, done)
}

/// Adds the tags among the parts of a protocol.
fn add_tags(
    alloc: Global,
    around: &Around,
    parts: &[Tree],
    tags: &mut Items<Tag>,
) -> Result<(), AllocError> {
    for part in parts {
        if word_of(part) == "tag" {
            add(tags, tag(alloc, around, parts_behind(part)))?;
        }
    }
    Ok(())
}

/// A tag, by its name, its arguments, its send and, if there is one, its receive.
fn tag(alloc: Global, around: &Around, parts: &[Tree]) -> Result<Tag, AllocError> {
    match parts {
        [name, args, send] => {
            let named = both(number_of(around.names, name), params(alloc, around, args));
            tag_of(named, transition(alloc, around, send), Ok(None))
        }
        [name, args, send, receive] => {
            let named = both(number_of(around.names, name), params(alloc, around, args));
            let send = transition(alloc, around, send);
            tag_of(named, send, some(transition(alloc, around, receive)))
        }
        _ => lost(),
    }
}

fn tag_of(
    named: Result<(u32, Items<(u32, Sort)>), AllocError>,
    send: Result<Transition, AllocError>,
    receive: Result<Option<Transition>, AllocError>,
) -> Result<Tag, AllocError> {
    match both(named, both(send, receive)) {
        Ok(((sym, args), (send, receive))) => Ok(Tag {
            sym,
            args,
            send,
            receive,
        }),
        Err(error) => Err(error),
    }
}

/// The names of a list of arguments or parameters, each with its sort.
pub fn params(
    alloc: Global,
    around: &Around,
    tree: &Tree,
) -> Result<Items<(u32, Sort)>, AllocError> {
    let mut params = Items::new(alloc);
    let done = add_params(around, parts_of(tree), &mut params);
    finished(params, done)
}

fn add_params(
    around: &Around,
    trees: &[Tree],
    params: &mut Items<(u32, Sort)>,
) -> Result<(), AllocError> {
    for tree in trees {
        params.push(param(around, parts_of(tree))?)?;
    }
    Ok(())
}

fn param(around: &Around, parts: &[Tree]) -> Result<(u32, Sort), AllocError> {
    let [name, sort] = parts else {
        return lost();
    };
    let sym = number_of(around.names, name)?;
    let sort = sort_of(around, sort)?;
    Ok((sym, sort))
}

/// The coherence among the parts of a protocol, which knows its fields and tags.
fn coherence(
    alloc: Global,
    around: &Around,
    fields: &[FieldDecl],
    tags: &[Tag],
    parts: &[Tree],
) -> Result<Option<Formula>, AllocError> {
    for part in parts {
        if word_of(part) == "coherence" {
            let inside = within(around, fields, tags);
            return some_formula(alloc, &inside, parts_behind(part));
        }
    }
    Ok(None)
}

fn some_formula(
    alloc: Global,
    around: &Around,
    parts: &[Tree],
) -> Result<Option<Formula>, AllocError> {
    let [body] = parts else {
        return lost();
    };
    some(formula(alloc, around, body))
}
