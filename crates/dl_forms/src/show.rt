//! Terms and formulas, shown as trees.

ghost use Rattle.std.specs.Prelude.{◌≡◌, ◌≤◌, ◌∷◌, ◌++◌, [], List, length, IfOk, codes, pos};
ghost use Rattle.std.specs.Option.{option_copied};
ghost use Rattle.dl_forms.specs.Scope.{text_at};
ghost use Rattle.dl_forms.specs.Show.{of_labels, symbol, number, no_place, name, protocol_at, label, field, tag, message_part, shown_term, shown_formula};
ghost use Rattle.dl_tree.specs.declared.tree.Tree.{Tree};
ghost use Rattle.dl_tree.specs.declared.tree.Tree.TheVariants as tree;

use crate::around::{Around, protocol_number};
use crate::scope::{Kind, Scope};
use crate::table::Names;
use dl_model::{FieldDecl, Instances, Protocol};
use dl_term::{Formula, Lab, Part, Term};
use dl_tree::{Name, Place, Tree};
use sqlite_items::Items;
use std::alloc::{AllocError, Global};

const NO_PLACE: Place = Place { line: 0, col: 0 };

fn symbol(alloc: Global, text: &str) -> Result<Tree, AllocError>
    requires { length text.now ≤ 64 }
    ensures { IfOk result (λ t. t ≡ symbol text.now) }
{
    Ok(Tree::Sym {
        name: Name::new(alloc, text)?,
        place: NO_PLACE,
    })
}

fn number(k: u8) -> Tree
    ensures { result ≡ number (pos k) }
{
    Tree::Num {
        value: k as i64,
        place: NO_PLACE,
    }
}

fn name(alloc: Global, names: &Names, sym: u32) -> Result<Tree, AllocError>
    ensures { IfOk result (λ t. t ≡ symbol (text_at names.now sym)) }
{
    match names.text(sym) {
        Some(text) => Ok(Tree::Sym {
            name: text.copy(alloc)?,
            place: NO_PLACE,
        }),
        None => symbol(alloc, ""),
    }
}

/// A form that begins with a word, without its parts.
fn begin(alloc: Global, word: &str) -> Result<Items<Tree>, AllocError>
    requires { length word.now ≤ 64 }
    ensures { IfOk result (λ items. items ≡ symbol word.now ∷ []) }
{
    let mut items = Items::new(alloc);
    items.push(symbol(alloc, word)?)?;
    Ok(items)
}

/// The form with one more part.
fn with(
    items: Result<Items<Tree>, AllocError>,
    part: Result<Tree, AllocError>,
) -> Result<Items<Tree>, AllocError>
    ensures { (before : List Tree) (last : Tree) → IfOk items (λ is. is ≡ before) → IfOk part (λ t. t ≡ last) → IfOk result (λ is. is ≡ before ++ last ∷ []) }
{
    let mut items = items?;
    items.push(part?)?;
    Ok(items)
}

/// The form as a tree.
fn done(items: Result<Items<Tree>, AllocError>) -> Result<Tree, AllocError>
    ensures { (whole : List Tree) → IfOk items (λ is. is ≡ whole) → IfOk result (λ t. t ≡ tree.List whole no_place) }
{
    Ok(Tree::List {
        items: items?,
        place: NO_PLACE,
    })
}

fn label(alloc: Global, around: &Around, lab: Lab) -> Result<Tree, AllocError>
    ensures { IfOk result (λ t. t ≡ label around.now.names.now around.now.scope.now around.now.inst.now lab) }
{
    match lab {
        Lab::Own => symbol(alloc, "self"),
        Lab::At(l) => match around.scope.labels.get(l as usize) {
            Some(sym) => name(alloc, around.names, *sym),
            None => name(alloc, around.names, 0),
        },
    }
}

fn protocol_of<'a>(around: &Around<'a>, lab: Lab) -> Option<&'a Protocol>
    ensures { option_copied result ≡ protocol_at around.now.names.now around.now.scope.now around.now.inst.now lab }
{
    match protocol_number(around, lab) {
        Some(number) => around.inst.protocols.get(number as usize),
        None => None,
    }
}

fn field(alloc: Global, around: &Around, lab: Lab, at: u8) -> Result<Tree, AllocError>
    ensures { IfOk result (λ t. t ≡ field around.now.names.now around.now.scope.now around.now.inst.now lab at) }
{
    match protocol_of(around, lab) {
        None => symbol(alloc, ""),
        Some(protocol) => match protocol.fields.get(at as usize) {
            Some(decl) => name(alloc, around.names, decl.sym),
            None => symbol(alloc, ""),
        },
    }
}

fn tag(alloc: Global, around: &Around, lab: Lab, at: u8) -> Result<Tree, AllocError>
    ensures { IfOk result (λ t. t ≡ tag around.now.names.now around.now.scope.now around.now.inst.now lab at) }
{
    match protocol_of(around, lab) {
        None => symbol(alloc, ""),
        Some(protocol) => match protocol.tags.get(at as usize) {
            Some(tag) => name(alloc, around.names, tag.sym),
            None => symbol(alloc, ""),
        },
    }
}

fn message_part(alloc: Global, around: &Around, msg: u32, part: Part) -> Result<Tree, AllocError>
    ensures { IfOk result (λ t. t ≡ message_part around.now.names.now around.now.scope.now around.now.inst.now part (name around.now.names.now around.now.scope.now around.now.inst.now msg)) }
{
    match part {
        Part::Id => done(with(begin(alloc, "id"), name(alloc, around.names, msg))),
        Part::From => done(with(begin(alloc, "from"), name(alloc, around.names, msg))),
        Part::To => done(with(begin(alloc, "to"), name(alloc, around.names, msg))),
        Part::Live => done(with(begin(alloc, "live"), name(alloc, around.names, msg))),
        Part::Arg(k) => done(with(
            with(begin(alloc, "arg"), name(alloc, around.names, msg)),
            Ok(number(k)),
        )),
    }
}

fn shown_term(alloc: Global, around: &Around, term: &Term) -> Result<Tree, AllocError>
    ensures { IfOk result (λ t. t ≡ shown_term around.now.names.now around.now.scope.now around.now.inst.now term.now) }
{
    match term {
        Term::Num(value) => Ok(Tree::Num {
            value: *value,
            place: NO_PLACE,
        }),
        Term::Word { sym, .. } => name(alloc, around.names, *sym),
        Term::Var(sym) => name(alloc, around.names, *sym),
        Term::Field {
            label: lab,
            field: at,
            node,
        } => {
            let node = shown_term(alloc, around, node.get());
            done(with(
                with(
                    with(begin(alloc, "get"), label(alloc, around, *lab)),
                    field(alloc, around, *lab, *at),
                ),
                node,
            ))
        }
        Term::Row {
            label: lab,
            field: at,
            node,
            index,
        } => {
            let node = shown_term(alloc, around, node.get());
            let index = shown_term(alloc, around, index.get());
            done(with(
                with(
                    with(
                        with(begin(alloc, "get"), label(alloc, around, *lab)),
                        field(alloc, around, *lab, *at),
                    ),
                    node,
                ),
                index,
            ))
        }
        Term::Len(lab) => done(with(begin(alloc, "len"), label(alloc, around, *lab))),
        Term::Msg { msg, part } => message_part(alloc, around, *msg, *part),
        Term::Add(a, b) => {
            let a = shown_term(alloc, around, a.get());
            let b = shown_term(alloc, around, b.get());
            done(with(with(begin(alloc, "+"), a), b))
        }
        Term::Sub(a, b) => {
            let a = shown_term(alloc, around, a.get());
            let b = shown_term(alloc, around, b.get());
            done(with(with(begin(alloc, "-"), a), b))
        }
        Term::Mul(a, b) => {
            let a = shown_term(alloc, around, a.get());
            let b = shown_term(alloc, around, b.get());
            done(with(with(begin(alloc, "*"), a), b))
        }
        Term::If(a, b, yes, no) => {
            let a = shown_term(alloc, around, a.get());
            let b = shown_term(alloc, around, b.get());
            let yes = shown_term(alloc, around, yes.get());
            let no = shown_term(alloc, around, no.get());
            done(with(with(with(with(begin(alloc, "if"), a), b), yes), no))
        }
    }
}

fn shown_formula(alloc: Global, around: &Around, formula: &Formula) -> Result<Tree, AllocError>
    ensures { IfOk result (λ t. t ≡ shown_formula around.now.names.now around.now.scope.now around.now.inst.now formula.now) }
{
    match formula {
        Formula::True => symbol(alloc, "true"),
        Formula::False => symbol(alloc, "false"),
        Formula::Eq(a, b) => {
            let a = shown_term(alloc, around, a);
            let b = shown_term(alloc, around, b);
            done(with(with(begin(alloc, "="), a), b))
        }
        Formula::Lt(a, b) => {
            let a = shown_term(alloc, around, a);
            let b = shown_term(alloc, around, b);
            done(with(with(begin(alloc, "<"), a), b))
        }
        Formula::Le(a, b) => {
            let a = shown_term(alloc, around, a);
            let b = shown_term(alloc, around, b);
            done(with(with(begin(alloc, "<="), a), b))
        }
        Formula::Not(body) => {
            let body = shown_formula(alloc, around, body.get());
            done(with(begin(alloc, "not"), body))
        }
        Formula::And(a, b) => {
            let a = shown_formula(alloc, around, a.get());
            let b = shown_formula(alloc, around, b.get());
            done(with(with(begin(alloc, "and"), a), b))
        }
        Formula::Or(a, b) => {
            let a = shown_formula(alloc, around, a.get());
            let b = shown_formula(alloc, around, b.get());
            done(with(with(begin(alloc, "or"), a), b))
        }
        Formula::Implies(a, b) => {
            let a = shown_formula(alloc, around, a.get());
            let b = shown_formula(alloc, around, b.get());
            done(with(with(begin(alloc, "implies"), a), b))
        }
        Formula::All { sym, body } => {
            let body = shown_formula(alloc, around, body.get());
            done(with(
                with(begin(alloc, "all"), name(alloc, around.names, *sym)),
                body,
            ))
        }
        Formula::Exists { sym, body } => {
            let body = shown_formula(alloc, around, body.get());
            done(with(
                with(begin(alloc, "some"), name(alloc, around.names, *sym)),
                body,
            ))
        }
        Formula::Each {
            msg,
            label: lab,
            tag: t,
            body,
        } => {
            let body = shown_formula(alloc, around, body.get());
            done(with(
                with(
                    with(
                        with(begin(alloc, "each"), name(alloc, around.names, *msg)),
                        label(alloc, around, *lab),
                    ),
                    tag(alloc, around, *lab, *t),
                ),
                body,
            ))
        }
        Formula::Any {
            msg,
            label: lab,
            tag: t,
            body,
        } => {
            let body = shown_formula(alloc, around, body.get());
            done(with(
                with(
                    with(
                        with(begin(alloc, "any"), name(alloc, around.names, *msg)),
                        label(alloc, around, *lab),
                    ),
                    tag(alloc, around, *lab, *t),
                ),
                body,
            ))
        }
    }
}

/// A scope with these labels and no other name.
fn of_labels(alloc: Global, own: Option<u8>, labels: &[u32]) -> Result<Scope, AllocError>
    ensures { IfOk result (λ scope. scope ≡ of_labels own labels.now) }
{
    Ok(Scope {
        vars: Items::new(alloc),
        messages: Items::new(alloc),
        words: Items::new(alloc),
        labels: Items::from_slice(alloc, labels)?,
        own,
        kind: Kind::Whole,
        declared: Items::new(alloc),
    })
}

/// The tree of a term, without places. `labels` are the names of the labels in the file's order, and `own` is
/// the protocol of the label `self`. A number that names nothing is shown as a symbol without text. Its only
/// error is want of memory.
pub fn show_term(
    alloc: Global,
    names: &Names,
    inst: &Instances,
    own: Option<u8>,
    labels: &[u32],
    term: &Term,
) -> Result<Tree, AllocError>
    ensures { IfOk result (λ t. t ≡ shown_term names.now (of_labels own labels.now) inst.now term.now) }
{
    let scope = of_labels(alloc, own, labels)?;
    shown_term(
        alloc,
        &Around {
            names,
            scope: &scope,
            inst,
        },
        term,
    )
}

/// The tree of a formula, without places. `labels` are the names of the labels in the file's order, and `own`
/// is the protocol of the label `self`. A number that names nothing is shown as a symbol without text. Its only
/// error is want of memory.
pub fn show_formula(
    alloc: Global,
    names: &Names,
    inst: &Instances,
    own: Option<u8>,
    labels: &[u32],
    formula: &Formula,
) -> Result<Tree, AllocError>
    ensures { IfOk result (λ t. t ≡ shown_formula names.now (of_labels own labels.now) inst.now formula.now) }
{
    let scope = of_labels(alloc, own, labels)?;
    shown_formula(
        alloc,
        &Around {
            names,
            scope: &scope,
            inst,
        },
        formula,
    )
}
