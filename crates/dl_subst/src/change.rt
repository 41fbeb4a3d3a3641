//! The five changes, and the names that are bound around a place.

ghost use Rattle.std.specs.Prelude.{◌≡◌, ◌==◌, pos, unwrap_or};
ghost use Rattle.std.specs.List.{list_any};
ghost use Rattle.std.specs.Option.{option_copied};
ghost use Rattle.dl_term.specs.declared.syntax.Term.{Num, Var};
ghost use Rattle.dl_subst.specs.Code.{change_of, variables_of, messages_of, new_of};
ghost use Rattle.dl_subst.specs.Substitution.{new_part, put_for_variables, term_for};

use crate::message::NewMessage;
use dl_term::{Lab, Part, Term, message_in, same_term, variable_in};

/// What is put where.
#[derive(Clone, Copy)]
pub(crate) enum Change<'a> {
    /// A term for a variable.
    ForVariable(u32, &'a Term),
    /// Terms for the parts of a message.
    ForMessage(u32, &'a NewMessage),
    /// A term, the second, for another one.
    ForTerm(&'a Term, &'a Term),
    /// A label for `self`.
    ForOwn(u8),
    /// Terms for several variables, all at once, and a label for `self`.
    ForVariables(&'a [u32], &'a [Term], Lab),
}

/// What comes in a term's place.
#[derive(Clone, Copy)]
pub(crate) enum Place<'a> {
    /// The term stays, and its parts are looked at.
    Kept,
    New(&'a Term),
    /// The number 0, for an argument that a message lacks.
    Zero,
}

/// The names that quantifiers bind around a place, from the innermost.
#[derive(Clone, Copy)]
pub(crate) enum Around<'a> {
    Nothing,
    Variable(&'a Around<'a>, u32),
    Message(&'a Around<'a>, u32),
}

/// What the change puts in this term's place.
#[tactic(auto, unfolding(dl_term::specs::Syntax::opened))]
pub(crate) fn put_at<'a>(change: &Change<'a>, term: &Term) -> Place<'a>
    ensures { new_of result ≡ (change_of change.now).put term.now }
{
    match change {
        Change::ForVariable(sym, new) => match term {
            Term::Var(name) => if *name == *sym {
                Place::New(*new)
            } else {
                Place::Kept
            },
            _ => Place::Kept,
        },
        Change::ForMessage(msg, new) => match term {
            Term::Msg { msg: name, part } => {
                if *name == *msg {
                    part_of(*new, *part)
                } else {
                    Place::Kept
                }
            }
            _ => Place::Kept,
        },
        Change::ForTerm(old, new) => {
            if same_term(term, *old) {
                Place::New(*new)
            } else {
                Place::Kept
            }
        }
        Change::ForOwn(_) => Place::Kept,
        Change::ForVariables(syms, terms, _) => match term {
            Term::Var(sym) => place_for(*syms, *terms, *sym),
            _ => Place::Kept,
        },
    }
}

// What comes in the place of a variable, where each of these has its term.
fn place_for<'a>(syms: &[u32], terms: &'a [Term], sym: u32) -> Place<'a>
    ensures { new_of result ≡ put_for_variables syms.now terms.now (Var sym) }
{
    if !is_among(syms, sym) {
        return Place::Kept;
    }
    match last_for(syms, terms, sym, None) {
        Some(term) => Place::New(term),
        None => Place::Zero,
    }
}

fn is_among(syms: &[u32], sym: u32) -> bool
    ensures { result ≡ list_any (λ y. sym == y) syms.now }
{
    syms.iter().any(|other| sym == *other)
}

// The last term for the variable, or else the one that was found.
fn last_for<'a>(
    syms: &[u32],
    terms: &'a [Term],
    sym: u32,
    found: Option<&'a Term>,
) -> Option<&'a Term>
    ensures { unwrap_or (option_copied result) (Num (pos 0)) ≡ term_for (unwrap_or (option_copied found.entry) (Num (pos 0))) syms.now terms.now sym }
{
    let Some((other, syms)) = syms.split_first() else {
        return found;
    };
    let Some((term, terms)) = terms.split_first() else {
        return found;
    };
    let found = if sym == *other { Some(term) } else { found };
    last_for(syms, terms, sym, found)
}

fn part_of<'a>(new: &'a NewMessage, part: Part) -> Place<'a>
    ensures { new_of result ≡ Some (new_part new.now part) }
{
    match part {
        Part::Id => Place::New(&new.id),
        Part::From => Place::New(&new.from),
        Part::To => Place::New(&new.to),
        Part::Live => Place::New(&new.live),
        Part::Arg(at) => match new.args.get(usize::from(at)) {
            Some(term) => Place::New(term),
            None => Place::Zero,
        },
    }
}

/// The label that the change writes for this one.
pub(crate) fn label(change: &Change, label: Lab) -> Lab
    ensures { result ≡ (change_of change.now).label label }
{
    match (change, label) {
        (Change::ForOwn(own), Lab::Own) => Lab::At(*own),
        (Change::ForVariables(_, _, own), Lab::Own) => *own,
        _ => label,
    }
}

/// Whether nothing is changed below a quantifier over nodes that binds this name.
pub(crate) fn stops_at_variable(change: &Change, sym: u32) -> bool
    ensures { result ≡ (change_of change.now).stops_at_variable sym }
{
    match change {
        Change::ForVariable(name, _) => sym == *name,
        Change::ForTerm(old, _) => variable_in(*old, sym),
        Change::ForMessage(_, _) | Change::ForOwn(_) | Change::ForVariables(_, _, _) => false,
    }
}

/// Whether nothing is changed below a quantifier over messages that binds this name.
pub(crate) fn stops_at_message(change: &Change, msg: u32) -> bool
    ensures { result ≡ (change_of change.now).stops_at_message msg }
{
    match change {
        Change::ForMessage(name, _) => msg == *name,
        Change::ForTerm(old, _) => message_in(*old, msg),
        Change::ForVariable(_, _) | Change::ForOwn(_) | Change::ForVariables(_, _, _) => false,
    }
}

/// Whether a quantifier around binds this variable.
pub(crate) fn binds_variable(around: &Around, sym: u32) -> bool
    ensures { result ≡ variables_of around.now sym }
{
    match around {
        Around::Nothing => false,
        Around::Variable(outer, name) => sym == *name || binds_variable(outer, sym),
        Around::Message(outer, _) => binds_variable(outer, sym),
    }
}

/// Whether a quantifier around binds this message.
pub(crate) fn binds_message(around: &Around, msg: u32) -> bool
    ensures { result ≡ messages_of around.now msg }
{
    match around {
        Around::Nothing => false,
        Around::Variable(outer, _) => binds_message(outer, msg),
        Around::Message(outer, name) => msg == *name || binds_message(outer, msg),
    }
}
