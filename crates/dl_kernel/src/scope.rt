//! Names: which are known, and which are new.

ghost use Rattle.std.specs.Prelude.{◌≡◌, ◌||◌, ◌++◌, map};
ghost use Rattle.std.specs.List.{list_any, list_all};
ghost use Rattle.dl_term.specs.Measures.{is_free};
ghost use Rattle.dl_model.specs.Sorts.{has};
ghost use Rattle.dl_model.specs.Spoken.{bound_names};
ghost use Rattle.dl_model.specs.declared.sequent.Hypothesis.{Hypothesis};
ghost use Rattle.dl_sequent.specs.Clean.{knows, is_told_apart, is_unknown, mentions, are_distinct, is_clean as is_clean_sequent, is_new as is_new_name, var_names, message_names, fact_names};
ghost use Rattle.dl_kernel.specs.Seen.{names_in};

use crate::sequents::fact_named;
use dl_model::{Hypothesis, Sequent};
use dl_sequent::{message_of, sort_of};
use dl_term::{Formula, Sort, Term, free};

/// The names of variables, or of messages, that are known at a place.
#[derive(Clone, Copy)]
pub(crate) enum Known<'a> {
    Vars(&'a [(u32, Sort)]),
    Messages(&'a [(u32, u8, u8)]),
    One(&'a Known<'a>, u32),
}

fn is_variable(vars: &[(u32, Sort)], name: u32) -> bool
    ensures { result ≡ has (map (λ v. v.0) vars.now) name }
{
    sort_of(vars, name).is_some()
}

fn is_message(messages: &[(u32, u8, u8)], name: u32) -> bool
    ensures { result ≡ has (map (λ m. m.0) messages.now) name }
{
    message_of(messages, name).is_some()
}

/// Whether a hypothesis has the name.
pub(crate) fn is_fact(facts: &[Hypothesis], name: u32) -> bool
    ensures { result ≡ has (map (λ (h : Hypothesis). h.name) facts.now) name }
{
    fact_named(facts, name).is_some()
}

fn is_known(known: &Known, name: u32) -> bool
    ensures { result ≡ has (names_in known.now) name }
{
    match known {
        Known::Vars(vars) => is_variable(vars, name),
        Known::Messages(messages) => is_message(messages, name),
        Known::One(outer, one) => name == *one || is_known(outer, name),
    }
}

/// Whether each name in the term is known.
#[tactic(auto, unfolding(dl_term::specs::Syntax::opened))]
fn knows_term(vars: &Known, messages: &Known, term: &Term) -> bool
    ensures { result ≡ knows (names_in vars.now) (names_in messages.now) term.now }
{
    match term {
        Term::Num(_) | Term::Word { .. } | Term::Len(_) => true,
        Term::Var(name) => is_known(vars, *name),
        Term::Msg { msg, .. } => is_known(messages, *msg),
        Term::Field { node, .. } => knows_term(vars, messages, node.get()),
        Term::Row { node, index, .. } => knows_term(vars, messages, node.get())
            && knows_term(vars, messages, index.get()),
        Term::Add(left, right) | Term::Sub(left, right) | Term::Mul(left, right) => {
            knows_term(vars, messages, left.get()) && knows_term(vars, messages, right.get())
        }
        Term::If(left, right, yes, no) => {
            (knows_term(vars, messages, left.get()) && knows_term(vars, messages, right.get()))
                && (knows_term(vars, messages, yes.get()) && knows_term(vars, messages, no.get()))
        }
    }
}

fn is_not_known(vars: &Known, messages: &Known, name: u32) -> bool
    ensures { result ≡ is_unknown (names_in vars.now) (names_in messages.now) name }
{
    !is_known(vars, name) && !is_known(messages, name)
}

/// Whether each free name is known, and each quantifier binds a name that is not known around it.
#[tactic(auto, unfolding(dl_term::specs::Syntax::opened))]
fn tells_apart(vars: &Known, messages: &Known, formula: &Formula) -> bool
    ensures { result ≡ is_told_apart (names_in vars.now) (names_in messages.now) formula.now }
{
    match formula {
        Formula::True | Formula::False => true,
        Formula::Eq(left, right) | Formula::Lt(left, right) | Formula::Le(left, right) => {
            knows_term(vars, messages, left) && knows_term(vars, messages, right)
        }
        Formula::Not(body) => tells_apart(vars, messages, body.get()),
        Formula::And(left, right) | Formula::Or(left, right) | Formula::Implies(left, right) => {
            tells_apart(vars, messages, left.get()) && tells_apart(vars, messages, right.get())
        }
        Formula::All { sym, body } | Formula::Exists { sym, body } => {
            is_not_known(vars, messages, *sym)
                && tells_apart(&Known::One(&*vars, *sym), messages, body.get())
        }
        Formula::Each { msg, body, .. } | Formula::Any { msg, body, .. } => {
            is_not_known(vars, messages, *msg)
                && tells_apart(vars, &Known::One(&*messages, *msg), body.get())
        }
    }
}

/// Whether the formula tells its names apart among the names of the sequent.
pub(crate) fn is_fit(sequent: &Sequent, formula: &Formula) -> bool
    ensures { result ≡ is_told_apart (var_names sequent.now) (message_names sequent.now) formula.now }
{
    let vars = Known::Vars(sequent.vars.as_slice());
    let messages = Known::Messages(sequent.messages.as_slice());
    tells_apart(&vars, &messages, formula)
}

// Whether no name stands twice among the variables and the messages.
fn are_apart(vars: &[(u32, Sort)], messages: &[(u32, u8, u8)]) -> bool
    ensures { result ≡ are_distinct (map (λ v. v.0) vars.now ++ map (λ m. m.0) messages.now) }
{
    match vars.split_first() {
        Some((var, rest)) => {
            !is_variable(rest, var.0) && !is_message(messages, var.0) && are_apart(rest, messages)
        }
        None => has_message_names_once(messages),
    }
}

fn has_message_names_once(messages: &[(u32, u8, u8)]) -> bool
    ensures { result ≡ are_distinct (map (λ m. m.0) messages.now) }
{
    match messages.split_first() {
        Some((message, rest)) => !is_message(rest, message.0) && has_message_names_once(rest),
        None => true,
    }
}

fn has_fact_names_once(facts: &[Hypothesis]) -> bool
    ensures { result ≡ are_distinct (map (λ (h : Hypothesis). h.name) facts.now) }
{
    match facts.split_first() {
        Some((fact, rest)) => !is_fact(rest, fact.name) && has_fact_names_once(rest),
        None => true,
    }
}

fn all_fit(sequent: &Sequent) -> bool
    ensures { result ≡ list_all (λ (h : Hypothesis). is_told_apart (var_names sequent.now) (message_names sequent.now) h.formula) sequent.now.facts }
{
    sequent
        .facts
        .as_slice()
        .iter()
        .all(|fact| is_fit(sequent, &fact.formula))
}

/// Whether the sequent is clean: its variables and messages have names of their own, so do its hypotheses, and in each
/// formula every free name is one of them, and every quantifier binds a name that is not known around it.
pub fn is_clean(sequent: &Sequent) -> bool
    ensures { result ≡ is_clean_sequent sequent.now }
{
    are_apart(sequent.vars.as_slice(), sequent.messages.as_slice())
        && has_fact_names_once(sequent.facts.as_slice())
        && all_fit(sequent)
        && is_fit(sequent, &sequent.goal)
}

/// Whether each name in the term is one of the sequent.
pub(crate) fn is_of(sequent: &Sequent, term: &Term) -> bool
    ensures { result ≡ knows (var_names sequent.now) (message_names sequent.now) term.now }
{
    let vars = Known::Vars(sequent.vars.as_slice());
    let messages = Known::Messages(sequent.messages.as_slice());
    knows_term(&vars, &messages, term)
}

// Whether a quantifier of the formula binds the name.
#[tactic(auto, unfolding(dl_term::specs::Syntax::opened))]
fn binds(formula: &Formula, name: u32) -> bool
    ensures { result ≡ has (bound_names formula.now) name }
{
    match formula {
        Formula::True | Formula::False | Formula::Eq(..) | Formula::Lt(..) | Formula::Le(..) => {
            false
        }
        Formula::Not(body) => binds(body.get(), name),
        Formula::And(left, right) | Formula::Or(left, right) | Formula::Implies(left, right) => {
            binds(left.get(), name) || binds(right.get(), name)
        }
        Formula::All { sym, body } | Formula::Exists { sym, body } => {
            name == *sym || binds(body.get(), name)
        }
        Formula::Each { msg, body, .. } | Formula::Any { msg, body, .. } => {
            name == *msg || binds(body.get(), name)
        }
    }
}

fn is_mentioned(formula: &Formula, name: u32) -> bool
    ensures { result ≡ mentions formula.now name }
{
    free(formula, name) || binds(formula, name)
}

fn some_fact_mentions(facts: &[Hypothesis], name: u32) -> bool
    ensures { result ≡ list_any (λ (h : Hypothesis). mentions h.formula name) facts.now }
{
    facts.iter().any(|fact| is_mentioned(&fact.formula, name))
}

// Whether a hypothesis or the goal mentions the name.
fn is_said(sequent: &Sequent, name: u32) -> bool
    ensures { result ≡ (list_any (λ (h : Hypothesis). mentions h.formula name) sequent.now.facts || mentions sequent.now.goal name) }
{
    some_fact_mentions(sequent.facts.as_slice(), name) || is_mentioned(&sequent.goal, name)
}

/// Whether the name stands nowhere in the sequent, free or bound.
pub(crate) fn is_new(sequent: &Sequent, name: u32) -> bool
    ensures { result ≡ is_new_name sequent.now name }
{
    let vars = Known::Vars(sequent.vars.as_slice());
    let messages = Known::Messages(sequent.messages.as_slice());
    is_not_known(&vars, &messages, name) && !is_said(sequent, name)
}
