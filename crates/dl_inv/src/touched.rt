//! Which formulas a step touches.

ghost use Rattle.std.specs.Prelude.{◌≡◌};
ghost use Rattle.dl_model.specs.Sorts.{has};
ghost use Rattle.dl_model.specs.Scopes.{is_me as is_the_word_me};
ghost use Rattle.dl_inv.specs.Touched.{fields_of, is_touched, formula_touched, term_touched, field_touched as touches_field, is_over, part_touched};
ghost use Rattle.dl_inv.specs.Moves.{touch_of, live_of};

use dl_model::Update;
use dl_term::{Formula, Lab, Part, Term, same_label};

// The name of the node itself.
const ME: u32 = 4;

/// A send or a receive of a tag at a label, for the question which formulas it touches.
#[derive(Clone, Copy)]
pub struct Move<'a> {
    pub label: Lab,
    pub tag: u8,
    pub updates: &'a [Update],
    /// Whether it makes the soup grow, as a send does and a receive doesn't.
    pub grows: bool,
    /// Whether another node than `me` makes it.
    pub spares_me: bool,
}

// The messages that are bound around a place, from the innermost, each with whether the step may take it.
#[derive(Clone, Copy)]
pub(crate) enum Live<'a> {
    Nothing,
    Bound(&'a Live<'a>, u32, bool),
}

/// Whether the step touches the formula. One that it doesn't touch is true after the step exactly where it was true before.
/// It takes no memory.
pub fn touches(step: &Move, formula: &Formula) -> bool
    ensures { result ≡ is_touched (touch_of step.now) formula.now }
{
    formula_is_touched(formula, step, &Live::Nothing)
}

#[tactic(auto, unfolding(dl_term::specs::Syntax::opened))]
fn formula_is_touched(formula: &Formula, step: &Move, live: &Live) -> bool
    ensures { result ≡ formula_touched (touch_of step.now) (live_of live.now) formula.now }
{
    match formula {
        Formula::True | Formula::False => false,
        Formula::Eq(left, right) | Formula::Lt(left, right) | Formula::Le(left, right) => {
            term_is_touched(left, step, live) || term_is_touched(right, step, live)
        }
        Formula::Not(body) | Formula::All { body, .. } | Formula::Exists { body, .. } => {
            formula_is_touched(body.get(), step, live)
        }
        Formula::And(left, right) | Formula::Or(left, right) | Formula::Implies(left, right) => {
            formula_is_touched(left.get(), step, live)
                || formula_is_touched(right.get(), step, live)
        }
        Formula::Each {
            msg,
            label,
            tag,
            body,
        }
        | Formula::Any {
            msg,
            label,
            tag,
            body,
        } => {
            let over = step.is_over(*label, *tag);
            let inner = Live::Bound(live, *msg, !step.grows && over);
            (step.grows && over) || formula_is_touched(body.get(), step, &inner)
        }
    }
}

#[tactic(auto, unfolding(dl_term::specs::Syntax::opened))]
fn term_is_touched(term: &Term, step: &Move, live: &Live) -> bool
    ensures { result ≡ term_touched (touch_of step.now) (live_of live.now) term.now }
{
    match term {
        Term::Num(_) | Term::Word { .. } | Term::Var(_) => false,
        Term::Field { label, field, node } => {
            step.touches_field(*label, *field, node.get())
                || term_is_touched(node.get(), step, live)
        }
        Term::Row {
            label,
            field,
            node,
            index,
        } => {
            step.touches_field(*label, *field, node.get())
                || term_is_touched(node.get(), step, live)
                || term_is_touched(index.get(), step, live)
        }
        Term::Len(label) => step.grows && same_label(*label, step.label),
        Term::Msg { msg, part } => part_is_touched(*part, *msg, live),
        Term::Add(left, right) | Term::Sub(left, right) | Term::Mul(left, right) => {
            term_is_touched(left.get(), step, live) || term_is_touched(right.get(), step, live)
        }
        Term::If(left, right, yes, no) => {
            term_is_touched(left.get(), step, live)
                || term_is_touched(right.get(), step, live)
                || term_is_touched(yes.get(), step, live)
                || term_is_touched(no.get(), step, live)
        }
    }
}

// Whether the step touches this part of a message.
fn part_is_touched(part: Part, msg: u32, live: &Live) -> bool
    ensures { result ≡ part_touched part (live_of live.now msg) }
{
    match part {
        Part::Live => is_live(live, msg),
        _ => false,
    }
}

// Whether the step may take the message.
fn is_live(live: &Live, msg: u32) -> bool
    ensures { result ≡ live_of live.now msg }
{
    match live {
        Live::Nothing => false,
        Live::Bound(outer, bound, taken) => if *bound == msg {
            *taken
        } else {
            is_live(outer, msg)
        },
    }
}

impl<'a> Move<'a> {
    // Whether the step is one of this label and tag.
    fn is_over(&self, label: Lab, tag: u8) -> bool
        ensures { result ≡ is_over (touch_of self.now) label tag }
    {
        same_label(label, self.label) && tag == self.tag
    }

    // Whether it touches a read of this field or row of this node.
    fn touches_field(&self, label: Lab, field: u8, node: &Term) -> bool
        ensures { result ≡ touches_field (touch_of self.now) label field node.now }
    {
        same_label(label, self.label)
            && updates_field(self.updates, field)
            && !(self.spares_me && is_me(node))
    }
}

// Whether one of the updates is of this field.
fn updates_field(updates: &[Update], field: u8) -> bool
    ensures { result ≡ has (fields_of updates.now) field }
{
    updates
        .iter()
        .map(|update| update.field)
        .any(|updated| field == updated)
}

// Whether the term is the variable `me`.
fn is_me(term: &Term) -> bool
    ensures { result ≡ is_the_word_me term.now }
{
    match term {
        Term::Var(sym) => *sym == ME,
        _ => false,
    }
}
