//! The formula at the first state.

ghost use Rattle.std.specs.Prelude.{◌≡◌, ℕ, pos, ◌≤◌, ◌<◌, ◌+◌, ◌-◌, ◌^◌, Some, None, unwrap_or, IfOk};
ghost use Rattle.std.specs.Option.{option_copied};
ghost use Rattle.dl_term.specs.declared.syntax.Term.{Num, If};
ghost use Rattle.dl_term.specs.Measures.{parts, formula_parts};
ghost use Rattle.dl_wp.specs.Steps.{spoken_of};
ghost use Rattle.dl_wp.specs.First.{first_of as declared_first, first_at as value_at, is_node_term as stands_for_node, chain, at_node, value_first, read_first as read_of, term_first as term_of, at_first};

use crate::faults::Stop;
use crate::plan::{ME, Sight, spoken_of};
use crate::room::{less, less_term};
use crate::sight::seen;
use dl_model::Instances;
use dl_term::{Formula, Lab, Term, copy_term};
use sqlite_items::Boxed;
use std::alloc::Global;

/// The declared first value of a field, or None where there is no such field, which reads 0.
fn first_of<'a>(inst: &'a Instances, own: Option<u8>, label: Lab, field: u8) -> Option<&'a Term>
    ensures { unwrap_or (option_copied result) (Num (pos 0)) ≡ declared_first (spoken_of inst.now own label) field }
{
    let Some(protocol) = spoken_of(inst, own, label) else {
        return None;
    };
    match protocol.fields.get(usize::from(field)) {
        Some(declared) => Some(&declared.first),
        None => None,
    }
}

#[tactic(auto, unfolding(dl_term::specs::Syntax::opened))]
fn is_node_term(nodes: u32, term: &Term) -> bool
    ensures { result ≡ stands_for_node nodes term.now }
{
    match term {
        Term::Num(value) | Term::Word { value, .. } => match u32::try_from(*value) {
            Ok(node) => node < nodes,
            Err(_) => false,
        },
        Term::Var(_) => true,
        _ => false,
    }
}

// The first value at a node, and what is left of the room.
fn first_at(alloc: Global, first: &Term, node: &Term, room: u64) -> Result<(Term, u64), Stop>
    requires { room < 2 ^ 64 - 1 }
    ensures made { IfOk result (λ r. r.0 ≡ value_at first.now node.now) }
    ensures left { IfOk result (λ r. r.1 + parts (value_at first.now node.now) ≡ room) }
    ensures lacks { (result ≡ Err Stop.Room) → room < parts (value_at first.now node.now) }
{
    let sight = Sight {
        label: Lab::Own,
        node: &*node,
        word: ME,
        other: &*node,
        params: &[],
        args: &[],
    };
    let made = seen(alloc, &sight, first)?;
    let room = less_term(room, &made)?;
    Ok((made, room))
}

// One link of a chain: a choice by whether the term is the node.
#[tactic(auto, unfolding(dl_term::specs::Syntax::opened))]
fn link(
    alloc: Global,
    term: &Term,
    node: u32,
    value: Term,
    rest: Term,
    room: u64,
) -> Result<(Term, u64), Stop>
    requires { room < 2 ^ 64 - 1 }
    ensures made { IfOk result (λ r. r.0 ≡ If term.now (Num (pos node)) value rest) }
    ensures left { IfOk result (λ r. r.1 + (2 + parts term.now) ≡ room) }
    ensures lacks { (result ≡ Err Stop.Room) → room < 2 + parts term.now }
{
    let room = less_term(room, term)?;
    let room = less(room, 2)?;
    let made = Term::If(
        Boxed::new(alloc, copy_term(alloc, term)?)?,
        Boxed::new(alloc, Term::Num(i64::from(node)))?,
        Boxed::new(alloc, value)?,
        Boxed::new(alloc, rest)?,
    );
    Ok((made, room))
}

// The first value where the index is one of `count` nodes from `from` on.
#[tactic(auto, using(crate::proofs::Chains::chain_next, crate::proofs::Chains::chain_parts), unfolding(dl_term::specs::Syntax::opened))]
fn index_chain(
    alloc: Global,
    first: &Term,
    node: &Term,
    index: &Term,
    from: u32,
    count: u32,
    room: u64,
) -> Result<(Term, u64), Stop>
    requires room { room < 2 ^ 64 - 1 }
    requires nodes { from + count < 2 ^ 32 }
    ensures made { IfOk result (λ r. r.0 ≡ chain index.now (λ i. value_at first.now node.now) from count) }
    ensures left { IfOk result (λ r. r.1 + parts (chain index.now (λ i. value_at first.now node.now) from count) ≡ room) }
    ensures lacks { (result ≡ Err Stop.Room) → room < parts (chain index.now (λ i. value_at first.now node.now) from count) }
{
    if count == 0 {
        return Ok((Term::Num(0), less(room, 1)?));
    }
    let (value, room) = first_at(alloc, first, node, room)?;
    let (rest, room) = index_chain(alloc, first, node, index, from + 1, count - 1, room)?;
    link(alloc, index, from, value, rest, room)
}

// The first value at a node, for each index.
fn index_first(
    alloc: Global,
    nodes: u32,
    first: &Term,
    node: &Term,
    index: Option<&Term>,
    room: u64,
) -> Result<(Term, u64), Stop>
    requires { room < 2 ^ 64 - 1 }
    ensures made { IfOk result (λ r. r.0 ≡ value_first nodes first.now (option_copied index.entry) node.now) }
    ensures left { IfOk result (λ r. r.1 + parts (value_first nodes first.now (option_copied index.entry) node.now) ≡ room) }
    ensures lacks { (result ≡ Err Stop.Room) → room < parts (value_first nodes first.now (option_copied index.entry) node.now) }
{
    match index {
        Some(index) => {
            if is_node_term(nodes, index) {
                first_at(alloc, first, node, room)
            } else {
                index_chain(alloc, first, node, index, 0, nodes, room)
            }
        }
        None => first_at(alloc, first, node, room),
    }
}

// The first value where the node is one of `count` nodes from `from` on.
#[tactic(auto, using(crate::proofs::Chains::chain_next, crate::proofs::Chains::chain_parts), unfolding(dl_term::specs::Syntax::opened))]
fn node_chain(
    alloc: Global,
    nodes: u32,
    first: &Term,
    node: &Term,
    index: Option<&Term>,
    from: u32,
    count: u32,
    room: u64,
) -> Result<(Term, u64), Stop>
    requires room { room < 2 ^ 64 - 1 }
    requires nodes { from + count < 2 ^ 32 }
    ensures made { IfOk result (λ r. r.0 ≡ chain node.now (λ n. value_first nodes first.now (option_copied index.entry) (Num (pos n))) from count) }
    ensures left { IfOk result (λ r. r.1 + parts (chain node.now (λ n. value_first nodes first.now (option_copied index.entry) (Num (pos n))) from count) ≡ room) }
    ensures lacks { (result ≡ Err Stop.Room) → room < parts (chain node.now (λ n. value_first nodes first.now (option_copied index.entry) (Num (pos n))) from count) }
{
    if count == 0 {
        return Ok((Term::Num(0), less(room, 1)?));
    }
    let number = Term::Num(i64::from(from));
    let (value, room) = index_first(alloc, nodes, first, &number, index, room)?;
    let (rest, room) = node_chain(alloc, nodes, first, node, index, from + 1, count - 1, room)?;
    link(alloc, node, from, value, rest, room)
}

// The first value at the term of a node and the term of an index.
fn value_at_terms(
    alloc: Global,
    nodes: u32,
    first: &Term,
    node: &Term,
    index: Option<&Term>,
    room: u64,
) -> Result<(Term, u64), Stop>
    requires { room < 2 ^ 64 - 1 }
    ensures made { IfOk result (λ r. r.0 ≡ read_of nodes first.now (option_copied index.entry) node.now) }
    ensures left { IfOk result (λ r. r.1 + parts (read_of nodes first.now (option_copied index.entry) node.now) ≡ room) }
    ensures lacks { (result ≡ Err Stop.Room) → room < parts (read_of nodes first.now (option_copied index.entry) node.now) }
{
    if is_node_term(nodes, node) {
        index_first(alloc, nodes, first, node, index, room)
    } else {
        node_chain(alloc, nodes, first, node, index, 0, nodes, room)
    }
}

// The first value that a read has, by the terms of its node and its index.
fn read_first(
    alloc: Global,
    inst: &Instances,
    own: Option<u8>,
    label: Lab,
    field: u8,
    node: &Term,
    index: Option<&Term>,
    room: u64,
) -> Result<(Term, u64), Stop>
    requires { room < 2 ^ 64 - 1 }
    ensures made { IfOk result (λ r. r.0 ≡ read_of inst.now.nodes (declared_first (spoken_of inst.now own label) field) (option_copied index.entry) node.now) }
    ensures left { IfOk result (λ r. r.1 + parts (read_of inst.now.nodes (declared_first (spoken_of inst.now own label) field) (option_copied index.entry) node.now) ≡ room) }
    ensures lacks { (result ≡ Err Stop.Room) → room < parts (read_of inst.now.nodes (declared_first (spoken_of inst.now own label) field) (option_copied index.entry) node.now) }
{
    match first_of(inst, own, label, field) {
        Some(first) => value_at_terms(alloc, inst.nodes, first, node, index, room),
        None => value_at_terms(alloc, inst.nodes, &Term::Num(0), node, index, room),
    }
}

// The term at the first state, and what is left of the room.
#[cycle(term_first)]
#[tactic(auto, unfolding(dl_term::specs::Syntax::opened))]
fn term_first(
    alloc: Global,
    inst: &Instances,
    own: Option<u8>,
    term: &Term,
    room: u64,
) -> Result<(Term, u64), Stop>
    requires room { room < 2 ^ 64 - 1 }
    requires some_node { 1 ≤ inst.now.nodes }
    ensures made { IfOk result (λ r. r.0 ≡ term_of inst.now own term.now) }
    ensures left { IfOk result (λ r. r.1 + parts (term_of inst.now own term.now) ≡ room) }
    ensures lacks { (result ≡ Err Stop.Room) → room < parts (term_of inst.now own term.now) }
{
    match term {
        Term::Num(value) => Ok((Term::Num(*value), less(room, 1)?)),
        Term::Word { sym, value } => {
            let room = less(room, 1)?;
            Ok((
                Term::Word {
                    sym: *sym,
                    value: *value,
                },
                room,
            ))
        }
        Term::Var(sym) => Ok((Term::Var(*sym), less(room, 1)?)),
        Term::Field { label, field, node } => {
            field_first(alloc, inst, own, *label, *field, node.get(), room)
        }
        Term::Row {
            label,
            field,
            node,
            index,
        } => row_first(
            alloc,
            inst,
            own,
            *label,
            *field,
            node.get(),
            index.get(),
            room,
        ),
        Term::Len(_) => Ok((Term::Num(0), less(room, 1)?)),
        Term::Msg { msg, part } => {
            let room = less(room, 1)?;
            Ok((
                Term::Msg {
                    msg: *msg,
                    part: *part,
                },
                room,
            ))
        }
        Term::Add(left, right) => {
            let (left, right, room) = two_first(alloc, inst, own, left, right, room)?;
            Ok((Term::Add(left, right), room))
        }
        Term::Sub(left, right) => {
            let (left, right, room) = two_first(alloc, inst, own, left, right, room)?;
            Ok((Term::Sub(left, right), room))
        }
        Term::Mul(left, right) => {
            let (left, right, room) = two_first(alloc, inst, own, left, right, room)?;
            Ok((Term::Mul(left, right), room))
        }
        Term::If(left, right, yes, no) => {
            let (left, right, room) = two_first(alloc, inst, own, left, right, room)?;
            let (yes, room) = boxed_first(alloc, inst, own, yes, room)?;
            let (no, room) = boxed_first(alloc, inst, own, no, room)?;
            Ok((Term::If(left, right, yes, no), room))
        }
    }
}

#[cycle(term_first)]
fn boxed_first(
    alloc: Global,
    inst: &Instances,
    own: Option<u8>,
    term: &Boxed<Term>,
    room: u64,
) -> Result<(Boxed<Term>, u64), Stop>
    requires room { room < 2 ^ 64 - 1 }
    requires some_node { 1 ≤ inst.now.nodes }
    ensures made { IfOk result (λ r. r.0 ≡ term_of inst.now own term.now) }
    ensures left { IfOk result (λ r. r.1 + parts (term_of inst.now own term.now) ≡ room) }
    ensures lacks { (result ≡ Err Stop.Room) → room < parts (term_of inst.now own term.now) }
{
    let (made, room) = term_first(alloc, inst, own, term.get(), room)?;
    Ok((Boxed::new(alloc, made)?, room))
}

// Two parts of a term, and what is left of the room after them and the term.
#[cycle(term_first)]
fn two_first(
    alloc: Global,
    inst: &Instances,
    own: Option<u8>,
    left: &Boxed<Term>,
    right: &Boxed<Term>,
    room: u64,
) -> Result<(Boxed<Term>, Boxed<Term>, u64), Stop>
    requires room { room < 2 ^ 64 - 1 }
    requires some_node { 1 ≤ inst.now.nodes }
    ensures left { IfOk result (λ r. r.0 ≡ term_of inst.now own left.now) }
    ensures right { IfOk result (λ r. r.1 ≡ term_of inst.now own right.now) }
    ensures rest { IfOk result (λ r. r.2 + (1 + (parts (term_of inst.now own left.now) + parts (term_of inst.now own right.now))) ≡ room) }
    ensures lacks { (result ≡ Err Stop.Room) → room < 1 + (parts (term_of inst.now own left.now) + parts (term_of inst.now own right.now)) }
{
    let room = less(room, 1)?;
    let (left, room) = boxed_first(alloc, inst, own, left, room)?;
    let (right, room) = boxed_first(alloc, inst, own, right, room)?;
    Ok((left, right, room))
}

// A term of more than one part is no node term, so it stands in the chain.
#[cycle(term_first)]
#[tactic(auto, using(crate::proofs::Sizes::node_stays))]
fn field_first(
    alloc: Global,
    inst: &Instances,
    own: Option<u8>,
    label: Lab,
    field: u8,
    node: &Term,
    room: u64,
) -> Result<(Term, u64), Stop>
    requires room { room < 2 ^ 64 - 1 }
    requires some_node { 1 ≤ inst.now.nodes }
    ensures made { IfOk result (λ r. r.0 ≡ read_of inst.now.nodes (declared_first (spoken_of inst.now own label) field) None (term_of inst.now own node.now)) }
    ensures left { IfOk result (λ r. r.1 + parts (read_of inst.now.nodes (declared_first (spoken_of inst.now own label) field) None (term_of inst.now own node.now)) ≡ room) }
    ensures lacks { (result ≡ Err Stop.Room) → room < parts (read_of inst.now.nodes (declared_first (spoken_of inst.now own label) field) None (term_of inst.now own node.now)) }
{
    let (node, _) = term_first(alloc, inst, own, node, room.max(1))?;
    read_first(alloc, inst, own, label, field, &node, None, room)
}

#[cycle(term_first)]
#[tactic(auto, using(crate::proofs::Sizes::node_stays, crate::proofs::Sizes::index_stays))]
fn row_first(
    alloc: Global,
    inst: &Instances,
    own: Option<u8>,
    label: Lab,
    field: u8,
    node: &Term,
    index: &Term,
    room: u64,
) -> Result<(Term, u64), Stop>
    requires room { room < 2 ^ 64 - 1 }
    requires some_node { 1 ≤ inst.now.nodes }
    ensures made { IfOk result (λ r. r.0 ≡ read_of inst.now.nodes (declared_first (spoken_of inst.now own label) field) (Some (term_of inst.now own index.now)) (term_of inst.now own node.now)) }
    ensures left { IfOk result (λ r. r.1 + parts (read_of inst.now.nodes (declared_first (spoken_of inst.now own label) field) (Some (term_of inst.now own index.now)) (term_of inst.now own node.now)) ≡ room) }
    ensures lacks { (result ≡ Err Stop.Room) → room < parts (read_of inst.now.nodes (declared_first (spoken_of inst.now own label) field) (Some (term_of inst.now own index.now)) (term_of inst.now own node.now)) }
{
    let (node, _) = term_first(alloc, inst, own, node, room.max(1))?;
    let (index, _) = term_first(alloc, inst, own, index, room.max(1))?;
    read_first(alloc, inst, own, label, field, &node, Some(&index), room)
}

/// The formula at the first state, and what is left of the room.
#[cycle(formula_first)]
#[tactic(auto, unfolding(dl_term::specs::Syntax::opened))]
pub(crate) fn formula_first(
    alloc: Global,
    inst: &Instances,
    own: Option<u8>,
    formula: &Formula,
    room: u64,
) -> Result<(Formula, u64), Stop>
    requires room { room ≤ 1000000 }
    requires some_node { 1 ≤ inst.now.nodes }
    ensures made { IfOk result (λ r. r.0 ≡ at_first inst.now own formula.now) }
    ensures left { IfOk result (λ r. r.1 + formula_parts (at_first inst.now own formula.now) ≡ room) }
    ensures lacks { (result ≡ Err Stop.Room) → room < formula_parts (at_first inst.now own formula.now) }
{
    match formula {
        Formula::True => Ok((Formula::True, less(room, 1)?)),
        Formula::False => Ok((Formula::False, less(room, 1)?)),
        Formula::Eq(left, right) => {
            let (left, right, room) = terms_first(alloc, inst, own, left, right, room)?;
            Ok((Formula::Eq(left, right), room))
        }
        Formula::Lt(left, right) => {
            let (left, right, room) = terms_first(alloc, inst, own, left, right, room)?;
            Ok((Formula::Lt(left, right), room))
        }
        Formula::Le(left, right) => {
            let (left, right, room) = terms_first(alloc, inst, own, left, right, room)?;
            Ok((Formula::Le(left, right), room))
        }
        Formula::Not(body) => {
            let room = less(room, 1)?;
            let (body, room) = body_first(alloc, inst, own, body, room)?;
            Ok((Formula::Not(body), room))
        }
        Formula::And(left, right) => {
            let (left, right, room) = bodies_first(alloc, inst, own, left, right, room)?;
            Ok((Formula::And(left, right), room))
        }
        Formula::Or(left, right) => {
            let (left, right, room) = bodies_first(alloc, inst, own, left, right, room)?;
            Ok((Formula::Or(left, right), room))
        }
        Formula::Implies(left, right) => {
            let (left, right, room) = bodies_first(alloc, inst, own, left, right, room)?;
            Ok((Formula::Implies(left, right), room))
        }
        Formula::All { sym, body } => {
            let room = less(room, 1)?;
            let (body, room) = body_first(alloc, inst, own, body, room)?;
            Ok((Formula::All { sym: *sym, body }, room))
        }
        Formula::Exists { sym, body } => {
            let room = less(room, 1)?;
            let (body, room) = body_first(alloc, inst, own, body, room)?;
            Ok((Formula::Exists { sym: *sym, body }, room))
        }
        Formula::Each { .. } => Ok((Formula::True, less(room, 1)?)),
        Formula::Any { .. } => Ok((Formula::False, less(room, 1)?)),
    }
}

#[cycle(formula_first)]
fn body_first(
    alloc: Global,
    inst: &Instances,
    own: Option<u8>,
    body: &Boxed<Formula>,
    room: u64,
) -> Result<(Boxed<Formula>, u64), Stop>
    requires room { room ≤ 1000000 }
    requires some_node { 1 ≤ inst.now.nodes }
    ensures made { IfOk result (λ r. r.0 ≡ at_first inst.now own body.now) }
    ensures left { IfOk result (λ r. r.1 + formula_parts (at_first inst.now own body.now) ≡ room) }
    ensures lacks { (result ≡ Err Stop.Room) → room < formula_parts (at_first inst.now own body.now) }
{
    let (made, room) = formula_first(alloc, inst, own, body.get(), room)?;
    Ok((Boxed::new(alloc, made)?, room))
}

// Two parts of a formula, and what is left of the room after them and the formula.
#[cycle(formula_first)]
fn bodies_first(
    alloc: Global,
    inst: &Instances,
    own: Option<u8>,
    left: &Boxed<Formula>,
    right: &Boxed<Formula>,
    room: u64,
) -> Result<(Boxed<Formula>, Boxed<Formula>, u64), Stop>
    requires room { room ≤ 1000000 }
    requires some_node { 1 ≤ inst.now.nodes }
    ensures left { IfOk result (λ r. r.0 ≡ at_first inst.now own left.now) }
    ensures right { IfOk result (λ r. r.1 ≡ at_first inst.now own right.now) }
    ensures rest { IfOk result (λ r. r.2 + (1 + (formula_parts (at_first inst.now own left.now) + formula_parts (at_first inst.now own right.now))) ≡ room) }
    ensures lacks { (result ≡ Err Stop.Room) → room < 1 + (formula_parts (at_first inst.now own left.now) + formula_parts (at_first inst.now own right.now)) }
{
    let room = less(room, 1)?;
    let (left, room) = body_first(alloc, inst, own, left, room)?;
    let (right, room) = body_first(alloc, inst, own, right, room)?;
    Ok((left, right, room))
}

// The two terms of a comparison, and what is left of the room after them and the comparison.
fn terms_first(
    alloc: Global,
    inst: &Instances,
    own: Option<u8>,
    left: &Term,
    right: &Term,
    room: u64,
) -> Result<(Term, Term, u64), Stop>
    requires room { room ≤ 1000000 }
    requires some_node { 1 ≤ inst.now.nodes }
    ensures left { IfOk result (λ r. r.0 ≡ term_of inst.now own left.now) }
    ensures right { IfOk result (λ r. r.1 ≡ term_of inst.now own right.now) }
    ensures rest { IfOk result (λ r. r.2 + (1 + (parts (term_of inst.now own left.now) + parts (term_of inst.now own right.now))) ≡ room) }
    ensures lacks { (result ≡ Err Stop.Room) → room < 1 + (parts (term_of inst.now own left.now) + parts (term_of inst.now own right.now)) }
{
    let room = less(room, 1)?;
    let (left, room) = term_first(alloc, inst, own, left, room)?;
    let (right, room) = term_first(alloc, inst, own, right, room)?;
    Ok((left, right, room))
}
