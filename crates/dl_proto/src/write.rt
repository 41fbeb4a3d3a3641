//! What an update writes.

ghost use Rattle.std.specs.Prelude.{◌≡◌, true, false, pos, MatchOption};
ghost use Rattle.dl_term.specs.Names.{names_of};
ghost use Rattle.dl_term.specs.Meaning.{value};
ghost use Rattle.dl_term.specs.Measures.{IsNarrow};
ghost use Rattle.dl_model.specs.Sorts.{in_sort as is_in_sort};
ghost use Rattle.dl_model.specs.Lookup.{protocol_at};
ghost use Rattle.dl_model.specs.Scopes.{IsIndex};
ghost use Rattle.dl_model.specs.Steps.{index_of, index_fits, update_fits};
ghost use Rattle.dl_proto.specs.Ready.{UpdateIsReady};
ghost use Rattle.dl_proto.specs.Writes.{IsWritten};

use crate::find::{in_sort, is_node, sort_of};
use dl_model::{Instances, Update};
use dl_state::WorldState;
use dl_term::{Env, Sort, Term, View, value};

// A number, and the index of the field where it is written.
#[derive(Clone, Copy)]
pub(crate) struct Write {
    pub(crate) index: u32,
    pub(crate) number: i64,
}

// What an update writes: nothing where its index is no node, or its value not in the field's sort.
#[inline(always)]
pub(crate) fn write_of(
    inst: &Instances,
    state: &WorldState,
    label: u8,
    update: &Update,
    env: &Env,
) -> Option<Write>
    requires { UpdateIsReady (protocol_at inst.now label) update.now }
    ensures { MatchOption result (update_fits inst.now label (names_of env.now) state.now.state update.now ≡ false) (λ write. IsWritten inst.now label (names_of env.now) state.now.state update.now write.index write.number) }
{
    let index = index_at(&update.index, env, state)?;
    let sort = sort_of(inst, label, update.field);
    let number = number_in(sort, value_of(&update.value, env, state))?;
    Some(Write { index, number })
}

// The index, where it is a node. It is 0 for a field that is no row.
#[inline(always)]
fn index_at(index: &Option<Term>, env: &Env, state: &WorldState) -> Option<u32>
    requires { IsIndex IsNarrow index.now }
    ensures { MatchOption result (index_fits index.now (names_of env.now) state.now.state ≡ false) (λ at. (index_fits index.now (names_of env.now) state.now.state ≡ true) × (index_of index.now (names_of env.now) state.now.state ≡ pos at)) }
{
    let Some(term) = index else {
        return Some(0);
    };
    let node = value(term, env, state);
    if is_node(state.nodes(), node) {
        Some(node as u32)
    } else {
        None
    }
}

// The value of a term. A number that is written as such is read here.
#[inline(always)]
#[tactic(auto, unfolding(dl_term::specs::Syntax::opened))]
fn value_of(term: &Term, env: &Env, state: &WorldState) -> i128
    requires { IsNarrow term.now }
    ensures { result ≡ value term.now (names_of env.now) state.now.state }
{
    match term {
        Term::Num(number) => i128::from(*number),
        _ => value(term, env, state),
    }
}

// The number, where it is in the sort.
#[inline(always)]
fn number_in(sort: Sort, number: i128) -> Option<i64>
    ensures { MatchOption result (is_in_sort sort number ≡ false) (λ new. (is_in_sort sort number ≡ true) × (number ≡ new)) }
{
    if in_sort(sort, number) {
        Some(number as i64)
    } else {
        None
    }
}
