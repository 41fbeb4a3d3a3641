//! Events.

ghost use Rattle.std.specs.Prelude.{◌≡◌, ◌<◌, ◌≤◌, ◌+◌, true, false, IsTrue, ◌↔◌};
ghost use Rattle.dl_model.specs.Formed.{IsFormed};
ghost use Rattle.dl_model.specs.Runs.{Event, step_of, state_after};
ghost use Rattle.dl_proto.specs.Shaped.{IsShaped};
ghost use Rattle.dl_history.specs.Given.{IsGiven};
ghost use Rattle.dl_history.specs.Meant.{meant};
ghost use Rattle.dl_history.specs.Replayed.{IsNoEvent};
ghost use Rattle.dl_history.specs.Taken.{IsDeclared, IsFreeTurn};

use crate::config::Config;
use crate::declared::is_declared;
use crate::free::is_free_call;
use crate::steps::make_step;
use dl_model::{Decls, Entry};
use dl_state::WorldState;

// Makes the event. False where the entry is none, and then the configuration is of no use any more.
pub(crate) fn make_event(decls: &Decls, config: &mut Config, entry: &Entry) -> bool
    requires formed { IsFormed decls.now }
    requires given { IsGiven decls.now config.old }
    requires room { 0 < config.old.state.spare }
    ensures room { config.old.state.spare ≤ config.new.state.spare + 1 }
    ensures given { result ≡ true → IsGiven decls.now config.new }
    ensures made { result ≡ true → Event decls.now (meant decls.now config.old) entry.now (meant decls.now config.new) }
    ensures refused { result ≡ false → IsNoEvent decls.now (meant decls.now config.old) entry.now }
{
    if !is_declared(decls, entry) {
        return false;
    }
    match config.machines.place(entry.node) {
        Some(place) => config
            .machines
            .take_turn(place, decls, &mut config.state, entry),
        None => take_free(decls, &mut config.state, entry),
    }
}

// Makes the step of a node without a program. False where it is none.
fn take_free(decls: &Decls, state: &mut WorldState, entry: &Entry) -> bool
    requires formed { IsFormed decls.now }
    requires declared { IsDeclared decls.now entry.now }
    requires shaped { IsShaped decls.now.inst state.old.state }
    requires room { 0 < state.old.spare }
    ensures shaped { IsShaped decls.now.inst state.new.state }
    ensures room { state.old.spare ≤ state.new.spare + 1 }
    ensures taken { result ≡ true → IsFreeTurn decls.now state.old.state entry.now }
    ensures state { result ≡ true → state.new.state ≡ state_after decls.now.inst state.old.state entry.now.node (step_of entry.now.call entry.now.reply) }
    ensures refused { result ≡ false → IsFreeTurn decls.now state.old.state entry.now → ⊥ }
{
    if !is_free_turn(decls, state, entry) {
        return false;
    }
    make_step(&decls.inst, state, entry.node, &entry.call, &entry.reply);
    true
}

// Whether the entry has no tick, and a call and a reply of a node without a program.
fn is_free_turn(decls: &Decls, state: &WorldState, entry: &Entry) -> bool
    requires { IsFormed decls.now }
    ensures { IsTrue result ↔ IsFreeTurn decls.now state.now.state entry.now }
{
    entry.ticks == 0 && is_free_call(decls, state, entry.node, &entry.call, &entry.reply)
}
