//! The turn of a machine.

ghost use Rattle.std.specs.Prelude.{◌≡◌, ◌<◌, ◌≤◌, ◌+◌, true, false, Some, length, slice_get};
ghost use Rattle.std.specs.List.{AllByRecursion as Each};
ghost use Rattle.dl_model.specs.Formed.{IsFormed};
ghost use Rattle.dl_prog.specs.Places.{machine_of};
ghost use Rattle.dl_prog.specs.Ready.{IsReady};
ghost use Rattle.dl_proto.specs.Shaped.{IsShaped};
ghost use Rattle.dl_history.specs.Given.{ContIsGiven};
ghost use Rattle.dl_history.specs.Sends.{MachineIsGiven};
ghost use Rattle.dl_history.specs.Runners.{Runner};
ghost use Rattle.dl_history.specs.Taken.{IsTaken, IsRefused, IsDeclared, TookTurn};

use crate::config::Machines;
use crate::replies::is_reply;
use crate::steps::make_step;
use crate::ticks::{reaches, resume};
use dl_model::{Decls, Entry};
use dl_prog::Cont;
use dl_state::WorldState;

impl Machines {
    // Has the machine at a place take the entry's ticks, make its call and get its reply. False where it doesn't.
    pub(crate) fn take_turn(
        &mut self,
        place: usize,
        decls: &Decls,
        state: &mut WorldState,
        entry: &Entry,
    ) -> bool
        requires formed { IsFormed decls.now }
        requires declared { IsDeclared decls.now entry.now }
        requires place { place < length self.old }
        requires conts { Each (ContIsGiven decls.now) self.old }
        requires shaped { IsShaped decls.now.inst state.old.state }
        requires room { 0 < state.old.spare }
        ensures conts { result ≡ true → Each (ContIsGiven decls.now) self.new }
        ensures shaped { IsShaped decls.now.inst state.new.state }
        ensures room { state.old.spare ≤ state.new.spare + 1 }
        ensures taken { result ≡ true → TookTurn decls.now state.old.state entry.now state.new.state self.old place self.new }
        ensures refused { result ≡ false → (runner : Runner) → slice_get self.old place ≡ Some runner → IsRefused decls.now state.old.state entry.now (machine_of decls.now.procs runner.1) }
    {
        let runner = &mut self.items[place];
        take_turn(decls, state, &mut runner.1, entry)
    }
}

// Has the machine take the entry's ticks, make its call and get its reply. False where it doesn't.
fn take_turn(decls: &Decls, state: &mut WorldState, cont: &mut Cont, entry: &Entry) -> bool
    requires formed { IsFormed decls.now }
    requires declared { IsDeclared decls.now entry.now }
    requires ready { IsReady decls.now.procs cont.old }
    requires sends { MachineIsGiven decls.now (machine_of decls.now.procs cont.old) }
    requires shaped { IsShaped decls.now.inst state.old.state }
    requires room { 0 < state.old.spare }
    ensures ready { IsReady decls.now.procs cont.new }
    ensures sends { result ≡ true → MachineIsGiven decls.now (machine_of decls.now.procs cont.new) }
    ensures shaped { IsShaped decls.now.inst state.new.state }
    ensures room { state.old.spare ≤ state.new.spare + 1 }
    ensures taken { result ≡ true → IsTaken decls.now state.old.state entry.now state.new.state (machine_of decls.now.procs cont.old) (machine_of decls.now.procs cont.new) }
    ensures refused { result ≡ false → IsRefused decls.now state.old.state entry.now (machine_of decls.now.procs cont.old) }
{
    if !reaches(decls, cont, entry.ticks, &entry.call) {
        return false;
    }
    if !is_reply(&decls.inst, state, entry.node, &entry.call, &entry.reply) {
        return false;
    }
    make_step(&decls.inst, state, entry.node, &entry.call, &entry.reply);
    resume(decls, cont, &entry.reply);
    true
}
