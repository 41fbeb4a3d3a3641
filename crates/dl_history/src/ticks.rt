//! Ticks, calls and replies of a machine.

ghost use Rattle.std.specs.Prelude.{◌≡◌, true, false};
ghost use Rattle.dl_model.specs.Formed.{IsFormed};
ghost use Rattle.dl_model.specs.Machine.{Machine, Ticked, Ticks, Asks, next, after_reply};
ghost use Rattle.dl_prog.specs.Moves.{answer_of, moved};
ghost use Rattle.dl_prog.specs.Places.{machine_of};
ghost use Rattle.dl_prog.specs.Ready.{IsReady};
ghost use Rattle.dl_history.specs.Taken.{Reaches};

use crate::same::same_call;
use dl_model::{Call, Decls, Reply};
use dl_prog::{At, Cont};

// Makes so many ticks. True where the machine is at the call then, and it stays there.
pub(crate) fn reaches(decls: &Decls, cont: &mut Cont, ticks: u32, call: &Call) -> bool
    requires formed { IsFormed decls.now }
    requires ready { IsReady decls.now.procs cont.old }
    ensures ready { IsReady decls.now.procs cont.new }
    ensures reached { result ≡ true → Reaches decls.now.procs ticks call.now (machine_of decls.now.procs cont.old) (machine_of decls.now.procs cont.new) }
    ensures refused { result ≡ false → (asking : Machine) → Reaches decls.now.procs ticks call.now (machine_of decls.now.procs cont.old) asking → ⊥ }
{
    if !makes_ticks(decls, cont, ticks) {
        return false;
    }
    asks(decls, cont, call)
}

// Makes so many ticks, as far as the machine has them. True where it has.
fn makes_ticks(decls: &Decls, cont: &mut Cont, ticks: u32) -> bool
    requires formed { IsFormed decls.now }
    requires ready { IsReady decls.now.procs cont.old }
    ensures ready { IsReady decls.now.procs cont.new }
    ensures made { result ≡ true → Ticked decls.now.procs ticks (machine_of decls.now.procs cont.old) (machine_of decls.now.procs cont.new) }
    ensures refused { result ≡ false → (after : Machine) → Ticked decls.now.procs ticks (machine_of decls.now.procs cont.old) after → ⊥ }
{
    for _made in 0..ticks {
        if !makes_tick(decls, cont) {
            return false;
        }
    }
    true
}

// Makes the next tick, where that is what is next.
fn makes_tick(decls: &Decls, cont: &mut Cont) -> bool
    requires formed { IsFormed decls.now }
    requires ready { IsReady decls.now.procs cont.old }
    ensures ready { IsReady decls.now.procs cont.new }
    ensures made { result ≡ true → next decls.now.procs (machine_of decls.now.procs cont.old) ≡ Ticks (machine_of decls.now.procs cont.new) }
    ensures refused { result ≡ false → (after : Machine) → next decls.now.procs (machine_of decls.now.procs cont.old) ≡ Ticks after → ⊥ }
{
    match advance(decls, cont) {
        At::Tick => true,
        At::Call(_) => false,
        At::Ended(_) => false,
        At::Stopped => false,
    }
}

// Whether the call is what is next. The machine stays there then.
fn asks(decls: &Decls, cont: &mut Cont, call: &Call) -> bool
    requires formed { IsFormed decls.now }
    requires ready { IsReady decls.now.procs cont.old }
    ensures ready { IsReady decls.now.procs cont.new }
    ensures asks { result ≡ true → next decls.now.procs (machine_of decls.now.procs cont.old) ≡ Asks call.now }
    ensures stays { result ≡ true → machine_of decls.now.procs cont.new ≡ machine_of decls.now.procs cont.old }
    ensures refused { result ≡ false → next decls.now.procs (machine_of decls.now.procs cont.old) ≡ Asks call.now → ⊥ }
{
    match advance(decls, cont) {
        At::Tick => false,
        At::Call(asked) => same_call(&asked, call),
        At::Ended(_) => false,
        At::Stopped => false,
    }
}

// Makes the next tick of the machine, or says what it is at.
fn advance(decls: &Decls, cont: &mut Cont) -> At
    requires formed { IsFormed decls.now }
    requires ready { IsReady decls.now.procs cont.old }
    ensures ready { IsReady decls.now.procs cont.new }
    ensures answer { result ≡ answer_of (next decls.now.procs (machine_of decls.now.procs cont.old)) }
    ensures moves { machine_of decls.now.procs cont.new ≡ moved (machine_of decls.now.procs cont.old) (next decls.now.procs (machine_of decls.now.procs cont.old)) }
{
    cont.advance(decls.procs.as_slice())
}

// Gives the machine the reply to the call that it is at.
pub(crate) fn resume(decls: &Decls, cont: &mut Cont, reply: &Reply)
    requires formed { IsFormed decls.now }
    requires ready { IsReady decls.now.procs cont.old }
    ensures ready { IsReady decls.now.procs cont.new }
    ensures moves { machine_of decls.now.procs cont.new ≡ after_reply (machine_of decls.now.procs cont.old) reply.now }
{
    cont.resume(decls.procs.as_slice(), reply);
}
