//! The configuration before the first event.

ghost use Rattle.std.specs.Prelude.{◌≡◌, ◌≤◌, IfOk};
ghost use Rattle.std.specs.List.{AllZip};
ghost use Rattle.dl_model.specs.Formed.{IsFormed, ProgramIsFormed};
ghost use Rattle.dl_model.specs.Lookup.{deploy_of};
ghost use Rattle.dl_model.specs.Runs.{initial, machine_of as first_machine};
ghost use Rattle.dl_model.specs.States.{first_state};
ghost use Rattle.dl_prog.specs.Places.{machine_of};
ghost use Rattle.dl_prog.specs.Ready.{IsReady};
ghost use Rattle.dl_state.specs.Shapes.{shape_state, EachIsFilled};
ghost use Rattle.dl_history.specs.Given.{IsGiven};
ghost use Rattle.dl_history.specs.Meant.{meant};
ghost use Rattle.dl_history.specs.Started.{IsStarted};

use crate::config::{Config, Machines};
use crate::declared::programs_of;
use dl_model::{Decls, Program};
use dl_prog::Cont;
use dl_state::{Shape, WorldState};
use std::alloc::{AllocError, Global};

// The first state with room for so many messages, and the machines at the beginning of their programs.
pub(crate) fn start(
    alloc: Global,
    decls: &Decls,
    shape: &Shape,
    room: u32,
) -> Result<Config, AllocError>
    requires formed { IsFormed decls.now }
    requires filled { EachIsFilled shape.now }
    requires shape { shape_state shape.now ≡ first_state decls.now.inst }
    ensures first { IfOk result (λ config. meant decls.now config ≡ initial decls.now) }
    ensures given { IfOk result (λ config. IsGiven decls.now config) }
    ensures room { IfOk result (λ config. room ≤ config.state.spare) }
{
    let state = make_state(alloc, shape, room)?;
    let machines = make_machines(alloc, decls)?;
    Ok(Config { state, machines })
}

fn make_state(alloc: Global, shape: &Shape, room: u32) -> Result<WorldState, AllocError>
    requires { EachIsFilled shape.now }
    ensures state { IfOk result (λ world. world.state ≡ shape_state shape.now) }
    ensures room { IfOk result (λ world. room ≤ world.spare) }
{
    let mut world = WorldState::init(alloc, shape)?;
    world.reserve(room)?;
    Ok(world)
}

fn make_machines(alloc: Global, decls: &Decls) -> Result<Machines, AllocError>
    requires { IsFormed decls.now }
    ensures { IfOk result (λ machines. AllZip (IsStarted decls.now) (deploy_of decls.now).programs machines) }
{
    let mut machines = Machines::new(alloc);
    for program in programs_of(decls) {
        let cont = make_machine(alloc, decls, program)?;
        machines.push(program.node, cont)?;
    }
    Ok(machines)
}

fn make_machine(alloc: Global, decls: &Decls, program: &Program) -> Result<Cont, AllocError>
    requires formed { IsFormed decls.now }
    requires program { ProgramIsFormed decls.now program.now }
    ensures ready { IfOk result (λ cont. IsReady decls.now.procs cont) }
    ensures machine { IfOk result (λ cont. machine_of decls.now.procs cont ≡ first_machine decls.now program.now.node program.now) }
{
    let procs = decls.procs.as_slice();
    let constants = program.constants.as_slice();
    Cont::make(alloc, procs, program.proc, program.node, constants)
}
