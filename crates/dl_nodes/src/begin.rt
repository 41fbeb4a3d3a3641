//! The serial run of a file.

ghost use Rattle.std.specs.Prelude.{◌≡◌, ◌≤◌, ◌<◌, ◌+◌, ◌*◌, ◌++◌, [], length, IfOk, OnOk};
ghost use Rattle.std.specs.List.{All};
ghost use Rattle.std.specs.Option.{option_copied};
ghost use Rattle.dl_model.specs.Formed.{IsFormed};
ghost use Rattle.dl_model.specs.Lookup.{program_in, program_of};
ghost use Rattle.dl_state.specs.Shapes.{shape_state};
ghost use Rattle.dl_soup.specs.Given.{ShapeIsGiven};
ghost use Rattle.dl_nodes.specs.Begun.{IsFirst, IsSerialRun, first_player, first_players};
ghost use Rattle.dl_nodes.specs.Players.{BareIsReady, players_of};

use crate::bare::Bare;
use crate::schedule::finish;
use dl_model::{Decls, Order, Program};
use dl_prog::Cont;
use dl_soup::Soup;
use dl_state::Shape;
use dl_world::shape;
use std::alloc::{AllocError, Global};

/// A run that is over: the soup, and the nodes with a program in the order of the node list, each with its end and its
/// units.
#[derive(Drop)]
pub struct Run {
    pub soup: Soup,
    pub nodes: Vec<Bare>,
}

/// Runs the programs of a file by the serial schedule, from the first state on, each within the budget. The one refusal is
/// want of memory: once the run has begun it takes none.
///
/// The conditions are that the declarations are formed, and a budget of at most 100,000.
pub fn run_serial(
    alloc: Global,
    decls: &Decls,
    budget: u32,
    order: Order,
) -> Result<Run, AllocError>
    requires formed { IsFormed decls.now }
    requires budget { budget ≤ 100000 }
    ensures { IfOk result (IsSerialRun decls.now budget order) }
{
    let nodes = begin_nodes(alloc, decls)?;
    let room = room_for(nodes.len(), budget);
    match begin_soup(alloc, decls, order, room) {
        Ok(soup) => Ok(play_out(decls, budget, soup, nodes)),
        Err(fault) => {
            drop(nodes);
            Err(fault)
        }
    }
}

// The units of that many nodes.
fn room_for(count: usize, budget: u32) -> u32
    requires count { count ≤ 16 }
    requires budget { budget ≤ 100000 }
    ensures { result ≡ count * budget }
{
    count as u32 * budget
}

// Runs the nodes from their beginning to their ends.
fn play_out(decls: &Decls, budget: u32, soup: Soup, nodes: Vec<Bare>) -> Run
    requires formed { IsFormed decls.now }
    requires first { IsFirst decls.now soup.order soup }
    requires room { length nodes.items * budget ≤ soup.spare }
    requires players { players_of decls.now.procs nodes.items ≡ first_players decls.now }
    requires ready { All (BareIsReady decls.now.procs decls.now.inst 0) nodes.items }
    ensures { IsSerialRun decls.now budget soup.order result }
{
    let mut soup = soup;
    let mut nodes = nodes;
    finish(
        &mut soup,
        decls.procs.as_slice(),
        budget,
        nodes.as_mut_slice(),
    );
    Run { soup, nodes }
}

// A soup in the first state of the file.
fn begin_soup(alloc: Global, decls: &Decls, order: Order, room: u32) -> Result<Soup, AllocError>
    requires { IsFormed decls.now }
    ensures first { IfOk result (IsFirst decls.now order) }
    ensures room { IfOk result (λ soup. soup.spare ≡ room) }
{
    let shape = shape(alloc, decls)?;
    let soup = shaped_soup(alloc, decls, &shape, order, room);
    drop(shape);
    soup
}

// A soup of the file's instances in the shape's state.
fn shaped_soup(
    alloc: Global,
    decls: &Decls,
    shape: &Shape,
    order: Order,
    room: u32,
) -> Result<Soup, AllocError>
    requires formed { IsFormed decls.now }
    requires shape { ShapeIsGiven decls.now.inst shape.now }
    ensures { IfOk result (λ soup. soup ≡ record { inst = decls.now.inst; shape = shape.now; order = order; state = shape_state shape.now; history = []; spare = room }) }
{
    let inst = decls.inst.copy(alloc)?;
    Soup::make(alloc, inst, shape, order, room)
}

// The nodes with a program, at its beginning.
fn begin_nodes(alloc: Global, decls: &Decls) -> Result<Vec<Bare>, AllocError>
    requires { IsFormed decls.now }
    ensures players { IfOk result (λ nodes. players_of decls.now.procs nodes.items ≡ first_players decls.now) }
    ensures ready { IfOk result (λ nodes. All (BareIsReady decls.now.procs decls.now.inst 0) nodes.items) }
    ensures few { IfOk result (λ nodes. length nodes.items ≤ decls.now.inst.nodes) }
{
    let mut nodes = Vec::new(alloc);
    for node in 0..decls.inst.nodes {
        begin_node(alloc, decls, node, &mut nodes)?;
    }
    Ok(nodes)
}

// Adds a node, if it has a program.
fn begin_node(
    alloc: Global,
    decls: &Decls,
    node: u32,
    nodes: &mut Vec<Bare>,
) -> Result<(), AllocError>
    requires formed { IsFormed decls.now }
    requires node { node < decls.now.inst.nodes }
    requires ready { All (BareIsReady decls.now.procs decls.now.inst 0) nodes.old.items }
    ensures players { OnOk result (players_of decls.now.procs nodes.new.items ≡ players_of decls.now.procs nodes.old.items ++ first_player decls.now node (program_of decls.now node)) }
    ensures ready { All (BareIsReady decls.now.procs decls.now.inst 0) nodes.new.items }
    ensures few { length nodes.new.items ≤ length nodes.old.items + 1 }
{
    let Some(program) = program_of(decls, node) else {
        return Ok(());
    };
    let cont = Cont::make(
        alloc,
        decls.procs.as_slice(),
        program.proc,
        node,
        program.constants.as_slice(),
    )?;
    nodes.push(Bare {
        node,
        cont,
        ticks: 0,
        units: 0,
        end: None,
    })?;
    Ok(())
}

// What the node runs.
fn program_of(decls: &Decls, node: u32) -> Option<&Program>
    ensures { option_copied result ≡ program_of decls.now node }
{
    match &decls.deploy {
        Some(deploy) => program_in(deploy.programs.as_slice(), node),
        None => None,
    }
}

fn program_in(programs: &[Program], node: u32) -> Option<&Program>
    ensures { option_copied result ≡ program_in programs.now node }
{
    let [program, programs @ ..] = programs else {
        return None;
    };
    if node == program.node {
        Some(program)
    } else {
        program_in(programs, node)
    }
}
