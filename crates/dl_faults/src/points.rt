//! The places of the points of a procedure, by the tree of a file.

ghost use Rattle.std.specs.Prelude.{◌≡◌, ◌++◌, nat_lt, drop, map, flat_map, IfOk, OnOk};
ghost use Rattle.dl_tree.specs.TreePlace.{place_of};
ghost use Rattle.dl_faults.specs.ProgramPlaces.{is_side as is_a_side, is_plain_point as is_a_plain_point, point_lists, deployed_place as place_of_deployed, before_node as programs_before};
ghost use Rattle.dl_faults.specs.Code.{is_point as is_a_point, own_point, parts_before, points_unless};
ghost use Rattle.dl_faults.specs.Spots.{spot_in, spots_of};

use crate::places::{begins_with, body_of, part_at, proc_tree, program_place};
use dl_model::{Decls, Program};
use dl_tree::{Place, Tree};
use sqlite_items::Items;
use std::alloc::{AllocError, Global};

/// Where a procedure, its postcondition and its points stand.
#[derive(Drop)]
pub struct Spots {
    pub proc: Place,
    pub post: Place,
    /// The points, from the first on.
    pub points: Items<Place>,
}

// ---- points

fn is_side(tree: &Tree) -> bool
    ensures { result ≡ is_a_side tree.now }
{
    begins_with(tree, "then") || begins_with(tree, "else")
}

fn is_plain_point(tree: &Tree) -> bool
    ensures { result ≡ is_a_plain_point tree.now }
{
    let sends = begins_with(tree, "send") || begins_with(tree, "await");
    let reads = begins_with(tree, "read") || begins_with(tree, "call");
    sends || (begins_with(tree, "poll") || reads)
}

/// Whether the tree is a point itself.
fn is_point(tree: &Tree) -> bool
    ensures { result ≡ is_a_point tree.now }
{
    if begins_with(tree, "if") || is_side(tree) {
        return false;
    }
    begins_with(tree, "while") || is_plain_point(tree)
}

/// How many parts of a list of this length stand before its commands or sides: all of them where it has none.
fn before_commands(tree: &Tree, count: usize) -> usize
    ensures { result ≡ parts_before tree.now count }
{
    if begins_with(tree, "if") {
        return 2;
    }
    if is_side(tree) {
        return 1;
    }
    if begins_with(tree, "while") {
        return 3;
    }
    count
}

/// Adds the place of a tree that is a point.
fn add_own(tree: &Tree, places: &mut Items<Place>) -> Result<(), AllocError>
    ensures { OnOk result (places.new ≡ places.old ++ map place_of (own_point tree.now)) }
{
    if is_point(tree) {
        places.push(tree.place())?;
    }
    Ok(())
}

/// Adds the places of the points of a command, or of a side of a choice.
#[cycle(points)]
fn add_points(tree: &Tree, alloc: Global, places: &mut Items<Place>) -> Result<(), AllocError>
    ensures { OnOk result (places.new ≡ places.old ++ map place_of (point_lists tree.now)) }
{
    add_own(tree, places)?;
    match tree {
        Tree::List { items, .. } => {
            let first = before_commands(tree, items.len());
            add_behind(first, items.as_slice(), alloc, places)?;
            Ok(())
        }
        Tree::Num { .. } => Ok(()),
        Tree::Sym { .. } => Ok(()),
    }
}

fn stands_before(n: usize, first: usize) -> bool
    ensures { result ≡ nat_lt n first }
{
    n < first
}

/// Adds the places of the points of the parts from this number on.
#[cycle(points)]
fn add_behind(
    first: usize,
    parts: &[Tree],
    alloc: Global,
    places: &mut Items<Place>,
) -> Result<(), AllocError>
    ensures { OnOk result (places.new ≡ places.old ++ map place_of (flat_map point_lists (drop first parts.now))) }
{
    for (n, part) in parts.iter().enumerate() {
        add_unless(stands_before(n, first), part, alloc, places)?;
    }
    Ok(())
}

#[cycle(points)]
fn add_unless(
    skipped: bool,
    part: &Tree,
    alloc: Global,
    places: &mut Items<Place>,
) -> Result<(), AllocError>
    ensures { OnOk result (places.new ≡ places.old ++ map place_of (points_unless skipped part.now)) }
{
    if skipped {
        return Ok(());
    }
    add_points(part, alloc, places)
}

/// Where the parts of the procedure with this number stand. A number that no procedure has stands for the whole file. Its
/// only error is want of memory.
#[tactic(auto, using(crate::proofs::Pointed::points_flat))]
pub fn proc_spots(alloc: Global, file: &Tree, proc: u8) -> Result<Spots, AllocError>
    ensures { IfOk result (λ spots. spots ≡ spots_of file.now proc) }
{
    let tree = proc_tree(file, proc);
    let mut points = Items::new(alloc);
    add_behind(0, body_of(tree), alloc, &mut points)?;
    Ok(Spots {
        proc: tree.place(),
        post: part_at(tree, 6).place(),
        points,
    })
}

/// The place of the point with this number, or of the postcondition for the point 0. A number that no point has stands for
/// the procedure.
pub fn spot_at(spots: &Spots, point: u32) -> Place
    ensures { result ≡ spot_in spots.now point }
{
    if point == 0 {
        return spots.post;
    }
    match spots.points.get(point as usize - 1) {
        Some(place) => *place,
        None => spots.proc,
    }
}

// ---- the deployment

// How many programs stand before that of the node.
fn before_node(programs: &[Program], node: u32) -> usize
    ensures { result ≡ programs_before programs.now node }
{
    for (before, program) in programs.iter().enumerate() {
        if program.node == node {
            return before;
        }
    }
    programs.len()
}

/// The place of the program of the node, or of the deployment where it has none.
pub fn deployed_place(file: &Tree, decls: &Decls, node: u32) -> Place
    ensures { result ≡ place_of_deployed file.now decls.now node }
{
    match &decls.deploy {
        Some(deploy) => program_place(file, before_node(deploy.programs.as_slice(), node)),
        None => program_place(file, 0),
    }
}
