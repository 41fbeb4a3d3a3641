//! The first fault of a file's procedures and of its deployment: of the labels that they name, of their calls, and of what
//! their worlds are injected into.

ghost use Rattle.std.specs.Prelude.{◌≡◌, ◌≤◌, ◌++◌, [], IfOk, length};
ghost use Rattle.std.specs.List.{flat_map, enumerate_from};
ghost use Rattle.dl_tree.specs.TreePlace.{place_of};
ghost use Rattle.dl_model.specs.Formed.{IsFormed};
ghost use Rattle.dl_model.specs.Lookup.{deploy_of, world_of as world_of_proc};
ghost use Rattle.dl_world.specs.Injected.{HooksAreDeclared, injection};
ghost use Rattle.dl_faults.specs.Wrong.{earliest};
ghost use Rattle.dl_faults.specs.Code.{command_wrong, commands_wrong};
ghost use Rattle.dl_faults.specs.Injections.{injection_wrong};
ghost use Rattle.dl_faults.specs.ProgramPlaces.{formula_in as formula_of, part_at as tree_part};
ghost use Rattle.dl_faults.specs.Programs.{formula_wrong, frame_wrong, named_wrong, said_wrong, call_wrong, proc_wrong_at, proc_wrong, program_wrong, program_wrongs};

use crate::injections::{composed, injection_fault, world_of};
use crate::places::{
    behind, behind_note, body_of, formula_in, part_at, proc_tree, program_place, tree_at,
};
use crate::spoken::{formula_fault, frame_fault};
use crate::worlds::has;
use crate::wrong::{Named, Wrong, earlier_of};
use dl_file::File;
use dl_model::{Command, Decls, Proc, Program, World};
use dl_term::Formula;
use dl_tree::Tree;
use sqlite_items::at;
use std::alloc::{AllocError, Global};

// ---- commands

// A label that a command names, which stands at this tree, is none of the world's.
fn named_fault(world: &World, tree: &Tree, label: u8) -> Option<Wrong>
    ensures { result ≡ earliest (named_wrong world.now tree.now label) }
{
    if has(world.labels.as_slice(), label) {
        return None;
    }
    Some(Wrong {
        rule: 20,
        place: tree.place(),
        what: Named::Nothing,
    })
}

// Of a command with an annotation, which names a label in the part with this number.
fn said_fault(
    alloc: Global,
    world: &World,
    tree: &Tree,
    note: &Formula,
    part: usize,
    label: u8,
) -> Result<Option<Wrong>, AllocError>
    ensures { IfOk result (λ found. found ≡ earliest (said_wrong world.now tree.now note.now part label)) }
{
    let at_note = part_at(tree, 1);
    let at_label = part_at(tree, part);
    let of_note = formula_fault(alloc, world, at_note, note)?;
    let of_label = named_fault(world, at_label, label);
    Ok(earlier_of(of_note, of_label))
}

// The world of the procedure with this number.
fn callee_world<'a>(decls: &'a Decls, none: &'a World, callee: u8) -> &'a World
    requires { none.now ≡ record { sym = 0; labels = []; hooks = [] } }
    ensures { result.now ≡ world_of_proc decls.now callee }
{
    match at(decls.procs.as_slice(), usize::from(callee)) {
        Some(proc) => world_of(decls, proc.world, none),
        None => world_of(decls, 0, none),
    }
}

// The annotation of a call, and what it holds on to, are about the world of the caller.
fn notes_fault(
    alloc: Global,
    world: &World,
    tree: &Tree,
    note: &Formula,
    frame: &Formula,
) -> Result<Option<Wrong>, AllocError>
    ensures { IfOk result (λ found. found ≡ earliest (formula_wrong world.now (tree_part tree.now 1) note.now ++ formula_wrong world.now (tree_part tree.now 2) frame.now)) }
{
    let at_note = part_at(tree, 1);
    let at_frame = part_at(tree, 2);
    let of_note = formula_fault(alloc, world, at_note, note)?;
    let of_frame = formula_fault(alloc, world, at_frame, frame)?;
    Ok(earlier_of(of_note, of_frame))
}

// What a call holds on to is apart from the world of the callee, which can be injected into that of the caller.
fn entry_fault(
    alloc: Global,
    decls: &Decls,
    world: &World,
    callee: &World,
    tree: &Tree,
    frame: &Formula,
) -> Result<Option<Wrong>, AllocError>
    requires few { length decls.now.hooks ≤ 256 }
    requires small { HooksAreDeclared decls.now callee.now }
    requires large { HooksAreDeclared decls.now world.now }
    ensures { IfOk result (λ found. found ≡ earliest (frame_wrong callee.now (tree_part tree.now 2) frame.now ++ injection_wrong (place_of tree.now) (injection decls.now callee.now world.now))) }
{
    let at_frame = part_at(tree, 2);
    let place = tree.place();
    let of_frame = frame_fault(alloc, callee, at_frame, frame)?;
    let injected = injection_fault(decls, place, callee, world);
    Ok(earlier_of(of_frame, injected))
}

// Of a call to a procedure of this world.
fn call_fault(
    alloc: Global,
    file: &File,
    world: &World,
    callee: &World,
    tree: &Tree,
    note: &Formula,
    frame: &Formula,
) -> Result<Option<Wrong>, AllocError>
    requires few { length file.now.decls.hooks ≤ 256 }
    requires small { HooksAreDeclared file.now.decls callee.now }
    requires large { HooksAreDeclared file.now.decls world.now }
    ensures { IfOk result (λ found. found ≡ earliest (call_wrong file.now world.now tree.now note.now frame.now callee.now)) }
{
    let of_notes = notes_fault(alloc, world, tree, note, frame)?;
    let of_entry = entry_fault(alloc, &file.decls, world, callee, tree, frame)?;
    Ok(earlier_of(of_notes, of_entry))
}

#[cycle(commands)]
fn commands_fault(
    alloc: Global,
    commands: &[Command],
    file: &File,
    none: &World,
    world: &World,
    whole: &Tree,
    trees: &[Tree],
) -> Result<Option<Wrong>, AllocError>
    requires formed { IsFormed file.now.decls }
    requires none { none.now ≡ record { sym = 0; labels = []; hooks = [] } }
    requires world { HooksAreDeclared file.now.decls world.now }
    ensures { IfOk result (λ found. found ≡ earliest (commands_wrong file.now world.now whole.now trees.now commands.now)) }
{
    let mut found = None;
    for (n, command) in commands.iter().enumerate() {
        let tree = tree_at(whole, trees, n);
        let one = command_fault(alloc, command, file, none, world, whole, tree)?;
        found = earlier_of(found, one);
    }
    Ok(found)
}

// Of a command, which stands at this tree, in a procedure of this world that stands at the whole.
#[cycle(commands)]
fn command_fault(
    alloc: Global,
    command: &Command,
    file: &File,
    none: &World,
    world: &World,
    whole: &Tree,
    tree: &Tree,
) -> Result<Option<Wrong>, AllocError>
    requires formed { IsFormed file.now.decls }
    requires none { none.now ≡ record { sym = 0; labels = []; hooks = [] } }
    requires world { HooksAreDeclared file.now.decls world.now }
    ensures { IfOk result (λ found. found ≡ earliest (command_wrong file.now world.now whole.now tree.now command.now)) }
{
    match command {
        Command::Send { note, label, .. } => said_fault(alloc, world, tree, note, 2, *label),
        Command::Await { note, label, .. } => said_fault(alloc, world, tree, note, 2, *label),
        Command::Poll { note, label, .. } => said_fault(alloc, world, tree, note, 3, *label),
        Command::Read { note, label, .. } => said_fault(alloc, world, tree, note, 3, *label),
        Command::Set { .. } => Ok(None),
        Command::If { yes, no, .. } => {
            let on_yes = behind(part_at(tree, 2));
            let on_no = behind(part_at(tree, 3));
            let first = commands_fault(alloc, yes.as_slice(), file, none, world, whole, on_yes)?;
            let second = commands_fault(alloc, no.as_slice(), file, none, world, whole, on_no)?;
            Ok(earlier_of(first, second))
        }
        Command::While { note, body, .. } => {
            let at_note = part_at(tree, 2);
            let inside = behind_note(tree);
            let of_note = formula_fault(alloc, world, at_note, note)?;
            let of_body = commands_fault(alloc, body.as_slice(), file, none, world, whole, inside)?;
            Ok(earlier_of(of_note, of_body))
        }
        Command::Call {
            note,
            frame,
            proc,
            ..
        } => {
            let callee = callee_world(&file.decls, none, *proc);
            call_fault(alloc, file, world, callee, tree, note, frame)
        }
    }
}

// ---- procedures

// Of the precondition and the postcondition of a procedure, which stands at this tree.
fn conditions_fault(
    alloc: Global,
    world: &World,
    tree: &Tree,
    proc: &Proc,
) -> Result<Option<Wrong>, AllocError>
    ensures { IfOk result (λ found. found ≡ earliest (formula_wrong world.now (formula_of tree.now 5) proc.now.pre ++ formula_wrong world.now (formula_of tree.now 6) proc.now.post)) }
{
    let at_pre = formula_in(tree, 5);
    let at_post = formula_in(tree, 6);
    let of_pre = formula_fault(alloc, world, at_pre, &proc.pre)?;
    let of_post = formula_fault(alloc, world, at_post, &proc.post)?;
    Ok(earlier_of(of_pre, of_post))
}

fn proc_fault_at(
    alloc: Global,
    file: &File,
    none: &World,
    world: &World,
    tree: &Tree,
    proc: &Proc,
) -> Result<Option<Wrong>, AllocError>
    requires formed { IsFormed file.now.decls }
    requires none { none.now ≡ record { sym = 0; labels = []; hooks = [] } }
    requires world { HooksAreDeclared file.now.decls world.now }
    ensures { IfOk result (λ found. found ≡ earliest (proc_wrong_at file.now world.now tree.now proc.now)) }
{
    let of_conditions = conditions_fault(alloc, world, tree, proc)?;
    let trees = body_of(tree);
    let of_body = commands_fault(alloc, proc.body.as_slice(), file, none, world, tree, trees)?;
    Ok(earlier_of(of_conditions, of_body))
}

fn proc_fault(
    alloc: Global,
    file: &File,
    none: &World,
    p: u8,
    proc: &Proc,
) -> Result<Option<Wrong>, AllocError>
    requires formed { IsFormed file.now.decls }
    requires none { none.now ≡ record { sym = 0; labels = []; hooks = [] } }
    ensures { IfOk result (λ found. found ≡ earliest (proc_wrong file.now (p, proc.now))) }
{
    let world = world_of(&file.decls, proc.world, none);
    let tree = proc_tree(&file.tree, p);
    proc_fault_at(alloc, file, none, world, tree, proc)
}

fn procs_fault(alloc: Global, file: &File, none: &World) -> Result<Option<Wrong>, AllocError>
    requires formed { IsFormed file.now.decls }
    requires few { length file.now.decls.procs ≤ 256 }
    requires none { none.now ≡ record { sym = 0; labels = []; hooks = [] } }
    ensures { IfOk result (λ found. found ≡ earliest (flat_map (proc_wrong file.now) (enumerate_from 0 file.now.decls.procs))) }
{
    let mut found = None;
    for (p, proc) in file.decls.procs.as_slice().iter().enumerate() {
        let one = proc_fault(alloc, file, none, p as u8, proc)?;
        found = earlier_of(found, one);
    }
    Ok(found)
}

// ---- the deployment

fn program_fault(file: &File, none: &World, n: usize, program: &Program) -> Option<Wrong>
    requires formed { IsFormed file.now.decls }
    requires none { none.now ≡ record { sym = 0; labels = []; hooks = [] } }
    ensures { result ≡ earliest (program_wrong file.now (n, program.now)) }
{
    let small = callee_world(&file.decls, none, program.proc);
    let large = composed(&file.decls, none);
    let place = program_place(&file.tree, n);
    injection_fault(&file.decls, place, small, large)
}

fn programs_of(decls: &Decls) -> &[Program]
    ensures { result.now ≡ (deploy_of decls.now).programs }
{
    match &decls.deploy {
        Some(deploy) => deploy.programs.as_slice(),
        None => &[],
    }
}

fn each_program_fault(file: &File, none: &World) -> Option<Wrong>
    requires formed { IsFormed file.now.decls }
    requires none { none.now ≡ record { sym = 0; labels = []; hooks = [] } }
    ensures { result ≡ earliest (flat_map (program_wrong file.now) (enumerate_from 0 (deploy_of file.now.decls).programs)) }
{
    let mut found = None;
    for (n, program) in programs_of(&file.decls).iter().enumerate() {
        found = earlier_of(found, program_fault(file, none, n, program));
    }
    found
}

/// The first fault of the procedures and of the deployment. `none` is a world without labels and hooks. Its only error is
/// want of memory.
pub(crate) fn programs_fault(
    alloc: Global,
    file: &File,
    none: &World,
) -> Result<Option<Wrong>, AllocError>
    requires formed { IsFormed file.now.decls }
    requires none { none.now ≡ record { sym = 0; labels = []; hooks = [] } }
    ensures { IfOk result (λ found. found ≡ earliest (program_wrongs file.now)) }
{
    let of_procs = procs_fault(alloc, file, none)?;
    let of_programs = each_program_fault(file, none);
    Ok(earlier_of(of_procs, of_programs))
}
