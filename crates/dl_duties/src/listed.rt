//! Which obligations procedures and the deployment have.

ghost use Rattle.std.specs.Prelude.{◌≡◌, ◌++◌, ◌+◌, ◌≤◌, IfOk, OnOk, length, map};
ghost use Rattle.std.specs.List.{flat_map};
ghost use Rattle.dl_model.specs.declared.file.Program.{Program};
ghost use Rattle.dl_model.specs.Formed.{FileIsSmall, InstancesAreFormed, all_points, points};
ghost use Rattle.dl_model.specs.Block.{block_of};
ghost use Rattle.dl_model.specs.Lookup.{proc_at, world_of};
ghost use Rattle.dl_term.specs.declared.syntax.Lab.TheVariants.{At};
ghost use Rattle.dl_sequent.specs.declared.duty.Duty.TheVariants.{Deploy};
ghost use Rattle.dl_inv.specs.Moves.{touch_of};
ghost use Rattle.dl_inv.specs.Duties.{if_touched, positions};
ghost use Rattle.dl_duties.specs.Moves.{kept_duty, steps_at};
ghost use Rattle.dl_triples.specs.Commands.{command_points, points_of_commands, duties_of_command, duties_of_commands};
ghost use Rattle.dl_triples.specs.Duties.{duties_of, duties_of_proc, duties_of_deployment, stability, frame_stability, steps_of_another, steps_of_others, duties_of_send, duties_of_await, duties_of_poll, duties_of_read, duties_of_loop, duties_of_call};

use dl_inv::{Move, extent_of, find_protocol, touches};
use dl_model::{Command, Decls, Proc, Program, Protocol, Tag};
use dl_sequent::Duty;
use dl_term::{Formula, Lab};
use sqlite_items::{Items, at};
use std::alloc::{AllocError, Global};

/// The obligations of the file's procedures and of its deployment that aren't waived, in their order: of each procedure
/// what its precondition gives, then those of its points with the steps of other nodes that touch what holds there, and
/// the steps that touch its postcondition; and then each deployed node. The conditions are that the file is within its
/// limits and its instances are formed. The one refusal is want of memory.
pub fn duties(alloc: Global, decls: &Decls) -> Result<Items<Duty>, AllocError>
    requires small { FileIsSmall decls.now }
    requires formed { InstancesAreFormed decls.now.inst }
    ensures { IfOk result (λ list. list ≡ duties_of decls.now) }
{
    let mut list = Items::new(alloc);
    add_of_procs(&mut list, decls)?;
    add_of_deployment(&mut list, decls)?;
    Ok(list)
}

fn add_of_deployment(list: &mut Items<Duty>, decls: &Decls) -> Result<(), AllocError>
    ensures { OnOk result (list.new ≡ list.old ++ duties_of_deployment decls.now) }
{
    let Some(deploy) = &decls.deploy else {
        return Ok(());
    };
    add_of_programs(list, deploy.programs.as_slice())
}

fn add_of_programs(list: &mut Items<Duty>, programs: &[Program]) -> Result<(), AllocError>
    ensures { OnOk result (list.new ≡ list.old ++ map (λ (program : Program). Deploy program.node) programs.now) }
{
    for program in programs {
        list.push(Duty::Deploy { node: program.node })?;
    }
    Ok(())
}

// ---- procedures

fn add_of_procs(list: &mut Items<Duty>, decls: &Decls) -> Result<(), AllocError>
    requires few { length decls.now.procs ≤ 256 }
    requires points { all_points decls.now.procs ≤ 1048576 }
    requires formed { InstancesAreFormed decls.now.inst }
    ensures { OnOk result (list.new ≡ list.old ++ flat_map (duties_of_proc decls.now) (positions decls.now.procs)) }
{
    for (number, proc) in decls.procs.as_slice().iter().enumerate() {
        add_of_proc(list, decls, number as u8, proc)?;
    }
    Ok(())
}

fn add_of_proc(
    list: &mut Items<Duty>,
    decls: &Decls,
    number: u8,
    proc: &Proc,
) -> Result<(), AllocError>
    requires here { proc_at decls.now.procs number ≡ proc.now }
    requires few { points (block_of proc.now.body) ≤ 1048576 }
    requires formed { InstancesAreFormed decls.now.inst }
    ensures { OnOk result (list.new ≡ list.old ++ duties_of_proc decls.now number) }
{
    list.push(Duty::Start { proc: number })?;
    add_of_commands(list, decls, number, 1, proc.body.as_slice())?;
    add_stability(list, decls, number, 0, &proc.post)
}

// The obligations of commands whose first point has this number. The result is the number of the next point.
#[cycle(commands)]
fn add_of_commands(
    list: &mut Items<Duty>,
    decls: &Decls,
    number: u8,
    first: u32,
    commands: &[Command],
) -> Result<u32, AllocError>
    requires few { first + points_of_commands commands.now ≤ 4294967295 }
    requires formed { InstancesAreFormed decls.now.inst }
    ensures added { OnOk result (list.new ≡ list.old ++ duties_of_commands decls.now number first commands.now) }
    ensures next { IfOk result (λ next. next ≡ first + points_of_commands commands.now) }
{
    let mut next = first;
    for command in commands {
        next = add_of_command(list, decls, number, next, command)?;
    }
    Ok(next)
}

#[cycle(commands)]
fn add_of_command(
    list: &mut Items<Duty>,
    decls: &Decls,
    number: u8,
    point: u32,
    command: &Command,
) -> Result<u32, AllocError>
    requires few { point + command_points command.now ≤ 4294967295 }
    requires formed { InstancesAreFormed decls.now.inst }
    ensures added { OnOk result (list.new ≡ list.old ++ duties_of_command decls.now number point command.now) }
    ensures next { IfOk result (λ next. next ≡ point + command_points command.now) }
{
    match command {
        Command::Send { note, .. } => {
            add_of_send(list, decls, number, point, note)?;
            Ok(point + 1)
        }
        Command::Await { note, .. } => {
            add_of_await(list, decls, number, point, note)?;
            Ok(point + 1)
        }
        Command::Poll { note, .. } => {
            add_of_poll(list, decls, number, point, note)?;
            Ok(point + 1)
        }
        Command::Read { note, .. } => {
            add_of_read(list, decls, number, point, note)?;
            Ok(point + 1)
        }
        Command::Set { .. } => Ok(point),
        Command::If { yes, no, .. } => {
            let next = add_of_commands(list, decls, number, point, yes.as_slice())?;
            add_of_commands(list, decls, number, next, no.as_slice())
        }
        Command::While { note, body, .. } => {
            add_of_loop(list, decls, number, point, note)?;
            add_of_commands(list, decls, number, point + 1, body.as_slice())
        }
        Command::Call { note, frame, .. } => {
            add_of_call(list, decls, number, point, note, frame)?;
            Ok(point + 1)
        }
    }
}

fn add_of_send(
    list: &mut Items<Duty>,
    decls: &Decls,
    proc: u8,
    point: u32,
    note: &Formula,
) -> Result<(), AllocError>
    requires { InstancesAreFormed decls.now.inst }
    ensures { OnOk result (list.new ≡ list.old ++ duties_of_send decls.now proc point note.now) }
{
    list.push(Duty::Guard { proc, point })?;
    list.push(Duty::AfterSend { proc, point })?;
    add_stability(list, decls, proc, point, note)
}

fn add_of_await(
    list: &mut Items<Duty>,
    decls: &Decls,
    proc: u8,
    point: u32,
    note: &Formula,
) -> Result<(), AllocError>
    requires { InstancesAreFormed decls.now.inst }
    ensures { OnOk result (list.new ≡ list.old ++ duties_of_await decls.now proc point note.now) }
{
    list.push(Duty::Got { proc, point })?;
    add_stability(list, decls, proc, point, note)
}

fn add_of_poll(
    list: &mut Items<Duty>,
    decls: &Decls,
    proc: u8,
    point: u32,
    note: &Formula,
) -> Result<(), AllocError>
    requires { InstancesAreFormed decls.now.inst }
    ensures { OnOk result (list.new ≡ list.old ++ duties_of_poll decls.now proc point note.now) }
{
    list.push(Duty::Got { proc, point })?;
    list.push(Duty::Miss { proc, point })?;
    add_stability(list, decls, proc, point, note)
}

fn add_of_read(
    list: &mut Items<Duty>,
    decls: &Decls,
    proc: u8,
    point: u32,
    note: &Formula,
) -> Result<(), AllocError>
    requires { InstancesAreFormed decls.now.inst }
    ensures { OnOk result (list.new ≡ list.old ++ duties_of_read decls.now proc point note.now) }
{
    list.push(Duty::AfterRead { proc, point })?;
    add_stability(list, decls, proc, point, note)
}

fn add_of_loop(
    list: &mut Items<Duty>,
    decls: &Decls,
    proc: u8,
    point: u32,
    note: &Formula,
) -> Result<(), AllocError>
    requires { InstancesAreFormed decls.now.inst }
    ensures { OnOk result (list.new ≡ list.old ++ duties_of_loop decls.now proc point note.now) }
{
    list.push(Duty::Body { proc, point })?;
    list.push(Duty::Exit { proc, point })?;
    add_stability(list, decls, proc, point, note)
}

fn add_of_call(
    list: &mut Items<Duty>,
    decls: &Decls,
    proc: u8,
    point: u32,
    note: &Formula,
    frame: &Formula,
) -> Result<(), AllocError>
    requires { InstancesAreFormed decls.now.inst }
    ensures { OnOk result (list.new ≡ list.old ++ duties_of_call decls.now proc point note.now frame.now) }
{
    list.push(Duty::Enter { proc, point })?;
    list.push(Duty::Leave { proc, point })?;
    add_stability(list, decls, proc, point, note)?;
    add_frame_stability(list, decls, proc, point, frame)
}

// ---- steps of other nodes

// What steps of other nodes are to keep.
#[derive(Clone, Copy)]
pub(crate) enum Kept {
    // The annotation of a point, or the postcondition for the point 0.
    Note { proc: u8, point: u32 },
    // What the call at a point holds on to.
    Frame { proc: u8, point: u32 },
}

impl Kept {
    // The obligation of a send, or of a receive, of a tag at a label.
    fn duty(self, label: u8, tag: u8, receive: bool) -> Duty
        ensures { result ≡ kept_duty self label tag receive }
    {
        match self {
            Kept::Note { proc, point } => Duty::Stable {
                proc,
                point,
                label,
                tag,
                receive,
            },
            Kept::Frame { proc, point } => Duty::Frame {
                proc,
                point,
                label,
                tag,
                receive,
            },
        }
    }
}

// The labels of a procedure's world.
fn labels_of(decls: &Decls, proc: u8) -> &[u8]
    ensures { result.now ≡ (world_of decls.now proc).labels }
{
    match at(decls.procs.as_slice(), usize::from(proc)) {
        Some(proc) => extent_of(decls, proc.world).labels,
        None => extent_of(decls, 0).labels,
    }
}

fn add_stability(
    list: &mut Items<Duty>,
    decls: &Decls,
    proc: u8,
    point: u32,
    note: &Formula,
) -> Result<(), AllocError>
    requires { InstancesAreFormed decls.now.inst }
    ensures { OnOk result (list.new ≡ list.old ++ stability decls.now proc point note.now) }
{
    let labels = labels_of(decls, proc);
    add_at_labels(list, decls, labels, Kept::Note { proc, point }, note)
}

fn add_frame_stability(
    list: &mut Items<Duty>,
    decls: &Decls,
    proc: u8,
    point: u32,
    frame: &Formula,
) -> Result<(), AllocError>
    requires { InstancesAreFormed decls.now.inst }
    ensures { OnOk result (list.new ≡ list.old ++ frame_stability decls.now proc point frame.now) }
{
    let labels = labels_of(decls, proc);
    add_at_labels(list, decls, labels, Kept::Frame { proc, point }, frame)
}

fn add_at_labels(
    list: &mut Items<Duty>,
    decls: &Decls,
    labels: &[u8],
    kept: Kept,
    formula: &Formula,
) -> Result<(), AllocError>
    requires { InstancesAreFormed decls.now.inst }
    ensures { OnOk result (list.new ≡ list.old ++ flat_map (steps_at decls.now (kept_duty kept) formula.now) labels.now) }
{
    for label in labels {
        add_at_label(list, decls, *label, kept, formula)?;
    }
    Ok(())
}

fn add_at_label(
    list: &mut Items<Duty>,
    decls: &Decls,
    label: u8,
    kept: Kept,
    formula: &Formula,
) -> Result<(), AllocError>
    requires { InstancesAreFormed decls.now.inst }
    ensures { OnOk result (list.new ≡ list.old ++ steps_at decls.now (kept_duty kept) formula.now label) }
{
    let Some(protocol) = find_protocol(&decls.inst, label) else {
        return Ok(());
    };
    add_of_tags(list, label, kept, formula, protocol)
}

// The steps of each tag of a protocol that touch the formula.
fn add_of_tags(
    list: &mut Items<Duty>,
    label: u8,
    kept: Kept,
    formula: &Formula,
    protocol: &Protocol,
) -> Result<(), AllocError>
    requires { length protocol.now.tags ≤ 16 }
    ensures { OnOk result (list.new ≡ list.old ++ steps_of_others (kept_duty kept label) (At label) formula.now protocol.now) }
{
    for (position, tag) in protocol.tags.as_slice().iter().enumerate() {
        add_of_tag(list, label, position as u8, kept, formula, tag)?;
    }
    Ok(())
}

// The send of a tag, and then its receive, where they touch the formula.
fn add_of_tag(
    list: &mut Items<Duty>,
    label: u8,
    tag: u8,
    kept: Kept,
    formula: &Formula,
    declared: &Tag,
) -> Result<(), AllocError>
    ensures { OnOk result (list.new ≡ list.old ++ steps_of_another (kept_duty kept label tag) (At label) tag formula.now declared.now) }
{
    let send = Move {
        label: Lab::At(label),
        tag,
        updates: declared.send.updates.as_slice(),
        grows: true,
        spares_me: true,
    };
    add_if_touched(list, kept.duty(label, tag, false), &send, formula)?;
    let Some(transition) = &declared.receive else {
        return Ok(());
    };
    let receive = Move {
        label: Lab::At(label),
        tag,
        updates: transition.updates.as_slice(),
        grows: false,
        spares_me: true,
    };
    add_if_touched(list, kept.duty(label, tag, true), &receive, formula)
}

// The obligation of a step, where it touches the formula.
fn add_if_touched(
    list: &mut Items<Duty>,
    duty: Duty,
    step: &Move,
    formula: &Formula,
) -> Result<(), AllocError>
    ensures { OnOk result (list.new ≡ list.old ++ if_touched (touch_of step.now) formula.now duty) }
{
    if touches(step, formula) {
        list.push(duty)?;
    }
    Ok(())
}
