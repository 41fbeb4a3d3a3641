//! The names that quantifiers bind, as a set.

ghost use Rattle.std.specs.Prelude.{◌≡◌, [], IfOk, OnOk};
ghost use Rattle.std.specs.List.{flat_map};
ghost use Rattle.dl_model.specs.Formed.{transition_bound, tag_bound, coherence_bound};
ghost use Rattle.dl_model.specs.Spoken.{bound_names};
ghost use Rattle.dl_formed_file.specs.Bound.{with_name, with_names, protocol_bound, hook_bound, invariant_bound, command_bound, proc_bound, bound_anywhere};

use dl_model::{Command, Decls, Hook, Invariant, Proc, Protocol, Tag, Transition};
use dl_term::Formula;
use indexmap::IndexSet;
use std::alloc::{AllocError, Global};

/// The names that quantifiers bind, each once. The one refusal is want of memory.
pub(crate) fn bound_names(alloc: Global, decls: &Decls) -> Result<IndexSet<u32>, AllocError>
    ensures { IfOk result (λ set. set.keys ≡ with_names [] (bound_anywhere decls.now)) }
{
    let mut set = IndexSet::new(alloc);
    add_decls(&mut set, decls)?;
    Ok(set)
}

#[tactic(auto, using(crate::proofs::BoundLemmas::names_added))]
fn add_decls(set: &mut IndexSet<u32>, decls: &Decls) -> Result<(), AllocError>
    ensures { OnOk result (set.new.keys ≡ with_names set.old.keys (bound_anywhere decls.now)) }
{
    add_protocols(set, decls.inst.protocols.as_slice())?;
    add_hooks(set, decls.hooks.as_slice())?;
    add_invariants(set, decls.invariants.as_slice())?;
    add_procs(set, decls.procs.as_slice())?;
    Ok(())
}

fn add_protocols(set: &mut IndexSet<u32>, protocols: &[Protocol]) -> Result<(), AllocError>
    ensures { OnOk result (set.new.keys ≡ with_names set.old.keys (flat_map protocol_bound protocols.now)) }
{
    for protocol in protocols {
        add_protocol(set, protocol)?;
    }
    Ok(())
}

#[tactic(auto, using(crate::proofs::BoundLemmas::names_added))]
fn add_protocol(set: &mut IndexSet<u32>, protocol: &Protocol) -> Result<(), AllocError>
    ensures { OnOk result (set.new.keys ≡ with_names set.old.keys (protocol_bound protocol.now)) }
{
    add_tags(set, protocol.tags.as_slice())?;
    add_coherence(set, &protocol.coherence)?;
    Ok(())
}

fn add_tags(set: &mut IndexSet<u32>, tags: &[Tag]) -> Result<(), AllocError>
    ensures { OnOk result (set.new.keys ≡ with_names set.old.keys (flat_map tag_bound tags.now)) }
{
    for tag in tags {
        add_tag(set, tag)?;
    }
    Ok(())
}

#[tactic(auto, using(crate::proofs::BoundLemmas::names_added))]
fn add_tag(set: &mut IndexSet<u32>, tag: &Tag) -> Result<(), AllocError>
    ensures { OnOk result (set.new.keys ≡ with_names set.old.keys (tag_bound tag.now)) }
{
    add_formula(set, &tag.send.guard)?;
    add_receive(set, &tag.receive)?;
    Ok(())
}

fn add_receive(set: &mut IndexSet<u32>, receive: &Option<Transition>) -> Result<(), AllocError>
    ensures { OnOk result (set.new.keys ≡ with_names set.old.keys (transition_bound receive.now)) }
{
    match receive {
        Some(step) => add_formula(set, &step.guard),
        None => Ok(()),
    }
}

fn add_coherence(set: &mut IndexSet<u32>, coherence: &Option<Formula>) -> Result<(), AllocError>
    ensures { OnOk result (set.new.keys ≡ with_names set.old.keys (coherence_bound coherence.now)) }
{
    match coherence {
        Some(formula) => add_formula(set, formula),
        None => Ok(()),
    }
}

fn add_hooks(set: &mut IndexSet<u32>, hooks: &[Hook]) -> Result<(), AllocError>
    ensures { OnOk result (set.new.keys ≡ with_names set.old.keys (flat_map hook_bound hooks.now)) }
{
    for hook in hooks {
        add_formula(set, &hook.formula)?;
    }
    Ok(())
}

fn add_invariants(set: &mut IndexSet<u32>, invariants: &[Invariant]) -> Result<(), AllocError>
    ensures { OnOk result (set.new.keys ≡ with_names set.old.keys (flat_map invariant_bound invariants.now)) }
{
    for invariant in invariants {
        add_formula(set, &invariant.formula)?;
    }
    Ok(())
}

fn add_procs(set: &mut IndexSet<u32>, procs: &[Proc]) -> Result<(), AllocError>
    ensures { OnOk result (set.new.keys ≡ with_names set.old.keys (flat_map proc_bound procs.now)) }
{
    for proc in procs {
        add_proc(set, proc)?;
    }
    Ok(())
}

#[tactic(auto, using(crate::proofs::BoundLemmas::names_added))]
fn add_proc(set: &mut IndexSet<u32>, proc: &Proc) -> Result<(), AllocError>
    ensures { OnOk result (set.new.keys ≡ with_names set.old.keys (proc_bound proc.now)) }
{
    add_formula(set, &proc.pre)?;
    add_formula(set, &proc.post)?;
    add_commands(set, proc.body.as_slice())?;
    Ok(())
}

#[cycle(commands)]
fn add_commands(set: &mut IndexSet<u32>, commands: &[Command]) -> Result<(), AllocError>
    ensures { OnOk result (set.new.keys ≡ with_names set.old.keys (flat_map command_bound commands.now)) }
{
    for command in commands {
        add_command(set, command)?;
    }
    Ok(())
}

#[cycle(commands)]
#[tactic(auto, using(crate::proofs::BoundLemmas::names_added))]
fn add_command(set: &mut IndexSet<u32>, command: &Command) -> Result<(), AllocError>
    ensures { OnOk result (set.new.keys ≡ with_names set.old.keys (command_bound command.now)) }
{
    match command {
        Command::Send { note, .. } => add_formula(set, note),
        Command::Await { note, .. } => add_formula(set, note),
        Command::Poll { note, .. } => add_formula(set, note),
        Command::Read { note, .. } => add_formula(set, note),
        Command::Set { .. } => Ok(()),
        Command::If { yes, no, .. } => {
            add_commands(set, yes.as_slice())?;
            add_commands(set, no.as_slice())?;
            Ok(())
        }
        Command::While { note, body, .. } => {
            add_formula(set, note)?;
            add_commands(set, body.as_slice())?;
            Ok(())
        }
        Command::Call { note, frame, .. } => {
            add_formula(set, note)?;
            add_formula(set, frame)?;
            Ok(())
        }
    }
}

#[tactic(auto, unfolding(dl_term::specs::Syntax::opened))]
fn add_formula(set: &mut IndexSet<u32>, formula: &Formula) -> Result<(), AllocError>
    ensures { OnOk result (set.new.keys ≡ with_names set.old.keys (bound_names formula.now)) }
{
    match formula {
        Formula::True => Ok(()),
        Formula::False => Ok(()),
        Formula::Eq(_, _) => Ok(()),
        Formula::Lt(_, _) => Ok(()),
        Formula::Le(_, _) => Ok(()),
        Formula::Not(body) => add_formula(set, body.get()),
        Formula::And(left, right) => {
            add_formula(set, left.get())?;
            add_formula(set, right.get())?;
            Ok(())
        }
        Formula::Or(left, right) => {
            add_formula(set, left.get())?;
            add_formula(set, right.get())?;
            Ok(())
        }
        Formula::Implies(left, right) => {
            add_formula(set, left.get())?;
            add_formula(set, right.get())?;
            Ok(())
        }
        Formula::All { sym, body } => {
            add_name(set, *sym)?;
            add_formula(set, body.get())?;
            Ok(())
        }
        Formula::Exists { sym, body } => {
            add_name(set, *sym)?;
            add_formula(set, body.get())?;
            Ok(())
        }
        Formula::Each { msg, body, .. } => {
            add_name(set, *msg)?;
            add_formula(set, body.get())?;
            Ok(())
        }
        Formula::Any { msg, body, .. } => {
            add_name(set, *msg)?;
            add_formula(set, body.get())?;
            Ok(())
        }
    }
}

fn add_name(set: &mut IndexSet<u32>, name: u32) -> Result<(), AllocError>
    ensures { OnOk result (set.new.keys ≡ with_name set.old.keys name) }
{
    if set.insert(name).is_err() {
        return Err(AllocError);
    }
    Ok(())
}
