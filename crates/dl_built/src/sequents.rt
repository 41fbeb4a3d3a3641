//! The sequents of obligations.

ghost use Rattle.std.specs.Prelude.{◌≡◌, ◌≤◌, true, false, length, IfErr, IfOk, OnOk};
ghost use Rattle.dl_term.specs.Measures.{is_oversized};
ghost use Rattle.dl_model.specs.Formed.{FileIsSmall};
ghost use Rattle.dl_model.specs.Lookup.{proc_at};
ghost use Rattle.dl_sequent.specs.Sizes.{is_too_large as too_large};
ghost use Rattle.dl_triples.specs.Obligations.{sequent_of};
ghost use Rattle.dl_triples.specs.Built.{captured, captured_in, other_sequent, proc_number as proc_numbered, sequent_in};

use crate::others::{fill_frame, fill_stable};
use crate::starts::{fill_deploy, fill_start};
use dl_at_points::{
    body_point, enter_point, exit_point, got_point, guard_point, leave_point, missed_point,
    read_point, sent_point,
};
use dl_inv::BuildFault;
use dl_model::{Decls, Proc, Sequent};
use dl_parts::{nobody, nothing_known, proc_of, put_nothing};
use dl_sequent::{Duty, is_too_large};
use sqlite_items::Items;
use std::alloc::Global;

/// The sequent of an obligation of a procedure or of the deployment that takes these names.
///
/// The conditions are that the file is within its limits, and that no name of a step of the obligation is captured, as is
/// so in a formed file with names that the obligation may take. `Limit` comes only where the sequent has more than
/// 1,000,000 parts or a formula that nests more than 4,000 deep, and then no other refusal comes but `Memory`. `Memory`
/// comes too where a formula on the way to it is that large. An obligation of a protocol or an invariant has no hypothesis
/// here, and the goal `true`.
pub fn build(
    alloc: Global,
    decls: &Decls,
    duty: &Duty,
    names: &[u32],
) -> Result<Sequent, BuildFault>
    requires small { FileIsSmall decls.now }
    requires quiet { captured decls.now duty.now names.now ≡ false }
    ensures made { IfOk result (λ made. made ≡ sequent_of decls.now duty.now names.now) }
    ensures small { IfOk result (λ made. too_large made ≡ false) }
    ensures limit { (result ≡ Err BuildFault.Limit) → too_large (sequent_of decls.now duty.now names.now) ≡ true }
{
    let mut made = nothing_known(alloc, Items::new(alloc), Items::new(alloc));
    match fill(alloc, decls, duty, names, &mut made) {
        Ok(()) => not_too_large(made),
        Err(fault) => {
            drop(made);
            Err(fault)
        }
    }
}

fn not_too_large(made: Sequent) -> Result<Sequent, BuildFault>
    ensures kept { IfOk result (λ kept. (kept ≡ made) × (too_large made ≡ false)) }
    ensures limit { IfErr result (λ fault. (fault ≡ BuildFault.Limit) × (too_large made ≡ true)) }
{
    if is_too_large(&made) {
        drop(made);
        return Err(BuildFault::Limit);
    }
    Ok(made)
}

// Writes the sequent over another one, where its goal is not too large.
fn fill(
    alloc: Global,
    decls: &Decls,
    duty: &Duty,
    names: &[u32],
    made: &mut Sequent,
) -> Result<(), BuildFault>
    requires small { FileIsSmall decls.now }
    requires quiet { captured decls.now duty.now names.now ≡ false }
    ensures made { OnOk result (made.new ≡ sequent_of decls.now duty.now names.now) }
    ensures limit { (result ≡ Err BuildFault.Limit) → is_oversized (sequent_of decls.now duty.now names.now).goal ≡ true }
{
    match proc_number(duty) {
        Some(number) => fill_proc(alloc, decls, number, duty, names, made),
        None => fill_other(alloc, decls, duty, made),
    }
}

// The position of the procedure that the obligation is of.
fn proc_number(duty: &Duty) -> Option<u8>
    ensures { result ≡ proc_numbered duty.now }
{
    match duty {
        Duty::InitProtocol { .. } => None,
        Duty::InitInvariant { .. } => None,
        Duty::StepProtocol { .. } => None,
        Duty::StepInvariant { .. } => None,
        Duty::Start { proc } => Some(*proc),
        Duty::Guard { proc, .. } => Some(*proc),
        Duty::AfterSend { proc, .. } => Some(*proc),
        Duty::Got { proc, .. } => Some(*proc),
        Duty::Miss { proc, .. } => Some(*proc),
        Duty::AfterRead { proc, .. } => Some(*proc),
        Duty::Body { proc, .. } => Some(*proc),
        Duty::Exit { proc, .. } => Some(*proc),
        Duty::Enter { proc, .. } => Some(*proc),
        Duty::Leave { proc, .. } => Some(*proc),
        Duty::Stable { proc, .. } => Some(*proc),
        Duty::Frame { proc, .. } => Some(*proc),
        Duty::Deploy { .. } => None,
    }
}

// An obligation that is of no procedure.
fn fill_other(
    alloc: Global,
    decls: &Decls,
    duty: &Duty,
    made: &mut Sequent,
) -> Result<(), BuildFault>
    requires { 1 ≤ decls.now.inst.nodes }
    ensures made { OnOk result (made.new ≡ other_sequent decls.now duty.now) }
    ensures limit { (result ≡ Err BuildFault.Limit) → is_oversized (other_sequent decls.now duty.now).goal ≡ true }
{
    match duty {
        Duty::InitProtocol { .. } => put_nothing(alloc, made),
        Duty::InitInvariant { .. } => put_nothing(alloc, made),
        Duty::StepProtocol { .. } => put_nothing(alloc, made),
        Duty::StepInvariant { .. } => put_nothing(alloc, made),
        Duty::Start { .. } => put_nothing(alloc, made),
        Duty::Guard { .. } => put_nothing(alloc, made),
        Duty::AfterSend { .. } => put_nothing(alloc, made),
        Duty::Got { .. } => put_nothing(alloc, made),
        Duty::Miss { .. } => put_nothing(alloc, made),
        Duty::AfterRead { .. } => put_nothing(alloc, made),
        Duty::Body { .. } => put_nothing(alloc, made),
        Duty::Exit { .. } => put_nothing(alloc, made),
        Duty::Enter { .. } => put_nothing(alloc, made),
        Duty::Leave { .. } => put_nothing(alloc, made),
        Duty::Stable { .. } => put_nothing(alloc, made),
        Duty::Frame { .. } => put_nothing(alloc, made),
        Duty::Deploy { node } => fill_deploy(alloc, decls, *node, made),
    }
}

// The obligation of the procedure at a position.
fn fill_proc(
    alloc: Global,
    decls: &Decls,
    number: u8,
    duty: &Duty,
    names: &[u32],
    made: &mut Sequent,
) -> Result<(), BuildFault>
    requires few { length decls.now.invariants ≤ 255 }
    requires quiet { captured_in decls.now (proc_at decls.now.procs number) duty.now names.now ≡ false }
    ensures made { OnOk result (made.new ≡ sequent_in decls.now (proc_at decls.now.procs number) duty.now names.now) }
    ensures limit { (result ≡ Err BuildFault.Limit) → is_oversized (sequent_in decls.now (proc_at decls.now.procs number) duty.now names.now).goal ≡ true }
{
    let none = nobody(alloc);
    let proc = proc_of(&*decls, number, &none);
    let filled = fill_in(alloc, &*decls, proc, duty, names, made);
    drop(none);
    filled
}

// The obligation of a procedure.
fn fill_in(
    alloc: Global,
    decls: &Decls,
    proc: &Proc,
    duty: &Duty,
    names: &[u32],
    made: &mut Sequent,
) -> Result<(), BuildFault>
    requires few { length decls.now.invariants ≤ 255 }
    requires quiet { captured_in decls.now proc.now duty.now names.now ≡ false }
    ensures made { OnOk result (made.new ≡ sequent_in decls.now proc.now duty.now names.now) }
    ensures limit { (result ≡ Err BuildFault.Limit) → is_oversized (sequent_in decls.now proc.now duty.now names.now).goal ≡ true }
{
    match duty {
        Duty::InitProtocol { .. } => put_nothing(alloc, made),
        Duty::InitInvariant { .. } => put_nothing(alloc, made),
        Duty::StepProtocol { .. } => put_nothing(alloc, made),
        Duty::StepInvariant { .. } => put_nothing(alloc, made),
        Duty::Start { .. } => fill_start(alloc, decls, proc, made),
        Duty::Guard { point, .. } => guard_point(alloc, decls, proc, *point, made),
        Duty::AfterSend { point, .. } => sent_point(alloc, decls, proc, *point, made),
        Duty::Got { point, .. } => got_point(alloc, decls, proc, *point, names, made),
        Duty::Miss { point, .. } => missed_point(alloc, decls, proc, *point, made),
        Duty::AfterRead { point, .. } => read_point(alloc, decls, proc, *point, made),
        Duty::Body { point, .. } => body_point(alloc, decls, proc, *point, made),
        Duty::Exit { point, .. } => exit_point(alloc, decls, proc, *point, made),
        Duty::Enter { point, .. } => enter_point(alloc, decls, proc, *point, made),
        Duty::Leave { point, .. } => leave_point(alloc, decls, proc, *point, names, made),
        Duty::Stable {
            point,
            label,
            tag,
            receive,
            ..
        } => fill_stable(
            alloc, decls, proc, *point, *label, *tag, *receive, names, made,
        ),
        Duty::Frame {
            point,
            label,
            tag,
            receive,
            ..
        } => fill_frame(
            alloc, decls, proc, *point, *label, *tag, *receive, names, made,
        ),
        Duty::Deploy { .. } => put_nothing(alloc, made),
    }
}
