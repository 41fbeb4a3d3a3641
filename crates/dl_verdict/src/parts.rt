//! The parts of what is named in a refusal, as trees without places.

ghost use Rattle.std.specs.Prelude.{◌≡◌, ◌++◌, ◌∷◌, ◌≤◌, [], Some, None, OnOk, pos, length};
ghost use Rattle.dl_tree.specs.declared.tree.Tree.TheVariants as tree;
ghost use Rattle.dl_model.specs.Lookup.{protocol_in, proc_at};
ghost use Rattle.dl_inv.specs.Facts.{label_name};
ghost use Rattle.dl_inv.specs.Obligations.{invariant_at};
ghost use Rattle.dl_inv.specs.Steps.{tag_of};
ghost use Rattle.dl_faults.specs.Shown.{name as name_shown, word as word_shown, way as way_shown, no_place, label_and_tag};
ghost use Rattle.dl_verdict.specs.Parts.{own_step, point_and, rest_of};

use crate::spare::find_tag;
use dl_file::File;
use dl_model::{Decls, Instances};
use dl_sequent::Duty;
use dl_term::Lab;
use dl_tree::{Name, Place, Tree};
use sqlite_items::{Items, at};
use std::alloc::{AllocError, Global};

/// The place of a part of a refusal, which stands in no text.
pub(crate) const NO_PLACE: Place = Place { line: 0, col: 0 };

// How many words no file declares. The names of the nodes come after them.
const RESERVED: usize = 18;

// ---- words and names

pub(crate) fn add_word(alloc: Global, text: &str, parts: &mut Items<Tree>) -> Result<(), AllocError>
    requires { length text.now ≤ 64 }
    ensures { OnOk result (parts.new ≡ parts.old ++ word_shown text.now ∷ []) }
{
    let name = Name::new(alloc, text)?;
    parts.push(Tree::Sym {
        name,
        place: NO_PLACE,
    })
}

/// Adds the text of the name with this number, or an empty one where there is none.
pub(crate) fn add_name(
    alloc: Global,
    file: &File,
    sym: usize,
    parts: &mut Items<Tree>,
) -> Result<(), AllocError>
    ensures { OnOk result (parts.new ≡ parts.old ++ name_shown file.now sym ∷ []) }
{
    match at(file.names.as_slice(), sym) {
        Some(name) => add_word(alloc, name.as_str(), parts),
        None => add_word(alloc, "", parts),
    }
}

fn add_way(alloc: Global, receive: bool, parts: &mut Items<Tree>) -> Result<(), AllocError>
    ensures { OnOk result (parts.new ≡ parts.old ++ way_shown receive ∷ []) }
{
    if receive {
        return add_word(alloc, "receive", parts);
    }
    add_word(alloc, "send", parts)
}

fn add_number(number: u32, parts: &mut Items<Tree>) -> Result<(), AllocError>
    ensures { OnOk result (parts.new ≡ parts.old ++ tree.Num (pos number) no_place ∷ []) }
{
    parts.push(Tree::Num {
        value: i64::from(number),
        place: NO_PLACE,
    })
}

// ---- what names stand for

fn protocol_sym(inst: &Instances, protocol: u8) -> usize
    ensures { result ≡ (protocol_in inst.now (Some protocol)).sym }
{
    match at(inst.protocols.as_slice(), usize::from(protocol)) {
        Some(protocol) => protocol.sym as usize,
        None => 0,
    }
}

fn invariant_sym(decls: &Decls, invariant: u8) -> usize
    ensures { result ≡ (invariant_at decls.now invariant).sym }
{
    match at(decls.invariants.as_slice(), usize::from(invariant)) {
        Some(invariant) => invariant.sym as usize,
        None => 0,
    }
}

fn proc_sym(decls: &Decls, proc: u8) -> usize
    ensures { result ≡ (proc_at decls.now.procs proc).sym }
{
    match at(decls.procs.as_slice(), usize::from(proc)) {
        Some(proc) => proc.sym as usize,
        None => 0,
    }
}

/// The number of a label's name.
pub(crate) fn label_sym(decls: &Decls, label: u8) -> usize
    ensures { result ≡ label_name decls.now label }
{
    match decls.labels.get(usize::from(label)) {
        Some(sym) => *sym as usize,
        None => 0,
    }
}

fn tag_sym(inst: &Instances, own: Option<u8>, label: Lab, tag: u8) -> usize
    ensures { result ≡ (tag_of inst.now own label tag).sym }
{
    match find_tag(inst, own, label, tag) {
        Some(tag) => tag.sym as usize,
        None => 0,
    }
}

// ---- parts of obligations

fn add_label_and_tag(
    alloc: Global,
    file: &File,
    label: u8,
    tag: u8,
    receive: bool,
    parts: &mut Items<Tree>,
) -> Result<(), AllocError>
    ensures { OnOk result (parts.new ≡ parts.old ++ label_and_tag file.now label tag receive) }
{
    let inst = &file.decls.inst;
    add_name(alloc, file, label_sym(&file.decls, label), parts)?;
    let sym = tag_sym(inst, None, Lab::At(label), tag);
    add_name(alloc, file, sym, parts)?;
    add_way(alloc, receive, parts)
}

fn add_own_step(
    alloc: Global,
    file: &File,
    protocol: u8,
    tag: u8,
    receive: bool,
    parts: &mut Items<Tree>,
) -> Result<(), AllocError>
    ensures { OnOk result (parts.new ≡ parts.old ++ own_step file.now protocol tag receive) }
{
    let inst = &file.decls.inst;
    add_name(alloc, file, protocol_sym(inst, protocol), parts)?;
    let sym = tag_sym(inst, Some(protocol), Lab::Own, tag);
    add_name(alloc, file, sym, parts)?;
    add_way(alloc, receive, parts)
}

fn add_point(
    alloc: Global,
    file: &File,
    proc: u8,
    point: u32,
    parts: &mut Items<Tree>,
) -> Result<(), AllocError>
    ensures { OnOk result (parts.new ≡ parts.old ++ point_and file.now proc point []) }
{
    add_name(alloc, file, proc_sym(&file.decls, proc), parts)?;
    add_number(point, parts)
}

// A point of a procedure, and a step of another node.
fn add_point_and_step(
    alloc: Global,
    file: &File,
    proc: u8,
    point: u32,
    label: u8,
    tag: u8,
    receive: bool,
    parts: &mut Items<Tree>,
) -> Result<(), AllocError>
    ensures { OnOk result (parts.new ≡ parts.old ++ point_and file.now proc point (label_and_tag file.now label tag receive)) }
{
    add_point(alloc, file, proc, point, parts)?;
    add_label_and_tag(alloc, file, label, tag, receive, parts)
}

fn add_invariant_step(
    alloc: Global,
    file: &File,
    invariant: u8,
    label: u8,
    tag: u8,
    receive: bool,
    parts: &mut Items<Tree>,
) -> Result<(), AllocError>
    ensures { OnOk result (parts.new ≡ parts.old ++ name_shown file.now (invariant_at file.now.decls invariant).sym ∷ label_and_tag file.now label tag receive) }
{
    add_name(alloc, file, invariant_sym(&file.decls, invariant), parts)?;
    add_label_and_tag(alloc, file, label, tag, receive, parts)
}

/// Adds what stands behind the first word of an obligation.
pub(crate) fn add_rest(
    alloc: Global,
    file: &File,
    duty: Duty,
    parts: &mut Items<Tree>,
) -> Result<(), AllocError>
    ensures { OnOk result (parts.new ≡ parts.old ++ rest_of file.now duty) }
{
    match duty {
        Duty::InitProtocol { protocol } => {
            let sym = protocol_sym(&file.decls.inst, protocol);
            add_name(alloc, file, sym, parts)
        }
        Duty::InitInvariant { invariant } => {
            let sym = invariant_sym(&file.decls, invariant);
            add_name(alloc, file, sym, parts)
        }
        Duty::StepProtocol {
            protocol,
            tag,
            receive,
        } => add_own_step(alloc, file, protocol, tag, receive, parts),
        Duty::StepInvariant {
            invariant,
            label,
            tag,
            receive,
        } => add_invariant_step(alloc, file, invariant, label, tag, receive, parts),
        Duty::Start { proc } => add_name(alloc, file, proc_sym(&file.decls, proc), parts),
        Duty::Guard { proc, point } => add_point(alloc, file, proc, point, parts),
        Duty::AfterSend { proc, point } => add_point(alloc, file, proc, point, parts),
        Duty::Got { proc, point } => add_point(alloc, file, proc, point, parts),
        Duty::Miss { proc, point } => add_point(alloc, file, proc, point, parts),
        Duty::AfterRead { proc, point } => add_point(alloc, file, proc, point, parts),
        Duty::Body { proc, point } => add_point(alloc, file, proc, point, parts),
        Duty::Exit { proc, point } => add_point(alloc, file, proc, point, parts),
        Duty::Enter { proc, point } => add_point(alloc, file, proc, point, parts),
        Duty::Leave { proc, point } => add_point(alloc, file, proc, point, parts),
        Duty::Stable {
            proc,
            point,
            label,
            tag,
            receive,
        } => add_point_and_step(alloc, file, proc, point, label, tag, receive, parts),
        Duty::Frame {
            proc,
            point,
            label,
            tag,
            receive,
        } => add_point_and_step(alloc, file, proc, point, label, tag, receive, parts),
        Duty::Deploy { node } => add_name(alloc, file, RESERVED + node as usize, parts),
    }
}
