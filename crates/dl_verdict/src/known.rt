//! What is looked up for each obligation of a file.

ghost use Rattle.std.specs.Prelude.{◌≡◌, ◌≤◌, IfOk, None, Some, length, map};
ghost use Rattle.std.specs.List.{range_with_len};
ghost use Rattle.std.specs.Option.{option_copied};
ghost use Rattle.dl_faults.specs.Places.{coherence_place as place_of_coherence, invariant_place as place_of_invariant};
ghost use Rattle.dl_faults.specs.ProgramPlaces.{proc_place as place_of_procedure, point_place as place_of_spot};
ghost use Rattle.dl_faults.specs.Spots.{spots_of};
ghost use Rattle.dl_faults.specs.Obligations.{duty_place as place_of_duty, proof_of as proof_for};
ghost use Rattle.dl_faults.specs.Given.{FileIsFormed};
ghost use Rattle.dl_verdict.specs.Code.{IsKnown};

use crate::keys::{Key, find_proof, keys_of_proofs};
use dl_faults::{Spots, coherence_place, deployed_place, invariant_place, proc_spots, spot_at};
use dl_file::{File, Proof};
use dl_sequent::Duty;
use dl_tree::{Place, Tree};
use indexmap::IndexSet;
use sqlite_items::Items;
use std::alloc::{AllocError, Global};

/// A file with its proofs by their obligations, and the places of its coherences, invariants and procedures by their
/// numbers: none of them is searched for each obligation.
#[derive(Drop)]
pub(crate) struct Known<'a> {
    pub(crate) file: &'a File,
    /// The keys of the proofs, in their order.
    pub(crate) proofs: IndexSet<Key>,
    pub(crate) coherences: Items<Place>,
    pub(crate) invariants: Items<Place>,
    /// Where each procedure and its points stand.
    pub(crate) procs: Items<Spots>,
}

/// Its only error is want of memory.
pub(crate) fn known_of(alloc: Global, file: &File) -> Result<Known<'_>, AllocError>
    requires { FileIsFormed file.now }
    ensures known { IfOk result IsKnown }
    ensures file { IfOk result (λ known. known.file.now ≡ file.now) }
{
    let proofs = keys_of_proofs(alloc, file.proofs.as_slice())?;
    let coherences = coherence_places(alloc, &file.tree, file.decls.inst.protocols.len())?;
    let invariants = invariant_places(alloc, &file.tree, file.decls.invariants.len())?;
    let procs = proc_places(alloc, &file.tree, file.decls.procs.len())?;
    Ok(Known {
        file,
        proofs,
        coherences,
        invariants,
        procs,
    })
}

fn coherence_places(alloc: Global, tree: &Tree, count: usize) -> Result<Items<Place>, AllocError>
    requires { count ≤ 256 }
    ensures { IfOk result (λ places. places ≡ map (place_of_coherence tree.now) (range_with_len 0 count)) }
{
    let mut places = Items::new(alloc);
    for number in 0..count {
        places.push(coherence_place(tree, number as u8))?;
    }
    Ok(places)
}

fn invariant_places(alloc: Global, tree: &Tree, count: usize) -> Result<Items<Place>, AllocError>
    requires { count ≤ 256 }
    ensures { IfOk result (λ places. places ≡ map (place_of_invariant tree.now) (range_with_len 0 count)) }
{
    let mut places = Items::new(alloc);
    for number in 0..count {
        places.push(invariant_place(tree, number as u8))?;
    }
    Ok(places)
}

fn proc_places(alloc: Global, tree: &Tree, count: usize) -> Result<Items<Spots>, AllocError>
    requires { count ≤ 256 }
    ensures { IfOk result (λ places. places ≡ map (spots_of tree.now) (range_with_len 0 count)) }
{
    let mut places = Items::new(alloc);
    for number in 0..count {
        let spots = proc_spots(alloc, tree, number as u8)?;
        places.push(spots)?;
    }
    Ok(places)
}

/// The file's proof of the obligation.
pub(crate) fn proof_of<'a>(known: &'a Known, duty: Duty) -> Option<&'a Proof>
    requires { IsKnown known.now }
    ensures { option_copied result ≡ proof_for known.now.file.now duty }
{
    find_proof(&known.proofs, known.file.proofs.as_slice(), duty)
}

fn place_of_protocol(known: &Known, protocol: u8) -> Place
    requires { IsKnown known.now }
    ensures { result ≡ place_of_coherence known.now.file.now.tree protocol }
{
    match known.coherences.get(usize::from(protocol)) {
        Some(place) => *place,
        None => coherence_place(&known.file.tree, protocol),
    }
}

fn place_of_claim(known: &Known, invariant: u8) -> Place
    requires { IsKnown known.now }
    ensures { result ≡ place_of_invariant known.now.file.now.tree invariant }
{
    match known.invariants.get(usize::from(invariant)) {
        Some(place) => *place,
        None => invariant_place(&known.file.tree, invariant),
    }
}

// The place of a procedure. One that isn't there has a place by the tree alone.
fn place_of_proc(alloc: Global, known: &Known, proc: u8) -> Result<Place, AllocError>
    requires { IsKnown known.now }
    ensures { IfOk result (λ place. place ≡ place_of_procedure known.now.file.now.tree proc) }
{
    if let Some(spots) = known.procs.get(usize::from(proc)) {
        return Ok(spots.proc);
    }
    let spots = proc_spots(alloc, &known.file.tree, proc)?;
    let place = spots.proc;
    drop(spots);
    Ok(place)
}

// The place of a point of a procedure, or of its postcondition for the point 0.
fn place_of_point(alloc: Global, known: &Known, proc: u8, point: u32) -> Result<Place, AllocError>
    requires { IsKnown known.now }
    ensures { IfOk result (λ place. place ≡ place_of_spot known.now.file.now.tree proc point) }
{
    if let Some(spots) = known.procs.get(usize::from(proc)) {
        return Ok(spot_at(spots, point));
    }
    let spots = proc_spots(alloc, &known.file.tree, proc)?;
    let place = spot_at(&spots, point);
    drop(spots);
    Ok(place)
}

/// Where an obligation stands: at its coherence, its invariant, its procedure, its command or postcondition, or its program
/// in the deployment. Its only error is want of memory.
pub(crate) fn duty_place(alloc: Global, known: &Known, duty: Duty) -> Result<Place, AllocError>
    requires { IsKnown known.now }
    ensures { IfOk result (λ place. place ≡ place_of_duty known.now.file.now duty) }
{
    match duty {
        Duty::InitProtocol { protocol } => Ok(place_of_protocol(known, protocol)),
        Duty::StepProtocol { protocol, .. } => Ok(place_of_protocol(known, protocol)),
        Duty::InitInvariant { invariant } => Ok(place_of_claim(known, invariant)),
        Duty::StepInvariant { invariant, .. } => Ok(place_of_claim(known, invariant)),
        Duty::Start { proc } => place_of_proc(alloc, known, proc),
        Duty::Guard { proc, point } => place_of_point(alloc, known, proc, point),
        Duty::AfterSend { proc, point } => place_of_point(alloc, known, proc, point),
        Duty::Got { proc, point } => place_of_point(alloc, known, proc, point),
        Duty::Miss { proc, point } => place_of_point(alloc, known, proc, point),
        Duty::AfterRead { proc, point } => place_of_point(alloc, known, proc, point),
        Duty::Body { proc, point } => place_of_point(alloc, known, proc, point),
        Duty::Exit { proc, point } => place_of_point(alloc, known, proc, point),
        Duty::Enter { proc, point } => place_of_point(alloc, known, proc, point),
        Duty::Leave { proc, point } => place_of_point(alloc, known, proc, point),
        Duty::Stable { proc, point, .. } => place_of_point(alloc, known, proc, point),
        Duty::Frame { proc, point, .. } => place_of_point(alloc, known, proc, point),
        Duty::Deploy { node } => Ok(deployed_place(&known.file.tree, &known.file.decls, node)),
    }
}
