//! Obligations as keys of a table.

ghost use Rattle.std.specs.Prelude.{◌≡◌, [], map, position, IfOk, OnOk};
ghost use Rattle.std.specs.List.{find, list_any};
ghost use Rattle.std.specs.Option.{option_copied};
ghost use Rattle.dl_faults.specs.Obligations.{is_proof_of};
ghost use Rattle.dl_verdict.specs.Keys.{whole as key_of_whole, at_point as key_at_point, at_step as key_at_step, key_of as key_of_duty, key_of_proof, same_key, with_key, with_keys};

use dl_file::Proof;
use dl_sequent::Duty;
use indexmap::IndexSet;
use sqlite_items::at;
use std::alloc::{AllocError, Global};

/// An obligation, by numbers that tell it apart from every other one.
#[derive(Clone, Copy, Debug, PartialEq, Eq, Hash)]
pub(crate) struct Key {
    /// The number of its kind.
    pub(crate) kind: u8,
    /// The protocol, the invariant, the procedure or the node that it is of.
    pub(crate) subject: u32,
    pub(crate) point: u32,
    pub(crate) label: u8,
    pub(crate) tag: u8,
    pub(crate) receive: bool,
}

fn whole(kind: u8, subject: u32) -> Key
    ensures { result ≡ key_of_whole kind subject }
{
    at_point(kind, subject, 0)
}

fn at_point(kind: u8, subject: u32, point: u32) -> Key
    ensures { result ≡ key_at_point kind subject point }
{
    at_step(kind, subject, point, 0, 0, false)
}

fn at_step(kind: u8, subject: u32, point: u32, label: u8, tag: u8, receive: bool) -> Key
    ensures { result ≡ key_at_step kind subject point label tag receive }
{
    Key {
        kind,
        subject,
        point,
        label,
        tag,
        receive,
    }
}

/// The key of an obligation.
pub(crate) fn key_of(duty: Duty) -> Key
    ensures { result ≡ key_of_duty duty }
{
    match duty {
        Duty::InitProtocol { protocol } => whole(0, u32::from(protocol)),
        Duty::InitInvariant { invariant } => whole(1, u32::from(invariant)),
        Duty::StepProtocol {
            protocol,
            tag,
            receive,
        } => at_step(2, u32::from(protocol), 0, 0, tag, receive),
        Duty::StepInvariant {
            invariant,
            label,
            tag,
            receive,
        } => at_step(3, u32::from(invariant), 0, label, tag, receive),
        Duty::Start { proc } => whole(4, u32::from(proc)),
        Duty::Guard { proc, point } => at_point(5, u32::from(proc), point),
        Duty::AfterSend { proc, point } => at_point(6, u32::from(proc), point),
        Duty::Got { proc, point } => at_point(7, u32::from(proc), point),
        Duty::Miss { proc, point } => at_point(8, u32::from(proc), point),
        Duty::AfterRead { proc, point } => at_point(9, u32::from(proc), point),
        Duty::Body { proc, point } => at_point(10, u32::from(proc), point),
        Duty::Exit { proc, point } => at_point(11, u32::from(proc), point),
        Duty::Enter { proc, point } => at_point(12, u32::from(proc), point),
        Duty::Leave { proc, point } => at_point(13, u32::from(proc), point),
        Duty::Stable {
            proc,
            point,
            label,
            tag,
            receive,
        } => at_step(14, u32::from(proc), point, label, tag, receive),
        Duty::Frame {
            proc,
            point,
            label,
            tag,
            receive,
        } => at_step(15, u32::from(proc), point, label, tag, receive),
        Duty::Deploy { node } => whole(16, node),
    }
}

fn add_key(set: &mut IndexSet<Key>, key: Key) -> Result<(), AllocError>
    ensures { OnOk result (set.new.keys ≡ with_key set.old.keys key) }
{
    if set.insert(key).is_err() {
        return Err(AllocError);
    }
    Ok(())
}

/// The keys of the obligations of proofs, each once, where it stands first. Its only error is want of memory.
pub(crate) fn keys_of_proofs(alloc: Global, proofs: &[Proof]) -> Result<IndexSet<Key>, AllocError>
    ensures { IfOk result (λ set. set.keys ≡ with_keys [] (map key_of_proof proofs.now)) }
{
    let mut set = IndexSet::new(alloc);
    add_proofs(&mut set, proofs)?;
    Ok(set)
}

fn add_proofs(set: &mut IndexSet<Key>, proofs: &[Proof]) -> Result<(), AllocError>
    ensures { OnOk result (set.new.keys ≡ with_keys set.old.keys (map key_of_proof proofs.now)) }
{
    for proof in proofs {
        add_key(set, key_of(proof.duty))?;
    }
    Ok(())
}

/// The keys of obligations, each once. Its only error is want of memory.
pub(crate) fn keys_of_duties(alloc: Global, duties: &[Duty]) -> Result<IndexSet<Key>, AllocError>
    ensures { IfOk result (λ set. set.keys ≡ with_keys [] (map key_of_duty duties.now)) }
{
    let mut set = IndexSet::new(alloc);
    add_duties(&mut set, duties)?;
    Ok(set)
}

fn add_duties(set: &mut IndexSet<Key>, duties: &[Duty]) -> Result<(), AllocError>
    ensures { OnOk result (set.new.keys ≡ with_keys set.old.keys (map key_of_duty duties.now)) }
{
    for duty in duties {
        add_key(set, key_of(*duty))?;
    }
    Ok(())
}

fn place_of_key(keys: &IndexSet<Key>, key: Key) -> Option<usize>
    ensures { result ≡ position (same_key key) keys.now.keys }
{
    keys.get_index_of(&key)
}

fn has_key(keys: &IndexSet<Key>, key: Key) -> bool
    ensures { result ≡ list_any (same_key key) keys.now.keys }
{
    keys.contains(&key)
}

/// The first of the proofs that is for the obligation, looked up by the keys of all.
pub(crate) fn find_proof<'a>(
    keys: &IndexSet<Key>,
    proofs: &'a [Proof],
    duty: Duty,
) -> Option<&'a Proof>
    requires { keys.now.keys ≡ map key_of_proof proofs.now }
    ensures { option_copied result ≡ find (is_proof_of duty) proofs.now }
{
    match place_of_key(keys, key_of(duty)) {
        Some(place) => at(proofs, place),
        None => None,
    }
}

/// Whether the obligation is among those with these keys.
pub(crate) fn has_duty(keys: &IndexSet<Key>, duty: Duty) -> bool
    ensures { result ≡ list_any (same_key (key_of_duty duty)) keys.now.keys }
{
    has_key(keys, key_of(duty))
}
