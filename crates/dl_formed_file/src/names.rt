//! The names that proofs take.

ghost use Rattle.std.specs.Prelude.{◌≡◌, ◌+◌, ◌<◌, drop, length, slice_index};
ghost use Rattle.std.specs.List.{list_all};
ghost use Rattle.dl_model.specs.Sorts.{has};
ghost use Rattle.dl_formed.specs.Decided.{are_distinct, are_below};
ghost use Rattle.dl_triples.specs.Taken.{own_names};
ghost use Rattle.dl_formed_file.specs.Decided.{are_unbound, proof_is_formed};

use crate::own::is_own;
use crate::taken::names_taken;
use dl_file::Proof;
use dl_model::Decls;
use dl_sequent::Duty;
use indexmap::IndexSet;

/// Whether each of the proofs has the names that its obligation takes, none of which is a variable of it, and no quantifier
/// binds one.
pub(crate) fn are_formed(proofs: &[Proof], decls: &Decls, bound: &IndexSet<u32>) -> bool
    ensures { result ≡ list_all (proof_is_formed decls.now bound.now.keys) proofs.now }
{
    for proof in proofs {
        if !is_formed(proof, decls, bound) {
            return false;
        }
    }
    true
}

fn is_formed(proof: &Proof, decls: &Decls, bound: &IndexSet<u32>) -> bool
    ensures { result ≡ proof_is_formed decls.now bound.now.keys proof.now }
{
    proof.names.len() == names_taken(decls, proof.duty)
        && are_distinct(proof.names.as_slice())
        && are_new(proof.names.as_slice(), decls, proof.duty)
        && are_unbound(proof.names.as_slice(), bound)
}

// Whether no name stands twice. No obligation takes more than ten.
fn are_distinct(names: &[u32]) -> bool
    ensures { result ≡ are_distinct names.now }
{
    for place in 0..names.len() {
        if stands_later(names, place) {
            return false;
        }
    }
    true
}

// Whether the name at the place stands again after it.
fn stands_later(names: &[u32], place: usize) -> bool
    requires { place < length names.now }
    ensures { result ≡ has (drop (place + 1) names.now) (slice_index names.now place) }
{
    has_name(&names[place + 1..], names[place])
}

/// Whether the name is one of these.
pub(crate) fn has_name(names: &[u32], name: u32) -> bool
    ensures { result ≡ has names.now name }
{
    for known in names {
        if name == *known {
            return true;
        }
    }
    false
}

// Whether none of the names is a variable of the obligation.
fn are_new(names: &[u32], decls: &Decls, duty: Duty) -> bool
    ensures { result ≡ are_unbound (own_names decls.now duty) names.now }
{
    for name in names {
        if is_own(decls, duty, *name) {
            return false;
        }
    }
    true
}

fn are_unbound(names: &[u32], bound: &IndexSet<u32>) -> bool
    ensures { result ≡ are_unbound bound.now.keys names.now }
{
    for name in names {
        if is_bound(*name, bound) {
            return false;
        }
    }
    true
}

fn is_bound(name: u32, bound: &IndexSet<u32>) -> bool
    ensures { result ≡ has bound.now.keys name }
{
    bound.contains(&name)
}

/// Whether each of the names is one of so many.
pub(crate) fn are_below(names: &[u32], count: usize) -> bool
    ensures { result ≡ are_below count names.now }
{
    for name in names {
        if count <= *name as usize {
            return false;
        }
    }
    true
}
