//! Lists of names, and which of them stand once.

ghost use Rattle.std.specs.Prelude.{◌≡◌, ◌<◌, ◌+◌, nat_le, drop, length, slice_index, IfOk};
ghost use Rattle.std.specs.List.{list_all, AllByRecursion as Each};
ghost use Rattle.dl_model.specs.Sorts.{has};
ghost use Rattle.dl_model.specs.Words.{first_name};
ghost use Rattle.dl_formed.specs.Decided.{are_distinct, are_names};

use crate::scope::FIRST_NAME;
use std::alloc::{AllocError, Global};
use std::marker::Model;

// Whether the name is in the list.
pub(crate) fn has_name(names: &[u32], name: u32) -> bool
    ensures { result ≡ has names.now name }
{
    for known in names {
        if name == *known {
            return true;
        }
    }
    false
}

// Whether no number stands twice. A list of numbers below 256 takes at most 257 passes.
pub(crate) fn are_distinct(numbers: &[u32]) -> bool
    ensures { result ≡ are_distinct numbers.now }
{
    for place in 0..numbers.len() {
        if stands_later(numbers, place) {
            return false;
        }
    }
    true
}

// Whether the number at the place stands again after it.
fn stands_later(numbers: &[u32], place: usize) -> bool
    requires { place < length numbers.now }
    ensures { result ≡ has (drop (place + 1) numbers.now) (slice_index numbers.now place) }
{
    has_name(&numbers[place + 1..], numbers[place])
}

// Whether these are names that a file may declare, each once.
pub(crate) fn are_names(names: &[u32]) -> bool
    ensures { result ≡ are_names names.now }
{
    are_distinct(names) && are_allowed(names)
}

fn are_allowed(names: &[u32]) -> bool
    ensures { result ≡ list_all (nat_le first_name) names.now }
{
    for name in names {
        if *name < FIRST_NAME {
            return false;
        }
    }
    true
}

// A list of names with a mark for each number that is in it. Contracts see the list.
#[derive(Drop)]
pub(crate) struct NameSet<'a> {
    names: &'a [u32],
    marks: Vec<bool>,
}

impl<'a> Model for NameSet<'a> {
    ghost use Rattle.std.specs.Prelude.{ℕ, List};
    ghost use Rattle.dl_formed.specs.Marked.{AreMarked};

    ghost Value = { List ℕ };

    ghost view = { λ set. set.names.now };

    ghost invariant = { λ set. AreMarked set.names.now set.marks.items };
}

impl<'a> NameSet<'a> {
    // The one refusal is want of memory. It takes as much as the greatest name.
    pub(crate) fn of(alloc: Global, names: &'a [u32]) -> Result<NameSet<'a>, AllocError>
        ensures { IfOk result (λ set. set ≡ names.now) }
    {
        let mut marks = vec![in alloc; false; room_for(names)]?;
        for name in names {
            marks[*name as usize] = true;
        }
        Ok(NameSet { names, marks })
    }

    // Whether the list has the name.
    pub(crate) fn has(&self, name: u32) -> bool
        ensures { result ≡ has self.now name }
    {
        match self.marks.get(name as usize) {
            Some(mark) => *mark,
            None => false,
        }
    }
}

// A number above each of the names.
fn room_for(names: &[u32]) -> usize
    ensures { Each (λ name. name < result) names.now }
{
    let mut room = 0;
    for name in names {
        room = room.max(*name as usize + 1);
    }
    room
}
