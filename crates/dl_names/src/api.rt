//! The first fault of a file.

ghost use Rattle.std.specs.Prelude.{◌≡◌, None, OnOk, IfErr};
ghost use Rattle.dl_forms.specs.Read.{IsFault};
ghost use Rattle.dl_notation.specs.Environment.{nothing};
ghost use Rattle.dl_notation.specs.Judge.{OfNames, file_fault, list_fault};
ghost use Rattle.dl_scope.specs.Walked.{environment};

use crate::list::walk_list;
use dl_forms::FormFault;
use dl_notation::{ListRole, list_form_fault};
use dl_scope::{Walk, empty_scope};
use dl_tree::Tree;
use indexmap::{IndexMap, IndexSet};
use sqlite_items::Items;
use std::alloc::Global;

/// What stands before a file.
fn empty_walk<'a>(alloc: Global) -> Walk<'a>
    ensures { environment result ≡ nothing }
{
    Walk {
        declared: IndexSet::new(alloc),
        nodes: Items::new(alloc),
        sorts: IndexMap::new(alloc),
        protocols: Items::new(alloc),
        hooks: Items::new(alloc),
        worlds: Items::new(alloc),
        invariants: Items::new(alloc),
        procedures: Items::new(alloc),
        proved: IndexSet::new(alloc),
        words: IndexMap::new(alloc),
        labels: Items::new(alloc),
        quantified: IndexSet::new(alloc),
        others: IndexSet::new(alloc),
        points: Items::new(alloc),
        scope: empty_scope(alloc),
    }
}

/// The first fault of names and sorts of a file.
fn names_fault<'a>(alloc: Global, tree: &'a Tree) -> Result<(), FormFault>
    ensures ok { OnOk result (list_fault tree.now (OfNames nothing) ListRole.File ≡ None) }
    ensures err { IfErr result (λ e. IsFault (list_fault tree.now (OfNames nothing) ListRole.File) e) }
{
    let mut walk = empty_walk(alloc);
    let result = walk_list(&mut walk, alloc, ListRole::File, tree);
    drop(walk);
    result
}

/// Judges a whole file: its forms, then its names and sorts.
///
/// Answers `At` with the rule and the place of the first fault. Faults of form come before those of names and
/// sorts, the fault of a list before those of its parts, and an earlier part's fault before a later one's. Its
/// only other error is want of memory.
pub fn file_fault(alloc: Global, tree: &Tree) -> Result<(), FormFault>
    ensures ok { OnOk result (file_fault tree.now ≡ None) }
    ensures err { IfErr result (λ e. IsFault (file_fault tree.now) e) }
{
    if let Some(place) = list_form_fault(ListRole::File, false, tree) {
        return Err(FormFault::At { rule: 10, place });
    }
    names_fault(alloc, tree)
}
