//! What a tree is answered.

ghost use Rattle.std.specs.Prelude.{◌≡◌};
ghost use Rattle.dl_faults.specs.Given.{FileIsFormed};
ghost use Rattle.dl_check.specs.Answers.{IsAnswered, IsChecked};
ghost use Rattle.dl_check.specs.Reading.{IsCheckedFile};

use crate::read::read_file;
use dl_file::{Accepted, Fault, File};
use dl_tree::Tree;
use dl_verdict::check;
use std::alloc::Global;

/// A file that was accepted, and how much it has.
#[derive(Drop)]
pub struct Checked {
    pub file: File,
    pub counts: Accepted,
}

/// How much the file has that the tree means, where it has no fault, or else the tree's first fault: of form (10), of names
/// and sorts (11 to 16, 33), of worlds (20 to 24), of obligations and proofs (30 to 33). Want of memory may come in the place of
/// either.
pub fn check_tree(alloc: Global, tree: Tree) -> Result<Accepted, Fault>
    ensures { IsAnswered tree result }
{
    match checked_file(alloc, tree) {
        Ok(checked) => Ok(only_counts(checked)),
        Err(fault) => Err(fault),
    }
}

/// The file that the tree means, with its counts, where it has no fault. Else the answer is that of [`check_tree`].
pub fn checked_file(alloc: Global, tree: Tree) -> Result<Checked, Fault>
    ensures { IsChecked tree result }
{
    match read_file(alloc, tree) {
        Ok(file) => check_file(alloc, file),
        Err(fault) => Err(fault),
    }
}

/// What a file is answered that was read.
fn check_file(alloc: Global, file: File) -> Result<Checked, Fault>
    requires { FileIsFormed file }
    ensures { IsCheckedFile file result }
{
    match check(alloc, &file) {
        Ok(counts) => Ok(Checked { file, counts }),
        Err(fault) => {
            drop(file);
            Err(fault)
        }
    }
}

/// The counts of a file that was accepted.
fn only_counts(checked: Checked) -> Accepted
    ensures { result ≡ checked.counts }
{
    let Checked { file, counts } = checked;
    drop(file);
    counts
}
