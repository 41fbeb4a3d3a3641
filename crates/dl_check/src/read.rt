//! The file that a tree means.

ghost use Rattle.std.specs.Prelude.{◌≡◌, None, true, IfOk, IfErr};
ghost use Rattle.dl_file.specs.declared.answer.Fault.TheVariants.{Memory};
ghost use Rattle.dl_notation.specs.Judge.{file_fault};
ghost use Rattle.dl_means.specs.Means.{Means};
ghost use Rattle.dl_faults.specs.Given.{FileIsFormed};
ghost use Rattle.dl_check.specs.Reading.{IsRead, IsRight, IsReadingFault};

use crate::judge::judge;
use dl_file::{Fault, File};
use dl_formed_file::file_is_formed;
use dl_forms::Names;
use dl_means::tells;
use dl_read_script::build_file;
use dl_tree::Tree;
use std::alloc::{AllocError, Global};

/// The file that the tree means, or its first fault of form (10), of names and sorts (11 to 16, 33). Want of memory may come in
/// the place of either.
///
/// What the builder gives is looked at before it is answered: that it is what its tree means, and that it is formed. Where it
/// built something else, which no text is known to bring about, want of memory is answered.
pub fn read_file(alloc: Global, tree: Tree) -> Result<File, Fault>
    ensures ok { IfOk result (IsRead tree) }
    ensures err { IfErr result (IsReadingFault tree) }
{
    match judge(alloc, &tree) {
        Ok(()) => built_file(alloc, tree),
        Err(fault) => {
            drop(tree);
            Err(fault)
        }
    }
}

/// The file of a tree without fault.
fn built_file(alloc: Global, tree: Tree) -> Result<File, Fault>
    requires { file_fault tree ≡ None }
    ensures ok { IfOk result (IsRead tree) }
    ensures err { IfErr result (λ fault. fault ≡ Memory) }
{
    match build_file(alloc, tree) {
        Ok(built) => {
            let (names, file) = built;
            if_right(alloc, names, file)
        }
        Err(_) => Err(Fault::Memory),
    }
}

/// The file, where it is right. The names are those that it was built with.
fn if_right(alloc: Global, names: Names, file: File) -> Result<File, Fault>
    ensures ok { IfOk result (λ right. (right ≡ file) × IsRight file) }
    ensures err { IfErr result (λ fault. fault ≡ Memory) }
{
    let right = is_known_right(alloc, &names, &file);
    drop(names);
    if right {
        Ok(file)
    } else {
        drop(file);
        Err(Fault::Memory)
    }
}

/// Whether the file is known to be right. Where memory is wanting, it is not.
fn is_known_right(alloc: Global, names: &Names, file: &File) -> bool
    ensures { result ≡ true → IsRight file.now }
{
    match is_right(alloc, names, file) {
        Ok(right) => right,
        Err(_) => false,
    }
}

/// Whether the file is what its tree means, and formed.
fn is_right(alloc: Global, names: &Names, file: &File) -> Result<bool, AllocError>
    ensures { IfOk result (λ right. right ≡ true → IsRight file.now) }
{
    if !tells(alloc, names, file)? {
        return Ok(false);
    }
    file_is_formed(alloc, file)
}
