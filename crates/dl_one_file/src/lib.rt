//! A tree means at most one file.
//!
//! Two files that are written as one tree are equal, where both are formed: their names, their declarations, their proofs
//! with the scripts, their items and every place.
//!
//! What stands for nothing is written by an empty symbol, and an unknown label by the word `int`. So a file that names what isn't
//! there could be written as another one is. A plain tree has no such names: no symbol of it is empty, and no part of a form is
//! `(len int)`. A tree without a fault of names and sorts is plain.
//!
//! Each law is the contract of a function that does nothing.
#![tactic(auto)]

ghost use Rattle.std.specs.Prelude.{◌≡◌, true, None};
ghost use Rattle.dl_tree.specs.declared.tree.Tree.{Tree};
ghost use Rattle.dl_notation.specs.declared.role.ListRole.TheVariants as role;
ghost use Rattle.dl_notation.specs.Environment.{nothing};
ghost use Rattle.dl_notation.specs.Judge.{OfNames, list_fault};
ghost use Rattle.dl_file.specs.declared.file.File.{File};
ghost use Rattle.dl_means.specs.Means.{Means};
ghost use Rattle.dl_faults.specs.Given.{FileIsFormed};
ghost use Rattle.dl_one_file.specs.Plain.{is_plain_tree};

/// A plain tree means at most one file among those that are formed.
pub fn plain_trees_mean_one_file()
    ensures { (tree : Tree) (a b : File) → is_plain_tree tree ≡ true → Means tree a → Means tree b → FileIsFormed a → FileIsFormed b → a ≡ b }
{}

/// A tree without a fault of names and sorts is plain.
pub fn faultless_trees_are_plain()
    ensures { (tree : Tree) → list_fault tree (OfNames nothing) role.File ≡ None → is_plain_tree tree ≡ true }
{}

/// A tree without a fault of names and sorts means at most one file among those that are formed.
pub fn faultless_trees_mean_one_file()
    ensures { (tree : Tree) (a b : File) → list_fault tree (OfNames nothing) role.File ≡ None → Means tree a → Means tree b → FileIsFormed a → FileIsFormed b → a ≡ b }
{}
