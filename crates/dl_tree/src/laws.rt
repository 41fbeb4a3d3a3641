//! Laws of texts and trees.

ghost use Rattle.std.specs.Prelude.{◌≡◌, ℕ, List, None};
ghost use Rattle.dl_tree.specs.declared.tree.Tree.{Tree};
ghost use Rattle.dl_tree.specs.Faults.{fault_of};
ghost use Rattle.dl_tree.specs.Spelling.{Spells};

/// Laws of the definitions, with no effect: a text spells at most one tree, and none where it has
/// a fault.
pub fn one_tree()
    ensures once { (text : List ℕ) (a b : Tree) → Spells text a → Spells text b → a ≡ b }
    ensures faultless { (text : List ℕ) (tree : Tree) → Spells text tree → fault_of text ≡ None }
{}
