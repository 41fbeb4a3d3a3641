//! What a text can be refused for. The law is the contract of a function that does nothing.

ghost use Rattle.std.specs.Prelude.{◌≡◌, ◌⊎◌, ℕ, true, List, Option, Some};
ghost use Rattle.dl_tree.specs.declared.tree.Place.{Place};
ghost use Rattle.dl_tree.specs.declared.tree.Tree.{Tree};
ghost use Rattle.dl_tree.specs.Faults.{fault_of};
ghost use Rattle.dl_check.specs.Answers.{IsRefused};
ghost use Rattle.dl_check.specs.Rules.{is_text_rule, is_tree_rule};

/// A text that spells no tree is refused for one of the rules 1 to 6, and a tree for one of forms (10), of names and sorts (11
/// to 16), of worlds (20 to 24), of obligations and their proofs (30 to 32), or of sizes (33). None is refused for a form that
/// isn't built yet (9): every form of the notation is.
pub fn refusals_are_by_rule()
    ensures texts { (text : List ℕ) (rule : ℕ) (place : Place) → fault_of text ≡ Some (rule, place) → is_text_rule rule ≡ true }
    ensures trees { (tree : Tree) (rule : ℕ) (place : Place) (what : Option Tree) → IsRefused tree rule place what → is_tree_rule rule ≡ true }
    ensures built { (text : List ℕ) (tree : Tree) (place : Place) (what : Option Tree) → (fault_of text ≡ Some (9, place)) ⊎ IsRefused tree 9 place what → ⊥ }
{}
