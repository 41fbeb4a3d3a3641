//! The law of replay.

ghost use Rattle.std.specs.Prelude.{◌≡◌, ℕ, true, List, ◌∷◌, None, Some};
ghost use Rattle.dl_term.specs.declared.syntax.Term.{Term};
ghost use Rattle.dl_term.specs.declared.syntax.Formula.{Formula};
ghost use Rattle.dl_model.specs.Sorts.{has};
ghost use Rattle.dl_subst.specs.Substitution.{substituted, message_substituted, replaced};
ghost use Rattle.dl_sequent.specs.Clean.{knows, is_told_apart};
ghost use Rattle.dl_kernel.specs.declared.parts.Equation.{Equation};
ghost use Rattle.dl_kernel.specs.Steps.{put_node, put_message, put_term, parts_of};
ghost use Rattle.dl_tree.specs.declared.tree.Place.{Place};
ghost use Rattle.dl_model.specs.declared.protocol.Instances.{Instances};
ghost use Rattle.dl_model.specs.declared.sequent.Sequent.{Sequent};
ghost use Rattle.dl_model.specs.Formed.{InstancesAreFormed};
ghost use Rattle.dl_model.specs.Sequents.{IsValid};
ghost use Rattle.dl_sequent.specs.declared.script.Rule.{Rule};
ghost use Rattle.dl_kernel.specs.Outcome.{fault};
ghost use Rattle.dl_kernel.specs.Examples.{RulesCompute};

/// A sequent is valid where none of the rules of a script for it is refused.
pub fn scripts_prove()
    ensures { (inst : Instances) (rule : Rule) (place : Place) (s : Sequent) → InstancesAreFormed inst → fault inst rule place s ≡ None → IsValid inst s }
{}

/// Each rule on an example that it fits, and on one that it doesn't: what the definitions compute there.
pub fn rules_compute()
    ensures { RulesCompute }
{}

/// Where names are told apart, as in a clean sequent, no rule captures one: what a rule puts for a bound node, for a
/// message or for a term whose names are known is the changed formula, and it tells its names apart again.
pub fn nothing_is_captured()
    ensures nodes { (vars messages : List ℕ) (sym : ℕ) (body : Formula) (t : Term) → is_told_apart (sym ∷ vars) messages body ≡ true → knows vars messages t ≡ true →
        (put_node sym body t ≡ Some (substituted body sym t)) × (is_told_apart vars messages (substituted body sym t) ≡ true) }
    ensures messages { (vars messages : List ℕ) (msg other : ℕ) (body : Formula) → is_told_apart vars (msg ∷ messages) body ≡ true → has messages other ≡ true →
        (put_message msg body other ≡ Some (message_substituted body msg (parts_of other))) × (is_told_apart vars messages (message_substituted body msg (parts_of other)) ≡ true) }
    ensures terms { (vars messages : List ℕ) (e : Equation) (f : Formula) → is_told_apart vars messages f ≡ true → knows vars messages e.left ≡ true → knows vars messages e.right ≡ true →
        (put_term e f ≡ Some (replaced f e.left e.right)) × (is_told_apart vars messages (replaced f e.left e.right) ≡ true) }
{}
