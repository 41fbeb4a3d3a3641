//! What formed declarations give, and what the definitions come to on small sequents.

ghost use Rattle.std.specs.Prelude.{◌≡◌, pos, true, false, Some, None, [], ◌∷◌};
ghost use Rattle.dl_term.specs.declared.syntax.Lab.TheVariants.{Own, At};
ghost use Rattle.dl_term.specs.declared.syntax.Part.TheVariants as part;
ghost use Rattle.dl_term.specs.declared.syntax.Term.{Num, Word, Var, Field, Len, Msg};
ghost use Rattle.dl_term.specs.declared.syntax.Formula.{True, False, Eq, Lt, Le, Not, And, Or, Implies, All, Exists};
ghost use Rattle.dl_model.specs.declared.protocol.Instances.{Instances};
ghost use Rattle.dl_model.specs.Formed.{InstancesAreFormed};
ghost use Rattle.dl_model.specs.Examples.{bool, int, seen};
ghost use Rattle.dl_sequent.specs.Bounds.{one_number, bounds_of, is_node_term};
ghost use Rattle.dl_sequent.specs.Clean.{is_clean};
ghost use Rattle.dl_sequent.specs.Examples.{inst, claim, counted, counted_then, seen_before_send, seen_before_receive, mine, open_claim};
ghost use Rattle.dl_sequent.specs.Grounds.{IsGrounded};
ghost use Rattle.dl_sequent.specs.Plain.{is_plain_sequent};

/// Formed instances are grounded: the sort of each field holds 0.
pub fn formed_is_grounded()
    ensures { (inst : Instances) → InstancesAreFormed inst → IsGrounded inst }
{}

/// Obligations that are plain, and others that need a script.
pub fn obligations_compute()
    ensures count_at_first { is_plain_sequent (claim [] (All 42 (Le (Num (pos 0)) (Num (pos 0))))) ≡ true }
    ensures count_after_a_send { is_plain_sequent (claim (counted ∷ True ∷ []) counted_then) ≡ false }
    ensures mail_after_a_send { is_plain_sequent (claim (seen ∷ True ∷ []) seen_before_send) ≡ true }
    ensures mail_after_a_receive { is_plain_sequent (claim (seen ∷ mine ∷ True ∷ []) seen_before_receive) ≡ false }
{}

/// Each reason for a goal to be plain, and what is none.
pub fn plain_computes()
    ensures fact { is_plain_sequent (claim (open_claim ∷ []) open_claim) ≡ true }
    ensures part { is_plain_sequent (claim (And True (And open_claim mine) ∷ []) open_claim) ≡ true }
    ensures part_of_or { is_plain_sequent (claim (Or open_claim open_claim ∷ []) open_claim) ≡ false }
    ensures itself { is_plain_sequent (claim [] (Eq (Var 40) (Var 40))) ≡ true }
    ensures by_value { is_plain_sequent (claim [] (Le (Word 19 (pos 1)) (Num (pos 1)))) ≡ true }
    ensures below { is_plain_sequent (claim [] (Lt (Num (pos 1)) (Num (pos 1)))) ≡ false }
    ensures denied { is_plain_sequent (claim [] (Not (Eq (Num (pos 1)) (Num (pos 0))))) ≡ true }
    ensures denied_twice { is_plain_sequent (claim [] (Not (Not (Eq (Num (pos 1)) (Num (pos 1)))))) ≡ false }
    ensures both { is_plain_sequent (claim [] (And True open_claim)) ≡ false }
    ensures either { is_plain_sequent (claim [] (Or open_claim True)) ≡ true }
    ensures false_left { is_plain_sequent (claim [] (Implies (Not (Eq (Num (pos 1)) (Num (pos 1)))) open_claim)) ≡ true }
    ensures true_left { is_plain_sequent (claim [] (Implies (Eq (Num (pos 1)) (Num (pos 1))) open_claim)) ≡ false }
    ensures left_is_a_fact { is_plain_sequent (claim [] (Implies open_claim (Or False open_claim))) ≡ true }
    ensures some { is_plain_sequent (claim [] (Exists 42 True)) ≡ false }
{}

/// The bounds of each kind of term.
pub fn bounds_compute()
    ensures number { bounds_of inst (claim [] True) (Num (pos 5)) ≡ Some (one_number (pos 5)) }
    ensures variable { bounds_of inst (claim [] True) (Var 40) ≡ Some bool }
    ensures unknown { bounds_of inst (claim [] True) (Var 39) ≡ None }
    ensures field { bounds_of inst (claim [] True) (Field (At 0) 0 (Var 40)) ≡ Some bool }
    ensures own_field { bounds_of inst (claim [] True) (Field Own 0 (Var 40)) ≡ None }
    ensures length { bounds_of inst (claim [] True) (Len (At 0)) ≡ None }
    ensures id { bounds_of inst (claim [] True) (Msg 41 part.Id) ≡ None }
    ensures from { bounds_of inst (claim [] True) (Msg 41 part.From) ≡ Some bool }
    ensures live { bounds_of inst (claim [] True) (Msg 41 part.Live) ≡ Some bool }
    ensures argument { bounds_of inst (claim [] True) (Msg 41 (part.Arg 0)) ≡ Some int }
    ensures past_the_last { bounds_of inst (claim [] True) (Msg 41 (part.Arg 1)) ≡ Some (one_number (pos 0)) }
    ensures node { is_node_term inst (claim [] True) (Num (pos 1)) ≡ true }
    ensures no_node { is_node_term inst (claim [] True) (Num (pos 2)) ≡ false }
{}

/// Sequents that are clean, and others that aren't.
pub fn clean_computes()
    ensures clean { is_clean (claim (seen ∷ mine ∷ []) seen_before_receive) ≡ true }
    ensures bound_in_turn { is_clean (claim [] (And counted counted)) ≡ true }
    ensures bound_within { is_clean (claim [] (All 42 counted)) ≡ false }
    ensures binds_a_variable { is_clean (claim [] (All 40 True)) ≡ false }
    ensures binds_a_message { is_clean (claim [] (Exists 41 True)) ≡ false }
    ensures unknown { is_clean (claim [] (Eq (Var 39) (Num (pos 0)))) ≡ false }
    ensures a_message_for_a_variable { is_clean (claim [] (Eq (Var 41) (Num (pos 0)))) ≡ false }
{}
