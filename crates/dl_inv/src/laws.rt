//! What holds of the obligations whatever the file, and what they come to on small files.

ghost use Rattle.std.specs.Prelude.{◌≡◌, ◌↔◌, ℕ, pos, true, false, Some, None, List, [], ◌∷◌, length};
ghost use Rattle.std.specs.List.{AllByRecursion as Each};
ghost use Rattle.dl_term.specs.declared.syntax.Lab.TheVariants.{Own, At};
ghost use Rattle.dl_term.specs.declared.syntax.Term.{Var};
ghost use Rattle.dl_term.specs.declared.syntax.Formula.{True};
ghost use Rattle.dl_model.specs.declared.file.World.{World};
ghost use Rattle.dl_model.specs.declared.file.Decls.{Decls};
ghost use Rattle.dl_model.specs.Examples.{counter, mail, voting};
ghost use Rattle.dl_model.specs.Words.{to_word};
ghost use Rattle.dl_model.specs.Lookup.{world_at};
ghost use Rattle.dl_model.specs.Worlds.{Injects};
ghost use Rattle.dl_sequent.specs.declared.duty.Duty.TheVariants.{InitProtocol, InitInvariant, StepProtocol, StepInvariant};
ghost use Rattle.dl_model.specs.Formed.{AreDistinct, IsFormed, file_bound};
ghost use Rattle.dl_model.specs.Sorts.{has};
ghost use Rattle.dl_sequent.specs.declared.duty.Duty.{Duty};
ghost use Rattle.dl_sequent.specs.Clean.{IsClean};
ghost use Rattle.dl_inv.specs.Taken.{MayTake, captured, names_taken};
ghost use Rattle.dl_inv.specs.Duties.{duties_of};
ghost use Rattle.dl_inv.specs.Examples.{at_first, asked_query, counted, counted_first, counted_then, fact, fits, guard, guard_in_step, inc, seen_first, seen_receive, seen_send, voting_asked};
ghost use Rattle.dl_inv.specs.Facts.{injects};
ghost use Rattle.dl_inv.specs.Obligations.{sequent_of};
ghost use Rattle.dl_inv.specs.Steps.{in_step};

/// The test of injection tells whether a world can be injected into another one.
pub fn injection_is_told()
    ensures told { (decls : Decls) (small large : World) → (injects decls small large ≡ true) ↔ Injects decls small large }
    ensures by_labels { injects voting (world_at voting 0) (world_at voting 1) ≡ false }
    ensures not_covered { injects voting (world_at voting 1) (world_at voting 0) ≡ true }
{}

/// As many distinct names as an obligation takes are names that it may take, where no quantifier of the file binds one.
pub fn file_names_may_be_taken()
    ensures { (decls : Decls) (duty : Duty) (names : List ℕ) → length names ≡ names_taken decls duty → AreDistinct names → Each (λ name. has (file_bound decls) name ≡ false) names → MayTake decls duty names }
{}

/// With names that it may take no name is captured in an obligation.
pub fn nothing_is_captured()
    ensures { (decls : Decls) (duty : Duty) (names : List ℕ) → MayTake decls duty names → captured decls duty names ≡ false }
{}

/// Each obligation of formed declarations is a clean sequent, with all names that it may take.
pub fn obligations_are_clean()
    ensures { (decls : Decls) → IsFormed decls → Each (λ duty. (names : List ℕ) → MayTake decls duty names → IsClean (sequent_of decls duty names)) (duties_of decls) }
{}

/// The obligations of the counter, of the mail file and of the vote and the query, with what is waived.
pub fn obligations_compute()
    ensures counter { duties_of counter ≡ InitProtocol 0 ∷ StepProtocol 0 0 false ∷ InitInvariant 0 ∷ StepInvariant 0 0 0 false ∷ [] }
    ensures protocol_first { sequent_of counter (InitProtocol 0) [] ≡ at_first (Some 0) counted_first }
    ensures protocol_step { sequent_of counter (StepProtocol 0 0 false) (40 ∷ 41 ∷ []) ≡ inc (Some 0) (fact 3 (counted Own) ∷ fact 10 True ∷ fact 11 (fits Own) ∷ []) (counted_then Own) }
    ensures invariant_first { sequent_of counter (InitInvariant 0) [] ≡ at_first None counted_first }
    ensures invariant_step { sequent_of counter (StepInvariant 0 0 0 false) (40 ∷ 41 ∷ []) ≡ inc None (fact 23 (counted (At 0)) ∷ fact 25 (counted (At 0)) ∷ fact 10 True ∷ fact 11 (fits (At 0)) ∷ fact 12 True ∷ []) (counted_then (At 0)) }
    ensures mail { duties_of (mail (pos 0)) ≡ InitInvariant 0 ∷ StepInvariant 0 0 0 false ∷ StepInvariant 0 0 0 true ∷ [] }
    ensures mail_first { sequent_of (mail (pos 0)) (InitInvariant 0) [] ≡ at_first None seen_first }
    ensures mail_send { sequent_of (mail (pos 0)) (StepInvariant 0 0 0 false) (40 ∷ 42 ∷ 43 ∷ []) ≡ seen_send }
    ensures mail_receive { sequent_of (mail (pos 0)) (StepInvariant 0 0 0 true) (40 ∷ 41 ∷ []) ≡ seen_receive }
    ensures voting { duties_of voting_asked ≡ InitInvariant 0 ∷ StepInvariant 0 0 0 false ∷ StepInvariant 0 1 0 false ∷ [] }
    ensures voting_query { sequent_of voting_asked (StepInvariant 0 1 0 false) (40 ∷ 41 ∷ []) ≡ asked_query }
    ensures guard { in_step (At 0) (Var 40) to_word (Var 41) (30 ∷ []) (Var 42 ∷ []) guard ≡ guard_in_step }
{}
