//! Laws over the model: where the obligations of a file are valid, its runs are safe.
//!
//! Each law is the contract of a function that does nothing. The obligations of protocols and invariants are the sequents of
//! `dl_inv`. Those of programs stand here by what they mean.
#![tactic(auto)]

ghost use Rattle.std.specs.Prelude.{◌≡◌, ℕ, pos, Bool, false, List, [], ◌∷◌};
ghost use Rattle.std.specs.List.{AllByRecursion as Each};
ghost use Rattle.dl_term.specs.declared.syntax.Formula.{Formula};
ghost use Rattle.dl_term.specs.Meaning.{holds};
ghost use Rattle.dl_term.specs.Names.{Names};
ghost use Rattle.dl_term.specs.State.{State, field_at};
ghost use Rattle.dl_model.specs.declared.file.Decls.{Decls};
ghost use Rattle.dl_model.specs.declared.history.Entry.{Entry};
ghost use Rattle.dl_model.specs.declared.protocol.Instances.{Instances};
ghost use Rattle.dl_model.specs.Formed.{IsFormed};
ghost use Rattle.dl_model.specs.Histories.{HasProgram, IsSoupRun, condensed};
ghost use Rattle.dl_model.specs.Runs.{Config, IsRun};
ghost use Rattle.dl_model.specs.Safe.{EachFreeRunMeetsInvariants, EachRunIsSafe};
ghost use Rattle.dl_model.specs.Sorts.{has};
ghost use Rattle.dl_model.specs.Spoken.{bound_names};
ghost use Rattle.dl_model.specs.Steps.{Step, after_step, label_of_step};
ghost use Rattle.dl_model.specs.Words.{me_word};
ghost use Rattle.dl_model.specs.Worlds.{KeepsWorlds};
ghost use Rattle.dl_sound.specs.Examples.{false_guard, false_invariant, false_post, sends, takes, talking, whole_game};
ghost use Rattle.dl_sound.specs.Obligations.{FileObligations, StateObligations};
ghost use Rattle.dl_model.specs.Examples.{counter};
ghost use Rattle.dl_model.specs.Sequents.{IsValid};
ghost use Rattle.dl_sequent.specs.declared.duty.Duty.TheVariants.{InitInvariant, StepInvariant};
ghost use Rattle.dl_inv.specs.Duties.{duties_of};
ghost use Rattle.dl_inv.specs.Obligations.{sequent_of};
ghost use Rattle.dl_inv.specs.Taken.{IsMet};
ghost use Rattle.dl_inv.specs.Touched.{none_live, formula_touched};
ghost use Rattle.dl_sound.specs.Touched.{Known, touch_of};

/// Where each obligation of protocols and invariants that isn't waived is valid, for some names that it may take, each
/// coherence of the composed world and each invariant holds after every run of free nodes, and in the first state.
pub fn invariants_hold()
    ensures { (decls : Decls) → IsFormed decls → KeepsWorlds decls → Each (IsMet decls) (duties_of decls) → EachFreeRunMeetsInvariants decls }
{}

/// Where each of these obligations is valid, all of them, the waived ones included, say of the model what they mean: the
/// coherences and invariants hold in the first state, and each step keeps them.
pub fn obligations_mean()
    ensures { (decls : Decls) → IsFormed decls → Each (IsMet decls) (duties_of decls) → StateObligations decls }
{}

/// Where the obligations of protocols and invariants hold by what they mean, each coherence of the composed world and each
/// invariant holds after every run of free nodes, and in the first state.
pub fn invariants_are_kept()
    ensures { (decls : Decls) → IsFormed decls → KeepsWorlds decls → StateObligations decls → EachFreeRunMeetsInvariants decls }
{}

/// Where every obligation is valid, every run is safe, with any number of programs and free nodes at once.
pub fn programs_safe()
    ensures { (decls : Decls) → IsFormed decls → KeepsWorlds decls → FileObligations decls → EachRunIsSafe decls }
{}

/// A step keeps each formula that it does not touch, so an obligation that is waived is valid.
pub fn untouched_kept()
    ensures { (inst : Instances) (state : State) (mover own : ℕ) (spares_me : Bool) (step : Step) (f : Formula) (names : Names) →
        formula_touched (touch_of inst state own spares_me step) none_live f ≡ false → has (bound_names f) me_word ≡ false →
        Known own (label_of_step step) (touch_of inst state own spares_me step) mover none_live names state →
        holds f names state ≡ holds f names (after_step inst state mover step) }
{}

/// A list of events leads to one configuration.
pub fn run_decides()
    ensures { (decls : Decls) (entries : List Entry) (a b : Config) → IsRun decls entries a → IsRun decls entries b → a ≡ b }
{}

/// A history of nodes with programs is a run exactly where it is a soup run of labels of the
/// composed world in which each node's entries are a trace of its machine.
pub fn run_is_soup_run()
    ensures there { (decls : Decls) (entries : List Entry) (after : Config) → Each (HasProgram decls) entries → IsRun decls entries after → IsSoupRun decls entries after.state }
    ensures back { (decls : Decls) (entries : List Entry) (after : State) → Each (HasProgram decls) entries → IsSoupRun decls entries after → (end : Config) × IsRun decls entries end × (end.state ≡ after) }
{}

/// A run without its waits is a run, to the same state.
pub fn waits_are_idle()
    ensures { (decls : Decls) (entries : List Entry) (after : Config) → IsRun decls entries after → (end : Config) × IsRun decls (condensed entries) end × (end.state ≡ after.state) }
{}

/// The premises of [`invariants_hold`] can be met: each obligation of the counter is valid, so its counts are never negative.
pub fn counter_is_proved()
    ensures formed { IsFormed counter }
    ensures worlds { KeepsWorlds counter }
    ensures met { Each (IsMet counter) (duties_of counter) }
    ensures holds { EachFreeRunMeetsInvariants counter }
{}

/// The premises of [`programs_safe`] can be met: by a file with each kind of command, which has a run of two events.
pub fn premises_can_be_met()
    ensures formed { IsFormed whole_game }
    ensures worlds { KeepsWorlds whole_game }
    ensures obligations { FileObligations whole_game }
    ensures run { (after : Config) × IsRun whole_game (sends ∷ takes ∷ []) after × (field_at after.state 0 0 (pos 0) (pos 0) ≡ pos 1) }
{}

/// Their conclusions are not true of every file: a false postcondition, a send whose guard is false, and a false invariant
/// each show in some run. The obligations of the false invariant are not valid.
pub fn unsafe_runs_are_seen()
    ensures post { EachRunIsSafe false_post → ⊥ }
    ensures guard { EachRunIsSafe false_guard → ⊥ }
    ensures invariant { EachFreeRunMeetsInvariants false_invariant → ⊥ }
    ensures unmet { Each (IsMet false_invariant) (duties_of false_invariant) → ⊥ }
{}

/// The names of an obligation must be distinct. With one name for sender and addressee each obligation of this file is valid,
/// and a run breaks its invariant.
pub fn names_must_differ()
    ensures obligations { duties_of talking ≡ InitInvariant 0 ∷ StepInvariant 0 0 0 false ∷ [] }
    ensures first { IsMet talking (InitInvariant 0) }
    ensures with_one_name { IsValid talking.inst (sequent_of talking (StepInvariant 0 0 0 false) (40 ∷ 40 ∷ [])) }
    ensures broken { EachFreeRunMeetsInvariants talking → ⊥ }
{}
