//! Programs are safe: where the obligations of a file are valid, every run of it is, with any number of programs and free nodes.
//!
//! Each law is the contract of a function that does nothing. The obligations are sequents: those of protocols and invariants are
//! `dl_inv`'s, those of procedures and of the deployment `dl_triples`'s.
#![tactic(auto)]

ghost use Rattle.std.specs.Prelude.{◌≡◌, ℕ, ◌<◌, pos, false, true, List, Some, length};
ghost use Rattle.std.specs.List.{AllByRecursion as Each};
ghost use Rattle.dl_term.specs.declared.syntax.Formula.{Formula};
ghost use Rattle.dl_term.specs.Meaning.{holds};
ghost use Rattle.dl_term.specs.Names.{Names};
ghost use Rattle.dl_term.specs.State.{State};
ghost use Rattle.dl_model.specs.Block.{Block};
ghost use Rattle.dl_model.specs.declared.file.Decls.{Decls};
ghost use Rattle.dl_model.specs.declared.file.Program.{Program};
ghost use Rattle.dl_model.specs.Formed.{proc_variables, file_bound, AreDistinct, IsFileFormula, BlockIsFormed, IsFormed};
ghost use Rattle.dl_model.specs.Lookup.{proc_at, program_of};
ghost use Rattle.dl_model.specs.Machine.{entry_names};
ghost use Rattle.dl_model.specs.Safe.{EachRunIsSafe};
ghost use Rattle.dl_model.specs.Sorts.{has};
ghost use Rattle.dl_model.specs.States.{first_state};
ghost use Rattle.dl_model.specs.Worlds.{KeepsWorlds};
ghost use Rattle.dl_inv.specs.Duties.{duties_of as duties_of_states};
ghost use Rattle.dl_inv.specs.Taken.{IsMet as IsMetBelow};
ghost use Rattle.dl_sound.specs.Examples.{whole_game};
ghost use Rattle.dl_sound.specs.Obligations.{truth, ready, ProcObligations};
ghost use Rattle.dl_sequent.specs.declared.duty.Duty.{Duty};
ghost use Rattle.dl_sequent.specs.Clean.{IsClean};
ghost use Rattle.dl_triples.specs.Points.{pre_of};
ghost use Rattle.dl_triples.specs.Duties.{duties_of};
ghost use Rattle.dl_triples.specs.Obligations.{sequent_of};
ghost use Rattle.dl_triples.specs.Taken.{IsMet, MayTake, names_taken, own_names};

/// Where each obligation of the procedures and of the deployment that isn't waived is valid, for some names that it may take, all
/// of them, the waived ones included, say of the model what they mean.
pub fn obligations_of_programs_mean()
    ensures procs { (decls : Decls) → IsFormed decls → Each (IsMet decls) (duties_of decls) → (proc : ℕ) → proc < length decls.procs → ProcObligations decls proc }
    ensures deployed { (decls : Decls) → IsFormed decls → Each (IsMet decls) (duties_of decls) → (node : ℕ) (program : Program) → program_of decls node ≡ Some program →
        holds (proc_at decls.procs program.proc).pre (entry_names (proc_at decls.procs program.proc) (pos node) program.constants) (first_state decls.inst) ≡ true }
{}

/// Where each obligation of a formed file that keeps to its worlds is valid, every run is safe, with any number of programs and free
/// nodes at once: each state meets the coherences of the composed world and the invariants, each program send its guard and the
/// hooks of the composed world, and each program that ended its postcondition.
pub fn programs_are_safe()
    ensures { (decls : Decls) → IsFormed decls → KeepsWorlds decls → Each (IsMetBelow decls) (duties_of_states decls) → Each (IsMet decls) (duties_of decls) → EachRunIsSafe decls }
{}

/// Where what a block asks for holds, and no tick stops on the way, the annotation of its first point holds when the block comes
/// to it, or at its end what is to hold there.
pub fn asked_is_ready()
    ensures { (decls : Decls) (proc : ℕ) (block : Block) (after : Formula) (names : Names) (state : State) → BlockIsFormed decls proc (proc_at decls.procs proc) block →
        IsFileFormula decls (proc_variables (proc_at decls.procs proc)) after → holds (pre_of block after) names state ≡ true → ready block (truth after) names state ≡ true }
{}

/// As many distinct names as an obligation of a formed file takes may be taken, where none is one of its variables and no
/// quantifier of the file binds one.
pub fn file_names_may_be_taken()
    ensures { (decls : Decls) → IsFormed decls → (duty : Duty) (names : List ℕ) → length names ≡ names_taken decls duty → AreDistinct names →
        Each (λ name. has (own_names decls duty) name ≡ false) names → Each (λ name. has (file_bound decls) name ≡ false) names → MayTake decls duty names }
{}

/// With such names each obligation of a formed file is a clean sequent.
pub fn obligations_are_clean()
    ensures { (decls : Decls) → IsFormed decls → Each (λ duty. (names : List ℕ) → length names ≡ names_taken decls duty → AreDistinct names →
        Each (λ name. has (own_names decls duty) name ≡ false) names → Each (λ name. has (file_bound decls) name ≡ false) names → IsClean (sequent_of decls duty names)) (duties_of decls) }
{}

/// The premises of [`programs_are_safe`] can be met: by a file with each kind of command.
pub fn premises_can_be_met()
    ensures formed { IsFormed whole_game }
    ensures worlds { KeepsWorlds whole_game }
    ensures states { Each (IsMetBelow whole_game) (duties_of_states whole_game) }
    ensures programs { Each (IsMet whole_game) (duties_of whole_game) }
    ensures safe { EachRunIsSafe whole_game }
{}
