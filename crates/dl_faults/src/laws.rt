//! What it means that nothing is wrong. Each law is the contract of a function that does nothing.

ghost use Rattle.std.specs.Prelude.{◌≡◌, ◌↔◌, ◌++◌, false, List, [], None, Some, codes};
ghost use Rattle.std.specs.List.{AllByRecursion as Each};
ghost use Rattle.dl_model.specs.Formed.{IsFormed};
ghost use Rattle.dl_model.specs.Safe.{EachFreeRunMeetsInvariants, EachRunIsSafe};
ghost use Rattle.dl_model.specs.Worlds.{KeepsWorlds};
ghost use Rattle.dl_inv.specs.Duties.{duties_of as duties_of_states};
ghost use Rattle.dl_inv.specs.Taken.{IsMet as StateIsMet};
ghost use Rattle.dl_triples.specs.Duties.{duties_of as duties_of_programs};
ghost use Rattle.dl_triples.specs.Taken.{IsMet as ProgramIsMet};
ghost use Rattle.dl_file.specs.declared.file.File.{File};
ghost use Rattle.dl_faults.specs.declared.wrong.Wrong.{Wrong};
ghost use Rattle.dl_faults.specs.Wrong.{at, naming, earliest, joined, GoesFirst};
ghost use Rattle.dl_faults.specs.Worlds.{world_fault};
ghost use Rattle.dl_faults.specs.Obligations.{obligation_fault};
ghost use Rattle.dl_faults.specs.Verdict.{counts_of, first_fault};
ghost use Rattle.dl_faults.specs.Shown.{shown, word};
ghost use Rattle.dl_faults.specs.declared.wrong.Named.TheVariants.{Hook, Label, Obligation};
ghost use Rattle.dl_sequent.specs.declared.duty.Duty.TheVariants.{Got, StepProtocol, StepInvariant};
ghost use Rattle.dl_faults.specs.Trees.{place};
ghost use Rattle.dl_faults.specs.Examples.{proved, unproved, unfinished, extra, coreless, uncovered, outside, lacking, duel, step, duel_step};
ghost use Rattle.dl_faults.specs.ProgramExamples.{played, noted, said, framed, called, entered, promised, second_point};
ghost use Rattle.dl_faults.specs.Given.{FileIsFormed};

/// What is answered of several things that are wrong: the one that goes before all that stand in front of it in the list,
/// and that none behind it goes before. There is none just where nothing is wrong. Of a list in two parts it is the
/// earlier one of those of the parts.
pub fn earliest_goes_first()
    ensures none { (wrongs : List Wrong) → (earliest wrongs ≡ None) ↔ (wrongs ≡ []) }
    ensures first { (wrongs : List Wrong) (wrong : Wrong) → earliest wrongs ≡ Some wrong → GoesFirst wrongs wrong }
    ensures parts { (front behind : List Wrong) → earliest (front ++ behind) ≡ joined (earliest front) (earliest behind) }
{}

/// A formed file keeps to its worlds just where nothing is wrong with them.
pub fn worlds_are_kept()
    ensures { (file : File) → IsFormed file.decls → (world_fault file ≡ None) ↔ KeepsWorlds file.decls }
{}

/// Where nothing is wrong with the obligations of a formed file and their proofs, each of its obligations is valid, for some
/// names that it may take: those of protocols and invariants, and those of procedures and the deployment.
pub fn obligations_are_met()
    ensures states { (file : File) → FileIsFormed file → obligation_fault file ≡ None → Each (StateIsMet file.decls) (duties_of_states file.decls) }
    ensures programs { (file : File) → FileIsFormed file → obligation_fault file ≡ None → Each (ProgramIsMet file.decls) (duties_of_programs file.decls) }
{}

/// Where nothing is wrong with a formed file, every run of it is safe: each state meets the coherences of the composed world
/// and the invariants, each program send its guard and the hooks of the composed world, and each program that ended its
/// postcondition.
pub fn faultless_files_are_safe()
    ensures { (file : File) → FileIsFormed file → first_fault file ≡ None → EachRunIsSafe file.decls }
{}

/// Where nothing is wrong with a formed file, each coherence of the composed world and each invariant holds after every run
/// of free nodes, and in the first state.
pub fn faultless_files_keep_invariants()
    ensures { (file : File) → FileIsFormed file → first_fault file ≡ None → EachFreeRunMeetsInvariants file.decls }
{}

/// The first faults of nine small files: the answers are those of an independent reading of the notation.
pub fn faults_compute()
    ensures proved { first_fault proved ≡ None }
    ensures counts { counts_of proved ≡ record { nodes = 1; labels = 1; hooks = 0; invariants = 1; programs = 0; obligations = 2 } }
    ensures unproved { first_fault unproved ≡ Some (naming 30 (place 6 3) (Obligation (StepInvariant 0 0 0 false))) }
    ensures unproved_shown { shown unproved (Obligation (StepInvariant 0 0 0 false)) ≡ Some step }
    ensures unfinished { first_fault unfinished ≡ Some (at 32 (place 8 61)) }
    ensures extra { first_fault extra ≡ Some (at 31 (place 9 3)) }
    ensures coreless { first_fault coreless ≡ Some (at 21 (place 7 30)) }
    ensures uncovered { first_fault uncovered ≡ Some (naming 22 (place 9 3) (Hook 0)) }
    ensures uncovered_shown { shown uncovered (Hook 0) ≡ Some (word (codes "k")) }
    ensures outside { first_fault outside ≡ Some (at 24 (place 9 39)) }
    ensures lacking { first_fault lacking ≡ Some (at 20 (place 9 3)) }
    ensures first_of_two { first_fault duel ≡ Some (naming 30 (place 3 70) (Obligation (StepProtocol 0 0 false))) }
    ensures first_of_two_shown { shown duel (Obligation (StepProtocol 0 0 false)) ≡ Some duel_step }
{}

/// The first faults of seven small files with procedures: the answers are those of an independent reading of the notation.
pub fn faults_of_programs_compute()
    ensures played { first_fault played ≡ None }
    ensures counts { counts_of played ≡ record { nodes = 2; labels = 2; hooks = 1; invariants = 0; programs = 1; obligations = 8 } }
    ensures noted { first_fault noted ≡ Some (at 20 (place 9 98)) }
    ensures said { first_fault said ≡ Some (at 20 (place 9 70)) }
    ensures framed { first_fault framed ≡ Some (naming 23 (place 10 75) (Label 0)) }
    ensures framed_shown { shown framed (Label 0) ≡ Some (word (codes "g")) }
    ensures called { first_fault called ≡ Some (naming 22 (place 10 58) (Hook 0)) }
    ensures entered { first_fault entered ≡ Some (naming 22 (place 11 13) (Hook 0)) }
    ensures promised { first_fault promised ≡ Some (naming 30 (place 9 88) (Obligation (Got 0 2))) }
    ensures promised_shown { shown promised (Obligation (Got 0 2)) ≡ Some second_point }
{}

/// The premises of [`faultless_files_are_safe`] can be met: by the first of the files without procedures and by the first of
/// those with some.
pub fn premises_can_be_met()
    ensures formed { FileIsFormed proved }
    ensures safe { EachRunIsSafe proved.decls }
    ensures keeps { EachFreeRunMeetsInvariants proved.decls }
    ensures formed_with_programs { FileIsFormed played }
    ensures safe_with_programs { EachRunIsSafe played.decls }
{}
