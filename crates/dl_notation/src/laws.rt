//! What the first fault of a file is, on small files. Each law is the contract of a function that does nothing.

ghost use Rattle.std.specs.Prelude.{◌≡◌, List, Some, None};
ghost use Rattle.dl_tree.specs.declared.tree.Tree.{Tree};
ghost use Rattle.dl_forms.specs.declared.position.Position.{Position};
ghost use Rattle.dl_forms.specs.Context.{Text, Context, is_among};
ghost use Rattle.dl_forms.specs.Judge.{OfNames, fault};
ghost use Rattle.dl_notation.specs.Judge.{file_fault};
ghost use Rattle.dl_notation.specs.Examples.{bound_elsewhere, column, counter, declared_twice, first_outside, named_early, names_missing, no_protocol_known, no_zero, of_itself, proved_twice, shadowed_local, updated_twice};

/// Small files of nodes, sorts, protocols, labels, hooks and worlds, each with its first fault of names and sorts.
pub fn faults_of_items_compute()
    ensures unknown { file_fault no_protocol_known ≡ Some (11, column 29) }
    ensures of_itself { file_fault of_itself ≡ Some (11, column 38) }
    ensures twice { file_fault declared_twice ≡ Some (12, column 26) }
    ensures updated_twice { file_fault updated_twice ≡ Some (12, column 84) }
    ensures shadow { file_fault bound_elsewhere ≡ Some (13, column 78) }
    ensures no_zero { file_fault no_zero ≡ Some (14, column 28) }
    ensures outside { file_fault first_outside ≡ Some (14, column 48) }
    ensures arity { file_fault names_missing ≡ Some (15, column 82) }
{}

/// The same of a procedure and of proofs.
pub fn faults_of_programs_compute()
    ensures shadow { file_fault shadowed_local ≡ Some (13, column 75) }
    ensures twice { file_fault proved_twice ≡ Some (12, column 119) }
    ensures early { file_fault named_early ≡ Some (11, column 120) }
{}

/// The counter has no fault of form, names or sorts.
pub fn faultless_file_computes()
    ensures { file_fault counter ≡ None }
{}

/// Of the names that a quantifier may not bind it matters which they are, and not how they are listed.
pub fn taken_names_are_a_set()
    ensures { (c : Context) (taken : List Text) (tree : Tree) (q : Position) → ((name : Text) → is_among name c.taken ≡ is_among name taken) →
        fault tree (OfNames c) q ≡ fault tree (OfNames (record c { taken = taken })) q }
{}
