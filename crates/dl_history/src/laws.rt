//! Laws of histories. Each is the contract of a function that does nothing.

ghost use Rattle.std.specs.Prelude.{◌≡◌, ℕ, List};
ghost use Rattle.std.specs.List.{AllByRecursion as Each};
ghost use Rattle.dl_term.specs.State.{State};
ghost use Rattle.dl_model.specs.declared.file.Decls.{Decls};
ghost use Rattle.dl_model.specs.declared.history.Entry.{Entry};
ghost use Rattle.dl_model.specs.declared.protocol.Instances.{Instances};
ghost use Rattle.dl_model.specs.Histories.{HasProgram, IsSoupRun, condensed};
ghost use Rattle.dl_model.specs.Runs.{Config, IsRun};
ghost use Rattle.dl_model.specs.States.{first_state};
ghost use Rattle.dl_history.specs.Passed.{state_through, states_past, states_kept};
ghost use Rattle.dl_history.specs.Replayed.{IsFirstFault};

/// A history leads to one configuration.
pub fn run_decides()
    ensures { (decls : Decls) (entries : List Entry) (a b : Config) → IsRun decls entries a → IsRun decls entries b → a ≡ b }
{}

/// A run has no first fault, and a history has at most one.
pub fn fault_decides()
    ensures run { (decls : Decls) (entries : List Entry) (after : Config) (position : ℕ) → IsRun decls entries after → IsFirstFault decls entries position → ⊥ }
    ensures one { (decls : Decls) (entries : List Entry) (a b : ℕ) → IsFirstFault decls entries a → IsFirstFault decls entries b → a ≡ b }
{}

/// The state after a run is the one that its calls and replies make of the first one.
pub fn run_tells_state()
    ensures { (decls : Decls) (entries : List Entry) (after : Config) → IsRun decls entries after → after.state ≡ state_through decls.inst (first_state decls.inst) entries }
{}

/// A run without its waits is a run to the same state, and its states are those after the entries that were kept.
pub fn waits_are_idle()
    ensures run { (decls : Decls) (entries : List Entry) (after : Config) → IsRun decls entries after → (end : Config) × IsRun decls (condensed entries) end × (end.state ≡ after.state) }
    ensures states { (inst : Instances) (state : State) (entries : List Entry) → states_past inst state (condensed entries) ≡ states_kept inst state entries }
{}

/// A history of nodes with programs is a run exactly where it is a run of the soup, at labels of the composed world, in
/// which the entries of each node are a trace of its machine.
pub fn run_is_soup_run()
    ensures there { (decls : Decls) (entries : List Entry) (after : Config) → Each (HasProgram decls) entries → IsRun decls entries after → IsSoupRun decls entries after.state }
    ensures back { (decls : Decls) (entries : List Entry) (after : State) → Each (HasProgram decls) entries → IsSoupRun decls entries after → (end : Config) × IsRun decls entries end × (end.state ≡ after) }
{}
