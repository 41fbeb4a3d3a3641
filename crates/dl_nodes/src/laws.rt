//! Laws of serial runs. Each is the contract of a function that does nothing.

ghost use Rattle.std.specs.Prelude.{◌≡◌, ℕ, List};
ghost use Rattle.dl_model.specs.declared.file.Decls.{Decls};
ghost use Rattle.dl_model.specs.declared.history.Order.{Order};
ghost use Rattle.dl_model.specs.declared.program.Proc.{Proc};
ghost use Rattle.dl_model.specs.Formed.{IsFormed};
ghost use Rattle.dl_model.specs.Histories.{IsSoupRun};
ghost use Rattle.dl_model.specs.Worlds.{KeepsWorlds};
ghost use Rattle.dl_soup.specs.Kept.{IsKept};
ghost use Rattle.dl_soup.specs.Seen.{Seen};
ghost use Rattle.dl_nodes.specs.declared.begin.Run.{Run};
ghost use Rattle.dl_nodes.specs.Begun.{IsSerialRun};
ghost use Rattle.dl_nodes.specs.Ended.{HaveEnded};
ghost use Rattle.dl_nodes.specs.Serial.{IsSerial, Player};
ghost use Rattle.dl_nodes.specs.Traced.{IsTraced};

/// In the serial run of a formed file, whose soup keeps what every soup keeps, the entries lead from the first state to the
/// soup's under the order. Each is of a node with a program, and none is a wait. The entries of each such node are a trace
/// of its machine, and the node's end and units are those of the machine to which they lead.
pub fn serial_runs_are_traced()
    ensures { (decls : Decls) (budget : ℕ) (order : Order) (run : Run) → IsFormed decls → IsSerialRun decls budget order run → IsKept run.soup → IsTraced decls budget order run }
{}

/// The serial run of a formed file that keeps to its worlds is a run of the soup, at labels of the composed world, in which
/// the entries of each node with a program are a trace of its machine.
pub fn serial_runs_are_soup_runs()
    ensures { (decls : Decls) (budget : ℕ) (order : Order) (run : Run) → IsFormed decls → KeepsWorlds decls → IsSerialRun decls budget order run → IsKept run.soup → IsSoupRun decls run.soup.history run.soup.state }
{}

/// The serial schedule leads from a soup and its nodes to one soup, and to one place for each node.
pub fn serial_decides()
    ensures { (procs : List Proc) (budget : ℕ) (soup : Seen) (players : List Player) (a b : Seen) (p q : List Player) → IsSerial procs budget soup players a p → IsSerial procs budget soup players b q → (a ≡ b) × (p ≡ q) }
{}

/// After the serial run of a file each node with a program is there once, in the order of the node list, and has an end.
pub fn serial_runs_have_ended()
    ensures { (decls : Decls) (budget : ℕ) (order : Order) (run : Run) → IsSerialRun decls budget order run → HaveEnded decls run }
{}
