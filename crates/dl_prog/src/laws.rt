//! Which procedures can be run.

ghost use Rattle.dl_model.specs.declared.file.Decls.{Decls};
ghost use Rattle.dl_model.specs.Formed.{IsFormed};
ghost use Rattle.dl_prog.specs.Ready.{ProcsCanRun};

/// The procedures of a formed file can be run.
pub fn formed_procedures_can_run()
    ensures { (decls : Decls) → IsFormed decls → ProcsCanRun decls.procs }
{}
