//! The first fault that a reading finds.

ghost use Rattle.std.specs.Prelude.{◌≡◌, None, OnOk, IfErr};
ghost use Rattle.dl_forms.specs.Read.{IsFault};
ghost use Rattle.dl_notation.specs.Judge.{file_fault as fault_of_file};
ghost use Rattle.dl_check.specs.Reading.{IsReadingFault};

use dl_file::Fault;
use dl_forms::FormFault;
use dl_names::file_fault;
use dl_tree::Tree;
use std::alloc::Global;

/// The fault that the reading of a tree answers.
fn named_fault(tree: &Tree, fault: FormFault) -> Fault
    requires { IsFault (fault_of_file tree.now) fault }
    ensures { IsReadingFault tree.now result }
{
    match fault {
        FormFault::At { rule, place } => Fault::At {
            rule,
            place,
            what: None,
        },
        FormFault::Memory => Fault::Memory,
    }
}

/// The first fault that a reading of the tree finds: one of form (10), and else one of names and sorts (11 to 16, 33). Want of
/// memory may come in its place.
pub(crate) fn judge(alloc: Global, tree: &Tree) -> Result<(), Fault>
    ensures ok { OnOk result (fault_of_file tree.now ≡ None) }
    ensures err { IfErr result (IsReadingFault tree.now) }
{
    match file_fault(alloc, tree) {
        Ok(()) => Ok(()),
        Err(fault) => Err(named_fault(tree, fault)),
    }
}
