//! What a command writes of a tree.

ghost use Rattle.std.specs.Prelude.{◌≡◌, ◌≤◌, IfOk, IfErr};
ghost use Rattle.dl_tree.specs.Layout.{layout};
ghost use Rattle.dl_model.specs.Formed.{IsFormed};
ghost use Rattle.dl_model.specs.Worlds.{KeepsWorlds};
ghost use Rattle.dl_file.specs.declared.answer.Fault.TheVariants.{Memory};
ghost use Rattle.dl_run.specs.Reports.{IsReported};
ghost use Rattle.dl_top.specs.Budgets.{HasBudget};
ghost use Rattle.dl_top.specs.Endings.{IsOutputOfTree, IsFaultOfTree};

use crate::lines::accepted_line;
use crate::request::Command;
use dl_check::{Checked, check_tree, checked_file};
use dl_file::Fault;
use dl_model::Order;
use dl_run::{Reported, run_file};
use dl_tree::{Tree, write_tree};
use std::alloc::Global;

/// The text of a command.
#[derive(Drop)]
pub(crate) struct Output {
    pub(crate) text: Vec<u8>,
    /// Whether each program that was run returned.
    pub(crate) ended: bool,
}

/// What the command writes of a tree, or the tree's first fault.
pub(crate) fn output_of(alloc: Global, command: Command, tree: Tree) -> Result<Output, Fault>
    requires { HasBudget command }
    ensures output { IfOk result (λ output. IsOutputOfTree command tree output.text.items output.ended) }
    ensures refused { IfErr result (IsFaultOfTree tree) }
{
    match command {
        Command::Check => counts_of(alloc, tree),
        Command::Show => layout_of(alloc, tree),
        Command::Run {
            serial,
            budget,
            order,
        } => report_of(alloc, tree, serial, budget, order),
    }
}

/// The line of the counts of a tree's file.
fn counts_of(alloc: Global, tree: Tree) -> Result<Output, Fault>
    ensures output { IfOk result (λ output. IsOutputOfTree Command.Check tree output.text.items output.ended) }
    ensures refused { IfErr result (IsFaultOfTree tree) }
{
    match check_tree(alloc, tree) {
        Ok(accepted) => match accepted_line(alloc, &accepted) {
            Ok(line) => Ok(Output {
                text: line.into_bytes(),
                ended: true,
            }),
            Err(_) => Err(Fault::Memory),
        },
        Err(fault) => Err(fault),
    }
}

/// The layout of a tree, which is made before the check takes the tree.
fn layout_of(alloc: Global, tree: Tree) -> Result<Output, Fault>
    ensures output { IfOk result (λ output. IsOutputOfTree Command.Show tree output.text.items output.ended) }
    ensures refused { IfErr result (IsFaultOfTree tree) }
{
    match write_tree(alloc, &tree) {
        Ok(text) => unless_refused(alloc, tree, text),
        Err(_) => {
            drop(tree);
            Err(Fault::Memory)
        }
    }
}

/// The layout of a tree, if the tree has no fault.
fn unless_refused(alloc: Global, tree: Tree, text: Vec<u8>) -> Result<Output, Fault>
    requires { text.items ≡ layout tree }
    ensures output { IfOk result (λ output. IsOutputOfTree Command.Show tree output.text.items output.ended) }
    ensures refused { IfErr result (IsFaultOfTree tree) }
{
    match check_tree(alloc, tree) {
        Ok(_) => Ok(Output { text, ended: true }),
        Err(fault) => {
            drop(text);
            Err(fault)
        }
    }
}

/// The report of the serial run of a tree's file.
fn report_of(
    alloc: Global,
    tree: Tree,
    serial: bool,
    budget: u32,
    order: Order,
) -> Result<Output, Fault>
    requires { budget ≤ 100000 }
    ensures output { IfOk result (λ output. IsOutputOfTree (Command.Run serial budget order) tree output.text.items output.ended) }
    ensures refused { IfErr result (IsFaultOfTree tree) }
{
    match checked_file(alloc, tree) {
        Ok(checked) => report_of_file(alloc, checked, budget, order),
        Err(fault) => Err(fault),
    }
}

/// The report of the serial run of a file that was accepted.
fn report_of_file(
    alloc: Global,
    checked: Checked,
    budget: u32,
    order: Order,
) -> Result<Output, Fault>
    requires formed { IsFormed checked.file.decls }
    requires worlds { KeepsWorlds checked.file.decls }
    requires budget { budget ≤ 100000 }
    ensures output { IfOk result (λ output. IsReported checked.file budget order output.text.items output.ended) }
    ensures refused { IfErr result (λ fault. fault ≡ Memory) }
{
    let answer = run_file(alloc, &checked.file, budget, order);
    drop(checked);
    match answer {
        Ok(Reported { text, ended }) => Ok(Output { text, ended }),
        Err(_) => Err(Fault::Memory),
    }
}
