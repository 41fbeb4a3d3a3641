//! What is named in a refusal, as a tree.

ghost use Rattle.std.specs.Prelude.{◌≡◌, ◌≤◌, ◌++◌, ◌∷◌, [], IfOk, OnOk, length};
ghost use Rattle.dl_tree.specs.declared.tree.Tree.TheVariants as tree;
ghost use Rattle.dl_model.specs.Lookup.{hook_at};
ghost use Rattle.dl_faults.specs.Shown.{name as name_shown, obligation as obligation_shown, shown as named_shown, word as word_shown, no_place};
ghost use Rattle.dl_verdict.specs.Parts.{head_of as first_word, rest_of};

use crate::parts::{NO_PLACE, add_rest, add_word, label_sym};
use dl_faults::Named;
use dl_file::File;
use dl_model::Decls;
use dl_sequent::Duty;
use dl_tree::{Name, Tree};
use sqlite_items::{Items, at};
use std::alloc::{AllocError, Global};

// The first word of an obligation.
fn head_of(duty: Duty) -> &'static str
    ensures word { result.now ≡ first_word duty }
    ensures short { length result.now ≤ 64 }
{
    match duty {
        Duty::InitProtocol { .. } => "init",
        Duty::InitInvariant { .. } => "init",
        Duty::StepProtocol { .. } => "step",
        Duty::StepInvariant { .. } => "step",
        Duty::Start { .. } => "start",
        Duty::Guard { .. } => "guard",
        Duty::AfterSend { .. } => "after",
        Duty::Got { .. } => "got",
        Duty::Miss { .. } => "miss",
        Duty::AfterRead { .. } => "after",
        Duty::Body { .. } => "body",
        Duty::Exit { .. } => "exit",
        Duty::Enter { .. } => "enter",
        Duty::Leave { .. } => "leave",
        Duty::Stable { .. } => "stable",
        Duty::Frame { .. } => "frame",
        Duty::Deploy { .. } => "deploy",
    }
}

fn add_obligation(
    alloc: Global,
    file: &File,
    duty: Duty,
    parts: &mut Items<Tree>,
) -> Result<(), AllocError>
    ensures { OnOk result (parts.new ≡ parts.old ++ word_shown (first_word duty) ∷ rest_of file.now duty) }
{
    add_word(alloc, head_of(duty), parts)?;
    add_rest(alloc, file, duty, parts)
}

// An obligation, as the item of its proof names it.
#[tactic(auto, using(crate::proofs::PartLemmas::obligation_parts))]
fn obligation(alloc: Global, file: &File, duty: Duty) -> Result<Tree, AllocError>
    ensures { IfOk result (λ tree. tree ≡ obligation_shown file.now duty) }
{
    let mut parts = Items::new(alloc);
    match add_obligation(alloc, file, duty, &mut parts) {
        Ok(()) => Ok(Tree::List {
            items: parts,
            place: NO_PLACE,
        }),
        Err(error) => {
            drop(parts);
            Err(error)
        }
    }
}

// The number of a hook's name.
fn hook_sym(decls: &Decls, hook: u8) -> usize
    ensures { result ≡ (hook_at decls.now hook).sym }
{
    match at(decls.hooks.as_slice(), usize::from(hook)) {
        Some(hook) => hook.sym as usize,
        None => 0,
    }
}

fn symbol(name: Name) -> Tree
    ensures { result ≡ word_shown name }
{
    Tree::Sym {
        name,
        place: NO_PLACE,
    }
}

// The text of the name with this number, or an empty one where there is none.
fn name_of(alloc: Global, file: &File, sym: usize) -> Result<Tree, AllocError>
    ensures { IfOk result (λ tree. tree ≡ name_shown file.now sym) }
{
    match at(file.names.as_slice(), sym) {
        Some(name) => Ok(symbol(name.copy(alloc)?)),
        None => Ok(symbol(Name::new(alloc, "")?)),
    }
}

/// What is named in a refusal, as a tree without places: nothing, the name of a hook or a label, or an obligation as the item of its
/// proof names it. Its only error is want of memory.
pub fn shown(alloc: Global, file: &File, named: Named) -> Result<Option<Tree>, AllocError>
    ensures { IfOk result (λ tree. tree ≡ named_shown file.now named) }
{
    match named {
        Named::Nothing => Ok(None),
        Named::Hook(hook) => {
            let tree = name_of(alloc, file, hook_sym(&file.decls, hook))?;
            Ok(Some(tree))
        }
        Named::Label(label) => {
            let tree = name_of(alloc, file, label_sym(&file.decls, label))?;
            Ok(Some(tree))
        }
        Named::Obligation(duty) => {
            let tree = obligation(alloc, file, duty)?;
            Ok(Some(tree))
        }
    }
}
