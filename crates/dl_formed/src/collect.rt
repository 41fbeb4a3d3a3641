//! The names that a file declares, and those of its variables, as lists.

ghost use Rattle.std.specs.Prelude.{◌≡◌, ◌∷◌, ◌++◌, IfOk, OnOk, map};
ghost use Rattle.std.specs.List.{flat_map};
ghost use Rattle.dl_model.specs.declared.protocol.Hook.{Hook};
ghost use Rattle.dl_model.specs.Formed.{declared_names, file_variables, proc_variables as variables_seen};
ghost use Rattle.dl_model.specs.Lookup.{arg_names};
ghost use Rattle.dl_formed.specs.Decided.{field_names, tag_names, updated_fields};
ghost use Rattle.dl_formed.specs.Collected.{protocol_names, hook_names, world_names, invariant_names, proc_names, tag_variables, protocol_variables, hook_variables, proc_variables};
ghost use Rattle.dl_formed.specs.Programs.{program_nodes};

use crate::terms::ME;
use dl_model::{Decls, FieldDecl, Hook, Invariant, Proc, Program, Protocol, Tag, Update, World};
use dl_term::Sort;
use sqlite_items::Items;
use std::alloc::{AllocError, Global};

// Two words, and then the names of the arguments.
pub(crate) fn variables_of(
    alloc: Global,
    first: u32,
    second: u32,
    args: &[(u32, Sort)],
) -> Result<Items<u32>, AllocError>
    ensures { IfOk result (λ names. names ≡ first ∷ second ∷ arg_names args.now) }
{
    let mut names = Items::new(alloc);
    names.push(first)?;
    names.push(second)?;
    add_args(&mut names, args)?;
    Ok(names)
}

// Two words, and then these names.
pub(crate) fn variables_with(
    alloc: Global,
    first: u32,
    second: u32,
    args: &[u32],
) -> Result<Items<u32>, AllocError>
    ensures { IfOk result (λ names. names ≡ first ∷ second ∷ args.now) }
{
    let mut names = Items::new(alloc);
    names.push(first)?;
    names.push(second)?;
    add_names(&mut names, args)?;
    Ok(names)
}

pub(crate) fn names_of_args(alloc: Global, args: &[(u32, Sort)]) -> Result<Items<u32>, AllocError>
    ensures { IfOk result (λ names. names ≡ arg_names args.now) }
{
    let mut names = Items::new(alloc);
    add_args(&mut names, args)?;
    Ok(names)
}

pub(crate) fn names_of_fields(alloc: Global, fields: &[FieldDecl]) -> Result<Items<u32>, AllocError>
    ensures { IfOk result (λ names. names ≡ field_names fields.now) }
{
    let mut names = Items::new(alloc);
    for field in fields {
        names.push(field.sym)?;
    }
    Ok(names)
}

pub(crate) fn names_of_tags(alloc: Global, tags: &[Tag]) -> Result<Items<u32>, AllocError>
    ensures { IfOk result (λ names. names ≡ tag_names tags.now) }
{
    let mut names = Items::new(alloc);
    for tag in tags {
        names.push(tag.sym)?;
    }
    Ok(names)
}

// The positions of the fields that are updated.
pub(crate) fn fields_of_updates(alloc: Global, updates: &[Update]) -> Result<Items<u32>, AllocError>
    ensures { IfOk result (λ fields. fields ≡ updated_fields updates.now) }
{
    let mut fields = Items::new(alloc);
    for update in updates {
        fields.push(u32::from(update.field))?;
    }
    Ok(fields)
}

pub(crate) fn numbers_of(alloc: Global, positions: &[u8]) -> Result<Items<u32>, AllocError>
    ensures { IfOk result (λ numbers. numbers ≡ positions.now) }
{
    let mut numbers = Items::new(alloc);
    for position in positions {
        numbers.push(u32::from(*position))?;
    }
    Ok(numbers)
}

// The names that the file declares, but for its nodes, sorts and enumerators.
pub(crate) fn names_of_file(alloc: Global, decls: &Decls) -> Result<Items<u32>, AllocError>
    ensures { IfOk result (λ names. names ≡ declared_names decls.now) }
{
    let mut names = Items::new(alloc);
    add_protocols(&mut names, decls.inst.protocols.as_slice())?;
    add_names(&mut names, decls.labels.as_slice())?;
    add_hooks(&mut names, decls.hooks.as_slice())?;
    add_worlds(&mut names, decls.worlds.as_slice())?;
    add_invariants(&mut names, decls.invariants.as_slice())?;
    add_procs(&mut names, decls.procs.as_slice())?;
    Ok(names)
}

// The arguments of tags and hooks, the parameters and the locals.
pub(crate) fn variables_of_file(alloc: Global, decls: &Decls) -> Result<Items<u32>, AllocError>
    ensures { IfOk result (λ names. names ≡ file_variables decls.now) }
{
    let mut names = Items::new(alloc);
    add_protocol_variables(&mut names, decls.inst.protocols.as_slice())?;
    add_hook_variables(&mut names, decls.hooks.as_slice())?;
    add_proc_variables(&mut names, decls.procs.as_slice())?;
    Ok(names)
}

fn add_names(names: &mut Items<u32>, more: &[u32]) -> Result<(), AllocError>
    ensures { OnOk result (names.new ≡ names.old ++ more.now) }
{
    for name in more {
        names.push(*name)?;
    }
    Ok(())
}

fn add_args(names: &mut Items<u32>, args: &[(u32, Sort)]) -> Result<(), AllocError>
    ensures { OnOk result (names.new ≡ names.old ++ arg_names args.now) }
{
    for arg in args {
        names.push(arg.0)?;
    }
    Ok(())
}

fn add_protocols(names: &mut Items<u32>, protocols: &[Protocol]) -> Result<(), AllocError>
    ensures { OnOk result (names.new ≡ names.old ++ protocol_names protocols.now) }
{
    for protocol in protocols {
        names.push(protocol.sym)?;
    }
    Ok(())
}

fn add_hooks(names: &mut Items<u32>, hooks: &[Hook]) -> Result<(), AllocError>
    ensures { OnOk result (names.new ≡ names.old ++ hook_names hooks.now) }
{
    for hook in hooks {
        names.push(hook.sym)?;
    }
    Ok(())
}

fn add_worlds(names: &mut Items<u32>, worlds: &[World]) -> Result<(), AllocError>
    ensures { OnOk result (names.new ≡ names.old ++ world_names worlds.now) }
{
    for world in worlds {
        names.push(world.sym)?;
    }
    Ok(())
}

fn add_invariants(names: &mut Items<u32>, invariants: &[Invariant]) -> Result<(), AllocError>
    ensures { OnOk result (names.new ≡ names.old ++ invariant_names invariants.now) }
{
    for invariant in invariants {
        names.push(invariant.sym)?;
    }
    Ok(())
}

fn add_procs(names: &mut Items<u32>, procs: &[Proc]) -> Result<(), AllocError>
    ensures { OnOk result (names.new ≡ names.old ++ proc_names procs.now) }
{
    for proc in procs {
        names.push(proc.sym)?;
    }
    Ok(())
}

fn add_tag_variables(names: &mut Items<u32>, tags: &[Tag]) -> Result<(), AllocError>
    ensures { OnOk result (names.new ≡ names.old ++ tag_variables tags.now) }
{
    for tag in tags {
        add_args(names, tag.args.as_slice())?;
    }
    Ok(())
}

fn add_protocol_variables(names: &mut Items<u32>, protocols: &[Protocol]) -> Result<(), AllocError>
    ensures { OnOk result (names.new ≡ names.old ++ protocol_variables protocols.now) }
{
    for protocol in protocols {
        add_tag_variables(names, protocol.tags.as_slice())?;
    }
    Ok(())
}

fn add_hook_variables(names: &mut Items<u32>, hooks: &[Hook]) -> Result<(), AllocError>
    ensures { OnOk result (names.new ≡ names.old ++ hook_variables hooks.now) }
{
    for hook in hooks {
        add_names(names, hook.args.as_slice())?;
    }
    Ok(())
}

fn add_proc_variables(names: &mut Items<u32>, procs: &[Proc]) -> Result<(), AllocError>
    ensures { OnOk result (names.new ≡ names.old ++ proc_variables procs.now) }
{
    for proc in procs {
        add_args(names, proc.params.as_slice())?;
        add_names(names, proc.locals.as_slice())?;
    }
    Ok(())
}

// Some words, and then the names of the parameters.
pub(crate) fn names_before_args(
    alloc: Global,
    first: &[u32],
    args: &[(u32, Sort)],
) -> Result<Items<u32>, AllocError>
    ensures { IfOk result (λ names. names ≡ first.now ++ arg_names args.now) }
{
    let mut names = Items::from_slice(alloc, first)?;
    add_args(&mut names, args)?;
    Ok(names)
}

// The names of the parameters and the locals.
pub(crate) fn names_of_proc(alloc: Global, proc: &Proc) -> Result<Items<u32>, AllocError>
    ensures { IfOk result (λ names. names ≡ arg_names proc.now.params ++ proc.now.locals) }
{
    let mut names = Items::new(alloc);
    add_args(&mut names, proc.params.as_slice())?;
    add_names(&mut names, proc.locals.as_slice())?;
    Ok(names)
}

// `me`, and then the names of the parameters and the locals.
pub(crate) fn variables_of_proc(alloc: Global, proc: &Proc) -> Result<Items<u32>, AllocError>
    ensures { IfOk result (λ names. names ≡ variables_seen proc.now) }
{
    let mut names = Items::new(alloc);
    names.push(ME)?;
    add_args(&mut names, proc.params.as_slice())?;
    add_names(&mut names, proc.locals.as_slice())?;
    Ok(names)
}

// The nodes that run a program.
pub(crate) fn nodes_of_programs(
    alloc: Global,
    programs: &[Program],
) -> Result<Items<u32>, AllocError>
    ensures { IfOk result (λ nodes. nodes ≡ program_nodes programs.now) }
{
    let mut nodes = Items::new(alloc);
    for program in programs {
        nodes.push(program.node)?;
    }
    Ok(nodes)
}
