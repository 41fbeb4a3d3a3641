//! Procedures as trees without places.

ghost use Rattle.std.specs.Prelude.{◌≡◌, ◌≤◌, ◌∷◌, ◌++◌, [], map, length, codes, IfOk, OnOk};
ghost use Rattle.dl_forms.specs.Show.{form, symbol};
ghost use Rattle.dl_shown.specs.Shown.{listed, name_of, label_of, proc_name};
ghost use Rattle.dl_shown.specs.Programs.{expression_of, note_of, sent_tag as tag_sent, read_field as field_read, index_of, command_of, proc_of};

use crate::declarations::{formula, term};
use crate::found;
use crate::pieces::{add_names, arguments, begin, list, name, name_list};
use dl_forms::Names;
use dl_model::{Command, Decls, Proc};
use dl_term::{Formula, Term};
use dl_tree::Tree;
use sqlite_items::Items;
use std::alloc::{AllocError, Global};

fn expression(alloc: Global, names: &Names, decls: &Decls, of: &Term) -> Result<Tree, AllocError>
    ensures { IfOk result (λ tree. tree ≡ expression_of names.now decls.now of.now) }
{
    term(alloc, names, decls, None, of)
}

fn note(alloc: Global, names: &Names, decls: &Decls, of: &Formula) -> Result<Tree, AllocError>
    ensures { IfOk result (λ tree. tree ≡ note_of names.now decls.now of.now) }
{
    formula(alloc, names, decls, None, of)
}

/// Adds expressions behind the parts that are there.
fn add_expressions(
    alloc: Global,
    names: &Names,
    decls: &Decls,
    terms: &[Term],
    parts: &mut Items<Tree>,
) -> Result<(), AllocError>
    ensures { OnOk result (parts.new ≡ parts.old ++ map (expression_of names.now decls.now) terms.now) }
{
    for one in terms {
        parts.push(expression(alloc, names, decls, one)?)?;
    }
    Ok(())
}

/// A tag of a label.
fn sent_tag(
    alloc: Global,
    names: &Names,
    decls: &Decls,
    label: u8,
    tag: u8,
) -> Result<Tree, AllocError>
    ensures { IfOk result (λ tree. tree ≡ tag_sent names.now decls.now label tag) }
{
    let tag = found::tag_in(found::protocol_of_label(&decls.inst, label), tag);
    found::tag_name(alloc, names, decls, tag)
}

/// A field of a label.
fn read_field(
    alloc: Global,
    names: &Names,
    decls: &Decls,
    label: u8,
    field: u8,
) -> Result<Tree, AllocError>
    ensures { IfOk result (λ tree. tree ≡ field_read names.now decls.now label field) }
{
    let field = found::field_in(found::protocol_of_label(&decls.inst, label), field);
    found::field_name(alloc, names, decls, field)
}

fn add_index(
    alloc: Global,
    names: &Names,
    decls: &Decls,
    index: &Option<Term>,
    parts: &mut Items<Tree>,
) -> Result<(), AllocError>
    ensures { OnOk result (parts.new ≡ parts.old ++ index_of names.now decls.now index.now) }
{
    match index {
        Some(index) => parts.push(expression(alloc, names, decls, index)?),
        None => Ok(()),
    }
}

fn send(
    alloc: Global,
    names: &Names,
    decls: &Decls,
    annotation: &Formula,
    label: u8,
    tag: u8,
    to: &Term,
    args: &[Term],
) -> Result<Tree, AllocError>
    ensures { IfOk result (λ tree. tree ≡ form (codes "send") (note_of names.now decls.now annotation.now ∷ label_of names.now decls.now label ∷ tag_sent names.now decls.now label tag ∷ expression_of names.now decls.now to.now ∷ map (expression_of names.now decls.now) args.now)) }
{
    let mut parts = begin(alloc, "send")?;
    parts.push(note(alloc, names, decls, annotation)?)?;
    parts.push(found::label(alloc, names, decls, label)?)?;
    parts.push(sent_tag(alloc, names, decls, label, tag)?)?;
    parts.push(expression(alloc, names, decls, to)?)?;
    add_expressions(alloc, names, decls, args, &mut parts)?;
    Ok(list(parts))
}

/// Adds a label, a tag of it, and the locals that its sender and its arguments are put in.
fn add_received(
    alloc: Global,
    names: &Names,
    decls: &Decls,
    label: u8,
    tag: u8,
    sender: u32,
    args: &[u32],
    parts: &mut Items<Tree>,
) -> Result<(), AllocError>
    ensures { OnOk result (parts.new ≡ parts.old ++ (label_of names.now decls.now label ∷ tag_sent names.now decls.now label tag ∷ name_of names.now sender ∷ listed (map (name_of names.now) args.now) ∷ [])) }
{
    parts.push(found::label(alloc, names, decls, label)?)?;
    parts.push(sent_tag(alloc, names, decls, label, tag)?)?;
    parts.push(name(alloc, names, sender)?)?;
    parts.push(name_list(alloc, names, args)?)
}

fn receive(
    alloc: Global,
    names: &Names,
    decls: &Decls,
    annotation: &Formula,
    label: u8,
    tag: u8,
    sender: u32,
    args: &[u32],
) -> Result<Tree, AllocError>
    ensures { IfOk result (λ tree. tree ≡ form (codes "await") (note_of names.now decls.now annotation.now ∷ label_of names.now decls.now label ∷ tag_sent names.now decls.now label tag ∷ name_of names.now sender ∷ listed (map (name_of names.now) args.now) ∷ [])) }
{
    let mut parts = begin(alloc, "await")?;
    parts.push(note(alloc, names, decls, annotation)?)?;
    add_received(alloc, names, decls, label, tag, sender, args, &mut parts)?;
    Ok(list(parts))
}

fn poll(
    alloc: Global,
    names: &Names,
    decls: &Decls,
    annotation: &Formula,
    got: u32,
    label: u8,
    tag: u8,
    sender: u32,
    args: &[u32],
) -> Result<Tree, AllocError>
    ensures { IfOk result (λ tree. tree ≡ form (codes "poll") (note_of names.now decls.now annotation.now ∷ name_of names.now got ∷ label_of names.now decls.now label ∷ tag_sent names.now decls.now label tag ∷ name_of names.now sender ∷ listed (map (name_of names.now) args.now) ∷ [])) }
{
    let mut parts = begin(alloc, "poll")?;
    parts.push(note(alloc, names, decls, annotation)?)?;
    parts.push(name(alloc, names, got)?)?;
    add_received(alloc, names, decls, label, tag, sender, args, &mut parts)?;
    Ok(list(parts))
}

fn read(
    alloc: Global,
    names: &Names,
    decls: &Decls,
    annotation: &Formula,
    into: u32,
    label: u8,
    field: u8,
    index: &Option<Term>,
) -> Result<Tree, AllocError>
    ensures { IfOk result (λ tree. tree ≡ form (codes "read") (note_of names.now decls.now annotation.now ∷ name_of names.now into ∷ label_of names.now decls.now label ∷ field_read names.now decls.now label field ∷ index_of names.now decls.now index.now)) }
{
    let mut parts = begin(alloc, "read")?;
    parts.push(note(alloc, names, decls, annotation)?)?;
    parts.push(name(alloc, names, into)?)?;
    parts.push(found::label(alloc, names, decls, label)?)?;
    parts.push(read_field(alloc, names, decls, label, field)?)?;
    add_index(alloc, names, decls, index, &mut parts)?;
    Ok(list(parts))
}

fn set(
    alloc: Global,
    names: &Names,
    decls: &Decls,
    local: u32,
    value: &Term,
) -> Result<Tree, AllocError>
    ensures { IfOk result (λ tree. tree ≡ form (codes "set") (name_of names.now local ∷ expression_of names.now decls.now value.now ∷ [])) }
{
    let mut parts = begin(alloc, "set")?;
    parts.push(name(alloc, names, local)?)?;
    parts.push(expression(alloc, names, decls, value)?)?;
    Ok(list(parts))
}

fn call(
    alloc: Global,
    names: &Names,
    decls: &Decls,
    annotation: &Formula,
    frame: &Formula,
    into: u32,
    proc: u8,
    args: &[Term],
) -> Result<Tree, AllocError>
    ensures { IfOk result (λ tree. tree ≡ form (codes "call") (note_of names.now decls.now annotation.now ∷ note_of names.now decls.now frame.now ∷ name_of names.now into ∷ proc_name names.now decls.now proc ∷ map (expression_of names.now decls.now) args.now)) }
{
    let mut parts = begin(alloc, "call")?;
    parts.push(note(alloc, names, decls, annotation)?)?;
    parts.push(note(alloc, names, decls, frame)?)?;
    parts.push(name(alloc, names, into)?)?;
    parts.push(found::procedure(alloc, names, decls, proc)?)?;
    add_expressions(alloc, names, decls, args, &mut parts)?;
    Ok(list(parts))
}

/// The parts of a form, of which the word and a test stand there.
fn tested(
    alloc: Global,
    names: &Names,
    decls: &Decls,
    word: &str,
    test: &Formula,
) -> Result<Items<Tree>, AllocError>
    requires { length word.now ≤ 64 }
    ensures { IfOk result (λ parts. parts ≡ symbol word.now ∷ note_of names.now decls.now test.now ∷ []) }
{
    let mut parts = begin(alloc, word)?;
    parts.push(note(alloc, names, decls, test)?)?;
    Ok(parts)
}

/// A form of commands.
#[cycle(command)]
fn block(
    commands: &[Command],
    alloc: Global,
    names: &Names,
    decls: &Decls,
    word: &str,
) -> Result<Tree, AllocError>
    requires { length word.now ≤ 64 }
    ensures { IfOk result (λ tree. tree ≡ form word.now (map (command_of names.now decls.now) commands.now)) }
{
    let mut parts = begin(alloc, word)?;
    add_commands(commands, alloc, names, decls, &mut parts)?;
    Ok(list(parts))
}

/// Adds a form of commands behind the parts that are there.
#[cycle(command)]
fn add_block(
    commands: &[Command],
    alloc: Global,
    names: &Names,
    decls: &Decls,
    word: &str,
    parts: &mut Items<Tree>,
) -> Result<(), AllocError>
    requires { length word.now ≤ 64 }
    ensures { OnOk result (parts.new ≡ parts.old ++ form word.now (map (command_of names.now decls.now) commands.now) ∷ []) }
{
    parts.push(block(commands, alloc, names, decls, word)?)
}

/// Adds commands behind the parts that are there.
#[cycle(command)]
fn add_commands(
    commands: &[Command],
    alloc: Global,
    names: &Names,
    decls: &Decls,
    parts: &mut Items<Tree>,
) -> Result<(), AllocError>
    ensures { OnOk result (parts.new ≡ parts.old ++ map (command_of names.now decls.now) commands.now) }
{
    for one in commands {
        parts.push(command(one, alloc, names, decls)?)?;
    }
    Ok(())
}

#[cycle(command)]
fn repeat(
    body: &[Command],
    alloc: Global,
    names: &Names,
    decls: &Decls,
    test: &Formula,
    annotation: &Formula,
) -> Result<Tree, AllocError>
    ensures { IfOk result (λ tree. tree ≡ form (codes "while") (note_of names.now decls.now test.now ∷ note_of names.now decls.now annotation.now ∷ map (command_of names.now decls.now) body.now)) }
{
    let mut parts = tested(alloc, names, decls, "while", test)?;
    parts.push(note(alloc, names, decls, annotation)?)?;
    add_commands(body, alloc, names, decls, &mut parts)?;
    Ok(list(parts))
}

#[cycle(command)]
fn command(
    command: &Command,
    alloc: Global,
    names: &Names,
    decls: &Decls,
) -> Result<Tree, AllocError>
    ensures { IfOk result (λ tree. tree ≡ command_of names.now decls.now command.now) }
{
    match command {
        Command::Send {
            note,
            label,
            tag,
            to,
            args,
        } => send(alloc, names, decls, note, *label, *tag, to, args.as_slice()),
        Command::Await {
            note,
            label,
            tag,
            sender,
            args,
        } => receive(
            alloc,
            names,
            decls,
            note,
            *label,
            *tag,
            *sender,
            args.as_slice(),
        ),
        Command::Poll {
            note,
            got,
            label,
            tag,
            sender,
            args,
        } => poll(
            alloc,
            names,
            decls,
            note,
            *got,
            *label,
            *tag,
            *sender,
            args.as_slice(),
        ),
        Command::Read {
            note,
            into,
            label,
            field,
            index,
        } => read(alloc, names, decls, note, *into, *label, *field, index),
        Command::Set { local, value } => set(alloc, names, decls, *local, value),
        Command::If { test, yes, no } => {
            let mut parts = tested(alloc, names, decls, "if", test)?;
            add_block(yes.as_slice(), alloc, names, decls, "then", &mut parts)?;
            add_block(no.as_slice(), alloc, names, decls, "else", &mut parts)?;
            Ok(list(parts))
        }
        Command::While { test, note, body } => {
            repeat(body.as_slice(), alloc, names, decls, test, note)
        }
        Command::Call {
            note,
            frame,
            into,
            proc,
            args,
        } => call(
            alloc,
            names,
            decls,
            note,
            frame,
            *into,
            *proc,
            args.as_slice(),
        ),
    }
}

/// A form of names.
fn named(alloc: Global, names: &Names, word: &str, syms: &[u32]) -> Result<Tree, AllocError>
    requires { length word.now ≤ 64 }
    ensures { IfOk result (λ tree. tree ≡ form word.now (map (name_of names.now) syms.now)) }
{
    let mut parts = begin(alloc, word)?;
    add_names(alloc, names, syms, &mut parts)?;
    Ok(list(parts))
}

/// A form of one formula.
fn claim(
    alloc: Global,
    names: &Names,
    decls: &Decls,
    word: &str,
    of: &Formula,
) -> Result<Tree, AllocError>
    requires { length word.now ≤ 64 }
    ensures { IfOk result (λ tree. tree ≡ form word.now (note_of names.now decls.now of.now ∷ [])) }
{
    let mut parts = begin(alloc, word)?;
    parts.push(note(alloc, names, decls, of)?)?;
    Ok(list(parts))
}

/// What a procedure returns.
fn returned(alloc: Global, names: &Names, decls: &Decls, of: &Term) -> Result<Tree, AllocError>
    ensures { IfOk result (λ tree. tree ≡ form (codes "return") (expression_of names.now decls.now of.now ∷ [])) }
{
    let mut parts = begin(alloc, "return")?;
    parts.push(expression(alloc, names, decls, of)?)?;
    Ok(list(parts))
}

pub(crate) fn procedure(
    alloc: Global,
    names: &Names,
    decls: &Decls,
    proc: &Proc,
) -> Result<Tree, AllocError>
    ensures { IfOk result (λ tree. tree ≡ proc_of names.now decls.now proc.now) }
{
    let mut parts = begin(alloc, "proc")?;
    parts.push(name(alloc, names, proc.sym)?)?;
    parts.push(found::world(alloc, names, decls, proc.world)?)?;
    parts.push(arguments(alloc, names, proc.params.as_slice())?)?;
    parts.push(named(alloc, names, "locals", proc.locals.as_slice())?)?;
    parts.push(claim(alloc, names, decls, "pre", &proc.pre)?)?;
    parts.push(claim(alloc, names, decls, "post", &proc.post)?)?;
    parts.push(block(proc.body.as_slice(), alloc, names, decls, "body")?)?;
    parts.push(returned(alloc, names, decls, &proc.result)?)?;
    Ok(list(parts))
}
