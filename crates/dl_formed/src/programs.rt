//! Whether procedures are formed: their contracts, and their commands.

ghost use Rattle.std.specs.Prelude.{◌≡◌, ◌∷◌, ◌++◌, [], IfOk, is_some, length};
ghost use Rattle.std.specs.List.{list_all};
ghost use Rattle.std.specs.Option.{option_copied};
ghost use Rattle.dl_term.specs.declared.syntax.Lab.TheVariants.{At};
ghost use Rattle.dl_model.specs.Lookup.{arg_names, proc_at};
ghost use Rattle.dl_model.specs.Scopes.{file_label};
ghost use Rattle.dl_model.specs.Sorts.{has};
ghost use Rattle.dl_formed.specs.Decided.{tag_in};
ghost use Rattle.dl_formed.specs.Sighted.{sight_of};
ghost use Rattle.dl_formed.specs.Programs.{is_note, is_value, are_values, is_test, are_targets, is_sent, is_received, is_read, is_index, is_call, send_is_formed, await_is_formed, read_is_formed, set_is_formed, call_is_formed, command_is_formed, has_names, has_contract, has_body, proc_sight, proc_is_formed, procs_are_formed, note_scope};
ghost use Rattle.dl_formed.specs.Known.{is_formula};

use crate::collect::{names_before_args, names_of_proc, variables_of_proc};
use crate::formulas;
use crate::names::{are_distinct, are_names, has_name};
use crate::protocols::are_parameters;
use crate::scope::{Known, Labels, in_file};
use crate::terms::{self, ME};
use dl_model::{Command, Decls, Proc, Tag};
use dl_term::{Formula, Lab, Term};
use sqlite_items::at;
use std::alloc::{AllocError, Global};

// The number of the word `result`.
const RESULT: u32 = 7;

// The most locals of a procedure.
const MOST_LOCALS: usize = 16;

// What a command of a procedure sees.
#[derive(Clone, Copy)]
pub(crate) struct Inside<'a> {
    pub(crate) decls: &'a Decls,
    // The number of the procedure.
    pub(crate) number: usize,
    pub(crate) locals: &'a [u32],
    // `me`, the parameters and the locals.
    pub(crate) variables: &'a [u32],
}

impl<'a> Inside<'a> {
    fn is_note(&self, note: &Formula) -> bool
        ensures { result ≡ is_note (sight_of self.now) note.now }
    {
        formulas::is_formula(
            note,
            &Known::Base(Labels::File(&self.decls.inst), self.variables),
        )
    }

    fn is_value(&self, term: &Term) -> bool
        ensures { result ≡ is_value (sight_of self.now) term.now }
    {
        terms::is_term(term, &Known::Base(Labels::Nowhere, self.variables))
    }

    fn are_values(&self, terms: &[Term]) -> bool
        ensures { result ≡ are_values (sight_of self.now) terms.now }
    {
        for term in terms {
            if !self.is_value(term) {
                return false;
            }
        }
        true
    }

    fn is_test(&self, test: &Formula) -> bool
        ensures { result ≡ is_test (sight_of self.now) test.now }
    {
        formulas::is_formula(test, &Known::Base(Labels::Nowhere, self.variables))
            && formulas::binds_none(test)
    }

    fn is_index(&self, index: &Option<Term>) -> bool
        ensures { result ≡ is_index (sight_of self.now) index.now }
    {
        match index {
            Some(index) => self.is_value(index),
            None => true,
        }
    }

    // Whether each name is one of a local.
    fn are_locals(&self, names: &[u32]) -> bool
        ensures { result ≡ list_all (has self.now.locals.now) names.now }
    {
        for name in names {
            if !has_name(self.locals, *name) {
                return false;
            }
        }
        true
    }

    // Whether a command may set the local.
    fn is_target(&self, name: u32) -> bool
        ensures { result ≡ are_targets (sight_of self.now) (name ∷ []) }
    {
        has_name(self.locals, name)
    }

    // Whether an await may set the sender and the arguments.
    fn are_awaited(&self, sender: u32, args: &[u32]) -> bool
        ensures { result ≡ are_targets (sight_of self.now) (sender ∷ args.now) }
    {
        has_name(self.locals, sender)
            && self.are_locals(args)
            && !has_name(args, sender)
            && are_distinct(args)
    }

    // The same of a poll, which besides sets `got`.
    fn are_polled(&self, got: u32, sender: u32, args: &[u32]) -> bool
        ensures { result ≡ are_targets (sight_of self.now) (got ∷ sender ∷ args.now) }
    {
        has_name(self.locals, got)
            && has_name(self.locals, sender)
            && self.are_locals(args)
            && got != sender
            && !has_name(args, got)
            && !has_name(args, sender)
            && are_distinct(args)
    }

    // The tag of a label.
    fn tag(&self, label: u8, tag: u8) -> Option<&Tag>
        ensures { option_copied result ≡ tag_in (file_label self.now.decls.now.inst (At label)) tag }
    {
        match in_file(&self.decls.inst, Lab::At(label)) {
            Some(protocol) => at(protocol.tags.as_slice(), usize::from(tag)),
            None => None,
        }
    }

    // Whether there is the tag, with so many arguments.
    fn is_sent(&self, label: u8, tag: u8, count: usize) -> bool
        ensures { result ≡ is_sent (sight_of self.now) label tag count }
    {
        match self.tag(label, tag) {
            Some(tag) => count == tag.args.len(),
            None => false,
        }
    }

    // Whether there is the tag, which is received, with so many arguments.
    fn is_received(&self, label: u8, tag: u8, count: usize) -> bool
        ensures { result ≡ is_received (sight_of self.now) label tag count }
    {
        match self.tag(label, tag) {
            Some(tag) => has_receive(tag) && count == tag.args.len(),
            None => false,
        }
    }

    // Whether the label has the field, which is a row exactly where there is an index.
    fn is_read(&self, label: u8, field: u8, index: &Option<Term>) -> bool
        ensures { result ≡ is_read (sight_of self.now) label field index.now }
    {
        Known::Base(Labels::File(&self.decls.inst), self.variables).has_field(
            Lab::At(label),
            field,
            has_index(index),
        )
    }

    // Whether the callee is an earlier procedure, with so many arguments.
    fn is_call(&self, callee: u8, args: &[Term]) -> bool
        ensures { result ≡ is_call (sight_of self.now) callee args.now }
    {
        usize::from(callee) < self.number
            && args.len() == parameters_of(self.decls.procs.as_slice(), callee)
            && self.are_values(args)
    }
}

fn has_receive(tag: &Tag) -> bool
    ensures { result ≡ is_some tag.now.receive }
{
    match &tag.receive {
        Some(_) => true,
        None => false,
    }
}

fn has_index(index: &Option<Term>) -> bool
    ensures { result ≡ is_some index.now }
{
    match index {
        Some(_) => true,
        None => false,
    }
}

// The number of a procedure's parameters, or 0 where there is no such procedure.
fn parameters_of(procs: &[Proc], number: u8) -> usize
    ensures { result ≡ length (proc_at procs.now number).params }
{
    match at(procs, usize::from(number)) {
        Some(proc) => proc.params.len(),
        None => 0,
    }
}

// ---- commands

#[cycle(commands)]
fn commands_are_formed(commands: &[Command], inside: &Inside) -> bool
    ensures { result ≡ list_all (command_is_formed (sight_of inside.now)) commands.now }
{
    for command in commands {
        if !command_is_formed(command, inside) {
            return false;
        }
    }
    true
}

#[cycle(commands)]
fn command_is_formed(command: &Command, inside: &Inside) -> bool
    ensures { result ≡ command_is_formed (sight_of inside.now) command.now }
{
    match command {
        Command::Send {
            note,
            label,
            tag,
            to,
            args,
        } => send_is_formed(note, *label, *tag, to, args.as_slice(), inside),
        Command::Await {
            note,
            label,
            tag,
            sender,
            args,
        } => {
            inside.is_note(note)
                && inside.is_received(*label, *tag, args.len())
                && inside.are_awaited(*sender, args.as_slice())
        }
        Command::Poll {
            note,
            got,
            label,
            tag,
            sender,
            args,
        } => {
            inside.is_note(note)
                && inside.is_received(*label, *tag, args.len())
                && inside.are_polled(*got, *sender, args.as_slice())
        }
        Command::Read {
            note,
            into,
            label,
            field,
            index,
        } => read_is_formed(note, *into, *label, *field, index, inside),
        Command::Set { local, value } => inside.is_target(*local) && inside.is_value(value),
        Command::If { test, yes, no } => {
            if !inside.is_test(test) {
                return false;
            }
            if !commands_are_formed(yes.as_slice(), inside) {
                return false;
            }
            commands_are_formed(no.as_slice(), inside)
        }
        Command::While { test, note, body } => {
            if !inside.is_test(test) {
                return false;
            }
            if !inside.is_note(note) {
                return false;
            }
            commands_are_formed(body.as_slice(), inside)
        }
        Command::Call {
            note,
            frame,
            into,
            proc,
            args,
        } => call_is_formed(note, frame, *into, *proc, args.as_slice(), inside),
    }
}

fn send_is_formed(
    note: &Formula,
    label: u8,
    tag: u8,
    to: &Term,
    args: &[Term],
    inside: &Inside,
) -> bool
    ensures { result ≡ send_is_formed (sight_of inside.now) note.now label tag to.now args.now }
{
    inside.is_note(note)
        && inside.is_sent(label, tag, args.len())
        && inside.is_value(to)
        && inside.are_values(args)
}

fn read_is_formed(
    note: &Formula,
    into: u32,
    label: u8,
    field: u8,
    index: &Option<Term>,
    inside: &Inside,
) -> bool
    ensures { result ≡ read_is_formed (sight_of inside.now) note.now into label field index.now }
{
    inside.is_note(note)
        && inside.is_read(label, field, index)
        && inside.is_index(index)
        && inside.is_target(into)
}

fn call_is_formed(
    note: &Formula,
    frame: &Formula,
    into: u32,
    callee: u8,
    args: &[Term],
    inside: &Inside,
) -> bool
    ensures { result ≡ call_is_formed (sight_of inside.now) note.now frame.now into callee args.now }
{
    inside.is_note(note)
        && inside.is_note(frame)
        && inside.is_target(into)
        && inside.is_call(callee, args)
}

// ---- procedures

// Whether each procedure is formed.
pub(crate) fn procs_are_formed(
    alloc: Global,
    procs: &[Proc],
    decls: &Decls,
) -> Result<bool, AllocError>
    ensures { IfOk result (λ formed. formed ≡ procs_are_formed decls.now 0 procs.now) }
{
    let mut number = 0;
    for proc in procs {
        if !proc_is_formed(alloc, proc, number, decls)? {
            return Ok(false);
        }
        number += 1;
    }
    Ok(true)
}

fn proc_is_formed(
    alloc: Global,
    proc: &Proc,
    number: usize,
    decls: &Decls,
) -> Result<bool, AllocError>
    ensures { IfOk result (λ formed. formed ≡ proc_is_formed decls.now number proc.now) }
{
    if usize::from(proc.world) >= decls.worlds.len() {
        return Ok(false);
    }
    if !has_names(alloc, proc)? {
        return Ok(false);
    }
    if !has_contract(alloc, proc, decls)? {
        return Ok(false);
    }
    has_body(alloc, proc, number, decls)
}

// Whether the parameters have sorts, and the parameters and locals are names, each once.
fn has_names(alloc: Global, proc: &Proc) -> Result<bool, AllocError>
    ensures { IfOk result (λ good. good ≡ has_names proc.now) }
{
    if !are_parameters(proc.params.as_slice()) {
        return Ok(false);
    }
    if proc.locals.len() > MOST_LOCALS {
        return Ok(false);
    }
    let names = names_of_proc(alloc, proc)?;
    let good = are_names(names.as_slice());
    drop(names);
    Ok(good)
}

// Whether what it asks and what it promises are formed.
fn has_contract(alloc: Global, proc: &Proc, decls: &Decls) -> Result<bool, AllocError>
    ensures { IfOk result (λ formed. formed ≡ has_contract decls.now proc.now) }
{
    if !is_promise(alloc, &proc.pre, &[ME], proc, decls)? {
        return Ok(false);
    }
    is_promise(alloc, &proc.post, &[RESULT, ME], proc, decls)
}

// Whether a formula over these words and the parameters is formed.
fn is_promise(
    alloc: Global,
    formula: &Formula,
    words: &[u32],
    proc: &Proc,
    decls: &Decls,
) -> Result<bool, AllocError>
    ensures { IfOk result (λ formed. formed ≡ is_formula (note_scope decls.now (words.now ++ arg_names proc.now.params)) formula.now) }
{
    let seen = names_before_args(alloc, words, proc.params.as_slice())?;
    let formed = is_contract(formula, seen.as_slice(), decls);
    drop(seen);
    Ok(formed)
}

fn is_contract(formula: &Formula, variables: &[u32], decls: &Decls) -> bool
    ensures { result ≡ is_formula (note_scope decls.now variables.now) formula.now }
{
    formulas::is_formula(formula, &Known::Base(Labels::File(&decls.inst), variables))
}

// Whether its commands and what it returns are formed.
fn has_body(alloc: Global, proc: &Proc, number: usize, decls: &Decls) -> Result<bool, AllocError>
    ensures { IfOk result (λ formed. formed ≡ has_body (proc_sight decls.now number proc.now) proc.now) }
{
    let variables = variables_of_proc(alloc, proc)?;
    let formed = body_is_formed(
        proc,
        &Inside {
            decls,
            number,
            locals: proc.locals.as_slice(),
            variables: variables.as_slice(),
        },
    );
    drop(variables);
    Ok(formed)
}

fn body_is_formed(proc: &Proc, inside: &Inside) -> bool
    ensures { result ≡ has_body (sight_of inside.now) proc.now }
{
    commands_are_formed(proc.body.as_slice(), inside) && inside.is_value(&proc.result)
}
