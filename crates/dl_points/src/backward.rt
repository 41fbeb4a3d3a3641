//! The formula that a block of commands asks for where it begins.

ghost use Rattle.std.specs.Prelude.{◌≡◌, ◌≤◌, true, false, length, IfErr, IfOk, OnOk};
ghost use Rattle.std.specs.List.{list_all};
ghost use Rattle.dl_term.specs.declared.syntax.Formula.{And, Implies, Not};
ghost use Rattle.dl_term.specs.Measures.{is_oversized};
ghost use Rattle.dl_subst.specs.Substitution.{substituted};
ghost use Rattle.dl_model.specs.Block.{block_of};
ghost use Rattle.dl_triples.specs.Points.{post_of, pre_of};
ghost use Rattle.dl_points.specs.Passing.{after_of, command_passes, pre_of_command, pre_of_commands, reach_of};

use dl_inv::{BuildFault, both};
use dl_model::{Command, Proc};
use dl_subst::{SubstFault, put_term};
use dl_term::{Formula, Term, copy_formula, oversized};
use sqlite_items::Boxed;
use std::alloc::{AllocError, Global};
use std::mem;

// The name of what a procedure returns.
const RESULT: u32 = 7;

/// What comes after a command.
#[derive(Clone, Copy)]
pub enum Trail<'a> {
    /// The end of a procedure's body, where its postcondition is to hold of what it returns.
    Returns(&'a Proc),
    /// The end of a loop's body, where the loop's annotation is to hold.
    Repeats(&'a Formula),
    /// These commands, and then what comes after them.
    Runs(&'a Trail<'a>, &'a [Command]),
}

/// The formula that has to hold where the commands begin, so that the annotation of the first point on each way holds
/// there, and `after` at their end where no point comes before.
///
/// `Limit` comes only where the formula has more than 1,000,000 parts or nests more than 4,000 deep, and then no other
/// refusal comes but `Memory`.
pub fn pre(alloc: Global, commands: &[Command], after: &Formula) -> Result<Formula, BuildFault>
    ensures made { IfOk result (λ made. made ≡ pre_of (block_of commands.now) after.now) }
    ensures small { IfOk result (λ made. is_oversized made ≡ false) }
    ensures limit { (result ≡ Err BuildFault.Limit) → is_oversized (pre_of (block_of commands.now) after.now) ≡ true }
{
    let mut made = copy_formula(alloc, after)?;
    match block_over(alloc, commands, &mut made) {
        Ok(()) => not_oversized(made),
        Err(fault) => {
            drop(made);
            Err(fault)
        }
    }
}

fn not_oversized(made: Formula) -> Result<Formula, BuildFault>
    ensures kept { IfOk result (λ kept. (kept ≡ made) × (is_oversized made ≡ false)) }
    ensures limit { IfErr result (λ fault. (fault ≡ BuildFault.Limit) × (is_oversized made ≡ true)) }
{
    if oversized(&made) {
        drop(made);
        return Err(BuildFault::Limit);
    }
    Ok(made)
}

// ---- which commands a formula depends on

// Whether some way through the commands comes to no point.
#[cycle(passes)]
pub(crate) fn all_pass(commands: &[Command]) -> bool
    ensures { result ≡ list_all command_passes commands.now }
{
    for command in commands {
        if !passes(command) {
            return false;
        }
    }
    true
}

#[cycle(passes)]
fn passes(command: &Command) -> bool
    ensures { result ≡ command_passes command.now }
{
    match command {
        Command::Send { .. } => false,
        Command::Await { .. } => false,
        Command::Poll { .. } => false,
        Command::Read { .. } => false,
        Command::Set { .. } => true,
        Command::If { yes, no, .. } => {
            if all_pass(yes.as_slice()) {
                return true;
            }
            all_pass(no.as_slice())
        }
        Command::While { .. } => false,
        Command::Call { .. } => false,
    }
}

// How many commands there are up to the first one that no way passes, itself counted.
fn reach(commands: &[Command]) -> usize
    ensures counted { result ≡ reach_of commands.now }
    ensures within { result ≤ length commands.now }
{
    for (index, command) in commands.iter().enumerate() {
        if !passes(command) {
            return index + 1;
        }
    }
    commands.len()
}

// ---- backwards through the commands

// Writes what the commands ask for over what holds at their end.
#[cycle(backwards)]
pub(crate) fn pre_over(
    alloc: Global,
    commands: &[Command],
    formula: &mut Formula,
) -> Result<(), BuildFault>
    ensures made { OnOk result (formula.new ≡ pre_of_commands commands.now formula.old) }
    ensures limit { (result ≡ Err BuildFault.Limit) → is_oversized (pre_of_commands commands.now formula.old) ≡ true }
{
    let count = reach(commands);
    for done in 0..count {
        let place = count - 1 - done;
        command_over(alloc, &commands[place], formula)?;
    }
    Ok(())
}

#[cycle(backwards)]
fn command_over(alloc: Global, command: &Command, formula: &mut Formula) -> Result<(), BuildFault>
    ensures made { OnOk result (formula.new ≡ pre_of_command command.now formula.old) }
    ensures limit { (result ≡ Err BuildFault.Limit) → is_oversized (pre_of_command command.now formula.old) ≡ true }
{
    match command {
        Command::Send { note, .. } => note_over(alloc, note, formula),
        Command::Await { note, .. } => note_over(alloc, note, formula),
        Command::Poll { note, .. } => note_over(alloc, note, formula),
        Command::Read { note, .. } => note_over(alloc, note, formula),
        Command::Set { local, value } => value_over(alloc, *local, value, formula),
        Command::If { test, yes, no } => {
            let mut chosen = copy_formula(alloc, &*formula)?;
            match pre_over(alloc, yes.as_slice(), &mut chosen) {
                Ok(()) => match pre_over(alloc, no.as_slice(), formula) {
                    Ok(()) => choose(alloc, test, chosen, formula),
                    Err(fault) => {
                        drop(chosen);
                        Err(fault)
                    }
                },
                Err(fault) => {
                    drop(chosen);
                    Err(fault)
                }
            }
        }
        Command::While { note, .. } => note_over(alloc, note, formula),
        Command::Call { note, .. } => note_over(alloc, note, formula),
    }
}

// The same, by the block of the commands.
fn block_over(alloc: Global, commands: &[Command], formula: &mut Formula) -> Result<(), BuildFault>
    ensures made { OnOk result (formula.new ≡ pre_of (block_of commands.now) formula.old) }
    ensures limit { (result ≡ Err BuildFault.Limit) → is_oversized (pre_of (block_of commands.now) formula.old) ≡ true }
{
    pre_over(alloc, commands, formula)
}

// ---- one formula over another

/// Puts a formula in the place of another.
pub fn put_formula(place: &mut Formula, made: Formula)
    ensures { place.new ≡ made }
{
    drop(mem::replace(place, made));
}

pub(crate) fn note_over(
    alloc: Global,
    note: &Formula,
    formula: &mut Formula,
) -> Result<(), BuildFault>
    ensures made { OnOk result (formula.new ≡ note.now) }
    ensures limit { (result ≡ Err BuildFault.Limit) → ⊥ }
{
    match copy_formula(alloc, note) {
        Ok(made) => {
            put_formula(formula, made);
            Ok(())
        }
        Err(_) => Err(BuildFault::Memory),
    }
}

/// Puts the value in the places of the local.
pub fn value_over(
    alloc: Global,
    local: u32,
    value: &Term,
    formula: &mut Formula,
) -> Result<(), BuildFault>
    ensures made { OnOk result (formula.new ≡ substituted formula.old local value.now) }
    ensures limit { (result ≡ Err BuildFault.Limit) → is_oversized (substituted formula.old local value.now) ≡ true }
{
    match put_term(alloc, &*formula, local, value) {
        Ok(made) => {
            put_formula(formula, made);
            Ok(())
        }
        Err(fault) => Err(refused(fault)),
    }
}

// A refusal of a term that is put with no look at captures.
pub(crate) fn refused(fault: SubstFault) -> BuildFault
    requires { fault ≡ SubstFault.Capture → ⊥ }
    ensures { (result ≡ BuildFault.Limit) → fault ≡ SubstFault.Size }
{
    match fault {
        SubstFault::Size => BuildFault::Limit,
        SubstFault::Memory => BuildFault::Memory,
        SubstFault::Capture => unreachable!(),
    }
}

// ---- choices

fn implies(alloc: Global, left: Formula, right: Formula) -> Result<Formula, AllocError>
    ensures { IfOk result (λ made. made ≡ Implies left right) }
{
    match Boxed::new(alloc, left) {
        Ok(left) => implies_with(alloc, left, right),
        Err(error) => {
            drop(right);
            Err(error)
        }
    }
}

// The first formula has its memory.
fn implies_with(alloc: Global, left: Boxed<Formula>, right: Formula) -> Result<Formula, AllocError>
    ensures { IfOk result (λ made. made ≡ Implies left right) }
{
    match Boxed::new(alloc, right) {
        Ok(right) => Ok(Formula::Implies(left, right)),
        Err(error) => {
            drop(left);
            Err(error)
        }
    }
}

/// The formula that holds where this one doesn't.
pub fn opposite(alloc: Global, formula: &Formula) -> Result<Formula, AllocError>
    ensures { IfOk result (λ made. made ≡ Not formula.now) }
{
    let copy = copy_formula(alloc, formula)?;
    match Boxed::new(alloc, copy) {
        Ok(body) => Ok(Formula::Not(body)),
        Err(error) => Err(error),
    }
}

fn where_true(alloc: Global, test: &Formula, chosen: Formula) -> Result<Formula, AllocError>
    ensures { IfOk result (λ made. made ≡ Implies test.now chosen) }
{
    match copy_formula(alloc, test) {
        Ok(test) => implies(alloc, test, chosen),
        Err(error) => {
            drop(chosen);
            Err(error)
        }
    }
}

fn where_false(alloc: Global, test: &Formula, other: Formula) -> Result<Formula, AllocError>
    ensures { IfOk result (λ made. made ≡ Implies (Not test.now) other) }
{
    match opposite(alloc, test) {
        Ok(test) => implies(alloc, test, other),
        Err(error) => {
            drop(other);
            Err(error)
        }
    }
}

fn choice(
    alloc: Global,
    test: &Formula,
    chosen: Formula,
    other: Formula,
) -> Result<Formula, AllocError>
    ensures { IfOk result (λ made. made ≡ And (Implies test.now chosen) (Implies (Not test.now) other)) }
{
    match where_true(alloc, test, chosen) {
        Ok(first) => choice_with(alloc, test, first, other),
        Err(error) => {
            drop(other);
            Err(error)
        }
    }
}

// The side where the test is true is made.
fn choice_with(
    alloc: Global,
    test: &Formula,
    first: Formula,
    other: Formula,
) -> Result<Formula, AllocError>
    ensures { IfOk result (λ made. made ≡ And first (Implies (Not test.now) other)) }
{
    match where_false(alloc, test, other) {
        Ok(second) => both(alloc, first, second),
        Err(error) => {
            drop(first);
            Err(error)
        }
    }
}

// Writes the choice between two formulas over the second one.
fn choose(
    alloc: Global,
    test: &Formula,
    chosen: Formula,
    other: &mut Formula,
) -> Result<(), BuildFault>
    ensures made { OnOk result (other.new ≡ And (Implies test.now chosen) (Implies (Not test.now) other.old)) }
    ensures limit { (result ≡ Err BuildFault.Limit) → is_oversized (And (Implies test.now chosen) (Implies (Not test.now) other.old)) ≡ true }
{
    let taken = mem::replace(other, Formula::True);
    match choice(alloc, test, chosen, taken) {
        Ok(made) => put_small(other, made),
        Err(_) => Err(BuildFault::Memory),
    }
}

fn put_small(place: &mut Formula, made: Formula) -> Result<(), BuildFault>
    ensures made { OnOk result (place.new ≡ made) }
    ensures limit { (result ≡ Err BuildFault.Limit) → is_oversized made ≡ true }
{
    match not_oversized(made) {
        Ok(made) => {
            put_formula(place, made);
            Ok(())
        }
        Err(fault) => Err(fault),
    }
}

// ---- what comes after a command

/// Writes what has to hold where the trail begins over a formula.
#[cycle(after)]
pub fn after_over(alloc: Global, trail: &Trail, formula: &mut Formula) -> Result<(), BuildFault>
    ensures made { OnOk result (formula.new ≡ after_of trail.now) }
    ensures limit { (result ≡ Err BuildFault.Limit) → is_oversized (after_of trail.now) ≡ true }
{
    match *trail {
        Trail::Returns(proc) => post_over(alloc, proc, formula),
        Trail::Repeats(note) => note_over(alloc, note, formula),
        // What comes after the commands matters only where some way through them comes to no point.
        Trail::Runs(outer, commands) => {
            if !all_pass(commands) {
                return block_over(alloc, commands, formula);
            }
            after_over(alloc, outer, formula)?;
            block_over(alloc, commands, formula)
        }
    }
}

// The postcondition of what the procedure returns.
fn post_over(alloc: Global, proc: &Proc, formula: &mut Formula) -> Result<(), BuildFault>
    ensures made { OnOk result (formula.new ≡ post_of proc.now) }
    ensures limit { (result ≡ Err BuildFault.Limit) → is_oversized (post_of proc.now) ≡ true }
{
    match put_term(alloc, &proc.post, RESULT, &proc.result) {
        Ok(made) => {
            put_formula(formula, made);
            Ok(())
        }
        Err(fault) => Err(refused(fault)),
    }
}
