//! Which names in procedures stand for constants.

ghost use Rattle.std.specs.Prelude.{◌≡◌, ◌&&◌};
ghost use Rattle.std.specs.List.{list_all};
ghost use Rattle.dl_means.specs.Known.{words_of};
ghost use Rattle.dl_means.specs.Says.{of_some, says_term as term_says, says as formula_says, says_command as command_says, says_proc as proc_says};

use crate::says::{says, says_index, says_term};
use crate::words::Words;
use dl_forms::Names;
use dl_model::{Command, Proc};
use dl_term::{Formula, Term};

fn all_three(first: bool, second: bool, third: bool) -> bool
    ensures { result ≡ (first && (second && third)) }
{
    first && (second && third)
}

fn says_terms(names: &Names, words: &Words, terms: &[Term]) -> bool
    ensures { result ≡ list_all (term_says names.now (words_of words.now)) terms.now }
{
    for term in terms {
        if !says_term(names, words, term) {
            return false;
        }
    }
    true
}

fn says_send(names: &Names, words: &Words, note: &Formula, to: &Term, args: &[Term]) -> bool
    ensures { result ≡ (formula_says names.now (words_of words.now) note.now && (term_says names.now (words_of words.now) to.now && list_all (term_says names.now (words_of words.now)) args.now)) }
{
    says(names, words, note) && (says_term(names, words, to) && says_terms(names, words, args))
}

fn says_read(names: &Names, words: &Words, note: &Formula, index: &Option<Term>) -> bool
    ensures { result ≡ (formula_says names.now (words_of words.now) note.now && of_some (term_says names.now (words_of words.now)) index.now) }
{
    says(names, words, note) && says_index(names, words, index)
}

fn says_call(names: &Names, words: &Words, note: &Formula, frame: &Formula, args: &[Term]) -> bool
    ensures { result ≡ (formula_says names.now (words_of words.now) note.now && (formula_says names.now (words_of words.now) frame.now && list_all (term_says names.now (words_of words.now)) args.now)) }
{
    says(names, words, note) && (says(names, words, frame) && says_terms(names, words, args))
}

#[cycle(commands)]
fn says_commands(commands: &[Command], names: &Names, words: &Words) -> bool
    ensures { result ≡ list_all (command_says names.now (words_of words.now)) commands.now }
{
    for command in commands {
        if !says_command(command, names, words) {
            return false;
        }
    }
    true
}

#[cycle(commands)]
fn says_command(command: &Command, names: &Names, words: &Words) -> bool
    ensures { result ≡ command_says names.now (words_of words.now) command.now }
{
    match command {
        Command::Send { note, to, args, .. } => says_send(names, words, note, to, args.as_slice()),
        Command::Await { note, .. } => says(names, words, note),
        Command::Poll { note, .. } => says(names, words, note),
        Command::Read { note, index, .. } => says_read(names, words, note, index),
        Command::Set { value, .. } => says_term(names, words, value),
        Command::If { test, yes, no } => all_three(
            says(names, words, test),
            says_commands(yes.as_slice(), names, words),
            says_commands(no.as_slice(), names, words),
        ),
        Command::While { test, note, body } => all_three(
            says(names, words, test),
            says(names, words, note),
            says_commands(body.as_slice(), names, words),
        ),
        Command::Call {
            note,
            frame,
            args,
            ..
        } => says_call(names, words, note, frame, args.as_slice()),
    }
}

/// Of the body of a procedure and what it returns.
fn says_body(names: &Names, words: &Words, proc: &Proc) -> bool
    ensures { result ≡ (list_all (command_says names.now (words_of words.now)) proc.now.body && term_says names.now (words_of words.now) proc.now.result) }
{
    let commands = says_commands(proc.body.as_slice(), names, words);
    commands && says_term(names, words, &proc.result)
}

pub(crate) fn says_proc(names: &Names, words: &Words, proc: &Proc) -> bool
    ensures { result ≡ proc_says names.now (words_of words.now) proc.now }
{
    all_three(
        says(names, words, &proc.pre),
        says(names, words, &proc.post),
        says_body(names, words, proc),
    )
}
