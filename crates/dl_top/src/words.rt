//! The command that the words of a command line name.

ghost use Rattle.std.specs.Prelude.{◌≡◌, IfSome};
ghost use Rattle.dl_top.specs.Words.{command_named, command_alone, command_of, if_served, served};
ghost use Rattle.dl_top.specs.Budgets.{HasBudget};

use crate::options::run_of;
use crate::request::Command;
use crate::word::{Word, is};

/// The command of one word.
fn command_named(word: &Word) -> Option<Command>
    ensures value { result ≡ command_named word.now }
    ensures budget { IfSome result HasBudget }
{
    if is(word, "check") {
        Some(Command::Check)
    } else if is(word, "show") {
        Some(Command::Show)
    } else {
        None
    }
}

/// The command of a word with these behind it.
fn command_alone(word: &Word, words: &[Word]) -> Option<Command>
    ensures value { result ≡ command_alone word.now words.now }
    ensures budget { IfSome result HasBudget }
{
    match words {
        [] => command_named(word),
        _ => None,
    }
}

/// The command that the words name. `None` comes exactly where they name none, as where a word is
/// missing, unknown or one too many. The budget of a run is at most 100,000.
pub fn command(words: &[Word]) -> Option<Command>
    ensures value { result ≡ command_of words.now }
    ensures budget { IfSome result HasBudget }
{
    let [word, words @ ..] = words else {
        return None;
    };
    if is(word, "run") {
        run_of(words)
    } else {
        command_alone(word, words)
    }
}

/// The command, where it is served on one thread.
fn if_served(command: Command) -> Option<Command>
    requires { HasBudget command }
    ensures value { result ≡ if_served command }
    ensures budget { IfSome result HasBudget }
{
    match command {
        Command::Check => Some(Command::Check),
        Command::Show => Some(Command::Show),
        Command::Run {
            serial,
            budget,
            order,
        } => {
            if serial {
                Some(Command::Run {
                    serial,
                    budget,
                    order,
                })
            } else {
                None
            }
        }
    }
}

/// The command that the words name and that is served on one thread.
pub(crate) fn served(words: &[Word]) -> Option<Command>
    ensures value { result ≡ served (command_of words.now) }
    ensures budget { IfSome result HasBudget }
{
    match command(words) {
        Some(command) => if_served(command),
        None => None,
    }
}
