//! The options of a run.

ghost use Rattle.std.specs.Prelude.{◌≡◌, ◌≤◌, unwrap_or, IfSome};
ghost use Rattle.dl_top.specs.Words.{if_budget, budget_in, no_options, with_serial, with_next, with_name, with_budget, with_order, with_word, with_words, run_with, run_of};
ghost use Rattle.dl_top.specs.Budgets.{HasBudget, HasSmallBudget, IsSmall};

use crate::request::Command;
use crate::word::{Word, is};
use dl_model::Order;
use dl_report::{order_in, small};

/// What the next word is.
#[derive(Clone, Copy, Debug, Drop, PartialEq, Eq)]
pub(crate) enum Next {
    /// The name of an option.
    Name,
    /// A budget.
    Budget,
    /// An order of delivery.
    Order,
}

/// The options that stood so far, and what comes next.
#[derive(Clone, Copy, Debug, Drop, PartialEq, Eq)]
pub(crate) struct Options {
    serial: bool,
    budget: Option<u32>,
    order: Option<Order>,
    next: Next,
}

/// The number, where it is from 1 to 100,000.
fn if_budget(number: u32) -> Option<u32>
    ensures value { result ≡ if_budget number }
    ensures small { IfSome result (λ budget. budget ≤ 100000) }
{
    if 0 < number && number < 100_001 {
        Some(number)
    } else {
        None
    }
}

/// The budget that a word is.
fn budget_in(word: &Word) -> Option<u32>
    ensures value { result ≡ budget_in word.now }
    ensures small { IfSome result (λ budget. budget ≤ 100000) }
{
    match small(word.as_bytes()) {
        Some(number) => if_budget(number),
        None => None,
    }
}

/// The options with `--serial`, which didn't stand before.
fn with_serial(options: Options) -> Option<Options>
    requires { HasSmallBudget options }
    ensures value { result ≡ with_serial options }
    ensures small { IfSome result HasSmallBudget }
{
    if options.serial {
        return None;
    }
    Some(Options {
        serial: true,
        budget: options.budget,
        order: options.order,
        next: Next::Name,
    })
}

/// The options with the name of one whose value comes next, and which didn't stand before.
fn with_next(options: Options, stood: bool, next: Next) -> Option<Options>
    requires { HasSmallBudget options }
    ensures value { result ≡ with_next options stood next }
    ensures small { IfSome result HasSmallBudget }
{
    if stood {
        return None;
    }
    Some(Options {
        serial: options.serial,
        budget: options.budget,
        order: options.order,
        next,
    })
}

/// The options with one more name.
fn with_name(options: Options, word: &Word) -> Option<Options>
    requires { HasSmallBudget options }
    ensures value { result ≡ with_name options word.now }
    ensures small { IfSome result HasSmallBudget }
{
    if is(word, "--serial") {
        with_serial(options)
    } else if is(word, "--budget") {
        with_next(options, options.budget.is_some(), Next::Budget)
    } else if is(word, "--order") {
        with_next(options, options.order.is_some(), Next::Order)
    } else {
        None
    }
}

fn with_budget(options: Options, budget: u32) -> Options
    requires { budget ≤ 100000 }
    ensures value { result ≡ with_budget options budget }
    ensures small { HasSmallBudget result }
{
    Options {
        serial: options.serial,
        budget: Some(budget),
        order: options.order,
        next: Next::Name,
    }
}

fn with_order(options: Options, order: Order) -> Options
    requires { HasSmallBudget options }
    ensures value { result ≡ with_order options order }
    ensures small { HasSmallBudget result }
{
    Options {
        serial: options.serial,
        budget: options.budget,
        order: Some(order),
        next: Next::Name,
    }
}

/// The options with one more word.
fn with_word(options: Options, word: &Word) -> Option<Options>
    requires { HasSmallBudget options }
    ensures value { result ≡ with_word options word.now }
    ensures small { IfSome result HasSmallBudget }
{
    match options.next {
        Next::Name => with_name(options, word),
        Next::Budget => match budget_in(word) {
            Some(budget) => Some(with_budget(options, budget)),
            None => None,
        },
        Next::Order => match order_in(word.as_bytes()) {
            Some(order) => Some(with_order(options, order)),
            None => None,
        },
    }
}

/// The options with these words.
fn with_words(options: Options, words: &[Word]) -> Option<Options>
    requires { HasSmallBudget options }
    ensures value { result ≡ with_words options words.now }
    ensures small { IfSome result HasSmallBudget }
{
    let [word, words @ ..] = words else {
        return Some(options);
    };
    match with_word(options, word) {
        Some(more) => with_words(more, words),
        None => None,
    }
}

/// The budget that was given, or 1,000.
fn budget_or(budget: Option<u32>) -> u32
    requires { IsSmall budget }
    ensures value { result ≡ unwrap_or budget 1000 }
    ensures small { result ≤ 100000 }
{
    match budget {
        Some(budget) => budget,
        None => 1000,
    }
}

/// The run with these options.
fn run_with(options: Options) -> Option<Command>
    requires { HasSmallBudget options }
    ensures value { result ≡ run_with options }
    ensures budget { IfSome result HasBudget }
{
    match options.next {
        Next::Name => Some(Command::Run {
            serial: options.serial,
            budget: budget_or(options.budget),
            order: options.order.unwrap_or(Order::Oldest),
        }),
        Next::Budget => None,
        Next::Order => None,
    }
}

/// The run that these words behind `run` name.
pub(crate) fn run_of(words: &[Word]) -> Option<Command>
    ensures value { result ≡ run_of words.now }
    ensures budget { IfSome result HasBudget }
{
    let none = Options {
        serial: false,
        budget: None,
        order: None,
        next: Next::Name,
    };
    match with_words(none, words) {
        Some(options) => run_with(options),
        None => None,
    }
}
