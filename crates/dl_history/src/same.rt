//! Whether two calls are the same.

ghost use Rattle.std.specs.Prelude.{◌≡◌};
ghost use Rattle.std.specs.Ordering.{int_eq};
ghost use Rattle.std.specs.Cmp.Lexicographic.{pointwise};
ghost use Rattle.dl_model.specs.declared.history.Call.TheVariants.{Send, Poll, Await, Read};
ghost use Rattle.dl_history.specs.Same.{same_args as the_same_args, same_index as the_same_index, same_call as the_same_call};

use dl_model::{Args, Call};

pub(crate) fn same_numbers(left: &[i64], right: &[i64]) -> bool
    ensures { result ≡ pointwise int_eq left.now right.now }
{
    left == right
}

fn same_args(left: &Args, right: &Args) -> bool
    ensures { result ≡ the_same_args left.now right.now }
{
    left.count == right.count && same_numbers(&left.values, &right.values)
}

fn same_index(left: Option<i64>, right: Option<i64>) -> bool
    ensures { result ≡ the_same_index left right }
{
    let Some(left) = left else {
        return right.is_none();
    };
    let Some(right) = right else {
        return false;
    };
    left == right
}

pub(crate) fn same_call(left: &Call, right: &Call) -> bool
    ensures { result ≡ the_same_call left.now right.now }
{
    match left {
        Call::Send {
            label,
            tag,
            to,
            args,
        } => is_send(*label, *tag, *to, args, right),
        Call::Poll { label, tag } => is_poll(*label, *tag, right),
        Call::Await { label, tag } => is_await(*label, *tag, right),
        Call::Read {
            label,
            field,
            index,
        } => is_read(*label, *field, *index, right),
    }
}

fn is_send(label: u8, tag: u8, to: i64, args: &Args, call: &Call) -> bool
    ensures { result ≡ the_same_call (Send label tag to args.now) call.now }
{
    match call {
        Call::Send {
            label: other_label,
            tag: other_tag,
            to: other_to,
            args: others,
        } => {
            label == *other_label && tag == *other_tag && to == *other_to && same_args(args, others)
        }
        Call::Poll { .. } => false,
        Call::Await { .. } => false,
        Call::Read { .. } => false,
    }
}

fn is_poll(label: u8, tag: u8, call: &Call) -> bool
    ensures { result ≡ the_same_call (Poll label tag) call.now }
{
    match call {
        Call::Send { .. } => false,
        Call::Poll {
            label: other_label,
            tag: other_tag,
        } => label == *other_label && tag == *other_tag,
        Call::Await { .. } => false,
        Call::Read { .. } => false,
    }
}

fn is_await(label: u8, tag: u8, call: &Call) -> bool
    ensures { result ≡ the_same_call (Await label tag) call.now }
{
    match call {
        Call::Send { .. } => false,
        Call::Poll { .. } => false,
        Call::Await {
            label: other_label,
            tag: other_tag,
        } => label == *other_label && tag == *other_tag,
        Call::Read { .. } => false,
    }
}

fn is_read(label: u8, field: u8, index: Option<i64>, call: &Call) -> bool
    ensures { result ≡ the_same_call (Read label field index) call.now }
{
    match call {
        Call::Send { .. } => false,
        Call::Poll { .. } => false,
        Call::Await { .. } => false,
        Call::Read {
            label: other_label,
            field: other_field,
            index: other_index,
        } => { label == *other_label && field == *other_field && same_index(index, *other_index) }
    }
}
