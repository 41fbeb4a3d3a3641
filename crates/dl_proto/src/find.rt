//! What stands at a position of the instances, and sorts.

ghost use Rattle.std.specs.Prelude.{◌≡◌, slice_get, IfSome};
ghost use Rattle.std.specs.Option.{option_copied};
ghost use Rattle.dl_model.specs.Sorts.{in_sort as is_in_sort, all_in_sorts, is_node as is_a_node};
ghost use Rattle.dl_model.specs.Lookup.{protocol_at, field_sort, arg_sorts};
ghost use Rattle.dl_model.specs.Scopes.{protocol_found};
ghost use Rattle.dl_model.specs.Formed.{InstancesAreFormed};
ghost use Rattle.dl_proto.specs.Ready.{TagIsReady};

use dl_model::{Instances, Protocol, Tag};
use dl_term::Sort;
use sqlite_items::at;

// The protocol of a label.
#[inline(always)]
pub(crate) fn find_protocol(inst: &Instances, label: u8) -> Option<&Protocol>
    ensures { option_copied result ≡ protocol_found inst.now (slice_get inst.now.of label) }
{
    match at(inst.of.as_slice(), usize::from(label)) {
        Some(protocol) => at(inst.protocols.as_slice(), usize::from(*protocol)),
        None => None,
    }
}

// The tag of a label's protocol.
#[inline(always)]
pub(crate) fn find_tag(inst: &Instances, label: u8, tag: u8) -> Option<&Tag>
    requires { InstancesAreFormed inst.now }
    ensures found { option_copied result ≡ slice_get (protocol_at inst.now label).tags tag }
    ensures ready { IfSome result (λ tag. TagIsReady (protocol_at inst.now label) tag.now) }
{
    match find_protocol(inst, label) {
        Some(protocol) => at(protocol.tags.as_slice(), usize::from(tag)),
        None => None,
    }
}

// The sort of a field of a label's protocol.
#[inline(always)]
pub(crate) fn sort_of(inst: &Instances, label: u8, field: u8) -> Sort
    ensures { result ≡ field_sort inst.now label field }
{
    let Some(protocol) = find_protocol(inst, label) else {
        return Sort { low: 0, high: 0 };
    };
    match at(protocol.fields.as_slice(), usize::from(field)) {
        Some(declared) => declared.sort,
        None => Sort { low: 0, high: 0 },
    }
}

// Whether a number is in a sort.
#[inline(always)]
pub(crate) fn in_sort(sort: Sort, number: i128) -> bool
    ensures { result ≡ is_in_sort sort number }
{
    i128::from(sort.low) <= number && number <= i128::from(sort.high)
}

// Whether there is one number for each parameter, each in its sort. Most tags have no parameter.
#[inline(always)]
pub(crate) fn are_in_sorts(params: &[(u32, Sort)], numbers: &[i64]) -> bool
    ensures { result ≡ all_in_sorts (arg_sorts params.now) numbers.now }
{
    match params {
        [] => numbers.is_empty(),
        _ => are_each_in_sorts(params, numbers),
    }
}

#[inline(never)]
fn are_each_in_sorts(params: &[(u32, Sort)], numbers: &[i64]) -> bool
    ensures { result ≡ all_in_sorts (arg_sorts params.now) numbers.now }
{
    let [(_, sort), params @ ..] = params else {
        return numbers.is_empty();
    };
    let [number, numbers @ ..] = numbers else {
        return false;
    };
    in_sort(*sort, i128::from(*number)) && are_each_in_sorts(params, numbers)
}

// Whether a number is a node.
#[inline(always)]
pub(crate) fn is_node(nodes: u32, number: i128) -> bool
    ensures { result ≡ is_a_node nodes number }
{
    0 <= number && number < i128::from(nodes)
}
