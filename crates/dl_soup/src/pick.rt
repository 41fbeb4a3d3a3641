//! Which of several messages is received.

ghost use Rattle.std.specs.Prelude.{◌≡◌, ◌-◌, ◌/◌, ◌%◌, ◌^◌, ◌==◌, ◌&&◌, if◌then◌else◌, slice_get, length, None};
ghost use Rattle.std.specs.List.{filter, last_or};
ghost use Rattle.dl_model.specs.Formed.{InstancesAreFormed};
ghost use Rattle.dl_model.specs.Steps.{message_in};
ghost use Rattle.dl_model.specs.Delivery.{is_match, is_receivable, matches};
ghost use Rattle.dl_soup.specs.Replies.{has_any, taken, turned};

use crate::pool::Pool;
use dl_model::{Instances, Order};
use dl_proto::receivable;
use dl_state::WorldState;
use dl_term::View;

// A tag's messages at a label, for a node.
#[derive(Clone, Copy)]
pub(crate) struct Wanted {
    pub(crate) node: u32,
    pub(crate) label: u8,
    pub(crate) tag: u8,
}

// The number of the generator after one turn.
#[inline(always)]
pub(crate) fn turned(x: u64) -> u64
    ensures { result ≡ turned x }
{
    let product = u128::from(x) * 6_364_136_223_846_793_005 + 1_442_695_040_888_963_407;
    (product % 18_446_744_073_709_551_616) as u64
}

// The match that the order takes, where the generator has come to this number.
#[inline(always)]
pub(crate) fn pick(
    inst: &Instances,
    pool: &Pool,
    order: Order,
    x: u64,
    wanted: &Wanted,
) -> Option<u32>
    requires { InstancesAreFormed inst.now }
    ensures { result ≡ taken order x (matches inst.now pool.now.state wanted.now.node wanted.now.label wanted.now.tag) }
{
    let state = pool.state();
    let ids = pool.live(wanted.label);
    match order {
        Order::Oldest => nth_match(inst, state, wanted, ids, 0),
        Order::Newest => last_match(inst, state, wanted, ids),
        Order::Seed(_) => drawn_match(inst, state, wanted, ids, x),
    }
}

// Whether there is a match.
pub(crate) fn has_match(inst: &Instances, pool: &Pool, wanted: &Wanted) -> bool
    requires { InstancesAreFormed inst.now }
    ensures { result ≡ has_any (matches inst.now pool.now.state wanted.now.node wanted.now.label wanted.now.tag) }
{
    nth_match(inst, pool.state(), wanted, pool.live(wanted.label), 0).is_some()
}

// Whether the message with this id is a match.
#[inline(always)]
fn is_match(inst: &Instances, state: &WorldState, wanted: &Wanted, id: u32) -> bool
    requires { InstancesAreFormed inst.now }
    ensures { result ≡ is_match inst.now state.now.state wanted.now.node wanted.now.label wanted.now.tag id }
{
    let tagged = is_tagged(state, wanted, id);
    tagged && can_receive(inst, state, wanted, id)
}

#[inline(always)]
fn is_tagged(state: &WorldState, wanted: &Wanted, id: u32) -> bool
    ensures { result ≡ ((message_in state.now.state wanted.now.label id).tag == wanted.now.tag) }
{
    state.tag(wanted.label, id) == wanted.tag
}

#[inline(always)]
fn can_receive(inst: &Instances, state: &WorldState, wanted: &Wanted, id: u32) -> bool
    requires { InstancesAreFormed inst.now }
    ensures { result ≡ is_receivable inst.now state.now.state wanted.now.node wanted.now.label (message_in state.now.state wanted.now.label id) }
{
    receivable(inst, state, wanted.label, id, wanted.node)
}

// The match with this number, from 0, among these ids.
fn nth_match(
    inst: &Instances,
    state: &WorldState,
    wanted: &Wanted,
    ids: &[u32],
    number: usize,
) -> Option<u32>
    requires { InstancesAreFormed inst.now }
    ensures { result ≡ slice_get (filter (is_match inst.now state.now.state wanted.now.node wanted.now.label wanted.now.tag) ids.now) number }
{
    let mut left = number;
    for id in ids {
        let hit = is_match(inst, state, wanted, *id);
        if is_wanted(hit, left) {
            return Some(*id);
        }
        left = still_left(hit, left);
    }
    None
}

// Whether this is a match, and the one that is looked for.
#[inline(always)]
fn is_wanted(hit: bool, left: usize) -> bool
    ensures { result ≡ (hit && (left == 0)) }
{
    hit && left == 0
}

// How many matches are still to be passed over.
#[inline(always)]
fn still_left(hit: bool, left: usize) -> usize
    ensures { result ≡ (if hit then left - 1 else left) }
{
    if hit { left.saturating_sub(1) } else { left }
}

// The last match among these ids.
fn last_match(inst: &Instances, state: &WorldState, wanted: &Wanted, ids: &[u32]) -> Option<u32>
    requires { InstancesAreFormed inst.now }
    ensures { result ≡ last_or None (filter (is_match inst.now state.now.state wanted.now.node wanted.now.label wanted.now.tag) ids.now) }
{
    let mut end = ids.len();
    while end > 0 {
        end -= 1;
        if is_match(inst, state, wanted, ids[end]) {
            return Some(ids[end]);
        }
    }
    None
}

// How many of these ids are matches.
fn count_matches(inst: &Instances, state: &WorldState, wanted: &Wanted, ids: &[u32]) -> usize
    requires { InstancesAreFormed inst.now }
    ensures { result ≡ length (filter (is_match inst.now state.now.state wanted.now.node wanted.now.label wanted.now.tag) ids.now) }
{
    let mut count = 0;
    for id in ids {
        count += one_if(is_match(inst, state, wanted, *id));
    }
    count
}

#[inline(always)]
fn one_if(hit: bool) -> usize
    ensures { result ≡ (if hit then 1 else 0) }
{
    if hit { 1 } else { 0 }
}

// The match that the generator's number draws among these ids.
fn drawn_match(
    inst: &Instances,
    state: &WorldState,
    wanted: &Wanted,
    ids: &[u32],
    x: u64,
) -> Option<u32>
    requires { InstancesAreFormed inst.now }
    ensures { result ≡ slice_get (filter (is_match inst.now state.now.state wanted.now.node wanted.now.label wanted.now.tag) ids.now) ((x / (2 ^ 33)) % length (filter (is_match inst.now state.now.state wanted.now.node wanted.now.label wanted.now.tag) ids.now)) }
{
    let count = count_matches(inst, state, wanted, ids);
    if count == 0 {
        return None;
    }
    let number = ((x >> 33) % count as u64) as usize;
    nth_match(inst, state, wanted, ids, number)
}
