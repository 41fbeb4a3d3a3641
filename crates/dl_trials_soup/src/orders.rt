//! Four messages, received by each order. The ids that a seed draws are those of an independent reading.

ghost use Rattle.std.specs.Prelude.{◌≡◌, ◌<◌, ◌-◌, pos, IfOk};
ghost use Rattle.dl_model.specs.Examples.{mail};

use crate::mail::{POLL, ask, got, send, soup};
use dl_model::Order;
use dl_soup::Soup;
use std::alloc::{AllocError, Global};
use std::test::Fail;

// The first node has sent four numbers to the second one, and there is room for four calls.
fn filled(alloc: Global, order: Order) -> Result<Soup, AllocError>
    ensures inst { IfOk result (λ soup. soup.inst ≡ (mail (pos 0)).inst) }
    ensures room { IfOk result (λ soup. soup.spare ≡ 4) }
{
    let mut soup = soup(alloc, order, 8)?;
    send(&mut soup, 10);
    send(&mut soup, 11);
    send(&mut soup, 12);
    send(&mut soup, 13);
    Ok(soup)
}

// Whether the second node now receives the message with this id.
fn receives(soup: &mut Soup, id: u32) -> bool
    requires inst { soup.old.inst ≡ (mail (pos 0)).inst }
    requires room { 0 < soup.old.spare }
    ensures inst { soup.new.inst ≡ (mail (pos 0)).inst }
    ensures room { soup.new.spare ≡ soup.old.spare - 1 }
{
    ask(soup, 1, &POLL) == got(id, i64::from(id) + 10)
}

// Whether the four messages are received in this order.
fn received(alloc: Global, order: Order, ids: [u32; 4]) -> Result<bool, AllocError> {
    let mut soup = filled(alloc, order)?;
    let first = receives(&mut soup, ids[0]);
    let second = receives(&mut soup, ids[1]);
    let third = receives(&mut soup, ids[2]);
    let fourth = receives(&mut soup, ids[3]);
    Ok(first && second && third && fourth)
}

#[test]
fn by_age(rt: HostRuntime) -> Result<(), Fail> {
    let alloc = rt.alloc();
    assert!(rt; received(alloc, Order::Oldest, [0, 1, 2, 3])?);
    assert!(rt; received(alloc, Order::Newest, [3, 2, 1, 0])?);
    Ok(())
}

#[test]
fn by_draw(rt: HostRuntime) -> Result<(), Fail> {
    let alloc = rt.alloc();
    assert!(rt; received(alloc, Order::Seed(0), [3, 0, 2, 1])?);
    assert!(rt; received(alloc, Order::Seed(7), [2, 3, 1, 0])?);
    assert!(rt; received(alloc, Order::Seed(u64::MAX), [0, 3, 2, 1])?);
    Ok(())
}
