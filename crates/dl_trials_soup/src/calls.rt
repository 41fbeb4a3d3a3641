//! Each kind of call, with its reply and its entry.

use crate::mail::{AWAIT, READ, ask, got, send, soup};
use dl_model::{Entry, Order, Reply};
use dl_term::View;
use std::test::Fail;

#[test]
fn calls_and_entries(rt: HostRuntime) -> Result<(), Fail> {
    let alloc = rt.alloc();
    let mut soup = soup(alloc, Order::Oldest, 5)?;
    assert!(rt; !soup.ready(1, 0, 0));
    assert_eq!(rt; ask(&mut soup, 1, &AWAIT), Reply::Miss);
    assert_eq!(rt; send(&mut soup, 10), Reply::Sent(0));
    assert!(rt; soup.ready(1, 0, 0));
    assert!(rt; !soup.ready(0, 0, 0));
    assert_eq!(rt; ask(&mut soup, 1, &AWAIT), got(0, 10));
    assert!(rt; !soup.ready(1, 0, 0));
    assert_eq!(rt; ask(&mut soup, 1, &READ), Reply::Value(1));
    assert_eq!(rt; ask(&mut soup, 0, &READ), Reply::Value(0));
    assert_eq!(rt; soup.history().len(), 5);
    let entry = Entry {
        node: 1,
        ticks: 3,
        call: AWAIT,
        reply: got(0, 10),
    };
    assert!(rt; soup.history().contains(&entry));
    assert_eq!(rt; soup.state().len(0), 1);
    Ok(())
}
