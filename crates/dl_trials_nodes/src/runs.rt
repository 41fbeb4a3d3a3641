//! Serial runs of files, with their entries and ends after an independent reading.

use dl_file::File;
use dl_formed::is_formed;
use dl_forms::Names;
use dl_model::{Args, Call, End, Entry, Order, Reply};
use dl_nodes::{Run, run_serial};
use dl_read_script::build_file;
use dl_tree::read_tree;
use std::alloc::{AllocError, Global};
use std::test::Fail;

/// One client and one server.
const PAIR: &str = "(disel 1 (nodes a b)
  (protocol mail (field got bool 0)
    (tag req ((v int)) (send true) (receive true (set got 1))))
  (label r mail)
  (world w (labels r) (hooks))
  (proc client w ((v int)) (locals) (pre true) (post true)
    (body (send true r req b v)) (return 0))
  (proc server w () (locals f u) (pre true) (post true)
    (body (await true r req f (u))) (return u))
  (deploy w (a client 7) (b server)))";

/// The server alone.
const ALONE: &str = "(disel 1 (nodes a b)
  (protocol mail (field got bool 0)
    (tag req ((v int)) (send true) (receive true (set got 1))))
  (label r mail)
  (world w (labels r) (hooks))
  (proc server w () (locals f u) (pre true) (post true)
    (body (await true r req f (u))) (return u))
  (deploy w (b server)))";

/// A server that returns too great a number.
const STOPS: &str = "(disel 1 (nodes a b)
  (protocol mail (field got bool 0)
    (tag req ((v int)) (send true) (receive true (set got 1))))
  (label r mail)
  (world w (labels r) (hooks))
  (proc client w ((v int)) (locals) (pre true) (post true)
    (body (send true r req b v)) (return 0))
  (proc server w () (locals f u) (pre true) (post true)
    (body (await true r req f (u))) (return (+ u 9223372036854775807)))
  (deploy w (a client 7) (b server)))";

/// Two clients and a server.
const THREE: &str = "(disel 1 (nodes a c b)
  (protocol mail (field got bool 0)
    (tag req ((v int)) (send true) (receive true (set got 1))))
  (label r mail)
  (world w (labels r) (hooks))
  (proc client w ((v int)) (locals) (pre true) (post true)
    (body (send true r req b v)) (return 0))
  (proc server w () (locals f u h) (pre true) (post true)
    (body (await true r req f (u)) (await true r req f (h))) (return (+ (* 10 u) h)))
  (deploy w (a client 7) (c client 9) (b server)))";

/// A game of ping and pong.
const GAME: &str = "(disel 1 (nodes a b)
  (protocol game (tag ping () (send true) (receive true))
    (tag pong () (send true) (receive true)))
  (label g game)
  (world w (labels g) (hooks))
  (proc one w () (locals f) (pre true) (post true)
    (body (send true g ping b) (await true g pong f ())) (return f))
  (proc two w () (locals f) (pre true) (post true)
    (body (await true g ping f ()) (send true g pong a)) (return 0))
  (deploy w (a one) (b two)))";

/// A node that sends to itself.
const SELF: &str = "(disel 1 (nodes a b)
  (protocol game (tag ping () (send true) (receive true)))
  (label g game)
  (world w (labels g) (hooks))
  (proc one w () (locals f) (pre true) (post true)
    (body (send true g ping a) (await true g ping f ())) (return f))
  (deploy w (a one)))";

/// A client that sends twice, in a loop, and a server that polls.
const LOOP: &str = "(disel 1 (nodes a b)
  (protocol mail (field got bool 0)
    (tag req ((v int)) (send true) (receive true (set got 1))))
  (label r mail)
  (world w (labels r) (hooks))
  (proc client w ((v int)) (locals n) (pre true) (post true)
    (body (set n 2)
      (while (< 0 n) true (send true r req b (* n v)) (set n (- n 1))))
    (return n))
  (proc server w () (locals y f u) (pre true) (post true)
    (body (poll true y r req f (u))
      (if (= y 1) (then (read true y r got)) (else (poll true y r req f (u)))))
    (return (+ y u)))
  (deploy w (a client 7) (b server)))";

/// The names and the file of a text.
fn built(alloc: Global, text: &str) -> Result<(Names, File), AllocError> {
    if text.len() >= 4294967295 {
        return Err(AllocError);
    }
    match read_tree(alloc, text.as_bytes()) {
        Ok(tree) => build_file(alloc, tree),
        Err(_) => Err(AllocError),
    }
}

/// The serial run of a text.
fn run(alloc: Global, text: &str, budget: u32, order: Order) -> Result<Run, AllocError> {
    let (_, file) = built(alloc, text)?;
    if budget > 100000 || !is_formed(alloc, &file.decls)? {
        return Err(AllocError);
    }
    run_serial(alloc, &file.decls, budget, order)
}

/// One argument.
fn one(value: i64) -> Args {
    Args {
        count: 1,
        values: [value, 0, 0, 0, 0, 0, 0, 0],
    }
}

fn nothing() -> Args {
    Args {
        count: 0,
        values: [0; 8],
    }
}

/// A node sends, and gets the message's id.
fn sent(node: u32, tag: u8, to: i64, args: Args, id: u32) -> Entry {
    Entry {
        node,
        ticks: 0,
        call: Call::Send {
            label: 0,
            tag,
            to,
            args,
        },
        reply: Reply::Sent(id),
    }
}

/// A node waits, and gets a message.
fn got(node: u32, tag: u8, id: u32, from: u32, args: Args) -> Entry {
    Entry {
        node,
        ticks: 0,
        call: Call::Await { label: 0, tag },
        reply: Reply::Got { id, from, args },
    }
}

/// The entry after so many ticks.
fn after(ticks: u32, entry: Entry) -> Entry {
    Entry {
        node: entry.node,
        ticks,
        call: entry.call,
        reply: entry.reply,
    }
}

fn has_entry(run: &Run, at: usize, expected: Entry) -> bool {
    match run.soup.history().get(at) {
        Some(entry) => *entry == expected,
        None => false,
    }
}

fn has_end(run: &Run, at: usize, node: u32, end: End, units: u32) -> bool {
    match run.nodes.get(at) {
        Some(bare) => bare.node == node && bare.end == Some(end) && bare.units == units,
        None => false,
    }
}

#[test]
fn oldest_first(rt: HostRuntime) -> Result<(), Fail> {
    let run = run(rt.alloc(), THREE, 1000, Order::Oldest)?;
    assert_eq!(rt; run.soup.history().len(), 4);
    assert!(rt; has_entry(&run, 0, sent(0, 0, 2, one(7), 0)));
    assert!(rt; has_entry(&run, 1, sent(1, 0, 2, one(9), 1)));
    assert!(rt; has_entry(&run, 2, got(2, 0, 0, 0, one(7))));
    assert!(rt; has_entry(&run, 3, got(2, 0, 1, 1, one(9))));
    assert_eq!(rt; run.nodes.len(), 3);
    assert!(rt; has_end(&run, 0, 0, End::Ended(0), 2));
    assert!(rt; has_end(&run, 1, 1, End::Ended(0), 2));
    assert!(rt; has_end(&run, 2, 2, End::Ended(79), 3));
    Ok(())
}

#[test]
fn newest_first(rt: HostRuntime) -> Result<(), Fail> {
    let run = run(rt.alloc(), THREE, 1000, Order::Newest)?;
    assert!(rt; has_entry(&run, 2, got(2, 0, 1, 1, one(9))));
    assert!(rt; has_entry(&run, 3, got(2, 0, 0, 0, one(7))));
    assert!(rt; has_end(&run, 2, 2, End::Ended(97), 3));
    Ok(())
}

#[test]
fn drawn(rt: HostRuntime) -> Result<(), Fail> {
    let first = run(rt.alloc(), THREE, 1000, Order::Seed(2))?;
    assert!(rt; has_end(&first, 2, 2, End::Ended(79), 3));
    let second = run(rt.alloc(), THREE, 1000, Order::Seed(3))?;
    assert!(rt; has_end(&second, 2, 2, End::Ended(97), 3));
    Ok(())
}

#[test]
fn waits_without_an_entry(rt: HostRuntime) -> Result<(), Fail> {
    let run = run(rt.alloc(), ALONE, 1000, Order::Oldest)?;
    assert_eq!(rt; run.soup.history().len(), 0);
    assert_eq!(rt; run.nodes.len(), 1);
    assert!(rt; has_end(&run, 0, 1, End::Waiting, 0));
    Ok(())
}

#[test]
fn spends_the_budget(rt: HostRuntime) -> Result<(), Fail> {
    let run = run(rt.alloc(), PAIR, 1, Order::Oldest)?;
    assert_eq!(rt; run.soup.history().len(), 2);
    assert!(rt; has_end(&run, 0, 0, End::Spent, 1));
    assert!(rt; has_end(&run, 1, 1, End::Spent, 1));
    Ok(())
}

#[test]
fn stops_past_the_range(rt: HostRuntime) -> Result<(), Fail> {
    let run = run(rt.alloc(), STOPS, 1000, Order::Oldest)?;
    assert!(rt; has_end(&run, 0, 0, End::Ended(0), 2));
    assert!(rt; has_end(&run, 1, 1, End::Stopped, 1));
    Ok(())
}

#[test]
fn plays_ping_and_pong(rt: HostRuntime) -> Result<(), Fail> {
    let run = run(rt.alloc(), GAME, 1000, Order::Oldest)?;
    assert_eq!(rt; run.soup.history().len(), 4);
    assert!(rt; has_entry(&run, 0, sent(0, 0, 1, nothing(), 0)));
    assert!(rt; has_entry(&run, 1, got(1, 0, 0, 0, nothing())));
    assert!(rt; has_entry(&run, 2, sent(1, 1, 0, nothing(), 1)));
    assert!(rt; has_entry(&run, 3, got(0, 1, 1, 1, nothing())));
    assert!(rt; has_end(&run, 0, 0, End::Ended(1), 3));
    assert!(rt; has_end(&run, 1, 1, End::Ended(0), 3));
    Ok(())
}

#[test]
fn sends_to_itself(rt: HostRuntime) -> Result<(), Fail> {
    let run = run(rt.alloc(), SELF, 1000, Order::Oldest)?;
    assert_eq!(rt; run.soup.history().len(), 2);
    assert!(rt; has_entry(&run, 0, sent(0, 0, 0, nothing(), 0)));
    assert!(rt; has_entry(&run, 1, got(0, 0, 0, 0, nothing())));
    assert!(rt; has_end(&run, 0, 0, End::Ended(0), 3));
    Ok(())
}

#[test]
fn counts_ticks(rt: HostRuntime) -> Result<(), Fail> {
    let run = run(rt.alloc(), LOOP, 1000, Order::Oldest)?;
    assert_eq!(rt; run.soup.history().len(), 4);
    let polled = Entry {
        node: 1,
        ticks: 0,
        call: Call::Poll { label: 0, tag: 0 },
        reply: Reply::Got {
            id: 0,
            from: 0,
            args: one(14),
        },
    };
    let read = Entry {
        node: 1,
        ticks: 1,
        call: Call::Read {
            label: 0,
            field: 0,
            index: None,
        },
        reply: Reply::Value(1),
    };
    assert!(rt; has_entry(&run, 0, after(2, sent(0, 0, 1, one(14), 0))));
    assert!(rt; has_entry(&run, 1, polled));
    assert!(rt; has_entry(&run, 2, after(2, sent(0, 0, 1, one(7), 1))));
    assert!(rt; has_entry(&run, 3, read));
    assert!(rt; has_end(&run, 0, 0, End::Ended(0), 9));
    assert!(rt; has_end(&run, 1, 1, End::Ended(15), 4));
    Ok(())
}

#[test]
fn spends_ticks(rt: HostRuntime) -> Result<(), Fail> {
    let run = run(rt.alloc(), LOOP, 4, Order::Oldest)?;
    assert_eq!(rt; run.soup.history().len(), 3);
    assert!(rt; has_end(&run, 0, 0, End::Spent, 4));
    assert!(rt; has_end(&run, 1, 1, End::Ended(15), 4));
    Ok(())
}
