//! Reports, written.

use crate::example::Maker;
use dl_model::{Args, Call, End, Entry, Order, Reply};
use dl_report::report;
use std::process::Abort;

/// No argument.
const NONE: Args = Args {
    count: 0,
    values: [0; 8],
};

/// One argument.
fn one(value: i64) -> Args {
    Args {
        count: 1,
        values: [value, 0, 0, 0, 0, 0, 0, 0],
    }
}

fn entry(node: u32, ticks: u32, call: Call, reply: Reply) -> Entry {
    Entry {
        node,
        ticks,
        call,
        reply,
    }
}

fn send(label: u8, tag: u8, to: i64, args: Args) -> Call {
    Call::Send {
        label,
        tag,
        to,
        args,
    }
}

fn got(id: u32, from: u32, args: Args) -> Reply {
    Reply::Got { id, from, args }
}

const WAITING: Call = Call::Await { label: 0, tag: 0 };

/// Two clients that each send a number to a server.
fn clients() -> [Entry; 4] {
    [
        entry(0, 0, send(0, 0, 2, one(7)), Reply::Sent(0)),
        entry(1, 0, send(0, 0, 2, one(9)), Reply::Sent(1)),
        entry(2, 0, WAITING, got(0, 0, one(7))),
        entry(2, 0, WAITING, got(1, 1, one(9))),
    ]
}

const CLIENT_ENDS: [(u32, End, u32); 3] = [
    (0, End::Ended(0), 2),
    (1, End::Ended(0), 2),
    (2, End::Ended(79), 3),
];

const CLIENT_REPORT: &str = "run budget 1000 order oldest
1 a 0 send r.req b 7 -> 0
2 c 0 send r.req b 9 -> 1
3 b 0 await r.req -> 0 from a 7
4 b 0 await r.req -> 1 from c 9
end a ended 0 units 2
end c ended 0 units 2
end b ended 79 units 3
";

/// Each kind of call, reply and end: numbers that are no node, both ends of i64, a row and a field.
fn kinds() -> [Entry; 7] {
    [
        entry(
            0,
            4_294_967_295,
            send(0, 0, 3, one(i64::MIN)),
            Reply::Sent(4_294_967_295),
        ),
        entry(0, 1, send(0, 0, -1, one(i64::MAX)), Reply::Sent(1)),
        entry(1, 0, Call::Poll { label: 1, tag: 1 }, Reply::Miss),
        entry(1, 0, Call::Poll { label: 1, tag: 1 }, got(10, 2, one(-5))),
        entry(2, 20, Call::Await { label: 1, tag: 0 }, got(0, 0, NONE)),
        entry(
            2,
            0,
            Call::Read {
                label: 1,
                field: 1,
                index: Some(-2),
            },
            Reply::Value(-1),
        ),
        entry(
            2,
            0,
            Call::Read {
                label: 1,
                field: 0,
                index: None,
            },
            Reply::Value(1),
        ),
    ]
}

const KIND_ENDS: [(u32, End, u32); 4] = [
    (2, End::Ended(-9), 0),
    (0, End::Stopped, 1),
    (1, End::Spent, 4_294_967_295),
    (0, End::Waiting, 3),
];

const KIND_REPORT: &str = "run budget 4294967295 order seed:18446744073709551615
1 a 4294967295 send r.req 3 -9223372036854775808 -> 4294967295
2 a 1 send r.req -1 9223372036854775807 -> 1
3 c 0 poll t.fix -> miss
4 c 0 poll t.fix -> 10 from b -5
5 b 20 await t.prep -> 0 from a
6 b 0 read t.ack -2 -> -1
7 b 0 read t.dec -> 1
end b ended -9 units 0
end a stopped units 1
end c spent units 4294967295
end a waiting units 3
";

impl<'a, R: Abort> Maker<'a, R> {
    /// Whether this text is written of these entries and ends.
    fn writes(
        &self,
        budget: u32,
        order: Order,
        entries: &[Entry],
        ends: &[(u32, End, u32)],
        text: &str,
    ) -> bool {
        let names = self.names();
        let decls = self.decls();
        match report(
            self.alloc,
            names.as_slice(),
            &decls,
            budget,
            order,
            entries,
            ends,
        ) {
            Ok(written) => written.as_slice() == text.as_bytes(),
            Err(_) => false,
        }
    }
}

#[test]
fn clients_and_a_server(rt: HostRuntime) {
    let m = Maker::new(&rt, rt.alloc());
    assert!(rt;
        m.writes(
            1000,
            Order::Oldest,
            clients().as_slice(),
            CLIENT_ENDS.as_slice(),
            CLIENT_REPORT
        )
    );
}

#[test]
fn each_kind_of_entry_and_end(rt: HostRuntime) {
    let m = Maker::new(&rt, rt.alloc());
    let order = Order::Seed(18_446_744_073_709_551_615);
    assert!(rt;
        m.writes(
            4_294_967_295,
            order,
            kinds().as_slice(),
            KIND_ENDS.as_slice(),
            KIND_REPORT
        )
    );
}

#[test]
fn nothing_happened(rt: HostRuntime) {
    let m = Maker::new(&rt, rt.alloc());
    assert!(rt; m.writes(0, Order::Newest, &[], &[], "run budget 0 order newest\n"));
}
