//! Runs of texts, and what they write.

use crate::programs::{CALLING, COMMIT, LETTER, LETTERS};
use crate::rows::COUNTER;
use dl_top::Status;

/// Two nodes that send to each other.
pub(crate) const GAME: &str = "(disel 1
  (nodes a b)
  (protocol game (tag ping () (send true) (receive true))
    (tag pong () (send true) (receive true)))
  (label g game)
  (world w (labels g) (hooks))
  (proc one w () (locals f) (pre true) (post true)
    (body (send true g ping b) (await true g pong f ())) (return f))
  (proc two w () (locals f) (pre true) (post true)
    (body (await true g ping f ()) (send true g pong a)) (return f))
  (deploy w (a one) (b two))
)
";

/// A text with other lines in place of some of its own, which are counted from 1, and what it is
/// answered with these words.
#[derive(Drop)]
pub(crate) struct Run {
    pub(crate) base: &'static str,
    pub(crate) changes: &'static [(usize, &'static str)],
    pub(crate) words: &'static [&'static str],
    pub(crate) status: Status,
    pub(crate) report: &'static str,
}

/// The runs.
pub(crate) const RUNS: [Run; 29] = [
    // The counter, whose node has no program.
    Run {
        base: COUNTER,
        changes: &[],
        words: &["run", "--serial"],
        status: Status::Done,
        report: "run budget 1000 order oldest
",
    },
    // The options in another order.
    Run {
        base: COUNTER,
        changes: &[],
        words: &["run", "--budget", "100000", "--serial"],
        status: Status::Done,
        report: "run budget 100000 order oldest
",
    },
    // All of them.
    Run {
        base: COUNTER,
        changes: &[],
        words: &["run", "--order", "newest", "--serial", "--budget", "1"],
        status: Status::Done,
        report: "run budget 1 order newest
",
    },
    // A seed.
    Run {
        base: COUNTER,
        changes: &[],
        words: &["run", "--serial", "--order", "seed:18446744073709551615"],
        status: Status::Done,
        report: "run budget 1000 order seed:18446744073709551615
",
    },
    // Two clients and a server: the oldest message is taken first.
    Run {
        base: LETTERS,
        changes: &[],
        words: &["run", "--serial"],
        status: Status::Done,
        report: "run budget 1000 order oldest
1 a 0 send r.req b 7 -> 0
2 c 0 send r.req b 9 -> 1
3 b 0 await r.req -> 0 from a 7
4 b 0 await r.req -> 1 from c 9
end a ended 0 units 2
end c ended 0 units 2
end b ended 79 units 3
",
    },
    // The newest one.
    Run {
        base: LETTERS,
        changes: &[],
        words: &["run", "--serial", "--order", "newest"],
        status: Status::Done,
        report: "run budget 1000 order newest
1 a 0 send r.req b 7 -> 0
2 c 0 send r.req b 9 -> 1
3 b 0 await r.req -> 1 from c 9
4 b 0 await r.req -> 0 from a 7
end a ended 0 units 2
end c ended 0 units 2
end b ended 97 units 3
",
    },
    // The one that a seed names.
    Run {
        base: LETTERS,
        changes: &[],
        words: &["run", "--serial", "--order", "seed:0"],
        status: Status::Done,
        report: "run budget 1000 order seed:0
1 a 0 send r.req b 7 -> 0
2 c 0 send r.req b 9 -> 1
3 b 0 await r.req -> 1 from c 9
4 b 0 await r.req -> 0 from a 7
end a ended 0 units 2
end c ended 0 units 2
end b ended 97 units 3
",
    },
    // The same with another seed.
    Run {
        base: LETTERS,
        changes: &[],
        words: &["run", "--serial", "--order", "seed:1"],
        status: Status::Done,
        report: "run budget 1000 order seed:1
1 a 0 send r.req b 7 -> 0
2 c 0 send r.req b 9 -> 1
3 b 0 await r.req -> 0 from a 7
4 b 0 await r.req -> 1 from c 9
end a ended 0 units 2
end c ended 0 units 2
end b ended 79 units 3
",
    },
    // With the greatest seed.
    Run {
        base: LETTERS,
        changes: &[],
        words: &["run", "--serial", "--order", "seed:18446744073709551615"],
        status: Status::Done,
        report: "run budget 1000 order seed:18446744073709551615
1 a 0 send r.req b 7 -> 0
2 c 0 send r.req b 9 -> 1
3 b 0 await r.req -> 0 from a 7
4 b 0 await r.req -> 1 from c 9
end a ended 0 units 2
end c ended 0 units 2
end b ended 79 units 3
",
    },
    // Nobody sends.
    Run {
        base: LETTER,
        changes: &[(13, "  (deploy w (b server))")],
        words: &["run", "--serial"],
        status: Status::Unended,
        report: "run budget 1000 order oldest
end b waiting units 0
",
    },
    // One unit for each node.
    Run {
        base: LETTER,
        changes: &[],
        words: &["run", "--serial", "--budget", "1"],
        status: Status::Unended,
        report: "run budget 1 order oldest
1 a 0 send r.req b 7 -> 0
2 b 0 await r.req -> 0 from a 7
end a spent units 1
end b spent units 1
",
    },
    // Two units are enough.
    Run {
        base: LETTER,
        changes: &[],
        words: &["run", "--serial", "--budget", "2"],
        status: Status::Done,
        report: "run budget 2 order oldest
1 a 0 send r.req b 7 -> 0
2 b 0 await r.req -> 0 from a 7
end a ended 0 units 2
end b ended 7 units 2
",
    },
    // A value that leaves the range of 64 bits.
    Run {
        base: LETTER,
        changes: &[(
            12,
            "    (body (await true r req f (u))) (return (+ u 9223372036854775807)))",
        )],
        words: &["run", "--serial"],
        status: Status::Unended,
        report: "run budget 1000 order oldest
1 a 0 send r.req b 7 -> 0
2 b 0 await r.req -> 0 from a 7
end a ended 0 units 2
end b stopped units 1
",
    },
    // A stop at the end of the budget is not looked at.
    Run {
        base: LETTER,
        changes: &[(
            12,
            "    (body (await true r req f (u))) (return (+ u 9223372036854775807)))",
        )],
        words: &["run", "--serial", "--budget", "1"],
        status: Status::Unended,
        report: "run budget 1 order oldest
1 a 0 send r.req b 7 -> 0
2 b 0 await r.req -> 0 from a 7
end a spent units 1
end b spent units 1
",
    },
    // Ping and pong, checked.
    Run {
        base: GAME,
        changes: &[],
        words: &["check"],
        status: Status::Done,
        report: "accepted nodes 2 labels 1 hooks 0 invariants 0 programs 2 obligations 10
",
    },
    // And run.
    Run {
        base: GAME,
        changes: &[],
        words: &["run", "--serial"],
        status: Status::Done,
        report: "run budget 1000 order oldest
1 a 0 send g.ping b -> 0
2 b 0 await g.ping -> 0 from a
3 b 0 send g.pong a -> 1
4 a 0 await g.pong -> 1 from b
end a ended 1 units 3
end b ended 0 units 3
",
    },
    // A message to oneself.
    Run {
        base: GAME,
        changes: &[
            (
                8,
                "    (body (send true g ping a) (await true g ping f ())) (return f))",
            ),
            (11, "  (deploy w (a one))"),
        ],
        words: &["run", "--serial"],
        status: Status::Done,
        report: "run budget 1000 order oldest
1 a 0 send g.ping a -> 0
2 a 0 await g.ping -> 0 from a
end a ended 0 units 3
",
    },
    // Both send first.
    Run {
        base: GAME,
        changes: &[
            (8, "    (body (send true g ping b)) (return f))"),
            (
                10,
                "    (body (send true g pong a) (await true g ping f ())) (return 0))",
            ),
        ],
        words: &["run", "--serial"],
        status: Status::Done,
        report: "run budget 1000 order oldest
1 a 0 send g.ping b -> 0
2 b 0 send g.pong a -> 1
3 b 0 await g.ping -> 0 from a
end a ended 0 units 2
end b ended 0 units 3
",
    },
    // A frame, and a call of one tick.
    Run {
        base: CALLING,
        changes: &[(13, "    (body (call true true y p0)) (return y))")],
        words: &["run", "--serial"],
        status: Status::Done,
        report: "run budget 1000 order oldest
end a ended 0 units 3
",
    },
    // The two-phase commit.
    Run {
        base: COMMIT,
        changes: &[],
        words: &["run", "--serial"],
        status: Status::Done,
        report: "run budget 1000 order oldest
1 c 0 send t.prep p -> 0
2 p 0 await t.prep -> 0 from c
3 c 0 send t.prep q -> 1
4 p 0 send t.yes c -> 2
5 q 0 await t.prep -> 1 from c
6 c 0 await t.yes -> 2 from p
7 q 0 send t.yes c -> 3
8 c 0 await t.yes -> 3 from q
9 c 0 read t.ack 1 -> 1
10 c 0 read t.ack 2 -> 1
11 c 1 send t.fix c 1 -> 4
12 c 0 read t.dec -> 1
13 c 0 send t.tell p 1 -> 5
14 p 0 await t.tell -> 5 from c 1
15 c 0 send t.tell q 1 -> 6
16 q 0 await t.tell -> 6 from c 1
end c ended 1 units 12
end p ended 1 units 4
end q ended 1 units 4
",
    },
    // It is cut off, and two nodes wait.
    Run {
        base: COMMIT,
        changes: &[],
        words: &["run", "--serial", "--budget", "4"],
        status: Status::Unended,
        report: "run budget 4 order oldest
1 c 0 send t.prep p -> 0
2 p 0 await t.prep -> 0 from c
3 c 0 send t.prep q -> 1
4 p 0 send t.yes c -> 2
5 q 0 await t.prep -> 1 from c
6 c 0 await t.yes -> 2 from p
7 q 0 send t.yes c -> 3
8 c 0 await t.yes -> 3 from q
end c spent units 4
end p waiting units 2
end q waiting units 2
",
    },
    // A poll that comes too early, and one that gets a message.
    Run {
        base: LETTER,
        changes: &[
            (2, "  (nodes b a)"),
            (
                11,
                "  (proc server w () (locals f u h) (pre true) (post true)",
            ),
            (
                12,
                "    (body (poll true h r req f (u)) (poll true h r req f (u))) (return (+ (* 10 u) h)))",
            ),
        ],
        words: &["run", "--serial"],
        status: Status::Done,
        report: "run budget 1000 order oldest
1 b 0 poll r.req -> miss
2 a 0 send r.req b 7 -> 0
3 b 0 poll r.req -> 0 from a 7
end b ended 71 units 3
end a ended 0 units 2
",
    },
    // A loop: tests and assignments are ticks.
    Run {
        base: LETTERS,
        changes: &[
            (
                11,
                "  (proc server w () (locals f u h) (pre true) (post true)",
            ),
            (
                12,
                "    (body (while (< h 2) true (await true r req f (u)) (set h (+ h 1)))) (return (+ (* 10 u) h)))",
            ),
        ],
        words: &["run", "--serial"],
        status: Status::Done,
        report: "run budget 1000 order oldest
1 a 0 send r.req b 7 -> 0
2 c 0 send r.req b 9 -> 1
3 b 1 await r.req -> 0 from a 7
4 b 2 await r.req -> 1 from c 9
end a ended 0 units 2
end c ended 0 units 2
end b ended 92 units 8
",
    },
    // The budget ends in the loop, between two calls.
    Run {
        base: LETTERS,
        changes: &[
            (
                11,
                "  (proc server w () (locals f u h) (pre true) (post true)",
            ),
            (
                12,
                "    (body (while (< h 2) true (await true r req f (u)) (set h (+ h 1)))) (return (+ (* 10 u) h)))",
            ),
        ],
        words: &["run", "--serial", "--budget", "4"],
        status: Status::Unended,
        report: "run budget 4 order oldest
1 a 0 send r.req b 7 -> 0
2 c 0 send r.req b 9 -> 1
3 b 1 await r.req -> 0 from a 7
end a ended 0 units 2
end c ended 0 units 2
end b spent units 4
",
    },
    // A loop without an end.
    Run {
        base: LETTER,
        changes: &[
            (
                11,
                "  (proc server w () (locals f u) (pre true) (post true)",
            ),
            (
                12,
                "    (body (while true true (set u (- 1 u)))) (return u))",
            ),
        ],
        words: &["run", "--serial", "--budget", "100000"],
        status: Status::Unended,
        report: "run budget 100000 order oldest
1 a 0 send r.req b 7 -> 0
end a ended 0 units 2
end b spent units 100000
",
    },
    // Ticks before a read and behind it.
    Run {
        base: LETTER,
        changes: &[
            (2, "  (nodes b a)"),
            (
                11,
                "  (proc server w () (locals f u h) (pre true) (post true)",
            ),
            (
                12,
                "    (body (set h 5) (await true r req f (u)) (if (= u 7) (then (read true h r got)) (else))) (return (+ (* 10 u) h)))",
            ),
        ],
        words: &["run", "--serial"],
        status: Status::Done,
        report: "run budget 1000 order oldest
1 a 0 send r.req b 7 -> 0
2 b 1 await r.req -> 0 from a 7
3 b 1 read r.got -> 1
end b ended 71 units 5
end a ended 0 units 2
",
    },
    // Each message is taken once: a third await waits.
    Run {
        base: LETTER,
        changes: &[
            (
                10,
                "    (body (send true r req b v) (send true r req b 3)) (return 0))",
            ),
            (
                11,
                "  (proc server w () (locals f u) (pre true) (post true)",
            ),
            (
                12,
                "    (body (await true r req f (u)) (await true r req f (u)) (await true r req f (u))) (return u))",
            ),
        ],
        words: &["run", "--serial", "--order", "newest"],
        status: Status::Unended,
        report: "run budget 1000 order newest
1 a 0 send r.req b 7 -> 0
2 b 0 await r.req -> 0 from a 7
3 a 0 send r.req b 3 -> 1
4 b 0 await r.req -> 1 from a 3
end a ended 0 units 3
end b waiting units 2
",
    },
    // A text that is refused is not run.
    Run {
        base: LETTER,
        changes: &[(
            11,
            "  (proc server w () (locals f u) (pre true) (post (= (get r got result) 1))",
        )],
        words: &["run", "--serial"],
        status: Status::Refused,
        report: "refused 30 NoScript 11:45 (stable server 0 r req receive)
",
    },
    // One without a deployment.
    Run {
        base: COUNTER,
        changes: &[(9, "")],
        words: &["run", "--serial"],
        status: Status::Refused,
        report: "refused 10 BadForm 1:1
",
    },
];
