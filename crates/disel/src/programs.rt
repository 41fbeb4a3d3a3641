//! Texts with programs, and what they are answered.

use crate::rows::Row;
use dl_top::Status;

/// A client and a server that notes its mail.
pub(crate) const LETTER: &str = "(disel 1
  (nodes a b)
  (protocol mail (field got bool 0)
    (tag req ((v int)) (send true) (receive true (set got 1))))
  (label r mail)
  (world w (labels r) (hooks))
  (invariant seen w
    (each m r req (implies (= (live m) 0) (= (get r got (to m)) 1))))
  (proc client w ((v int)) (locals) (pre true) (post true)
    (body (send true r req b v)) (return 0))
  (proc server w () (locals f u) (pre true) (post (= (get r got me) 1))
    (body (await true r req f (u))) (return u))
  (deploy w (a client 7) (b server))
  (proof (step seen r req send) (names s d x1)
    (split (by seen) (intro z (linear (use z) (use z)))))
  (proof (step seen r req receive) (names n k)
    (open j (intro z (decide (= (to j) n) q
      (reduce q goal (linear (goal) (goal)))
      (reduce q goal (decide (= (id j) (id k)) e
        (parts mine mt ml (have (= (to j) n) y
          (rewrite e goal (by mt)) (apply q bad (by y) (close))))
        (reduce e z (inst seen j s1 (apply s1 s2 (by z) (by s2))))))))))
)
";

/// Two clients and a server: the same, with other lines.
pub(crate) const LETTERS: &str = "(disel 1
  (nodes a c b)
  (protocol mail (field got bool 0)
    (tag req ((v int)) (send true) (receive true (set got 1))))
  (label r mail)
  (world w (labels r) (hooks))
  (invariant seen w
    (each m r req (implies (= (live m) 0) (= (get r got (to m)) 1))))
  (proc client w ((v int)) (locals) (pre true) (post true)
    (body (send true r req b v)) (return 0))
  (proc server w () (locals f u h) (pre true) (post (= (get r got me) 1))
    (body (await true r req f (u)) (await true r req f (h))) (return (+ (* 10 u) h)))
  (deploy w (a client 7) (c client 9) (b server))
  (proof (step seen r req send) (names s d x1)
    (split (by seen) (intro z (linear (use z) (use z)))))
  (proof (step seen r req receive) (names n k)
    (open j (intro z (decide (= (to j) n) q
      (reduce q goal (linear (goal) (goal)))
      (reduce q goal (decide (= (id j) (id k)) e
        (parts mine mt ml (have (= (to j) n) y
          (rewrite e goal (by mt)) (apply q bad (by y) (close))))
        (reduce e z (inst seen j s1 (apply s1 s2 (by z) (by s2))))))))))
)
";

/// A vote and a query, with a hook between them.
pub(crate) const ASKING: &str = "(disel 1
  (nodes a b)
  (protocol vote (field done bool 0)
    (tag cast () (send true (set done 1)) (receive true)))
  (protocol query (tag ask () (send true) (receive true)))
  (label v vote)
  (label q query)
  (hook late v q ask () (= (get v done me) 1))
  (world w (labels v q) (hooks late))
  (world small (labels v) (hooks))
  (proc p w () (locals) (pre true) (post true)
    (body (send true v cast b)
      (send (= (get v done me) 1) q ask b)) (return 0))
  (deploy w (a p))
)
";

/// The same with a call, whose frame speaks of a label of the callee.
pub(crate) const CALLING: &str = "(disel 1
  (nodes a b)
  (protocol vote (field done bool 0)
    (tag cast () (send true (set done 1)) (receive true)))
  (protocol query (tag ask () (send true) (receive true)))
  (label v vote)
  (label q query)
  (hook late v q ask () (= (get v done me) 1))
  (world w (labels v q) (hooks late))
  (world small (labels v) (hooks))
  (proc p0 small () (locals) (pre true) (post true) (body) (return 0))
  (proc p w () (locals y) (pre true) (post true)
    (body (call true (= (get v done me) 1) y p0)) (return y))
  (deploy w (a p))
)
";

/// A two-phase commit.
pub(crate) const COMMIT: &str = "(disel 1
  (nodes c p q)
  (sort verdict (enum none com abt))
  (protocol tpc (field dec verdict none) (row ack bool 0)
    (tag prep () (send (= me c)) (receive true))
    (tag yes () (send true) (receive (= me c) (set ack from 1)))
    (tag fix ((d verdict))
      (send (and (= me c) (and (= (get self dec me) none) (and (not (= d none))
          (implies (= d com) (and (= (get self ack me p) 1) (= (get self ack me q) 1))))))
        (set dec d)))
    (tag tell ((d verdict))
      (send (and (= me c) (and (= d (get self dec me)) (not (= d none)))))
      (receive (not (= me c)) (set dec d))))
  (label t tpc)
  (world w (labels t) (hooks))
  (invariant told w (each m t tell
    (and (= (arg m 0) (get t dec c)) (not (= (arg m 0) none)))))
  (invariant agree w (all x
    (or (= (get t dec x) none) (= (get t dec x) (get t dec c)))))
  (proc lead w () (locals f u v)
    (pre (and (= me c) (= (get t dec me) none)))
    (post (and (= result (get t dec me)) (not (= result none))))
    (body
      (send (and (= me c) (= (get t dec me) none)) t prep p)
      (send (and (= me c) (= (get t dec me) none)) t prep q)
      (await (and (= me c) (= (get t dec me) none)) t yes f ())
      (await (and (= me c) (= (get t dec me) none)) t yes f ())
      (read (and (= me c) (= (get t dec me) none)) u t ack p)
      (read (and (and (= me c) (= (get t dec me) none)) (= (get t ack me p) u)) v t ack q)
      (if (and (= u 1) (= v 1))
        (then (send (and (and (= me c) (= (get t dec me) none))
          (and (= (get t ack me p) 1) (= (get t ack me q) 1))) t fix c com))
        (else (send (and (= me c) (= (get t dec me) none)) t fix c abt)))
      (read (and (= me c) (not (= (get t dec me) none))) u t dec)
      (send (and (= me c) (and (= u (get t dec me)) (not (= u none)))) t tell p u)
      (send (and (= me c) (and (= u (get t dec me)) (not (= u none)))) t tell q u))
    (return u))
  (proc member w () (locals f d) (pre true) (post (= result (get t dec me)))
    (body (await true t prep f ()) (send true t yes c) (await true t tell f (d)))
    (return d))
  (deploy w (c lead) (p member) (q member))
  (proof (step told t fix send) (names s e v)
    (open j (inst told j h (parts h h1 h2 (parts guard g1 g2 (parts g2 g3 g4
      (rewrite g1 g3 (apply h2 bad (rewrite h1 goal (by g3)) (close)))))))))
  (proof (step told t tell send) (names s e v)
    (split (by told) (parts guard g1 g2 (parts g2 g3 g4
      (split (rewrite g1 g3 (by g3)) (by g4))))))
  (proof (step told t tell receive) (names r k)
    (open j (reduce guard goal (inst told j h (by h)))))
  (proof (step agree t fix send) (names s e v)
    (parts guard g1 g2 (parts g2 g3 g4 (open y (decide (= y s) z
      (reduce z goal (reduce g1 goal (pick 2 (linear (goal) (goal)))))
      (reduce z goal (pick 1 (inst agree y h (cases h k
        (by k) (rewrite k goal (rewrite g1 g3 (by g3)))))))))))) 
  (proof (step agree t tell receive) (names r k)
    (open y (reduce guard goal (inst told k h (parts h h1 h2 (decide (= y r) z
      (reduce z goal (pick 2 (by h1)))
      (reduce z goal (inst agree y a1 (by a1)))))))))
  (proof (after lead 6) (names)
    (parts pre a b (split
      (intro i (parts i i1 i2 (split (by a) (split (rewrite b goal (by i1)) (by i2)))))
      (intro i (by a)))))
  (proof (guard lead 10) (names)
    (split (parts pre a b (parts b b1 b2 (rewrite b1 goal
      (range (get t dec me) g (by g))))) (by pre)))
  (proof (guard lead 11) (names)
    (split (parts pre a b (parts b b1 b2 (rewrite b1 goal
      (range (get t dec me) g (by g))))) (by pre)))
)
";

/// Rows of its text.
pub(crate) const LETTER_ROWS: [Row; 32] = [
    // A client, a server, and the invariant of their mail.
    Row {
        changes: &[],
        status: Status::Done,
        line: "accepted nodes 2 labels 1 hooks 0 invariants 1 programs 2 obligations 10\n",
    },
    // An invariant of live messages: the script of its send fails.
    Row {
        changes: &[(
            8,
            "    (each m r req (implies (= (live m) 1) (= (get r got (to m)) 1))))",
        )],
        status: Status::Refused,
        line: "refused 32 RuleFails 15:31\n",
    },
    // An annotation of what b has: b may receive meanwhile.
    Row {
        changes: &[
            (
                9,
                "  (proc client w ((v int)) (locals) (pre (= (get r got b) 0)) (post true)",
            ),
            (
                10,
                "    (body (send (= (get r got b) 0) r req b v)) (return 0))",
            ),
        ],
        status: Status::Refused,
        line: "refused 30 NoScript 10:11 (stable client 1 r req receive)\n",
    },
    // A constant is missing.
    Row {
        changes: &[(13, "  (deploy w (a client) (b server))")],
        status: Status::Refused,
        line: "refused 15 Arity 13:13\n",
    },
    // A local with the name of a parameter.
    Row {
        changes: &[(
            9,
            "  (proc client w ((v int)) (locals v) (pre true) (post true)",
        )],
        status: Status::Refused,
        line: "refused 13 Shadow 9:36\n",
    },
    // A postcondition that speaks of a local.
    Row {
        changes: &[(
            11,
            "  (proc server w () (locals f u) (pre true) (post (= (get r got f) 1))",
        )],
        status: Status::Refused,
        line: "refused 11 Unknown 11:65\n",
    },
    // One that speaks of the node that is returned.
    Row {
        changes: &[(
            11,
            "  (proc server w () (locals f u) (pre true) (post (= (get r got result) 1))",
        )],
        status: Status::Refused,
        line: "refused 30 NoScript 11:45 (stable server 0 r req receive)\n",
    },
    // One local for two targets.
    Row {
        changes: &[(12, "    (body (await true r req u (u))) (return u))")],
        status: Status::Refused,
        line: "refused 12 Twice 12:32\n",
    },
    // An argument is not taken.
    Row {
        changes: &[(12, "    (body (await true r req f ())) (return u))")],
        status: Status::Refused,
        line: "refused 15 Arity 12:31\n",
    },
    // An argument is not sent.
    Row {
        changes: &[(10, "    (body (send true r req b)) (return 0))")],
        status: Status::Refused,
        line: "refused 15 Arity 10:11\n",
    },
    // A parameter is assigned.
    Row {
        changes: &[(10, "    (body (set v 1) (send true r req b v)) (return 0))")],
        status: Status::Refused,
        line: "refused 11 Unknown 10:16\n",
    },
    // An expression that reads the state.
    Row {
        changes: &[(
            10,
            "    (body (send true r req b (get r got me))) (return 0))",
        )],
        status: Status::Refused,
        line: "refused 14 BadSort 10:30\n",
    },
    // A test that reads the state.
    Row {
        changes: &[(
            12,
            "    (body (await true r req f (u)) (if (= (get r got me) 1) (then) (else))) (return u))",
        )],
        status: Status::Refused,
        line: "refused 14 BadSort 12:43\n",
    },
    // An expression past 127 bits.
    Row {
        changes: &[(
            10,
            "    (body (send true r req b (* v (* v v)))) (return 0))",
        )],
        status: Status::Refused,
        line: "refused 16 Wide 10:30\n",
    },
    // An addressee that is no node.
    Row {
        changes: &[(10, "    (body (send true r req 2 v)) (return 0))")],
        status: Status::Refused,
        line: "refused 30 NoScript 10:11 (guard client 1)\n",
    },
    // One that may be none.
    Row {
        changes: &[(10, "    (body (send true r req v v)) (return 0))")],
        status: Status::Refused,
        line: "refused 30 NoScript 10:11 (guard client 1)\n",
    },
    // A field that is read with an index.
    Row {
        changes: &[(12, "    (body (read true u r got b)) (return u))")],
        status: Status::Refused,
        line: "refused 15 Arity 12:11\n",
    },
    // A tag where a field is wanted.
    Row {
        changes: &[(12, "    (body (read true u r req)) (return u))")],
        status: Status::Refused,
        line: "refused 11 Unknown 12:26\n",
    },
    // A procedure that calls itself.
    Row {
        changes: &[(12, "    (body (call true true u server)) (return u))")],
        status: Status::Refused,
        line: "refused 11 Unknown 12:29\n",
    },
    // A call of one that stands before: its postcondition does not say what was received.
    Row {
        changes: &[(12, "    (body (call true true u client 7)) (return u))")],
        status: Status::Refused,
        line: "refused 30 NoScript 12:11 (leave server 1)\n",
    },
    // A call without its argument.
    Row {
        changes: &[(12, "    (body (call true true u client)) (return u))")],
        status: Status::Refused,
        line: "refused 15 Arity 12:11\n",
    },
    // A precondition that the constant does not meet.
    Row {
        changes: &[
            (
                9,
                "  (proc client w ((v int)) (locals) (pre (= v 7)) (post true)",
            ),
            (13, "  (deploy w (a client 8) (b server))"),
        ],
        status: Status::Refused,
        line: "refused 30 NoScript 13:13 (deploy a)\n",
    },
    // One that it meets.
    Row {
        changes: &[(
            9,
            "  (proc client w ((v int)) (locals) (pre (= v 7)) (post true)",
        )],
        status: Status::Done,
        line: "accepted nodes 2 labels 1 hooks 0 invariants 1 programs 2 obligations 10\n",
    },
    // A node that is deployed twice.
    Row {
        changes: &[(13, "  (deploy w (a client 9223372036854775807) (a server))")],
        status: Status::Refused,
        line: "refused 12 Twice 13:45\n",
    },
    // A constant outside its sort.
    Row {
        changes: &[(
            9,
            "  (proc client w ((v bool)) (locals) (pre true) (post true)",
        )],
        status: Status::Refused,
        line: "refused 14 BadSort 13:23\n",
    },
    // A node that does not exist.
    Row {
        changes: &[(13, "  (deploy w (a client 7) (d server))")],
        status: Status::Refused,
        line: "refused 11 Unknown 13:27\n",
    },
    // A field of a named node: it is stable, but is not what the receive by `me` gives.
    Row {
        changes: &[(
            11,
            "  (proc server w () (locals f u) (pre true) (post (= (get r got b) 1))",
        )],
        status: Status::Refused,
        line: "refused 30 NoScript 11:45 (stable server 0 r req receive)\n",
    },
    // A script of an obligation that needs none.
    Row {
        changes: &[(
            13,
            "  (deploy w (a client 7) (b server))\n  (proof (got server 1) (names j) (linear (goal) (goal)))",
        )],
        status: Status::Done,
        line: "accepted nodes 2 labels 1 hooks 0 invariants 1 programs 2 obligations 10\n",
    },
    // The first command of the server is no send.
    Row {
        changes: &[(
            13,
            "  (deploy w (a client 7) (b server))\n  (proof (guard server 1) (names) (close))",
        )],
        status: Status::Refused,
        line: "refused 11 Unknown 14:24\n",
    },
    // It has no second one.
    Row {
        changes: &[(
            13,
            "  (deploy w (a client 7) (b server))\n  (proof (got server 2) (names j) (close))",
        )],
        status: Status::Refused,
        line: "refused 11 Unknown 14:22\n",
    },
    // Its annotation is touched by nothing.
    Row {
        changes: &[(
            13,
            "  (deploy w (a client 7) (b server))\n  (proof (stable server 1 r req receive) (names n k) (close))",
        )],
        status: Status::Refused,
        line: "refused 31 ExtraScript 14:3\n",
    },
    // The name of the message is missing.
    Row {
        changes: &[(
            13,
            "  (deploy w (a client 7) (b server))\n  (proof (got server 1) (names) (close))",
        )],
        status: Status::Refused,
        line: "refused 15 Arity 14:25\n",
    },
];

/// Rows of its text.
pub(crate) const LETTERS_ROWS: [Row; 2] = [
    // Two clients.
    Row {
        changes: &[],
        status: Status::Done,
        line: "accepted nodes 3 labels 1 hooks 0 invariants 1 programs 3 obligations 12\n",
    },
    // An addressee that is a sum.
    Row {
        changes: &[
            (
                11,
                "  (proc server w () (locals f u h) (pre true) (post true)",
            ),
            (
                12,
                "    (body (send (= u 0) r req (+ b u) 5) (await true r req f (u)) (await true r req f (u))) (return (+ (* 10 u) h)))",
            ),
        ],
        status: Status::Refused,
        line: "refused 30 NoScript 12:11 (guard server 1)\n",
    },
];

/// Rows of its text.
pub(crate) const ASKING_ROWS: [Row; 12] = [
    // A send that meets a hook.
    Row {
        changes: &[],
        status: Status::Done,
        line: "accepted nodes 2 labels 2 hooks 1 invariants 0 programs 1 obligations 6\n",
    },
    // The annotation does not say what the hook asks.
    Row {
        changes: &[(13, "      (send true q ask b)) (return 0))")],
        status: Status::Refused,
        line: "refused 30 NoScript 13:7 (guard p 2)\n",
    },
    // A script for it fails.
    Row {
        changes: &[
            (13, "      (send true q ask b)) (return 0))"),
            (15, "  (proof (guard p 2) (names) (close))\n)"),
        ],
        status: Status::Refused,
        line: "refused 32 RuleFails 15:30\n",
    },
    // A world without the hook can not be deployed in one that has it.
    Row {
        changes: &[
            (10, "  (world small (labels q) (hooks))"),
            (11, "  (proc p small () (locals) (pre true) (post true)"),
            (12, "    (body"),
            (13, "      (send true q ask b)) (return 0))"),
        ],
        status: Status::Refused,
        line: "refused 22 HookNotCovered 14:13 late\n",
    },
    // A procedure of a smaller world is deployed.
    Row {
        changes: &[
            (11, "  (proc p small () (locals) (pre true) (post true)"),
            (13, "      ) (return 0))"),
        ],
        status: Status::Done,
        line: "accepted nodes 2 labels 2 hooks 1 invariants 0 programs 1 obligations 4\n",
    },
    // An annotation of what b has: b may vote meanwhile.
    Row {
        changes: &[
            (
                11,
                "  (proc p w () (locals) (pre (= (get v done b) 0)) (post true)",
            ),
            (12, "    (body (send (= (get v done b) 0) v cast b)"),
        ],
        status: Status::Refused,
        line: "refused 30 NoScript 12:11 (stable p 1 v cast send)\n",
    },
    // And no script shows that it stays.
    Row {
        changes: &[
            (
                11,
                "  (proc p w () (locals) (pre (= (get v done b) 0)) (post true)",
            ),
            (12, "    (body (send (= (get v done b) 0) v cast b)"),
            (
                15,
                "  (proof (stable p 1 v cast send) (names s d) (by pre))\n)",
            ),
        ],
        status: Status::Refused,
        line: "refused 32 RuleFails 15:47\n",
    },
    // A node where a local is wanted.
    Row {
        changes: &[(
            13,
            "      (send (= (get v done me) 1) q ask b) (await true q ask b ())) (return 0))",
        )],
        status: Status::Refused,
        line: "refused 11 Unknown 13:62\n",
    },
    // A send at a label outside the world.
    Row {
        changes: &[(11, "  (proc p small () (locals) (pre true) (post true)")],
        status: Status::Refused,
        line: "refused 20 NoLabel 13:35\n",
    },
    // A precondition that speaks of a label outside the world.
    Row {
        changes: &[
            (
                11,
                "  (proc p small () (locals) (pre (<= (len q) 0)) (post true)",
            ),
            (13, "      ) (return 0))"),
        ],
        status: Status::Refused,
        line: "refused 20 NoLabel 11:43\n",
    },
    // A hook twice.
    Row {
        changes: &[(9, "  (world w (labels v q) (hooks late late))")],
        status: Status::Refused,
        line: "refused 12 Twice 9:37\n",
    },
    // A program of a larger world than the deployed one.
    Row {
        changes: &[(14, "  (deploy small (a p))")],
        status: Status::Refused,
        line: "refused 20 NoLabel 14:17\n",
    },
];

/// Rows of its text.
pub(crate) const CALLING_ROWS: [Row; 9] = [
    // A frame may not speak of what the callee may change.
    Row {
        changes: &[],
        status: Status::Refused,
        line: "refused 23 FrameTouches 13:25 v\n",
    },
    // The callee was shown without the hook.
    Row {
        changes: &[(10, "  (world small (labels q) (hooks))")],
        status: Status::Refused,
        line: "refused 22 HookNotCovered 13:11 late\n",
    },
    // A call.
    Row {
        changes: &[(13, "    (body (call true true y p0)) (return y))")],
        status: Status::Done,
        line: "accepted nodes 2 labels 2 hooks 1 invariants 0 programs 1 obligations 5\n",
    },
    // The callee's precondition.
    Row {
        changes: &[
            (
                11,
                "  (proc p0 small () (locals) (pre (= (get v done me) 1)) (post true) (body) (return 0))",
            ),
            (13, "    (body (call true true y p0)) (return y))"),
        ],
        status: Status::Refused,
        line: "refused 30 NoScript 13:11 (enter p 1)\n",
    },
    // What the caller knew is not known behind the call.
    Row {
        changes: &[
            (
                12,
                "  (proc p w () (locals y) (pre (= (get v done me) 1)) (post (= (get v done me) 1))",
            ),
            (
                13,
                "    (body (call (= (get v done me) 1) true y p0)) (return y))",
            ),
        ],
        status: Status::Refused,
        line: "refused 30 NoScript 13:11 (leave p 1)\n",
    },
    // What the callee returns.
    Row {
        changes: &[
            (
                11,
                "  (proc p0 small () (locals) (pre true) (post (= result 0)) (body) (return 0))",
            ),
            (
                12,
                "  (proc p w () (locals y) (pre true) (post (= result 0))",
            ),
            (13, "    (body (call true true y p0)) (return y))"),
        ],
        status: Status::Done,
        line: "accepted nodes 2 labels 2 hooks 1 invariants 0 programs 1 obligations 5\n",
    },
    // A frame that does not hold where the callee is entered.
    Row {
        changes: &[(13, "    (body (call true (= y 0) y p0)) (return y))")],
        status: Status::Refused,
        line: "refused 30 NoScript 13:11 (enter p 1)\n",
    },
    // A frame of a label that the callee lacks: it has to hold at the call.
    Row {
        changes: &[(
            13,
            "    (body (call (= y 0) (= (len q) 0) y p0)) (return y))",
        )],
        status: Status::Refused,
        line: "refused 30 NoScript 13:11 (enter p 1)\n",
    },
    // One that other nodes may break.
    Row {
        changes: &[
            (
                12,
                "  (proc p w () (locals y) (pre (= (len q) 0)) (post true)",
            ),
            (
                13,
                "    (body (call (= (len q) 0) (= (len q) 0) y p0)) (return y))",
            ),
        ],
        status: Status::Refused,
        line: "refused 30 NoScript 13:11 (stable p 1 q ask send)\n",
    },
];

/// Rows of its text.
pub(crate) const COMMIT_ROWS: [Row; 1] = [
    // The two-phase commit, with its 33 obligations.
    Row {
        changes: &[],
        status: Status::Done,
        line: "accepted nodes 3 labels 1 hooks 0 invariants 2 programs 3 obligations 33\n",
    },
];
