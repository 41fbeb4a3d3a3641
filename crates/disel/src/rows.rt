//! Texts with lines changed, and what they are answered.

use dl_top::Status;

/// A counter, with the script of its one step.
pub(crate) const COUNTER: &str = "(disel 1
  (nodes a)
  (protocol count
    (field n int 0)
    (tag inc () (send true (set n (+ (get self n me) 1)))))
  (label c count)
  (world w (labels c) (hooks))
  (invariant pos w (all x (<= 0 (get c n x))))
  (deploy w)
  (proof (step pos c inc send) (names s d)
    (open k (inst pos k hk (inst pos s hs
      (decide (= k s) q
        (reduce q goal (linear (add (1 (goal)) (1 (use hs)))))
        (reduce q goal (linear (add (1 (goal)) (1 (use hk))))))))))
)
";

/// Messages that are received, with the scripts of their two steps.
pub(crate) const MAIL: &str = "(disel 1
  (nodes a b)
  (protocol mail (field got bool 0)
    (tag req ((v int)) (send true) (receive true (set got 1))))
  (label r mail)
  (world w (labels r) (hooks))
  (invariant seen w
    (each m r req (implies (= (live m) 0) (= (get r got (to m)) 1))))
  (deploy w)
  (proof (step seen r req send) (names s d x1)
    (split (by seen) (intro z (linear (use z) (use z)))))
  (proof (step seen r req receive) (names n k)
    (open j (intro z (decide (= (to j) n) q
      (reduce q goal (linear (goal) (goal)))
      (reduce q goal (decide (= (id j) (id k)) e
        (parts mine mt ml (have (= (to j) n) y
          (rewrite e goal (by mt)) (apply q bad (by y) (close))))
        (reduce e z (inst seen j s1 (apply s1 s2 (by z) (by s2))))))))))
)
";

/// A vote and a query that a hook holds back until the vote is cast.
pub(crate) const QUERY: &str = "(disel 1
  (nodes a b)
  (protocol vote (field done bool 0)
    (tag cast () (send true (set done 1)) (receive true)))
  (protocol query (tag ask () (send true) (receive true)))
  (label v vote)
  (label q query)
  (hook late v q ask () (= (get v done me) 1))
  (world w (labels v q) (hooks late))
  (world small (labels v) (hooks))
  (invariant asked w (each m q ask (= (get v done (from m)) 1)))
  (deploy w)
  (proof (step asked v cast send) (names s d)
    (open j (decide (= (from j) s) z
      (reduce z goal (linear (goal) (goal)))
      (reduce z goal (inst asked j h (by h))))))
)
";

/// A text with other lines in place of some of its own, which are counted from 1, and what it is
/// answered.
#[derive(Drop)]
pub(crate) struct Row {
    pub(crate) changes: &'static [(usize, &'static str)],
    pub(crate) status: Status,
    pub(crate) line: &'static str,
}

/// Rows of the counter.
pub(crate) const COUNTER_ROWS: [Row; 39] = [
    Row {
        changes: &[],
        status: Status::Done,
        line: "accepted nodes 1 labels 1 hooks 0 invariants 1 programs 0 obligations 2\n",
    },
    Row {
        changes: &[(2, "  (nodes a b e)")],
        status: Status::Done,
        line: "accepted nodes 3 labels 1 hooks 0 invariants 1 programs 0 obligations 2\n",
    },
    // Without an update no step touches the invariant.
    Row {
        changes: &[
            (5, "    (tag inc () (send true)))"),
            (10, ""),
            (11, ""),
            (12, ""),
            (13, ""),
            (14, ""),
        ],
        status: Status::Done,
        line: "accepted nodes 1 labels 1 hooks 0 invariants 1 programs 0 obligations 1\n",
    },
    // A division rounds down, and not up or towards 0.
    Row {
        changes: &[
            (
                5,
                "    (tag inc () (send (= (* 2 (get self n me)) 1) (set n (+ (get self n me) 1)))))",
            ),
            (
                11,
                "    (open k (linear (add (1 (div 2 (use guard))) (1 (div 2 (add (-1 (use guard)))))))))",
            ),
            (12, ""),
            (13, ""),
            (14, ""),
        ],
        status: Status::Done,
        line: "accepted nodes 1 labels 1 hooks 0 invariants 1 programs 0 obligations 2\n",
    },
    Row {
        changes: &[
            (
                5,
                "    (tag inc () (send (= (* 2 (get self n me)) 1) (set n (+ (get self n me) 1)))))",
            ),
            (
                11,
                "    (open k (linear (add (1 (div 4 (use guard))) (1 (div 2 (add (-1 (use guard)))))))))",
            ),
            (12, ""),
            (13, ""),
            (14, ""),
        ],
        status: Status::Refused,
        line: "refused 32 RuleFails 11:13\n",
    },
    Row {
        changes: &[(4, "    (field n int 9223372036854775808)")],
        status: Status::Refused,
        line: "refused 6 BigNumber 4:18\n",
    },
    Row {
        changes: &[(4, "    (field n int 007)")],
        status: Status::Refused,
        line: "refused 2 BadToken 4:18\n",
    },
    Row {
        changes: &[(15, "")],
        status: Status::Refused,
        line: "refused 3 Unclosed 16:1\n",
    },
    Row {
        changes: &[(15, "))")],
        status: Status::Refused,
        line: "refused 4 Stray 15:2\n",
    },
    Row {
        changes: &[(1, "(disel 2")],
        status: Status::Refused,
        line: "refused 10 BadForm 1:8\n",
    },
    // A deployment is missing.
    Row {
        changes: &[(9, "")],
        status: Status::Refused,
        line: "refused 10 BadForm 1:1\n",
    },
    Row {
        changes: &[(6, "  (label c)")],
        status: Status::Refused,
        line: "refused 10 BadForm 6:3\n",
    },
    Row {
        changes: &[(10, "  (proof (after p 1) (names)")],
        status: Status::Refused,
        line: "refused 11 Unknown 10:17\n",
    },
    Row {
        changes: &[(9, "  (deploy w (a p 1))")],
        status: Status::Refused,
        line: "refused 11 Unknown 9:16\n",
    },
    // A procedure that does nothing.
    Row {
        changes: &[(
            9,
            "  (proc p w () (locals) (pre true) (post true) (body) (return 0)) (deploy w (a p))",
        )],
        status: Status::Done,
        line: "accepted nodes 1 labels 1 hooks 0 invariants 1 programs 1 obligations 4\n",
    },
    // What it returns isn't what it promises.
    Row {
        changes: &[(
            9,
            "  (proc p w () (locals) (pre true) (post (= result 1)) (body) (return 0)) (deploy w (a p))",
        )],
        status: Status::Refused,
        line: "refused 30 NoScript 9:3 (start p)\n",
    },
    // Its world doesn't have the label.
    Row {
        changes: &[
            (
                7,
                "  (world w (labels c) (hooks)) (world v (labels) (hooks))",
            ),
            (
                9,
                "  (proc p v () (locals) (pre true) (post true) (body (send true c inc a)) (return 0)) (deploy w (a p))",
            ),
        ],
        status: Status::Refused,
        line: "refused 20 NoLabel 9:65\n",
    },
    // A send whose update may leave its sort, in a procedure that a loop calls.
    Row {
        changes: &[(
            9,
            "  (proc give w () (locals) (pre true) (post true) (body (send true c inc a)) (return 0)) (proc p w () (locals y) (pre true) (post true) (body (while (= y 0) true (call true true y give))) (return y)) (deploy w (a p))",
        )],
        status: Status::Refused,
        line: "refused 30 NoScript 9:57 (guard give 1)\n",
    },
    // A frame that speaks of the label of the called procedure.
    Row {
        changes: &[(
            9,
            "  (proc give w () (locals) (pre true) (post true) (body (send true c inc a)) (return 0)) (proc p w () (locals y) (pre true) (post true) (body (call true (<= 0 (len c)) y give)) (return y)) (deploy w (a p))",
        )],
        status: Status::Refused,
        line: "refused 23 FrameTouches 9:160 c\n",
    },
    Row {
        changes: &[(2, "  (nodes a a)")],
        status: Status::Refused,
        line: "refused 12 Twice 2:12\n",
    },
    Row {
        changes: &[(2, "  (nodes A B C D E F G H I J K L M N O P Q)")],
        status: Status::Refused,
        line: "refused 33 Limit 2:42\n",
    },
    Row {
        changes: &[(
            5,
            "    (tag inc ((x int)) (send true (set n (+ (get self n me) 1)))))",
        )],
        status: Status::Refused,
        line: "refused 13 Shadow 8:25\n",
    },
    Row {
        changes: &[(8, "  (invariant pos w (all x (<= 0 (get c n y))))")],
        status: Status::Refused,
        line: "refused 11 Unknown 8:42\n",
    },
    // An invariant sees only earlier ones.
    Row {
        changes: &[
            (
                8,
                "  (invariant pos w (all x (<= 0 (get c n x))))\n  (invariant more w (all x (<= 0 (get c n x))))",
            ),
            (11, "    (open k (inst more k hk (inst pos s hs"),
        ],
        status: Status::Refused,
        line: "refused 11 Unknown 12:19\n",
    },
    Row {
        changes: &[(
            8,
            "  (invariant pos w (all x (<= 0 (* (get c n x) (* (get c n x) (get c n x))))))",
        )],
        status: Status::Refused,
        line: "refused 16 Wide 8:33\n",
    },
    Row {
        changes: &[(4, "    (field n bool 2)")],
        status: Status::Refused,
        line: "refused 14 BadSort 4:19\n",
    },
    Row {
        changes: &[
            (6, "  (label c count)\n  (label d count)"),
            (8, "  (invariant pos w (all x (<= 0 (get d n x))))"),
        ],
        status: Status::Refused,
        line: "refused 13 Shadow 11:41\n",
    },
    Row {
        changes: &[(8, "  (invariant pos w (all x (<= 1 (get c n x))))")],
        status: Status::Refused,
        line: "refused 30 NoScript 8:3 (init pos)\n",
    },
    Row {
        changes: &[
            (8, "  (invariant pos w (all x (<= 1 (get c n x))))"),
            (
                15,
                "  (proof (init pos) (names) (open k (linear (goal))))\n)",
            ),
        ],
        status: Status::Refused,
        line: "refused 32 RuleFails 15:37\n",
    },
    Row {
        changes: &[(15, "  (proof (init pos) (names) (by pos))\n)")],
        status: Status::Refused,
        line: "refused 11 Unknown 15:33\n",
    },
    Row {
        changes: &[(10, ""), (11, ""), (12, ""), (13, ""), (14, "")],
        status: Status::Refused,
        line: "refused 30 NoScript 8:3 (step pos c inc send)\n",
    },
    Row {
        changes: &[(10, "  (proof (step pos c inc receive) (names s d)")],
        status: Status::Refused,
        line: "refused 30 NoScript 8:3 (step pos c inc send)\n",
    },
    Row {
        changes: &[(
            15,
            "  (proof (step pos c inc receive) (names s k) (close))\n)",
        )],
        status: Status::Refused,
        line: "refused 31 ExtraScript 15:3\n",
    },
    // The sender's own invariant is what its step needs.
    Row {
        changes: &[(
            13,
            "        (reduce q goal (linear (add (1 (goal)) (1 (use hk)))))",
        )],
        status: Status::Refused,
        line: "refused 32 RuleFails 13:24\n",
    },
    // A multiplier below 0 of an inequality.
    Row {
        changes: &[(
            13,
            "        (reduce q goal (linear (add (1 (goal)) (-1 (use hs)))))",
        )],
        status: Status::Refused,
        line: "refused 32 RuleFails 13:24\n",
    },
    // A count that goes down.
    Row {
        changes: &[(
            5,
            "    (tag inc () (send true (set n (- (get self n me) 1)))))",
        )],
        status: Status::Refused,
        line: "refused 32 RuleFails 13:24\n",
    },
    // A field's sort is a name.
    Row {
        changes: &[(4, "    (field n (range 0 1) 0)")],
        status: Status::Refused,
        line: "refused 10 BadForm 4:14\n",
    },
    Row {
        changes: &[(10, "  (proof (step pos c inc send) (names s)")],
        status: Status::Refused,
        line: "refused 15 Arity 10:32\n",
    },
    // An invariant speaks of the labels of its world alone.
    Row {
        changes: &[
            (6, "  (label c count)\n  (label e count)"),
            (8, "  (invariant pos w (all x (<= 0 (get e n x))))"),
        ],
        status: Status::Refused,
        line: "refused 24 InvariantOutside 9:33\n",
    },
];

/// Rows of the mail.
pub(crate) const MAIL_ROWS: [Row; 4] = [
    Row {
        changes: &[],
        status: Status::Done,
        line: "accepted nodes 2 labels 1 hooks 0 invariants 1 programs 0 obligations 3\n",
    },
    Row {
        changes: &[
            (10, ""),
            (11, ""),
            (12, ""),
            (13, ""),
            (14, ""),
            (15, ""),
            (16, ""),
            (17, ""),
            (18, ""),
        ],
        status: Status::Refused,
        line: "refused 30 NoScript 7:3 (step seen r req receive)\n",
    },
    Row {
        changes: &[(10, ""), (11, "")],
        status: Status::Done,
        line: "accepted nodes 2 labels 1 hooks 0 invariants 1 programs 0 obligations 3\n",
    },
    Row {
        changes: &[(
            8,
            "    (each m r req (implies (= (live m) 1) (= (get r got (to m)) 1))))",
        )],
        status: Status::Refused,
        line: "refused 32 RuleFails 11:31\n",
    },
];

/// Rows of the query.
pub(crate) const QUERY_ROWS: [Row; 4] = [
    Row {
        changes: &[],
        status: Status::Done,
        line: "accepted nodes 2 labels 2 hooks 1 invariants 1 programs 0 obligations 3\n",
    },
    Row {
        changes: &[(9, "  (world w (labels v q) (hooks))")],
        status: Status::Refused,
        line: "refused 30 NoScript 11:3 (step asked q ask send)\n",
    },
    Row {
        changes: &[(9, "  (world w (labels q) (hooks late))")],
        status: Status::Refused,
        line: "refused 21 HookCoreMissing 9:30\n",
    },
    Row {
        changes: &[
            (10, "  (world small (labels q) (hooks))"),
            (
                11,
                "  (invariant asked small (each m q ask (= (from m) (from m))))",
            ),
        ],
        status: Status::Refused,
        line: "refused 22 HookNotCovered 11:3 late\n",
    },
];
