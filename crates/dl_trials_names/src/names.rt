//! Files with a fault of names or sorts, and where.

use dl_forms::FormFault;
use dl_names::file_fault;
use dl_tree::read_tree;
use std::alloc::Global;
use std::test::Fail;

/// The rule and the place of a text's first fault, or zeros where it has none.
fn fault_of(alloc: Global, text: &str) -> (u8, u32, u32) {
    if text.len() >= 4294967295 {
        return (255, 0, 0);
    }
    let Ok(tree) = read_tree(alloc, text.as_bytes()) else {
        return (254, 0, 0);
    };
    match file_fault(alloc, &tree) {
        Ok(()) => (0, 0, 0),
        Err(FormFault::At { rule, place }) => (rule, place.line, place.col),
        Err(FormFault::Memory) => (253, 0, 0),
    }
}

/// Texts, each with the rule, the line and the column of its first fault.
const FAULTS: [(&str, (u8, u32, u32)); 36] = [
    (
        "(disel 1 (nodes a b) (protocol p (field n int 0) (row r bool 0) (tag t ((x int)) (send true) (receive true)) (tag g () (send true))) (label l p) (label m p) (world w (labels l m) (hooks)) (proc q w () (locals ) (pre true) (post true) (body ) (return 0))  (deploy w))",
        (0, 0, 0),
    ),
    (
        "(disel 1 (nodes a b) (protocol p (field n int 0) (row r bool 0) (tag t ((x int)) (send true) (receive true)) (tag g () (send true))) (label l p) (label m p) (world w (labels l m) (hooks)) (proc q w ((z bool)) (locals y) (pre true) (post true) (body) (return 0)) (deploy w (a q b)))",
        (0, 0, 0),
    ),
    (
        "(disel 1 (nodes a b) (protocol p (field n int 0) (row r bool 0) (tag t ((x int)) (send true) (receive true)) (tag g () (send true))) (label l p) (label m p) (world w (labels l m) (hooks)) (proc q w ((z int)) (locals y) (pre true) (post (= result z)) (body ) (return y))  (deploy w))",
        (0, 0, 0),
    ),
    (
        "(disel 1 (nodes a b) (protocol p (field n int 0) (row r bool 0) (tag t ((x int)) (send true) (receive true)) (tag g () (send true))) (label l p) (label m p) (world w (labels l m) (hooks)) (proc q w () (locals y z) (pre true) (post true) (body (send true l t a 1)) (return 0))  (deploy w))",
        (0, 0, 0),
    ),
    (
        "(disel 1 (nodes a b) (protocol p (field n int 0) (row r bool 0) (tag t ((x int)) (send true) (receive true)) (tag g () (send true))) (label l p) (label m p) (world w (labels l m) (hooks)) (proc q w () (locals y z v) (pre true) (post true) (body (poll true y l t z (v))) (return 0))  (deploy w))",
        (0, 0, 0),
    ),
    (
        "(disel 1 (nodes a b) (protocol p (field n q 0)) (deploy w))",
        (11, 1, 43),
    ),
    (
        "(disel 1 (nodes n0 n1 n2 n3 n4 n5 n6 n7 n8 n9 n10 n11 n12 n13 n14 n15)  (deploy w))",
        (11, 1, 81),
    ),
    (
        "(disel 1 (nodes a b) (protocol p (field n int 0) (row r bool 0) (tag t ((x int)) (send true) (receive true)) (tag g () (send true)))(label l q) (deploy w))",
        (11, 1, 142),
    ),
    (
        "(disel 1 (nodes a b) (protocol p (field n int 0) (row r bool 0) (tag t ((x int)) (send true) (receive true)) (tag g () (send true))) (label l p) (label m p) (hook h l l g () (= (get m n me) 0)) (deploy w))",
        (11, 1, 183),
    ),
    (
        "(disel 1 (nodes a b) (protocol p (field n int 0) (row r bool 0) (tag t ((x int)) (send true) (receive true)) (tag g () (send true))) (label l p) (label m p) (world u (labels l) (hooks)) (world v (compose u v)) (deploy w))",
        (11, 1, 207),
    ),
    (
        "(disel 1 (nodes a b) (protocol p (field n int 0) (row r bool 0) (tag t ((x int)) (send true) (receive true)) (tag g () (send true))) (label l p) (label m p) (world w (labels l m) (hooks)) (proc q w () (locals y z) (pre true) (post true) (body ) (return (+ y k)))  (deploy w))",
        (11, 1, 259),
    ),
    (
        "(disel 1 (nodes a b) (protocol p (field n int 0) (row r bool 0) (tag t ((x int)) (send true) (receive true)) (tag g () (send true))) (label l p) (label m p) (world w (labels l m) (hooks)) (proc q w () (locals y z) (pre true) (post true) (body (call true true y q)) (return 0))  (deploy w))",
        (11, 1, 262),
    ),
    (
        "(disel 1 (nodes a b) (protocol p (field f0 int 0) (field f1 int 0) (field f2 int 0) (field f3 int 0) (field f4 int 0) (field f5 int 0) (field f6 int 0) (field f7 int 0) (field f8 int 0) (field f9 int 0) (field f10 int 0) (field f11 int 0) (field f12 int 0) (field f13 int 0) (field f14 int 0) (field f15 int 0)) (deploy w))",
        (11, 1, 321),
    ),
    (
        "(disel 1 (nodes a b) (sort s (enum s)) (deploy w))",
        (12, 1, 36),
    ),
    (
        "(disel 1 (nodes a b) (protocol p (field me int 0)) (deploy w))",
        (12, 1, 41),
    ),
    (
        "(disel 1 (nodes n0 n1 n2 n3 n4 n5 n6 n7 n8 n9 n10 n11 n12 n13 n14 n15 n3)  (deploy w))",
        (12, 1, 71),
    ),
    (
        "(disel 1 (nodes a b) (protocol p (field n int 0) (row r bool 0) (tag t ((x int)) (send true) (receive true)) (tag g () (send true)))(label p p) (deploy w))",
        (12, 1, 140),
    ),
    (
        "(disel 1 (nodes a b) (protocol p (field n int 0) (row r bool 0) (tag t ((x int)) (send true) (receive true)) (tag g () (send true))) (label l p) (label m p) (world u (labels l) (hooks)) (world v (compose u u)) (world u (labels) (hooks)) (deploy w))",
        (12, 1, 218),
    ),
    (
        "(disel 1 (nodes a b) (protocol p (field n int 0) (row r bool 0) (tag t ((x int)) (send true) (receive true)) (tag g () (send true))) (label l p) (label m p) (world w (labels l m) (hooks)) (proc q w () (locals y z) (pre true) (post true) (body (poll true y l t y (z))) (return 0))  (deploy w))",
        (12, 1, 261),
    ),
    (
        "(disel 1 (nodes a b) (protocol p (tag t ((a int)) (send true))) (deploy w))",
        (13, 1, 43),
    ),
    (
        "(disel 1 (nodes a b) (protocol p (tag t ((x int)) (send (all x true)))) (deploy w))",
        (13, 1, 62),
    ),
    (
        "(disel 1 (nodes a b) (protocol p (tag t ((x int)) (send (all y true))) (tag u ((y int)) (send true))) (deploy w))",
        (13, 1, 81),
    ),
    (
        "(disel 1 (nodes a b) (protocol p (field n int 0) (row r bool 0) (tag t ((x int)) (send true) (receive true)) (tag g () (send true))) (label l p) (label m p) (hook h m m t (z) (and (= z me) (all z true))) (deploy w))",
        (13, 1, 195),
    ),
    (
        "(disel 1 (nodes a b) (protocol p (field n int 0) (row r bool 0) (tag t ((x int)) (send true) (receive true)) (tag g () (send true))) (label l p) (label m p) (world u (labels l) (hooks)) (invariant i u (all i true)) (deploy w))",
        (13, 1, 207),
    ),
    (
        "(disel 1 (nodes a b) (protocol p (field n int 0) (row r bool 0) (tag t ((x int)) (send true) (receive true)) (tag g () (send true))) (label l p) (label m p) (world w (labels l m) (hooks)) (proc q w () (locals y z) (pre true) (post true) (body (while (= y z) (all y true))) (return 0))  (deploy w))",
        (13, 1, 264),
    ),
    (
        "(disel 1 (nodes a b) (sort s (enum)) (deploy w))",
        (14, 1, 30),
    ),
    (
        "(disel 1 (nodes a b) (protocol p (field n bool (id m))) (deploy w))",
        (14, 1, 48),
    ),
    (
        "(disel 1 (nodes a b) (protocol p (field n bool (get self n me))) (deploy w))",
        (14, 1, 48),
    ),
    (
        "(disel 1 (nodes a b) (protocol p (field n int (if me 0 9223372036854775807 (+ 9223372036854775807 1)))) (deploy w))",
        (14, 1, 47),
    ),
    (
        "(disel 1 (nodes a b) (protocol p (field n int 0) (row r bool 0) (tag t ((x int)) (send true) (receive true)) (tag g () (send true))) (label l p) (label m p) (world w (labels l m) (hooks)) (proc q w () (locals y z) (pre true) (post true) (body (if (all k true) (then) (else))) (return 0))  (deploy w))",
        (14, 1, 248),
    ),
    (
        "(disel 1 (nodes a b) (protocol p (row n int 0) (tag t ((x int)) (send true (set n x)))) (deploy w))",
        (15, 1, 76),
    ),
    (
        "(disel 1 (nodes a b) (protocol p (field n int 0) (row r bool 0) (tag t ((x int)) (send true) (receive true)) (tag g () (send true)))(label l p) (hook h l l t (y z) true) (deploy w))",
        (15, 1, 159),
    ),
    (
        "(disel 1 (nodes a b) (protocol p (field n int 0) (row r bool 0) (tag t ((x int)) (send true) (receive true)) (tag g () (send true))) (label l p) (label m p) (world w (labels l m) (hooks)) (proc q w () (locals y z) (pre true) (post true) (body (send true l t a)) (return 0))  (deploy w))",
        (15, 1, 244),
    ),
    (
        "(disel 1 (nodes a b) (protocol p (field n int 0) (row r bool 0) (tag t ((x int)) (send true) (receive true)) (tag g () (send true))) (label l p) (label m p) (world w (labels l m) (hooks)) (proc q w () (locals y z) (pre true) (post true) (body (read true y l n 0)) (return 0))  (deploy w))",
        (15, 1, 244),
    ),
    (
        "(disel 1 (nodes a b) (protocol p (field n int 0) (row r bool 0) (tag t ((x int)) (send true) (receive true)) (tag g () (send true))) (label l p) (label m p) (world w (labels l m) (hooks)) (proc q w ((z bool)) (locals y) (pre true) (post true) (body ) (return 0)) (proc s w () (locals y) (pre true) (post true) (body (call true true y q 1) (call true true y q)) (return 0)) (deploy w))",
        (15, 1, 340),
    ),
    (
        "(disel 1 (nodes a b) (protocol p (field n int (* 9223372036854775807 (* 9223372036854775807 9223372036854775807)))) (deploy w))",
        (16, 1, 47),
    ),
];

#[test]
fn faults(rt: HostRuntime) -> Result<(), Fail> {
    for (text, fault) in &FAULTS {
        assert_eq!(rt; fault_of(rt.alloc(), text), *fault, "{text}");
    }
    Ok(())
}
