//! Files that are of no form, and where.

use dl_forms::Names;
use dl_notation::{ListRole, list_form_fault, number_list};
use dl_tree::{Name, Place, read_tree};
use std::alloc::{AllocError, Global};
use std::test::Fail;

/// The column of a text's first fault of form, or 0 where it has none.
fn fault_of(alloc: Global, text: &str) -> u32 {
    if text.len() >= 4294967295 {
        return 999;
    }
    let Ok(tree) = read_tree(alloc, text.as_bytes()) else {
        return 999;
    };
    match list_form_fault(ListRole::File, false, &tree) {
        Some(Place { col, .. }) => col,
        None => 0,
    }
}

const FAULTS: [(&str, u32); 20] = [
    ("(disel 1)", 1),
    ("(disel 1 (nodes) (deploy w))", 10),
    ("(disel 1 (deploy w))", 1),
    ("(disel 1 (nodes a) (deploy w) (deploy w))", 31),
    ("(disel 1 (nodes a) (deploy w) (deploy))", 31),
    ("(disel 1 (nodes a 5) (deploy w))", 19),
    ("(disel 1 (nodes a) (sort s (range 1)) (deploy w))", 28),
    (
        "(disel 1 (nodes a) (protocol p (coherence true) (coherence true)) (deploy w))",
        49,
    ),
    (
        "(disel 1 (nodes a) (protocol p (tag t (((x) int)) (send true))) (deploy w))",
        41,
    ),
    (
        "(disel 1 (nodes a) (protocol p (tag t () (receive true) (send true))) (deploy w))",
        42,
    ),
    (
        "(disel 1 (nodes a) (protocol p (tag t () (send true (set f)))) (deploy w))",
        53,
    ),
    ("(disel 1 (nodes a) (hook h a b t x true) (deploy w))", 34),
    ("(disel 1 (nodes a) (world w (compose u)) (deploy w))", 29),
    (
        "(disel 1 (nodes a) (invariant i w (= (arg m 8) 0)) (deploy w))",
        45,
    ),
    ("(disel 1 (nodes a) (deploy w (a q true (x))))", 40),
    (
        "(disel 1 (nodes a) (proof (step i l t both) (names) (close)) (deploy w))",
        39,
    ),
    (
        "(disel 1 (nodes a) (proof (init i) (names) (pick 3 (close))) (deploy w))",
        50,
    ),
    (
        "(disel 1 (nodes a) (proof (init i) (names) (linear (add (x (goal))))) (deploy w))",
        58,
    ),
    (
        "(disel 1 (nodes a) (proc q w () (locals) (pre true) (post true) (body (if true (else) (then))) (return 0)) (deploy w))",
        80,
    ),
    (
        "(disel 1 (nodes true) (sort s (range 5 1)) (protocol p (tag t () (send true) (receive true)) (coherence true)) (label l p) (world w (labels l) (hooks)) (proc q w ((x int)) (locals y z) (pre true) (post true) (body (send true l t 0 1) (poll true y l t z (y)) (read true y l f 0) (set y 1) (if true (then) (else (set y 2))) (while true true) (call true true y q 1 2)) (return 0)) (proof (stable q 0 l t receive) (names a b) (linear (goal) (div 2 (use h)))) (deploy w (true q 1 x)))",
        0,
    ),
];

#[test]
fn faults(rt: HostRuntime) -> Result<(), Fail> {
    for (text, col) in &FAULTS {
        assert_eq!(rt; fault_of(rt.alloc(), text), *col, "{text}");
    }
    Ok(())
}

/// The number of a name after the names of a text are numbered.
fn number_in(alloc: Global, text: &str, name: &str) -> Result<Option<u32>, AllocError> {
    if text.len() >= 4294967295 || name.len() > 64 {
        return Ok(None);
    }
    let Ok(tree) = read_tree(alloc, text.as_bytes()) else {
        return Ok(None);
    };
    let mut names = Names::make(alloc)?;
    number_list(alloc, &mut names, ListRole::File, &tree)?;
    Ok(names.known(&Name::new(alloc, name)?))
}

#[test]
fn numbers(rt: HostRuntime) -> Result<(), Fail> {
    let text =
        "(disel 1 (nodes a b) (protocol p (field n int 0) (tag t ((v node)) (send true))) (label l p) (world w (labels l) (hooks)) (deploy w (b q 1 a)) (proof (step p t send) (names s d x) (by guard)))";
    let alloc = rt.alloc();
    assert_eq!(rt; number_in(alloc, text, "a")?, Some(18));
    assert_eq!(rt; number_in(alloc, text, "n")?, Some(21));
    assert_eq!(rt; number_in(alloc, text, "node")?, Some(2));
    assert_eq!(rt; number_in(alloc, text, "q")?, Some(26));
    assert_eq!(rt; number_in(alloc, text, "x")?, Some(29));
    assert_eq!(rt; number_in(alloc, text, "send")?, None);
    assert_eq!(rt; number_in(alloc, text, "true")?, None);
    Ok(())
}
