//! Files with procedures, built of their texts: each is what its tree means, and is shown as it is written, but for sorts,
//! compositions and constants.

use dl_file::File;
use dl_forms::Names;
use dl_means::tells;
use dl_read_script::build_file;
use dl_sequent::Duty;
use dl_shown::show_file;
use dl_tree::{Tree, read_tree, write_tree};
use sqlite_items::Items;
use std::alloc::{AllocError, Global};
use std::mem;
use std::test::Fail;

/// A client and a server.
const MAIL: &str =
    "(disel 1 (nodes a b) (protocol mail (field got bool 0) (tag req ((v int)) (send true) (receive true (set got 1))))
(label r mail) (world w (labels r) (hooks)) (invariant seen w (each m r req (implies (= (live m) 0) (= (get r got
(to m)) 1)))) (proc client w ((v int)) (locals) (pre true) (post true) (body (send true r req b v)) (return 0)) (proc
server w () (locals f u) (pre true) (post (= (get r got me) 1)) (body (await true r req f (u))) (return u)) (deploy w
(a client 7) (b server)) (proof (step seen r req send) (names s d x1) (split (by seen) (intro z (linear (use z) (use
z))))) (proof (step seen r req receive) (names n k) (open j (intro z (decide (= (to j) n) q (reduce q goal (linear
(goal) (goal))) (reduce q goal (decide (= (id j) (id k)) e (parts mine mt ml (have (= (to j) n) y (rewrite e goal (by
mt)) (apply q bad (by y) (close)))) (reduce e z (inst seen j s1 (apply s1 s2 (by z) (by s2)))))))))))";

const MAIL_SHOWN: &str =
    "(disel 1 (nodes a b) (protocol mail (field got (range 0 1) 0) (tag req ((v (range -9223372036854775808
9223372036854775807))) (send true) (receive true (set got 1)))) (label r mail) (world w (labels r) (hooks)) (invariant
seen w (each m r req (implies (= (live m) 0) (= (get r got (to m)) 1)))) (proc client w ((v (range
-9223372036854775808 9223372036854775807))) (locals) (pre true) (post true) (body (send true r req b v)) (return 0))
(proc server w () (locals f u) (pre true) (post (= (get r got me) 1)) (body (await true r req f (u))) (return u))
(deploy w (a client 7) (b server)) (proof (step seen r req send) (names s d x1) (split (by seen) (intro z (linear (use
z) (use z))))) (proof (step seen r req receive) (names n k) (open j (intro z (decide (= (to j) n) q (reduce q goal
(linear (goal) (goal))) (reduce q goal (decide (= (id j) (id k)) e (parts mine mt ml (have (= (to j) n) y (rewrite e
goal (by mt)) (apply q bad (by y) (close)))) (reduce e z (inst seen j s1 (apply s1 s2 (by z) (by s2)))))))))))";

/// A vote and a query with a hook between them, and a world that isn't deployed.
const VOTE: &str =
    "(disel 1 (nodes a b) (protocol vote (field done bool 0) (tag cast () (send true (set done 1)) (receive true)))
(protocol query (tag ask () (send true) (receive true))) (label v vote) (label q query) (hook late v q ask () (= (get v
done me) 1)) (world w (labels v q) (hooks late)) (world small (labels v) (hooks)) (proc p w () (locals) (pre true)
(post true) (body (send true v cast b) (send (= (get v done me) 1) q ask b)) (return 0)) (deploy w (a p)))";

const VOTE_SHOWN: &str =
    "(disel 1 (nodes a b) (protocol vote (field done (range 0 1) 0) (tag cast () (send true (set done 1)) (receive
true))) (protocol query (tag ask () (send true) (receive true))) (label v vote) (label q query) (hook late v q ask ()
(= (get v done me) 1)) (world w (labels v q) (hooks late)) (world small (labels v) (hooks)) (proc p w () (locals) (pre
true) (post true) (body (send true v cast b) (send (= (get v done me) 1) q ask b)) (return 0)) (deploy w (a p)))";

/// Each command, a constant of a parameter that is an enumerator, and proofs of obligations of points. In the last proof
/// `g` is the local, though a later item declares an enumerator so.
const COMMANDS: &str =
    "(disel 1 (nodes a b) (sort s (enum z o)) (protocol p (field n s z) (row k bool 0) (tag t ((x s)) (send true (set n
x)) (receive true (set k from 1)))) (label c p) (world w (labels c) (hooks)) (proc q w ((m s)) (locals y) (pre true)
(post true) (body (read true y c k a)) (return m)) (proc r w () (locals y f u g) (pre (= me a)) (post true) (body (send
true c t b o) (await true c t f (u)) (poll true g c t f (u)) (read true y c n) (set y (+ u o)) (if (= y 1) (then (set u
0)) (else (send true c t a z))) (while (< y 1) (<= y 1) (set y (+ y 1)) (if (= u o) (then) (else))) (call true true y q
o)) (return y)) (deploy w (a r) (b q o)) (sort later (enum h g)) (proof (after r 1) (names) (close)) (proof (after r 4)
(names) (by pre)) (proof (after r 5) (names) (close)) (proof (leave r 7) (names v) (close)) (proof (stable r 2 c t send)
(names i d j) (close)) (proof (got r 3) (names i) (have (= g o) e (close) (close))))";

const COMMANDS_SHOWN: &str =
    "(disel 1 (nodes a b) (sort s (enum z o)) (protocol p (field n (range 0 1) z) (row k (range 0 1) 0) (tag t ((x
(range 0 1))) (send true (set n x)) (receive true (set k from 1)))) (label c p) (world w (labels c) (hooks)) (proc q w
((m (range 0 1))) (locals y) (pre true) (post true) (body (read true y c k a)) (return m)) (proc r w () (locals y f u
g) (pre (= me a)) (post true) (body (send true c t b o) (await true c t f (u)) (poll true g c t f (u)) (read true y c n)
(set y (+ u o)) (if (= y 1) (then (set u 0)) (else (send true c t a z))) (while (< y 1) (<= y 1) (set y (+ y 1)) (if (=
u o) (then) (else))) (call true true y q o)) (return y)) (deploy w (a r) (b q 1)) (sort later (enum h g)) (proof (after
r 1) (names) (close)) (proof (after r 4) (names) (by pre)) (proof (after r 5) (names) (close)) (proof (leave r 7)
(names v) (close)) (proof (stable r 2 c t send) (names i d j) (close)) (proof (got r 3) (names i) (have (= g o) e
(close) (close))))";

const TEXTS: [(&str, &str); 3] = [
    (MAIL, MAIL_SHOWN),
    (VOTE, VOTE_SHOWN),
    (COMMANDS, COMMANDS_SHOWN),
];

fn tree(alloc: Global, text: &str) -> Result<Tree, AllocError> {
    if text.len() >= 4294967295 {
        return Err(AllocError);
    }
    read_tree(alloc, text.as_bytes()).map_err(|_| AllocError)
}

fn built(alloc: Global, text: &str) -> Result<(Names, File), AllocError> {
    let tree = tree(alloc, text)?;
    build_file(alloc, tree)
}

fn is_told(alloc: Global, text: &str) -> Result<bool, AllocError> {
    let (names, file) = built(alloc, text)?;
    tells(alloc, &names, &file)
}

fn shown(alloc: Global, text: &str) -> Result<Vec<u8>, AllocError> {
    let (names, file) = built(alloc, text)?;
    let shown = show_file(alloc, &names, &file)?;
    write_tree(alloc, &shown)
}

/// The layout of a text.
fn laid_out(alloc: Global, text: &str) -> Result<Vec<u8>, AllocError> {
    let tree = tree(alloc, text)?;
    write_tree(alloc, &tree)
}

#[test]
fn a_file_with_procedures_is_what_its_tree_means(rt: HostRuntime) -> Result<(), Fail> {
    for (text, _) in &TEXTS {
        assert!(rt; is_told(rt.alloc(), *text)?);
    }
    Ok(())
}

#[test]
fn a_file_with_procedures_is_shown_as_it_is_written(rt: HostRuntime) -> Result<(), Fail> {
    let alloc = rt.alloc();
    for (text, written) in &TEXTS {
        assert_eq!(rt; shown(alloc, *text)?, laid_out(alloc, *written)?);
    }
    Ok(())
}

/// The file with the obligation of its first proof changed.
fn told_of(alloc: Global, duty: Duty) -> Result<bool, AllocError> {
    let (names, mut file) = built(alloc, COMMANDS)?;
    if file.proofs.len() > 0 {
        let mut first = file.proofs.remove(0);
        first.duty = duty;
        let rest = mem::replace(&mut file.proofs, Items::new(alloc));
        file.proofs.push(first)?;
        file.proofs.append(rest)?;
    }
    tells(alloc, &names, &file)
}

/// What follows a send and what follows a read are written alike, and the point says which one it is.
#[test]
fn the_point_says_what_follows(rt: HostRuntime) -> Result<(), Fail> {
    let alloc = rt.alloc();
    assert!(rt; told_of(alloc, Duty::AfterSend { proc: 1, point: 1 })?);
    assert!(rt; !told_of(alloc, Duty::AfterRead { proc: 1, point: 1 })?);
    assert!(rt; !told_of(alloc, Duty::Guard { proc: 1, point: 1 })?);
    Ok(())
}
