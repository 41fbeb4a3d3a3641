//! Files that are built.

use dl_file::{File, ItemKind, Proof};
use dl_forms::Names;
use dl_model::Command;
use dl_read_script::build_file;
use dl_sequent::{Duty, Given, Rule};
use dl_term::{Formula, Lab, Term};
use dl_tree::read_tree;
use std::alloc::{AllocError, Global};
use std::test::Fail;

/// A counter, with one proof.
const COUNTER: &str = "(disel 1 (nodes a)
  (protocol count (field n int 0) (tag inc () (send true (set n (+ (get self n me) 1)))))
  (label c count)
  (world w (labels c) (hooks))
  (invariant pos w (all x (<= 0 (get c n x))))
  (deploy w)
  (proof (step pos c inc send) (names s d)
    (open k (inst pos k hk (inst pos s hs
      (decide (= k s) q
        (reduce q goal (linear (add (1 (goal)) (1 (use hs)))))
        (reduce q goal (linear (add (1 (goal)) (1 (use hk)))))))))))";

/// Mail with a client and a server.
const MAIL: &str = "(disel 1 (nodes a b)
  (protocol mail (field got bool 0)
    (tag req ((v int)) (send true) (receive true (set got 1))))
  (label r mail)
  (world w (labels r) (hooks))
  (invariant seen w
    (each m r req (implies (= (live m) 0) (= (get r got (to m)) 1))))
  (proc client w ((v int)) (locals) (pre true) (post true)
    (body (send true r req b v)) (return 0))
  (proc server w () (locals f u) (pre true) (post (= (get r got me) 1))
    (body (await true r req f (u))) (return u))
  (deploy w (a client 7) (b server))
  (proof (step seen r req send) (names s d x1)
    (split (by seen) (intro z (linear (use z) (use z)))))
  (proof (step seen r req receive) (names n k)
    (open j (intro z (decide (= (to j) n) q
      (reduce q goal (linear (goal) (goal)))
      (reduce q goal (decide (= (id j) (id k)) e
        (parts mine mt ml (have (= (to j) n) y
          (rewrite e goal (by mt)) (apply q bad (by y) (close))))
        (reduce e z (inst seen j s1 (apply s1 s2 (by z) (by s2)))))))))))";

/// A vote and a query with a hook between them, and three worlds.
const VOTE: &str = "(disel 1 (nodes a b)
  (protocol vote (field done bool 0)
    (tag cast () (send true (set done 1)) (receive true)))
  (protocol query (tag ask () (send true) (receive true)))
  (label v vote) (label q query)
  (hook late v q ask () (= (get v done me) 1))
  (world large (labels v q) (hooks late))
  (world small (labels q) (hooks))
  (world both (compose small large))
  (invariant asked large (each m q ask (= (get v done (from m)) 1)))
  (deploy large)
  (proof (step asked v cast send) (names s d)
    (open j (decide (= (from j) s) z
      (reduce z goal (linear (goal) (goal)))
      (reduce z goal (inst asked j h (by h)))))))";

/// Each form that the others lack. The fields of the protocol stand behind a tag that doesn't know them.
const FORMS: &str = "(disel 1 (nodes a b)
  (sort few (range -2 5)) (sort colour (enum red green))
  (protocol p (tag t ((c colour)) (send (not (= c red))))
    (field f few (* 2 1)) (coherence (some x (< (get self f x) 9))) (row g node me)
    (tag u ((n node) (k few)) (send (or (= n to) (= (- k 1) 0)) (set g n k) (set f (if k 0 1 k)))
      (receive (= from n))))
  (label l p)
  (world w (labels l) (hooks))
  (invariant i w (any m l u (= (+ (arg m 1) (len l)) (get l g (to m) (from m)))))
  (proc q w ((k few)) (locals v y s late) (pre true) (post (= result k))
    (body (set v k)
      (if (= v 1) (then (read true y l f)) (else (poll true y l u s (v late))))
      (while (< v 3) false (read true y l g a) (send true l t b green)))
    (return (+ v y)))
  (proc r w () (locals y) (pre true) (post true) (body (call true true y q 3)) (return 0))
  (sort last (enum late later))
  (proof (init p) (names) (intro h0 (cases h0 h1 (unpack h1 z h3 (by h3)) (range (len self) h4 (pick 2 (give a (close)))))))
  (proof (step p u receive) (names e j) (inst self (from j) h (give j (linear (div 2 (use h)) (goal)))))
  (proof (after q 4) (names) (have (= late later) h (close) (by h)))
  (proof (stable q 0 l u receive) (names e j) (close))
  (proof (leave r 1) (names d) (close))
  (deploy w (b q red) (a r)))";

/// The names and the file of a text.
fn built(alloc: Global, text: &str) -> Result<(Names, File), AllocError> {
    if text.len() >= 4294967295 {
        return Err(AllocError);
    }
    match read_tree(alloc, text.as_bytes()) {
        Ok(tree) => build_file(alloc, tree),
        Err(_) => Err(AllocError),
    }
}

/// Of what kind the items are, and their positions, as pairs of numbers.
fn is_item(file: &File, at: usize, kind: ItemKind, position: u32) -> bool {
    match file.items.get(at) {
        Some(item) => item.kind == kind && item.at == position,
        None => false,
    }
}

fn is_proof_of(file: &File, at: usize, duty: Duty, names: usize) -> bool {
    match file.proofs.get(at) {
        Some(proof) => proof.duty == duty && proof.names.len() == names,
        None => false,
    }
}

/// The line and the column of a proof and of its script.
fn places(proof: Option<&Proof>) -> (u32, u32, u32, u32) {
    match proof {
        Some(proof) => (
            proof.place.line,
            proof.place.col,
            proof.script.place.line,
            proof.script.place.col,
        ),
        None => (0, 0, 0, 0),
    }
}

#[test]
fn counter(rt: HostRuntime) -> Result<(), Fail> {
    let (_, file) = built(rt.alloc(), COUNTER)?;
    assert_eq!(rt; file.decls.inst.nodes, 1);
    assert_eq!(rt; file.names.len(), 32);
    assert_eq!(rt; file.items.len(), 6);
    assert!(rt; is_item(&file, 1, ItemKind::Label, 0));
    assert!(rt; is_item(&file, 5, ItemKind::Proof, 0));
    let step = Duty::StepInvariant {
        invariant: 0,
        label: 0,
        tag: 0,
        receive: false,
    };
    assert!(rt; is_proof_of(&file, 0, step, 2));
    assert_eq!(rt; places(file.proofs.get(0)), (7, 3, 8, 5));
    Ok(())
}

/// Whether the update puts one more in the own field.
fn adds_one(value: &Term) -> bool {
    match value {
        Term::Add(left, right) => match (left.get(), right.get()) {
            (Term::Field { label, field, .. }, Term::Num(1)) => *label == Lab::Own && *field == 0,
            _ => false,
        },
        _ => false,
    }
}

#[test]
fn counter_update(rt: HostRuntime) -> Result<(), Fail> {
    let (_, file) = built(rt.alloc(), COUNTER)?;
    let update = file
        .decls
        .inst
        .protocols
        .get(0)
        .and_then(|protocol| protocol.tags.get(0))
        .and_then(|tag| tag.send.updates.get(0));
    assert!(rt; update.is_some_and(|update| adds_one(&update.value)));
    Ok(())
}

#[test]
fn mail(rt: HostRuntime) -> Result<(), Fail> {
    let (_, file) = built(rt.alloc(), MAIL)?;
    assert_eq!(rt; file.decls.procs.len(), 2);
    assert!(rt; is_item(&file, 5, ItemKind::Procedure, 1));
    let received = Duty::StepInvariant {
        invariant: 0,
        label: 0,
        tag: 0,
        receive: true,
    };
    assert!(rt; is_proof_of(&file, 1, received, 2));
    let client = file.decls.deploy.as_ref().and_then(|d| d.programs.get(0));
    assert!(rt; client.is_some_and(|p| p.node == 0 && p.proc == 0));
    assert_eq!(rt; client.and_then(|p| p.constants.get(0).copied()), Some(7));
    Ok(())
}

#[test]
fn composed_world(rt: HostRuntime) -> Result<(), Fail> {
    let (_, file) = built(rt.alloc(), VOTE)?;
    let both = file.decls.worlds.get(2);
    assert!(rt; both.is_some_and(|world| world.labels.as_slice() == [1, 0].as_slice()));
    assert!(rt; both.is_some_and(|world| world.hooks.as_slice() == [0].as_slice()));
    let hook = file.decls.hooks.get(0);
    assert!(rt; hook.is_some_and(|h| h.core == 0 && h.client == 1 && h.tag == 0));
    let asked = file.decls.invariants.get(0);
    assert!(rt; asked.is_some_and(|asked| asked.world == 0));
    Ok(())
}

/// Whether a formula is `(= late later)` of a variable and an enumerator of value 1.
fn tells_late(formula: &Formula) -> bool {
    match formula {
        Formula::Eq(Term::Var(_), Term::Word { value, .. }) => *value == 1,
        _ => false,
    }
}

#[test]
fn scripts(rt: HostRuntime) -> Result<(), Fail> {
    let (names, file) = built(rt.alloc(), FORMS)?;
    assert_eq!(rt; names.sorts().len(), 3);
    assert!(rt; is_proof_of(&file, 0, Duty::InitProtocol { protocol: 0 }, 0));
    let received = Duty::StepProtocol {
        protocol: 0,
        tag: 1,
        receive: true,
    };
    assert!(rt; is_proof_of(&file, 1, received, 2));
    assert!(rt; is_proof_of(&file, 2, Duty::AfterRead { proc: 0, point: 4 }, 0));
    let stable = Duty::Stable {
        proc: 0,
        point: 0,
        label: 0,
        tag: 1,
        receive: true,
    };
    assert!(rt; is_proof_of(&file, 3, stable, 2));
    assert!(rt; is_proof_of(&file, 4, Duty::Leave { proc: 1, point: 1 }, 1));
    let late = match file.proofs.get(2) {
        Some(proof) => match &proof.script.rule {
            Rule::Have { formula, .. } => tells_late(formula),
            _ => false,
        },
        None => false,
    };
    assert!(rt; late);
    let node = match file.proofs.get(1) {
        Some(proof) => match &proof.script.rule {
            Rule::Inst {
                what: Given::Node(Term::Msg { .. }),
                ..
            } => true,
            _ => false,
        },
        None => false,
    };
    assert!(rt; node);
    Ok(())
}

#[test]
fn protocol_parts(rt: HostRuntime) -> Result<(), Fail> {
    let (_, file) = built(rt.alloc(), FORMS)?;
    let protocol = file.decls.inst.protocols.get(0);
    assert!(rt; protocol.is_some_and(|p| p.coherence.is_some() && p.fields.len() == 2));
    let row = protocol.and_then(|p| p.fields.get(1));
    assert!(rt; row.is_some_and(|f| f.row && f.sort.high == 1));
    let tag = protocol.and_then(|p| p.tags.get(1));
    assert!(rt; tag.is_some_and(|t| t.args.len() == 2 && t.receive.is_some()));
    let first = tag.and_then(|t| t.send.updates.get(0));
    assert!(rt; first.is_some_and(|u| u.field == 1 && u.index.is_some()));
    Ok(())
}

/// How many commands stand in the branches of a choice, and in a loop.
fn inner_lengths(command: Option<&Command>) -> (usize, usize) {
    match command {
        Some(Command::If { yes, no, .. }) => (yes.len(), no.len()),
        Some(Command::While { body, .. }) => (body.len(), 0),
        _ => (0, 0),
    }
}

#[test]
fn commands(rt: HostRuntime) -> Result<(), Fail> {
    let (_, file) = built(rt.alloc(), FORMS)?;
    let procedure = file.decls.procs.get(0);
    assert_eq!(rt;
        inner_lengths(procedure.and_then(|p| p.body.get(1))),
        (1, 1)
    );
    assert_eq!(rt;
        inner_lengths(procedure.and_then(|p| p.body.get(2))),
        (2, 0)
    );
    let deployed = file.decls.deploy.as_ref().and_then(|d| d.programs.get(0));
    assert!(rt; deployed.is_some_and(|p| p.node == 1 && p.constants.as_slice() == [0].as_slice()));
    Ok(())
}
