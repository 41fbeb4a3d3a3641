//! The obligations of a file with each command, with the list and the goals that an independent reading gives.

ghost use Rattle.std.specs.Prelude.{◌≡◌, false, []};
ghost use Rattle.dl_model.specs.declared.file.Decls.{Decls as Declared};
ghost use Rattle.dl_triples.specs.Built.{captured};

use dl_built::{BuildFault, build};
use dl_duties::duties;
use dl_file::File;
use dl_formed::is_formed;
use dl_forms::{Names, show_formula};
use dl_model::Decls;
use dl_points::pre;
use dl_read_script::build_file;
use dl_sequent::{Duty, Sequent};
use dl_term::Formula;
use dl_tree::{read_tree, write_tree};
use sqlite_items::at;
use std::alloc::{AllocError, Global};
use std::test::Fail;

const EACH: &str = "(disel 1 (nodes a b)
  (protocol board (field got bool 0)
    (tag note ((v bool)) (send (= v 1) (set got 1)) (receive true)))
  (label b1 board)
  (world none (labels) (hooks))
  (world w (labels b1) (hooks))
  (proc echo none ((x bool)) (locals) (pre (= x 1)) (post (= result x))
    (body) (return x))
  (proc main w ((x bool)) (locals y z f) (pre (= x 1)) (post (= (get b1 got me) 1))
    (body (set y x)
      (send (= y 1) b1 note b y)
      (while (= y 1) (<= y (len b1)) (poll (<= y (len b1)) y b1 note f (z)))
      (if (= y 0) (then (set z 1)) (else (read (= z 1) z b1 got)))
      (call (= z 1) (= (get b1 got me) 1) y echo z))
    (return y))
  (deploy w (a main 1)))";

// The names and the file of a text.
fn built(alloc: Global, text: &str) -> Result<(Names, File), AllocError> {
    if text.len() >= 4294967295 {
        return Err(AllocError);
    }
    match read_tree(alloc, text.as_bytes()) {
        Ok(tree) => build_file(alloc, tree),
        Err(_) => Err(AllocError),
    }
}

// The obligations of a text, each by its place in the list.
fn is_listed(alloc: Global, decls: &Decls, place: usize, duty: Duty) -> Result<bool, AllocError> {
    if !is_formed(alloc, decls)? {
        return Err(AllocError);
    }
    let list = duties(alloc, decls)?;
    let listed = place < list.len() && list.as_slice()[place] == duty;
    drop(list);
    Ok(listed)
}

fn count(alloc: Global, decls: &Decls) -> Result<usize, AllocError> {
    if !is_formed(alloc, decls)? {
        return Err(AllocError);
    }
    let list = duties(alloc, decls)?;
    let count = list.len();
    drop(list);
    Ok(count)
}

// Whether a formula is shown so.
fn is_shown(
    alloc: Global,
    names: &Names,
    decls: &Decls,
    formula: &Formula,
    text: &str,
) -> Result<bool, AllocError> {
    let tree = show_formula(
        alloc,
        names,
        &decls.inst,
        None,
        decls.labels.as_slice(),
        formula,
    )?;
    let written = write_tree(alloc, &tree)?;
    drop(tree);
    Ok(written.as_slice() == text.as_bytes())
}

// Whether a sequent has so many hypotheses, and its goal is shown so.
fn is_made(
    alloc: Global,
    names: &Names,
    decls: &Decls,
    made: &Sequent,
    facts: usize,
    text: &str,
) -> Result<bool, AllocError> {
    Ok(made.facts.len() == facts && is_shown(alloc, names, decls, &made.goal, text)?)
}

// Whether an obligation that takes no names is built with so many hypotheses, and with this goal.
fn is_built(
    alloc: Global,
    names: &Names,
    decls: &Decls,
    duty: &Duty,
    facts: usize,
    text: &str,
) -> Result<bool, AllocError>
    requires { (decls : Declared) → captured decls duty.now [] ≡ false }
{
    if !is_formed(alloc, decls)? {
        return Err(AllocError);
    }
    match build(alloc, decls, duty, &[]) {
        Ok(made) => is_made(alloc, names, decls, &made, facts, text),
        Err(BuildFault::Limit) => Ok(false),
        Err(BuildFault::Memory) => Err(AllocError),
    }
}

// The same for the text with each command.
fn has_goal(alloc: Global, duty: Duty, facts: usize, text: &str) -> Result<bool, AllocError>
    requires { (decls : Declared) → captured decls duty [] ≡ false }
{
    let (names, file) = built(alloc, EACH)?;
    is_built(alloc, &names, &file.decls, &duty, facts, text)
}

// How many obligations the text with each command has.
fn counted(alloc: Global) -> Result<usize, AllocError> {
    let (_, file) = built(alloc, EACH)?;
    count(alloc, &file.decls)
}

// Whether that text has the obligation at this place of the list.
fn stands_at(alloc: Global, place: usize, duty: Duty) -> Result<bool, AllocError> {
    let (_, file) = built(alloc, EACH)?;
    is_listed(alloc, &file.decls, place, duty)
}

#[test]
fn lists_what_is_not_waived(rt: HostRuntime) -> Result<(), Fail> {
    let alloc = rt.alloc();
    assert_eq!(rt; counted(alloc)?, 14);
    assert!(rt; stands_at(alloc, 0, Duty::Start { proc: 0 })?);
    assert!(rt; stands_at(alloc, 1, Duty::Start { proc: 1 })?);
    assert!(rt; stands_at(alloc, 2, Duty::Guard { proc: 1, point: 1 })?);
    assert!(rt; stands_at(alloc, 3, Duty::AfterSend { proc: 1, point: 1 })?);
    assert!(rt; stands_at(alloc, 5, Duty::Exit { proc: 1, point: 2 })?);
    assert!(rt;
        stands_at(
            alloc,
            6,
            Duty::Stable {
                proc: 1,
                point: 2,
                label: 0,
                tag: 0,
                receive: false
            }
        )?
    );
    assert!(rt; stands_at(alloc, 7, Duty::Got { proc: 1, point: 3 })?);
    assert!(rt; stands_at(alloc, 10, Duty::AfterRead { proc: 1, point: 4 })?);
    assert!(rt; stands_at(alloc, 12, Duty::Leave { proc: 1, point: 5 })?);
    assert!(rt; stands_at(alloc, 13, Duty::Deploy { node: 0 })?);
    Ok(())
}

#[test]
fn builds_the_goals(rt: HostRuntime) -> Result<(), Fail> {
    let alloc = rt.alloc();
    assert!(rt; has_goal(alloc, Duty::Start { proc: 0 }, 1, "(= x x)")?);
    assert!(rt; has_goal(alloc, Duty::Start { proc: 1 }, 1, "(= x 1)")?);
    assert!(rt;
        has_goal(
            alloc,
            Duty::Guard { proc: 1, point: 1 },
            1,
            "(and (and (<= 0 y) (<= y 1)) (= y 1))"
        )?
    );
    assert!(rt;
        has_goal(
            alloc,
            Duty::Body { proc: 1, point: 2 },
            2,
            "(<= y (len b1))"
        )?
    );
    assert!(rt;
        has_goal(
            alloc,
            Duty::Exit { proc: 1, point: 2 },
            2,
            "(and (implies (= y 0) (= 1 1)) (implies (not (= y 0)) (= z 1)))"
        )?
    );
    assert!(rt;
        has_goal(
            alloc,
            Duty::Miss { proc: 1, point: 3 },
            1,
            "(<= 0 (len b1))"
        )?
    );
    assert!(rt;
        has_goal(
            alloc,
            Duty::AfterRead { proc: 1, point: 4 },
            1,
            "(= (get b1 got me) 1)"
        )?
    );
    assert!(rt;
        has_goal(
            alloc,
            Duty::Enter { proc: 1, point: 5 },
            1,
            "(and (and (<= 0 z) (<= z 1)) (and (= z 1) (= (get b1 got me) 1)))"
        )?
    );
    assert!(rt; has_goal(alloc, Duty::Deploy { node: 0 }, 0, "(= 1 1)")?);
    Ok(())
}

// Whether what the main procedure's commands ask for is shown so.
fn asks_for(alloc: Global, text: &str) -> Result<bool, AllocError> {
    let (names, file) = built(alloc, EACH)?;
    let Some(main) = at(file.decls.procs.as_slice(), 1) else {
        return Ok(false);
    };
    match pre(alloc, main.body.as_slice(), &main.post) {
        Ok(made) => is_shown(alloc, &names, &file.decls, &made, text),
        Err(BuildFault::Limit) => Ok(false),
        Err(BuildFault::Memory) => Err(AllocError),
    }
}

#[test]
fn asks_for_the_first_annotation(rt: HostRuntime) -> Result<(), Fail> {
    assert!(rt; asks_for(rt.alloc(), "(= x 1)")?);
    Ok(())
}
