//! The obligations of calls.

ghost use Rattle.std.specs.Prelude.{◌≡◌, ◌≤◌, ◌++◌, ◌∷◌, [], true, length, IfOk, OnOk};
ghost use Rattle.dl_term.specs.declared.syntax.Term.{Var};
ghost use Rattle.dl_term.specs.Measures.{is_oversized};
ghost use Rattle.dl_model.specs.Block.{block_of, followed};
ghost use Rattle.dl_model.specs.Lookup.{arg_names, proc_at};
ghost use Rattle.dl_model.specs.Words.{result_word};
ghost use Rattle.dl_subst.specs.Substitution.{substituted};
ghost use Rattle.dl_inv.specs.Joined.{all_of};
ghost use Rattle.dl_inv.specs.Steps.{called, name_at as name_among};
ghost use Rattle.dl_triples.specs.Words.{frame_word, post_word};
ghost use Rattle.dl_triples.specs.Points.{next_of, point_at};
ghost use Rattle.dl_triples.specs.Obligations.{enter_at, enter_sequent, facts_in, leave_at, leave_sequent, put as put_all};
ghost use Rattle.dl_triples.specs.Built.{entered_parts};

use crate::assigned::put_assigned;
use dl_inv::{BuildFault, add_fact};
use dl_model::{Command, Decls, Hypothesis, Proc, Sequent};
use dl_parts::{
    RESULT, add_copy, add_facts_in, add_names, add_terms, entered, hold, name_at, nobody, proc_of,
    put_facts, put_for, put_goal, put_known, put_known_after, put_nothing,
};
use dl_points::commands_from;
use dl_term::{Formula, Term};
use sqlite_items::Items;
use std::alloc::{AllocError, Global};

// The names of hypotheses that no file declares.
const POST: u32 = 16;

const FRAME: u32 = 17;

// What the call has to meet holds.
fn fill_enter(
    alloc: Global,
    decls: &Decls,
    proc: &Proc,
    command: &Command,
    rest: &[Command],
    made: &mut Sequent,
) -> Result<(), BuildFault>
    requires { length decls.now.invariants ≤ 255 }
    ensures made { OnOk result (made.new ≡ enter_at decls.now proc.now (followed command.now (block_of rest.now))) }
    ensures limit { (result ≡ Err BuildFault.Limit) → is_oversized (enter_at decls.now proc.now (followed command.now (block_of rest.now))).goal ≡ true }
{
    match command {
        Command::Send { .. } => put_nothing(alloc, made),
        Command::Await { .. } => put_nothing(alloc, made),
        Command::Poll { .. } => put_nothing(alloc, made),
        Command::Read { .. } => put_nothing(alloc, made),
        Command::Set { .. } => put_nothing(alloc, made),
        Command::If { .. } => put_nothing(alloc, made),
        Command::While { .. } => put_nothing(alloc, made),
        Command::Call {
            note,
            frame,
            proc: callee,
            args,
            ..
        } => {
            enter(
                alloc,
                decls,
                proc,
                note,
                frame,
                *callee,
                args.as_slice(),
                made,
            )
        }
    }
}

fn enter(
    alloc: Global,
    decls: &Decls,
    proc: &Proc,
    note: &Formula,
    frame: &Formula,
    callee: u8,
    args: &[Term],
    made: &mut Sequent,
) -> Result<(), BuildFault>
    requires { length decls.now.invariants ≤ 255 }
    ensures made { OnOk result (made.new ≡ enter_sequent decls.now proc.now note.now frame.now (proc_at decls.now.procs callee) args.now) }
    ensures limit { (result ≡ Err BuildFault.Limit) → ⊥ }
{
    let none = nobody(alloc);
    let callee = proc_of(&*decls, callee, &none);
    let filled = enter_with(alloc, &*decls, proc, note, frame, callee, args, made);
    drop(none);
    Ok(filled?)
}

fn enter_with(
    alloc: Global,
    decls: &Decls,
    proc: &Proc,
    note: &Formula,
    frame: &Formula,
    callee: &Proc,
    args: &[Term],
    made: &mut Sequent,
) -> Result<(), AllocError>
    requires { length decls.now.invariants ≤ 255 }
    ensures { OnOk result (made.new ≡ enter_sequent decls.now proc.now note.now frame.now callee.now args.now) }
{
    put_known(alloc, decls, proc, made)?;
    put_entered(alloc, decls, frame, callee, args, made)?;
    hold(alloc, decls, proc, note, made)
}

fn put_entered(
    alloc: Global,
    decls: &Decls,
    frame: &Formula,
    callee: &Proc,
    args: &[Term],
    made: &mut Sequent,
) -> Result<(), AllocError>
    ensures { OnOk result (made.new ≡ record made.old { goal = all_of (entered_parts decls.now made.old frame.now callee.now args.now) }) }
{
    let goal = entered(alloc, decls, &*made, frame, callee, args)?;
    put_goal(made, goal);
    Ok(())
}

// What follows holds after the call.
fn fill_leave(
    alloc: Global,
    decls: &Decls,
    proc: &Proc,
    point: u32,
    command: &Command,
    rest: &[Command],
    returned: u32,
    made: &mut Sequent,
) -> Result<(), BuildFault>
    requires { length decls.now.invariants ≤ 255 }
    ensures made { OnOk result (made.new ≡ leave_at decls.now proc.now (followed command.now (block_of rest.now)) returned (next_of (point_at proc.now point))) }
    ensures limit { (result ≡ Err BuildFault.Limit) → is_oversized (leave_at decls.now proc.now (followed command.now (block_of rest.now)) returned (next_of (point_at proc.now point))).goal ≡ true }
{
    match command {
        Command::Send { .. } => put_nothing(alloc, made),
        Command::Await { .. } => put_nothing(alloc, made),
        Command::Poll { .. } => put_nothing(alloc, made),
        Command::Read { .. } => put_nothing(alloc, made),
        Command::Set { .. } => put_nothing(alloc, made),
        Command::If { .. } => put_nothing(alloc, made),
        Command::While { .. } => put_nothing(alloc, made),
        Command::Call {
            frame,
            into,
            proc: callee,
            args,
            ..
        } => {
            leave(
                alloc,
                decls,
                proc,
                point,
                frame,
                *into,
                *callee,
                args.as_slice(),
                returned,
                made,
            )
        }
    }
}

fn leave(
    alloc: Global,
    decls: &Decls,
    proc: &Proc,
    point: u32,
    frame: &Formula,
    into: u32,
    callee: u8,
    args: &[Term],
    returned: u32,
    made: &mut Sequent,
) -> Result<(), BuildFault>
    requires { length decls.now.invariants ≤ 255 }
    ensures made { OnOk result (made.new ≡ leave_sequent decls.now proc.now frame.now into (proc_at decls.now.procs callee) args.now returned (next_of (point_at proc.now point))) }
    ensures limit { (result ≡ Err BuildFault.Limit) → is_oversized (leave_sequent decls.now proc.now frame.now into (proc_at decls.now.procs callee) args.now returned (next_of (point_at proc.now point))).goal ≡ true }
{
    let none = nobody(alloc);
    let callee = proc_of(&*decls, callee, &none);
    let filled = leave_with(
        alloc, &*decls, proc, point, frame, into, callee, args, returned, made,
    );
    drop(none);
    filled
}

fn leave_with(
    alloc: Global,
    decls: &Decls,
    proc: &Proc,
    point: u32,
    frame: &Formula,
    into: u32,
    callee: &Proc,
    args: &[Term],
    returned: u32,
    made: &mut Sequent,
) -> Result<(), BuildFault>
    requires { length decls.now.invariants ≤ 255 }
    ensures made { OnOk result (made.new ≡ leave_sequent decls.now proc.now frame.now into callee.now args.now returned (next_of (point_at proc.now point))) }
    ensures limit { (result ≡ Err BuildFault.Limit) → is_oversized (leave_sequent decls.now proc.now frame.now into callee.now args.now returned (next_of (point_at proc.now point))).goal ≡ true }
{
    put_known_after(alloc, decls, proc, returned, made)?;
    put_left_facts(alloc, decls, proc, frame, callee, args, returned, made)?;
    put_returned(alloc, proc, point, into, returned, made)
}

fn put_returned(
    alloc: Global,
    proc: &Proc,
    point: u32,
    into: u32,
    returned: u32,
    made: &mut Sequent,
) -> Result<(), BuildFault>
    ensures made { OnOk result (made.new ≡ record made.old { goal = substituted (next_of (point_at proc.now point)) into (Var returned) }) }
    ensures limit { (result ≡ Err BuildFault.Limit) → is_oversized (substituted (next_of (point_at proc.now point)) into (Var returned)) ≡ true }
{
    let term = Term::Var(returned);
    let done = put_assigned(alloc, proc, point, into, &term, made);
    drop(term);
    done
}

// Writes the facts of the world, the postcondition of the procedure that was called, and what the caller held on to, over
// the hypotheses of a sequent.
fn put_left_facts(
    alloc: Global,
    decls: &Decls,
    proc: &Proc,
    frame: &Formula,
    callee: &Proc,
    args: &[Term],
    returned: u32,
    made: &mut Sequent,
) -> Result<(), AllocError>
    requires { length decls.now.invariants ≤ 255 }
    ensures { OnOk result (made.new ≡ record made.old { facts = facts_in decls.now proc.now ++ called post_word (put_all callee.now.post (result_word ∷ arg_names callee.now.params) (Var returned ∷ args.now)) ∷ called frame_word frame.now ∷ [] }) }
{
    let mut facts = Items::new(alloc);
    let added = add_left(
        alloc, &mut facts, decls, proc, frame, callee, args, returned,
    );
    put_facts(made, facts);
    added
}

fn add_left(
    alloc: Global,
    facts: &mut Items<Hypothesis>,
    decls: &Decls,
    proc: &Proc,
    frame: &Formula,
    callee: &Proc,
    args: &[Term],
    returned: u32,
) -> Result<(), AllocError>
    requires { length decls.now.invariants ≤ 255 }
    ensures { OnOk result (facts.new ≡ facts.old ++ (facts_in decls.now proc.now ++ called post_word (put_all callee.now.post (result_word ∷ arg_names callee.now.params) (Var returned ∷ args.now)) ∷ called frame_word frame.now ∷ [])) }
{
    add_facts_in(alloc, facts, decls, proc)?;
    add_postcondition(alloc, facts, callee, args, returned)?;
    add_copy(alloc, facts, FRAME, frame)
}

fn add_postcondition(
    alloc: Global,
    facts: &mut Items<Hypothesis>,
    callee: &Proc,
    args: &[Term],
    returned: u32,
) -> Result<(), AllocError>
    ensures { OnOk result (facts.new ≡ facts.old ++ called post_word (put_all callee.now.post (result_word ∷ arg_names callee.now.params) (Var returned ∷ args.now)) ∷ []) }
{
    let terms = returned_terms(alloc, returned, args)?;
    let held = postcondition(alloc, callee, terms.as_slice());
    drop(terms);
    add_fact(facts, POST, held?)
}

fn returned_terms(alloc: Global, returned: u32, args: &[Term]) -> Result<Items<Term>, AllocError>
    ensures { IfOk result (λ terms. terms ≡ Var returned ∷ args.now) }
{
    let mut terms = Items::new(alloc);
    terms.push(Term::Var(returned))?;
    add_terms(alloc, &mut terms, args)?;
    Ok(terms)
}

fn postcondition(alloc: Global, callee: &Proc, terms: &[Term]) -> Result<Formula, AllocError>
    ensures { IfOk result (λ made. made ≡ put_all callee.now.post (result_word ∷ arg_names callee.now.params) terms.now) }
{
    let mut names = Items::new(alloc);
    names.push(RESULT)?;
    add_names(&mut names, callee.params.as_slice())?;
    put_for(alloc, &callee.post, names.as_slice(), terms)
}

/// Writes the obligation of a call at the point, where it begins, over a sequent.
pub fn enter_point(
    alloc: Global,
    decls: &Decls,
    proc: &Proc,
    point: u32,
    made: &mut Sequent,
) -> Result<(), BuildFault>
    requires { length decls.now.invariants ≤ 255 }
    ensures made { OnOk result (made.new ≡ enter_at decls.now proc.now (point_at proc.now point).block) }
    ensures limit { (result ≡ Err BuildFault.Limit) → is_oversized (enter_at decls.now proc.now (point_at proc.now point).block).goal ≡ true }
{
    let commands = commands_from(proc, point);
    if commands.is_empty() {
        return put_nothing(alloc, made);
    }
    fill_enter(alloc, decls, proc, &commands[0], &commands[1..], made)
}

/// Writes the obligation of a call at the point, where it returns, over a sequent.
pub fn leave_point(
    alloc: Global,
    decls: &Decls,
    proc: &Proc,
    point: u32,
    names: &[u32],
    made: &mut Sequent,
) -> Result<(), BuildFault>
    requires { length decls.now.invariants ≤ 255 }
    ensures made { OnOk result (made.new ≡ leave_at decls.now proc.now (point_at proc.now point).block (name_among names.now 0) (next_of (point_at proc.now point))) }
    ensures limit { (result ≡ Err BuildFault.Limit) → is_oversized (leave_at decls.now proc.now (point_at proc.now point).block (name_among names.now 0) (next_of (point_at proc.now point))).goal ≡ true }
{
    let commands = commands_from(proc, point);
    if commands.is_empty() {
        return put_nothing(alloc, made);
    }
    fill_leave(
        alloc,
        decls,
        proc,
        point,
        &commands[0],
        &commands[1..],
        name_at(names, 0),
        made,
    )
}
