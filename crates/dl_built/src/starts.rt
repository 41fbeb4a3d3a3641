//! The obligations of the beginning of a procedure, and of the deployment.

ghost use Rattle.std.specs.Prelude.{◌≡◌, ◌≤◌, ◌++◌, ◌∷◌, [], true, None, Some, map, length, pos, IfOk, OnOk};
ghost use Rattle.std.specs.Option.{option_copied};
ghost use Rattle.dl_term.specs.declared.syntax.Term.{Num};
ghost use Rattle.dl_term.specs.Measures.{is_oversized};
ghost use Rattle.dl_model.specs.Block.{block_of};
ghost use Rattle.dl_model.specs.Lookup.{arg_names, program_in as program_among, program_of as program_of_node};
ghost use Rattle.dl_model.specs.Words.{me_word};
ghost use Rattle.dl_wp.specs.First.{at_first};
ghost use Rattle.dl_triples.specs.Points.{post_of, pre_of};
ghost use Rattle.dl_triples.specs.Obligations.{deploy_sequent, no_sequent, put as put_all, start_sequent};

use dl_inv::BuildFault;
use dl_model::{Decls, Instances, Proc, Program, Sequent};
use dl_parts::{
    ME, add_names, first_over, hold, nobody, proc_of, put_for, put_goal, put_known, put_nothing,
    terms_over,
};
use dl_points::{Trail, after_over, put_formula};
use dl_term::{Formula, Term};
use sqlite_items::Items;
use std::alloc::{AllocError, Global};

pub(crate) fn fill_start(
    alloc: Global,
    decls: &Decls,
    proc: &Proc,
    made: &mut Sequent,
) -> Result<(), BuildFault>
    requires { length decls.now.invariants ≤ 255 }
    ensures made { OnOk result (made.new ≡ start_sequent decls.now proc.now) }
    ensures limit { (result ≡ Err BuildFault.Limit) → is_oversized (start_sequent decls.now proc.now).goal ≡ true }
{
    put_known(alloc, decls, proc, made)?;
    hold(alloc, decls, proc, &proc.pre, made)?;
    put_start(alloc, proc, made)
}

fn put_start(alloc: Global, proc: &Proc, made: &mut Sequent) -> Result<(), BuildFault>
    ensures made { OnOk result (made.new ≡ record made.old { goal = put_all (pre_of (block_of proc.now.body) (post_of proc.now)) proc.now.locals [] }) }
    ensures limit { (result ≡ Err BuildFault.Limit) → is_oversized (put_all (pre_of (block_of proc.now.body) (post_of proc.now)) proc.now.locals []) ≡ true }
{
    let mut goal = Formula::True;
    let done = start_goal(alloc, proc, &mut goal);
    put_goal(made, goal);
    done
}

fn start_goal(alloc: Global, proc: &Proc, goal: &mut Formula) -> Result<(), BuildFault>
    ensures made { OnOk result (goal.new ≡ put_all (pre_of (block_of proc.now.body) (post_of proc.now)) proc.now.locals []) }
    ensures limit { (result ≡ Err BuildFault.Limit) → is_oversized (put_all (pre_of (block_of proc.now.body) (post_of proc.now)) proc.now.locals []) ≡ true }
{
    let end = Trail::Returns(&*proc);
    let way = Trail::Runs(&end, proc.body.as_slice());
    after_over(alloc, &way, goal)?;
    Ok(terms_over(alloc, proc.locals.as_slice(), &[], goal)?)
}

fn program_of(decls: &Decls, node: u32) -> Option<&Program>
    ensures { option_copied result ≡ program_of_node decls.now node }
{
    match &decls.deploy {
        Some(deploy) => program_in(deploy.programs.as_slice(), node),
        None => None,
    }
}

fn program_in(programs: &[Program], node: u32) -> Option<&Program>
    ensures { option_copied result ≡ program_among programs.now node }
{
    for program in programs {
        if node == program.node {
            return Some(program);
        }
    }
    None
}

pub(crate) fn fill_deploy(
    alloc: Global,
    decls: &Decls,
    node: u32,
    made: &mut Sequent,
) -> Result<(), BuildFault>
    requires { 1 ≤ decls.now.inst.nodes }
    ensures made { OnOk result (made.new ≡ deploy_sequent decls.now node (program_of_node decls.now node)) }
    ensures limit { (result ≡ Err BuildFault.Limit) → is_oversized (deploy_sequent decls.now node (program_of_node decls.now node)).goal ≡ true }
{
    match program_of(decls, node) {
        Some(program) => deploy(alloc, decls, node, program, made),
        None => put_nothing(alloc, made),
    }
}

fn deploy(
    alloc: Global,
    decls: &Decls,
    node: u32,
    program: &Program,
    made: &mut Sequent,
) -> Result<(), BuildFault>
    requires { 1 ≤ decls.now.inst.nodes }
    ensures made { OnOk result (made.new ≡ deploy_sequent decls.now node (Some program.now)) }
    ensures limit { (result ≡ Err BuildFault.Limit) → is_oversized (deploy_sequent decls.now node (Some program.now)).goal ≡ true }
{
    let none = nobody(alloc);
    let proc = proc_of(&*decls, program.proc, &none);
    let filled = deploy_with(
        alloc,
        &decls.inst,
        node,
        proc,
        program.constants.as_slice(),
        made,
    );
    drop(none);
    filled
}

fn deploy_with(
    alloc: Global,
    inst: &Instances,
    node: u32,
    proc: &Proc,
    constants: &[i64],
    made: &mut Sequent,
) -> Result<(), BuildFault>
    requires { 1 ≤ inst.now.nodes }
    ensures made { OnOk result (made.new ≡ record no_sequent { goal = at_first inst.now None (put_all proc.now.pre (me_word ∷ arg_names proc.now.params) (Num (pos node) ∷ map (λ v. Num v) constants.now)) }) }
    ensures limit { (result ≡ Err BuildFault.Limit) → is_oversized (at_first inst.now None (put_all proc.now.pre (me_word ∷ arg_names proc.now.params) (Num (pos node) ∷ map (λ v. Num v) constants.now))) ≡ true }
{
    put_nothing(alloc, made)?;
    let terms = deployed_terms(alloc, node, constants)?;
    let filled = put_deployed(alloc, inst, proc, terms.as_slice(), made);
    drop(terms);
    filled
}

fn put_deployed(
    alloc: Global,
    inst: &Instances,
    proc: &Proc,
    terms: &[Term],
    made: &mut Sequent,
) -> Result<(), BuildFault>
    requires { 1 ≤ inst.now.nodes }
    ensures made { OnOk result (made.new ≡ record made.old { goal = at_first inst.now None (put_all proc.now.pre (me_word ∷ arg_names proc.now.params) terms.now) }) }
    ensures limit { (result ≡ Err BuildFault.Limit) → is_oversized (at_first inst.now None (put_all proc.now.pre (me_word ∷ arg_names proc.now.params) terms.now)) ≡ true }
{
    let mut goal = Formula::True;
    let done = deployed_goal(alloc, inst, proc, terms, &mut goal);
    put_goal(made, goal);
    done
}

fn deployed_goal(
    alloc: Global,
    inst: &Instances,
    proc: &Proc,
    terms: &[Term],
    goal: &mut Formula,
) -> Result<(), BuildFault>
    requires { 1 ≤ inst.now.nodes }
    ensures made { OnOk result (goal.new ≡ at_first inst.now None (put_all proc.now.pre (me_word ∷ arg_names proc.now.params) terms.now)) }
    ensures limit { (result ≡ Err BuildFault.Limit) → is_oversized (at_first inst.now None (put_all proc.now.pre (me_word ∷ arg_names proc.now.params) terms.now)) ≡ true }
{
    precondition_over(alloc, proc, terms, goal)?;
    first_over(alloc, inst, goal)
}

fn precondition_over(
    alloc: Global,
    proc: &Proc,
    terms: &[Term],
    goal: &mut Formula,
) -> Result<(), AllocError>
    ensures { OnOk result (goal.new ≡ put_all proc.now.pre (me_word ∷ arg_names proc.now.params) terms.now) }
{
    let mut names = Items::new(alloc);
    names.push(ME)?;
    add_names(&mut names, proc.params.as_slice())?;
    match put_for(alloc, &proc.pre, names.as_slice(), terms) {
        Ok(made) => {
            put_formula(goal, made);
            Ok(())
        }
        Err(error) => Err(error),
    }
}

fn deployed_terms(alloc: Global, node: u32, constants: &[i64]) -> Result<Items<Term>, AllocError>
    ensures { IfOk result (λ terms. terms ≡ Num (pos node) ∷ map (λ v. Num v) constants.now) }
{
    let mut terms = Items::new(alloc);
    terms.push(Term::Num(i64::from(node)))?;
    add_constants(&mut terms, constants)?;
    Ok(terms)
}

fn add_constants(terms: &mut Items<Term>, constants: &[i64]) -> Result<(), AllocError>
    ensures { OnOk result (terms.new ≡ terms.old ++ map (λ v. Num v) constants.now) }
{
    for constant in constants {
        terms.push(Term::Num(*constant))?;
    }
    Ok(())
}
