//! Scripts, certificates and proofs as trees without places.

ghost use Rattle.std.specs.Prelude.{◌≡◌, ◌≤◌, ◌++◌, ◌∷◌, [], map, length, pos, codes, IfOk, OnOk};
ghost use Rattle.dl_forms.specs.Show.{form, symbol, number as shown_number};
ghost use Rattle.dl_shown.specs.Shown.{name_of, term_of, formula_of};
ghost use Rattle.dl_shown.specs.Scripts.{multiplied, use_of, multiple_of, certificate_of, second_of, given_of, rule_of, proof_of};

use crate::declarations::{formula, term};
use crate::obligations::{duty, own};
use crate::pieces::{add_names, begin, count, list, name, number};
use dl_file::Proof;
use dl_forms::Names;
use dl_linear::{Certificate, Multiple};
use dl_model::Decls;
use dl_sequent::{Given, Rule, Script};
use dl_term::{Formula, Term};
use dl_tree::Tree;
use sqlite_items::Items;
use std::alloc::{AllocError, Global};

/// The number of the word `goal`.
const GOAL: u32 = 8;

// ---- certificates

/// The line of a hypothesis, or that of the goal's negation.
fn used(alloc: Global, names: &Names, row: u32) -> Result<Tree, AllocError>
    ensures { IfOk result (λ tree. tree ≡ use_of names.now row) }
{
    if row == GOAL {
        return Ok(list(begin(alloc, "goal")?));
    }
    let mut parts = begin(alloc, "use")?;
    parts.push(name(alloc, names, row)?)?;
    Ok(list(parts))
}

#[cycle(certificate)]
#[tactic(auto, unfolding(dl_linear::specs::Opened::opened))]
fn certificate(alloc: Global, names: &Names, certificate: &Certificate) -> Result<Tree, AllocError>
    ensures { IfOk result (λ tree. tree ≡ certificate_of names.now certificate.now) }
{
    match certificate {
        Certificate::Use(row) => used(alloc, names, *row),
        Certificate::Sum(multiples) => sum(alloc, names, multiples.as_slice()),
        Certificate::Div(divisor, of) => quotient(alloc, names, *divisor, of.get()),
    }
}

#[cycle(certificate)]
fn sum(alloc: Global, names: &Names, multiples: &[Multiple]) -> Result<Tree, AllocError>
    ensures { IfOk result (λ tree. tree ≡ form (codes "add") (map (multiple_of names.now) multiples.now)) }
{
    let mut parts = begin(alloc, "add")?;
    for one in multiples {
        parts.push(multiple(alloc, names, one)?)?;
    }
    Ok(list(parts))
}

#[cycle(certificate)]
fn multiple(alloc: Global, names: &Names, multiple: &Multiple) -> Result<Tree, AllocError>
    ensures { IfOk result (λ tree. tree ≡ multiple_of names.now multiple.now) }
{
    let mut parts = Items::new(alloc);
    parts.push(number(multiple.factor))?;
    parts.push(certificate(alloc, names, &multiple.certificate)?)?;
    Ok(list(parts))
}

#[cycle(certificate)]
fn quotient(
    alloc: Global,
    names: &Names,
    divisor: i64,
    of: &Certificate,
) -> Result<Tree, AllocError>
    ensures { IfOk result (λ tree. tree ≡ form (codes "div") (shown_number divisor ∷ certificate_of names.now of.now ∷ [])) }
{
    let mut parts = begin(alloc, "div")?;
    parts.push(number(divisor))?;
    parts.push(certificate(alloc, names, of)?)?;
    Ok(list(parts))
}

/// Adds the second certificate, where there is one.
fn add_second(
    alloc: Global,
    names: &Names,
    second: &Option<Certificate>,
    parts: &mut Items<Tree>,
) -> Result<(), AllocError>
    ensures { OnOk result (parts.new ≡ parts.old ++ second_of names.now second.now) }
{
    match second {
        Some(second) => parts.push(certificate(alloc, names, second)?),
        None => Ok(()),
    }
}

fn linear(
    alloc: Global,
    names: &Names,
    first: &Certificate,
    second: &Option<Certificate>,
) -> Result<Tree, AllocError>
    ensures { IfOk result (λ tree. tree ≡ form (codes "linear") (certificate_of names.now first.now ∷ second_of names.now second.now)) }
{
    let mut parts = begin(alloc, "linear")?;
    parts.push(certificate(alloc, names, first)?)?;
    add_second(alloc, names, second, &mut parts)?;
    Ok(list(parts))
}

// ---- scripts

/// What stands for a bound name, where `self` is the label of the protocol `own`.
fn given(
    alloc: Global,
    names: &Names,
    decls: &Decls,
    own: Option<u8>,
    what: &Given,
) -> Result<Tree, AllocError>
    ensures { IfOk result (λ tree. tree ≡ given_of names.now decls.now own what.now) }
{
    match what {
        Given::Node(node) => term(alloc, names, decls, own, node),
        Given::Message(msg) => name(alloc, names, *msg),
    }
}

/// A rule without sub-scripts.
fn by(alloc: Global, names: &Names, hyp: u32) -> Result<Tree, AllocError>
    ensures { IfOk result (λ tree. tree ≡ form (codes "by") (name_of names.now hyp ∷ [])) }
{
    let mut parts = begin(alloc, "by")?;
    parts.push(name(alloc, names, hyp)?)?;
    Ok(list(parts))
}

fn close(alloc: Global) -> Result<Tree, AllocError>
    ensures { IfOk result (λ tree. tree ≡ form (codes "close") []) }
{
    let parts = begin(alloc, "close")?;
    Ok(list(parts))
}

/// A rule of names, with one sub-script.
#[cycle(script)]
fn with_names(
    alloc: Global,
    names: &Names,
    decls: &Decls,
    own: Option<u8>,
    word: &str,
    syms: &[u32],
    then: &Script,
) -> Result<Tree, AllocError>
    requires { length word.now ≤ 64 }
    ensures { IfOk result (λ tree. tree ≡ form word.now (map (name_of names.now) syms.now ++ rule_of names.now decls.now own then.now.rule ∷ [])) }
{
    let mut parts = begin(alloc, word)?;
    add_names(alloc, names, syms, &mut parts)?;
    parts.push(script(alloc, names, decls, own, then)?)?;
    Ok(list(parts))
}

/// The parts of a form, of which the word and names stand there.
fn named(alloc: Global, names: &Names, word: &str, syms: &[u32]) -> Result<Items<Tree>, AllocError>
    requires { length word.now ≤ 64 }
    ensures { IfOk result (λ parts. parts ≡ symbol word.now ∷ map (name_of names.now) syms.now) }
{
    let mut parts = begin(alloc, word)?;
    add_names(alloc, names, syms, &mut parts)?;
    Ok(parts)
}

/// The parts of a form, of which the word, a formula and a name stand there.
fn claimed(
    alloc: Global,
    names: &Names,
    decls: &Decls,
    own: Option<u8>,
    word: &str,
    claim: &Formula,
    sym: u32,
) -> Result<Items<Tree>, AllocError>
    requires { length word.now ≤ 64 }
    ensures { IfOk result (λ parts. parts ≡ symbol word.now ∷ formula_of names.now decls.now own claim.now ∷ name_of names.now sym ∷ []) }
{
    let mut parts = begin(alloc, word)?;
    parts.push(formula(alloc, names, decls, own, claim)?)?;
    parts.push(name(alloc, names, sym)?)?;
    Ok(parts)
}

/// Adds a sub-script behind the parts that are there.
#[cycle(script)]
fn add_script(
    then: &Script,
    alloc: Global,
    names: &Names,
    decls: &Decls,
    own: Option<u8>,
    parts: &mut Items<Tree>,
) -> Result<(), AllocError>
    ensures { OnOk result (parts.new ≡ parts.old ++ rule_of names.now decls.now own then.now.rule ∷ []) }
{
    parts.push(script(alloc, names, decls, own, then)?)
}

#[cycle(script)]
fn pick(
    alloc: Global,
    names: &Names,
    decls: &Decls,
    own: Option<u8>,
    part: u8,
    then: &Script,
) -> Result<Tree, AllocError>
    ensures { IfOk result (λ tree. tree ≡ form (codes "pick") (shown_number (pos part) ∷ rule_of names.now decls.now own then.now.rule ∷ [])) }
{
    let mut parts = begin(alloc, "pick")?;
    parts.push(count(u32::from(part)))?;
    parts.push(script(alloc, names, decls, own, then)?)?;
    Ok(list(parts))
}

#[cycle(script)]
fn give(
    alloc: Global,
    names: &Names,
    decls: &Decls,
    own: Option<u8>,
    then: &Script,
    what: &Given,
) -> Result<Tree, AllocError>
    ensures { IfOk result (λ tree. tree ≡ form (codes "give") (given_of names.now decls.now own what.now ∷ rule_of names.now decls.now own then.now.rule ∷ [])) }
{
    let mut parts = begin(alloc, "give")?;
    parts.push(given(alloc, names, decls, own, what)?)?;
    parts.push(script(alloc, names, decls, own, then)?)?;
    Ok(list(parts))
}

#[cycle(script)]
fn inst(
    alloc: Global,
    names: &Names,
    decls: &Decls,
    own: Option<u8>,
    then: &Script,
    hyp: u32,
    what: &Given,
    sym: u32,
) -> Result<Tree, AllocError>
    ensures { IfOk result (λ tree. tree ≡ form (codes "inst") (name_of names.now hyp ∷ given_of names.now decls.now own what.now ∷ name_of names.now sym ∷ rule_of names.now decls.now own then.now.rule ∷ [])) }
{
    let mut parts = begin(alloc, "inst")?;
    parts.push(name(alloc, names, hyp)?)?;
    parts.push(given(alloc, names, decls, own, what)?)?;
    parts.push(name(alloc, names, sym)?)?;
    parts.push(script(alloc, names, decls, own, then)?)?;
    Ok(list(parts))
}

#[cycle(script)]
fn bounded(
    alloc: Global,
    names: &Names,
    decls: &Decls,
    own: Option<u8>,
    then: &Script,
    of: &Term,
    sym: u32,
) -> Result<Tree, AllocError>
    ensures { IfOk result (λ tree. tree ≡ form (codes "range") (term_of names.now decls.now own of.now ∷ name_of names.now sym ∷ rule_of names.now decls.now own then.now.rule ∷ [])) }
{
    let mut parts = begin(alloc, "range")?;
    parts.push(term(alloc, names, decls, own, of)?)?;
    parts.push(name(alloc, names, sym)?)?;
    parts.push(script(alloc, names, decls, own, then)?)?;
    Ok(list(parts))
}

/// A script: a rule that ends it, or that has two sub-scripts. The others come after it.
#[cycle(script)]
#[tactic(auto, unfolding(crate::specs::Opened::scripts))]
fn script(
    alloc: Global,
    names: &Names,
    decls: &Decls,
    own: Option<u8>,
    script: &Script,
) -> Result<Tree, AllocError>
    ensures { IfOk result (λ tree. tree ≡ rule_of names.now decls.now own script.now.rule) }
{
    match &script.rule {
        Rule::By { hyp } => by(alloc, names, *hyp),
        Rule::Close => close(alloc),
        Rule::Linear { first, second } => linear(alloc, names, first, second),
        Rule::Split { left, right } => {
            let mut parts = begin(alloc, "split")?;
            add_script(left.get(), alloc, names, decls, own, &mut parts)?;
            add_script(right.get(), alloc, names, decls, own, &mut parts)?;
            Ok(list(parts))
        }
        Rule::Cases {
            hyp,
            name: sym,
            left,
            right,
        } => {
            let mut parts = named(alloc, names, "cases", &[*hyp, *sym])?;
            add_script(left.get(), alloc, names, decls, own, &mut parts)?;
            add_script(right.get(), alloc, names, decls, own, &mut parts)?;
            Ok(list(parts))
        }
        Rule::Apply {
            hyp,
            name: sym,
            first,
            then,
        } => {
            let mut parts = named(alloc, names, "apply", &[*hyp, *sym])?;
            add_script(first.get(), alloc, names, decls, own, &mut parts)?;
            add_script(then.get(), alloc, names, decls, own, &mut parts)?;
            Ok(list(parts))
        }
        Rule::Have {
            formula,
            name: sym,
            first,
            then,
        } => {
            let mut parts = claimed(alloc, names, decls, own, "have", formula, *sym)?;
            add_script(first.get(), alloc, names, decls, own, &mut parts)?;
            add_script(then.get(), alloc, names, decls, own, &mut parts)?;
            Ok(list(parts))
        }
        Rule::Decide {
            formula,
            name: sym,
            yes,
            no,
        } => {
            let mut parts = claimed(alloc, names, decls, own, "decide", formula, *sym)?;
            add_script(yes.get(), alloc, names, decls, own, &mut parts)?;
            add_script(no.get(), alloc, names, decls, own, &mut parts)?;
            Ok(list(parts))
        }
        _ => with_one(alloc, names, decls, own, script),
    }
}

/// A script whose rule has one sub-script. No other comes here: it would be answered as want of memory.
#[cycle(script)]
#[tactic(auto, unfolding(crate::specs::Opened::scripts))]
fn with_one(
    alloc: Global,
    names: &Names,
    decls: &Decls,
    own: Option<u8>,
    script: &Script,
) -> Result<Tree, AllocError>
    ensures { IfOk result (λ tree. tree ≡ rule_of names.now decls.now own script.now.rule) }
{
    match &script.rule {
        Rule::Pick { part, then } => pick(alloc, names, decls, own, *part, then.get()),
        Rule::Intro { name: sym, then } => {
            with_names(alloc, names, decls, own, "intro", &[*sym], then.get())
        }
        Rule::Open { var, then } => {
            with_names(alloc, names, decls, own, "open", &[*var], then.get())
        }
        Rule::Give { what, then } => give(alloc, names, decls, own, then.get(), what),
        Rule::Parts {
            hyp,
            left,
            right,
            then,
        } => {
            let syms = [*hyp, *left, *right];
            with_names(alloc, names, decls, own, "parts", &syms, then.get())
        }
        Rule::Inst {
            hyp,
            what,
            name: sym,
            then,
        } => inst(alloc, names, decls, own, then.get(), *hyp, what, *sym),
        Rule::Unpack {
            hyp,
            var,
            name: sym,
            then,
        } => {
            let syms = [*hyp, *var, *sym];
            with_names(alloc, names, decls, own, "unpack", &syms, then.get())
        }
        Rule::Rewrite { hyp, at, then } => {
            with_names(
                alloc,
                names,
                decls,
                own,
                "rewrite",
                &[*hyp, *at],
                then.get(),
            )
        }
        Rule::Reduce { hyp, at, then } => {
            with_names(alloc, names, decls, own, "reduce", &[*hyp, *at], then.get())
        }
        Rule::Range {
            term: of,
            name: sym,
            then,
        } => bounded(alloc, names, decls, own, then.get(), of, *sym),
        _ => Err(AllocError),
    }
}

/// The names that a proof gives.
fn given_names(alloc: Global, names: &Names, syms: &[u32]) -> Result<Tree, AllocError>
    ensures { IfOk result (λ tree. tree ≡ form (codes "names") (map (name_of names.now) syms.now)) }
{
    let mut parts = begin(alloc, "names")?;
    add_names(alloc, names, syms, &mut parts)?;
    Ok(list(parts))
}

pub(crate) fn proof(
    alloc: Global,
    names: &Names,
    decls: &Decls,
    proof: &Proof,
) -> Result<Tree, AllocError>
    ensures { IfOk result (λ tree. tree ≡ proof_of names.now decls.now proof.now) }
{
    let mut parts = begin(alloc, "proof")?;
    parts.push(duty(alloc, names, decls, proof.duty)?)?;
    parts.push(given_names(alloc, names, proof.names.as_slice())?)?;
    parts.push(script(alloc, names, decls, own(proof.duty), &proof.script)?)?;
    Ok(list(parts))
}
