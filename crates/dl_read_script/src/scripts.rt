//! Scripts.

use crate::certificates::certificate;
use dl_linear::Certificate;
use dl_read_proto::{
    Around, both, boxed, formula, integer, lost, number_of, some, term, value_of, word_of,
};
use dl_sequent::{Given, Rule, Script};
use dl_term::{Formula, Term};
use dl_tree::{Place, Tree};
use sqlite_items::Boxed;
use std::alloc::{AllocError, Global};

/// The script that a tree is, where its names stand for this.
#[cycle(script)]
pub(crate) fn script(alloc: Global, around: &Around, tree: &Tree) -> Result<Script, AllocError> {
    match tree {
        Tree::Num { .. } => lost(),
        Tree::Sym { .. } => lost(),
        Tree::List { items, place } => match items.as_slice().split_first() {
            Some((head, parts)) => placed(rule(alloc, around, word_of(head), parts), *place),
            None => lost(),
        },
    }
}

fn placed(rule: Result<Rule, AllocError>, place: Place) -> Result<Script, AllocError> {
    match rule {
        Ok(rule) => Ok(Script { rule, place }),
        Err(error) => Err(error),
    }
}

#[cycle(script)]
fn boxed_script(alloc: Global, around: &Around, tree: &Tree) -> Result<Boxed<Script>, AllocError> {
    boxed(alloc, script(alloc, around, tree))
}

/// A rule, by its word and the parts behind it. The scripts for what it leaves to show are the last of them.
#[cycle(script)]
fn rule(alloc: Global, around: &Around, word: &str, parts: &[Tree]) -> Result<Rule, AllocError> {
    if closes(word) {
        return closing_rule(alloc, around, word, parts);
    }
    if forks(word) {
        return match parts {
            [own @ .., first, second] => {
                let first = boxed_script(alloc, around, first);
                let scripts = both(first, boxed_script(alloc, around, second));
                forking_rule(alloc, around, word, own, scripts)
            }
            _ => lost(),
        };
    }
    match parts {
        [own @ .., then] => {
            let then = boxed_script(alloc, around, then);
            leading_rule(alloc, around, word, own, then)
        }
        _ => lost(),
    }
}

/// Whether a rule leaves nothing to show.
fn closes(word: &str) -> bool {
    word == "by" || word == "close" || word == "linear"
}

/// Whether a rule leaves two things to show.
fn forks(word: &str) -> bool {
    word == "split" || word == "cases" || word == "apply" || word == "have" || word == "decide"
}

/// A rule that leaves nothing to show.
fn closing_rule(
    alloc: Global,
    around: &Around,
    word: &str,
    parts: &[Tree],
) -> Result<Rule, AllocError> {
    if word == "linear" {
        return linear_rule(alloc, around, parts);
    }
    match parts {
        [] => Ok(Rule::Close),
        [name] => {
            let hyp = number_of(around.names, name)?;
            Ok(Rule::By { hyp })
        }
        _ => lost(),
    }
}

/// One certificate, or two.
fn linear_rule(alloc: Global, around: &Around, parts: &[Tree]) -> Result<Rule, AllocError> {
    match parts {
        [first] => linear_of(certificate(alloc, around.names, first), Ok(None)),
        [first, second] => {
            let first = certificate(alloc, around.names, first);
            linear_of(first, some(certificate(alloc, around.names, second)))
        }
        _ => lost(),
    }
}

fn linear_of(
    first: Result<Certificate, AllocError>,
    second: Result<Option<Certificate>, AllocError>,
) -> Result<Rule, AllocError> {
    match both(first, second) {
        Ok((first, second)) => Ok(Rule::Linear { first, second }),
        Err(error) => Err(error),
    }
}

/// A rule that leaves two things to show, by its own parts and the scripts for these.
fn forking_rule(
    alloc: Global,
    around: &Around,
    word: &str,
    own: &[Tree],
    scripts: Result<(Boxed<Script>, Boxed<Script>), AllocError>,
) -> Result<Rule, AllocError> {
    match own {
        [] => split(scripts),
        [first, name] => {
            let name = number_of(around.names, name);
            if is_of_formula(word) {
                let claim = both(formula(alloc, around, first), name);
                return claimed(word == "have", claim, scripts);
            }
            let hyp = both(number_of(around.names, first), name);
            forked(word == "cases", hyp, scripts)
        }
        _ => {
            drop(scripts);
            lost()
        }
    }
}

/// Whether a rule begins with a formula.
fn is_of_formula(word: &str) -> bool {
    word == "have" || word == "decide"
}

fn split(scripts: Result<(Boxed<Script>, Boxed<Script>), AllocError>) -> Result<Rule, AllocError> {
    match scripts {
        Ok((left, right)) => Ok(Rule::Split { left, right }),
        Err(error) => Err(error),
    }
}

/// A rule of a formula and the hypothesis that it becomes.
fn claimed(
    shown: bool,
    claim: Result<(Formula, u32), AllocError>,
    scripts: Result<(Boxed<Script>, Boxed<Script>), AllocError>,
) -> Result<Rule, AllocError> {
    match both(claim, scripts) {
        Ok(((formula, name), (first, second))) => {
            if shown {
                Ok(Rule::Have {
                    formula,
                    name,
                    first,
                    then: second,
                })
            } else {
                Ok(Rule::Decide {
                    formula,
                    name,
                    yes: first,
                    no: second,
                })
            }
        }
        Err(error) => Err(error),
    }
}

/// A rule of a hypothesis and the one that it gives.
fn forked(
    cases: bool,
    hyp: Result<(u32, u32), AllocError>,
    scripts: Result<(Boxed<Script>, Boxed<Script>), AllocError>,
) -> Result<Rule, AllocError> {
    match both(hyp, scripts) {
        Ok(((hyp, name), (first, second))) => {
            if cases {
                Ok(Rule::Cases {
                    hyp,
                    name,
                    left: first,
                    right: second,
                })
            } else {
                Ok(Rule::Apply {
                    hyp,
                    name,
                    first,
                    then: second,
                })
            }
        }
        Err(error) => Err(error),
    }
}

/// A rule that leaves one thing to show, by its own parts and the script for that.
fn leading_rule(
    alloc: Global,
    around: &Around,
    word: &str,
    own: &[Tree],
    then: Result<Boxed<Script>, AllocError>,
) -> Result<Rule, AllocError> {
    match own {
        [only] => one_part(alloc, around, word, only, then),
        [first, name] => two_parts(alloc, around, word, first, name, then),
        [hyp, second, name] => three_parts(alloc, around, word, [hyp, second, name], then),
        _ => {
            drop(then);
            lost()
        }
    }
}

fn one_part(
    alloc: Global,
    around: &Around,
    word: &str,
    only: &Tree,
    then: Result<Boxed<Script>, AllocError>,
) -> Result<Rule, AllocError> {
    if word == "pick" {
        return pick(both(half(only), then));
    }
    if word == "give" {
        return give(both(given(alloc, around, only), then));
    }
    let named = both(number_of(around.names, only), then);
    if word == "intro" {
        intro(named)
    } else {
        open(named)
    }
}

/// The number of a part of a goal.
fn half(tree: &Tree) -> Result<u8, AllocError> {
    match u8::try_from(integer(tree)?) {
        Ok(half) => Ok(half),
        Err(_) => lost(),
    }
}

fn pick(parts: Result<(u8, Boxed<Script>), AllocError>) -> Result<Rule, AllocError> {
    match parts {
        Ok((part, then)) => Ok(Rule::Pick { part, then }),
        Err(error) => Err(error),
    }
}

fn give(parts: Result<(Given, Boxed<Script>), AllocError>) -> Result<Rule, AllocError> {
    match parts {
        Ok((what, then)) => Ok(Rule::Give { what, then }),
        Err(error) => Err(error),
    }
}

fn intro(parts: Result<(u32, Boxed<Script>), AllocError>) -> Result<Rule, AllocError> {
    match parts {
        Ok((name, then)) => Ok(Rule::Intro { name, then }),
        Err(error) => Err(error),
    }
}

fn open(parts: Result<(u32, Boxed<Script>), AllocError>) -> Result<Rule, AllocError> {
    match parts {
        Ok((var, then)) => Ok(Rule::Open { var, then }),
        Err(error) => Err(error),
    }
}

/// What a quantifier is taken at. The name of a variable and that of a message are not told apart.
fn given(alloc: Global, around: &Around, tree: &Tree) -> Result<Given, AllocError> {
    match tree {
        Tree::Sym { .. } => {
            let sym = number_of(around.names, tree)?;
            match value_of(around, sym) {
                Some(value) => Ok(Given::Node(Term::Word { sym, value })),
                None => Ok(Given::Message(sym)),
            }
        }
        Tree::Num { .. } => given_node(term(alloc, around, tree)),
        Tree::List { .. } => given_node(term(alloc, around, tree)),
    }
}

fn given_node(node: Result<Term, AllocError>) -> Result<Given, AllocError> {
    match node {
        Ok(node) => Ok(Given::Node(node)),
        Err(error) => Err(error),
    }
}

fn two_parts(
    alloc: Global,
    around: &Around,
    word: &str,
    first: &Tree,
    name: &Tree,
    then: Result<Boxed<Script>, AllocError>,
) -> Result<Rule, AllocError> {
    let named = both(number_of(around.names, name), then);
    if word == "range" {
        return range(both(term(alloc, around, first), named));
    }
    changed(
        word == "rewrite",
        both(number_of(around.names, first), named),
    )
}

fn range(parts: Result<(Term, (u32, Boxed<Script>)), AllocError>) -> Result<Rule, AllocError> {
    match parts {
        Ok((term, (name, then))) => Ok(Rule::Range { term, name, then }),
        Err(error) => Err(error),
    }
}

/// A rule that changes the goal or a hypothesis by another one.
fn changed(
    rewrites: bool,
    parts: Result<(u32, (u32, Boxed<Script>)), AllocError>,
) -> Result<Rule, AllocError> {
    match parts {
        Ok((hyp, (at, then))) => {
            if rewrites {
                Ok(Rule::Rewrite { hyp, at, then })
            } else {
                Ok(Rule::Reduce { hyp, at, then })
            }
        }
        Err(error) => Err(error),
    }
}

fn three_parts(
    alloc: Global,
    around: &Around,
    word: &str,
    own: [&Tree; 3],
    then: Result<Boxed<Script>, AllocError>,
) -> Result<Rule, AllocError> {
    let [hyp, second, name] = own;
    let named = both(number_of(around.names, name), then);
    let named = both(number_of(around.names, hyp), named);
    if word == "inst" {
        return inst(given(alloc, around, second), named);
    }
    let second = number_of(around.names, second);
    opened(word == "parts", second, named)
}

fn inst(
    what: Result<Given, AllocError>,
    named: Result<(u32, (u32, Boxed<Script>)), AllocError>,
) -> Result<Rule, AllocError> {
    match both(what, named) {
        Ok((what, (hyp, (name, then)))) => Ok(Rule::Inst {
            hyp,
            what,
            name,
            then,
        }),
        Err(error) => Err(error),
    }
}

/// A rule that takes a hypothesis apart.
fn opened(
    parts: bool,
    second: Result<u32, AllocError>,
    named: Result<(u32, (u32, Boxed<Script>)), AllocError>,
) -> Result<Rule, AllocError> {
    match both(second, named) {
        Ok((second, (hyp, (name, then)))) => {
            if parts {
                Ok(Rule::Parts {
                    hyp,
                    left: second,
                    right: name,
                    then,
                })
            } else {
                Ok(Rule::Unpack {
                    hyp,
                    var: second,
                    name,
                    then,
                })
            }
        }
        Err(error) => Err(error),
    }
}
