//! Cases of sequents with their scripts, and what the replay comes to.

ghost use Rattle.std.specs.Prelude.{◌≡◌, [], true};
ghost use Rattle.dl_sequent.specs.Clean.{is_clean as is_clean_sequent};

use crate::certificates::CERTIFICATES;
use crate::connectives::CONNECTIVES;
use crate::counter::COUNTER;
use crate::equations::EQUATIONS;
use crate::maker::Maker;
use crate::names::{D, K, M, S};
use crate::quantifiers::QUANTIFIERS;
use crate::scripts::Step;
use crate::words::Word;
use dl_kernel::{KernelFault, is_clean, replay};
use dl_model::{Hypothesis, Instances, Sequent};
use dl_sequent::Script;
use dl_term::Sort;
use sqlite_items::Items;
use std::alloc::Global;
use std::process::Abort;

/// What a replay comes to.
#[derive(Clone, Copy, PartialEq, Eq)]
pub(crate) enum Outcome {
    Proved,
    /// The number of the step whose rule is refused.
    Fails(u32),
    /// Another answer, or a sequent that isn't clean.
    Other,
}

/// A sequent, its script, and what comes of it.
pub(crate) struct Case {
    pub(crate) name: &'static str,
    /// The hypotheses, each with its name.
    pub(crate) facts: &'static [(u32, &'static [Word])],
    pub(crate) goal: &'static [Word],
    pub(crate) script: &'static [Step],
    pub(crate) outcome: Outcome,
}

fn outcome_of(answer: Result<(), KernelFault>) -> Outcome {
    match answer {
        Ok(()) => Outcome::Proved,
        Err(KernelFault::RuleFails { place }) => Outcome::Fails(place.col),
        Err(_) => Outcome::Other,
    }
}

// Two nodes and no label.
fn instances(alloc: Global) -> Instances
    ensures { result ≡ record { nodes = 2; protocols = []; of = [] } }
{
    Instances {
        nodes: 2,
        protocols: Items::new(alloc),
        of: Items::new(alloc),
    }
}

fn replayed(alloc: Global, sequent: Sequent, script: &Script) -> Outcome
    requires clean { is_clean_sequent sequent ≡ true }
{
    let inst = instances(alloc);
    let answer = replay(alloc, &inst, sequent, script);
    drop(inst);
    outcome_of(answer)
}

fn tried(alloc: Global, sequent: Sequent, script: &Script) -> Outcome {
    if is_clean(&sequent) {
        replayed(alloc, sequent, script)
    } else {
        drop(sequent);
        Outcome::Other
    }
}

impl<'a, R: Abort> Maker<'a, R> {
    fn facts(&self, named: &[(u32, &'static [Word])]) -> Items<Hypothesis> {
        let mut facts = Items::new(self.alloc);
        for fact in named {
            let (name, words) = *fact;
            let formula = self.formula(words);
            self.push(&mut facts, Hypothesis { name, formula });
        }
        facts
    }

    // Of two nodes and two messages of one tag.
    fn sequent(&self, case: &Case) -> Sequent {
        let node = Sort { low: 0, high: 1 };
        Sequent {
            vars: self.two((S, node), (D, node)),
            messages: self.two((M, 0, 0), (K, 0, 0)),
            facts: self.facts(case.facts),
            goal: self.formula(case.goal),
            own: None,
        }
    }

    fn agrees(&self, case: &Case) -> bool {
        let sequent = self.sequent(case);
        let script = self.script(case.script);
        let outcome = tried(self.alloc, sequent, &script);
        drop(script);
        outcome == case.outcome
    }
}

#[test]
fn connectives(rt: HostRuntime) {
    let m = Maker::new(&rt, rt.alloc());
    for case in CONNECTIVES {
        let name = case.name;
        assert!(rt; m.agrees(case), "{name}");
    }
}

#[test]
fn quantifiers(rt: HostRuntime) {
    let m = Maker::new(&rt, rt.alloc());
    for case in QUANTIFIERS {
        let name = case.name;
        assert!(rt; m.agrees(case), "{name}");
    }
}

#[test]
fn equations(rt: HostRuntime) {
    let m = Maker::new(&rt, rt.alloc());
    for case in EQUATIONS {
        let name = case.name;
        assert!(rt; m.agrees(case), "{name}");
    }
}

#[test]
fn certificates(rt: HostRuntime) {
    let m = Maker::new(&rt, rt.alloc());
    for case in CERTIFICATES {
        let name = case.name;
        assert!(rt; m.agrees(case), "{name}");
    }
}

#[test]
fn counter(rt: HostRuntime) {
    let m = Maker::new(&rt, rt.alloc());
    for case in COUNTER {
        let name = case.name;
        assert!(rt; m.agrees(case), "{name}");
    }
}
