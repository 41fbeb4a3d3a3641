//! Scripts from steps, each of which stands after the scripts that it takes.

use crate::lines::Line;
use crate::maker::Maker;
use crate::words::Word;
use dl_sequent::{Given, Rule, Script};
use dl_tree::Place;
use sqlite_items::{Boxed, Items};
use std::process::Abort;

/// A rule of a script, whose scripts are those that the steps before it made last and no step took yet. A term or
/// formula is given by its words, a hypothesis, variable or message by its number.
#[derive(Clone, Copy)]
pub(crate) enum Step {
    By(u32),
    Close,
    Split,
    Pick(u8),
    Intro(u32),
    Open(u32),
    GiveTerm(&'static [Word]),
    Give(u32),
    /// A hypothesis, and the names of its parts.
    Parts(u32, u32, u32),
    Cases(u32, u32),
    Apply(u32, u32),
    InstTerm(u32, &'static [Word], u32),
    Inst(u32, u32, u32),
    /// A hypothesis, what is new, and the name of what is said of it.
    Unpack(u32, u32, u32),
    Have(&'static [Word], u32),
    Decide(&'static [Word], u32),
    /// A hypothesis, and where it is used.
    Rewrite(u32, u32),
    Reduce(u32, u32),
    Range(&'static [Word], u32),
    Linear(&'static [Line]),
    /// Both certificates of an equation.
    Equal(&'static [Line], &'static [Line]),
}

impl<'a, R: Abort> Maker<'a, R> {
    /// The script that steps spell. Each rule stands at line 1, in the column that is its step's number, from 1. The
    /// test ends where the steps spell none.
    pub(crate) fn script(&self, steps: &[Step]) -> Script {
        let mut made = Made::new(self);
        made.put_steps(steps);
        let script = made.script();
        drop(made);
        script
    }
}

// What was made and no step took yet, and how many steps there were.
#[derive(Drop)]
struct Made<'a, R: Abort> {
    m: &'a Maker<'a, R>,
    scripts: Items<Script>,
    count: u32,
}

impl<'a, R: Abort> Made<'a, R> {
    fn new(m: &'a Maker<'a, R>) -> Made<'a, R> {
        Made {
            m,
            scripts: Items::new(m.alloc),
            count: 0,
        }
    }

    fn put_steps(&mut self, steps: &[Step]) {
        for step in steps {
            self.put(*step);
        }
    }

    fn put(&mut self, step: Step) {
        match step {
            Step::By(hyp) => self.put_rule(Rule::By { hyp }),
            Step::Close => self.put_rule(Rule::Close),
            Step::Split => self.put_split(),
            Step::Pick(part) => self.put_pick(part),
            Step::Intro(name) => self.put_intro(name),
            Step::Open(var) => self.put_open(var),
            Step::GiveTerm(words) => self.put_give_term(words),
            Step::Give(name) => self.put_give(Given::Message(name)),
            Step::Parts(hyp, left, right) => self.put_parts(hyp, left, right),
            Step::Cases(hyp, name) => self.put_cases(hyp, name),
            Step::Apply(hyp, name) => self.put_apply(hyp, name),
            Step::InstTerm(hyp, words, name) => self.put_inst_term(hyp, words, name),
            Step::Inst(hyp, what, name) => self.put_inst(hyp, Given::Message(what), name),
            Step::Unpack(hyp, var, name) => self.put_unpack(hyp, var, name),
            Step::Have(words, name) => self.put_have(words, name),
            Step::Decide(words, name) => self.put_decide(words, name),
            Step::Rewrite(hyp, at) => self.put_rewrite(hyp, at),
            Step::Reduce(hyp, at) => self.put_reduce(hyp, at),
            Step::Range(words, name) => self.put_range(words, name),
            Step::Linear(words) => self.put_linear(words),
            Step::Equal(above, below) => self.put_equal(above, below),
        }
    }

    fn script(&mut self) -> Script {
        self.m.found(self.scripts.pop())
    }

    fn sub_script(&mut self) -> Boxed<Script> {
        let script = self.script();
        self.m.boxed(script)
    }

    fn put_rule(&mut self, rule: Rule) {
        self.count = self.count.saturating_add(1);
        let place = Place {
            line: 1,
            col: self.count,
        };
        self.m.push(&mut self.scripts, Script { rule, place });
    }

    fn put_split(&mut self) {
        let right = self.sub_script();
        let left = self.sub_script();
        self.put_rule(Rule::Split { left, right });
    }

    fn put_pick(&mut self, part: u8) {
        let then = self.sub_script();
        self.put_rule(Rule::Pick { part, then });
    }

    fn put_intro(&mut self, name: u32) {
        let then = self.sub_script();
        self.put_rule(Rule::Intro { name, then });
    }

    fn put_open(&mut self, var: u32) {
        let then = self.sub_script();
        self.put_rule(Rule::Open { var, then });
    }

    fn put_give_term(&mut self, words: &[Word]) {
        let term = self.m.term(words);
        self.put_give(Given::Node(term));
    }

    fn put_give(&mut self, what: Given) {
        let then = self.sub_script();
        self.put_rule(Rule::Give { what, then });
    }

    fn put_parts(&mut self, hyp: u32, left: u32, right: u32) {
        let then = self.sub_script();
        self.put_rule(Rule::Parts {
            hyp,
            left,
            right,
            then,
        });
    }

    fn put_cases(&mut self, hyp: u32, name: u32) {
        let right = self.sub_script();
        let left = self.sub_script();
        self.put_rule(Rule::Cases {
            hyp,
            name,
            left,
            right,
        });
    }

    fn put_apply(&mut self, hyp: u32, name: u32) {
        let then = self.sub_script();
        let first = self.sub_script();
        self.put_rule(Rule::Apply {
            hyp,
            name,
            first,
            then,
        });
    }

    fn put_inst_term(&mut self, hyp: u32, words: &[Word], name: u32) {
        let term = self.m.term(words);
        self.put_inst(hyp, Given::Node(term), name);
    }

    fn put_inst(&mut self, hyp: u32, what: Given, name: u32) {
        let then = self.sub_script();
        self.put_rule(Rule::Inst {
            hyp,
            what,
            name,
            then,
        });
    }

    fn put_unpack(&mut self, hyp: u32, var: u32, name: u32) {
        let then = self.sub_script();
        self.put_rule(Rule::Unpack {
            hyp,
            var,
            name,
            then,
        });
    }

    fn put_have(&mut self, words: &[Word], name: u32) {
        let then = self.sub_script();
        let first = self.sub_script();
        let formula = self.m.formula(words);
        self.put_rule(Rule::Have {
            formula,
            name,
            first,
            then,
        });
    }

    fn put_decide(&mut self, words: &[Word], name: u32) {
        let no = self.sub_script();
        let yes = self.sub_script();
        let formula = self.m.formula(words);
        self.put_rule(Rule::Decide {
            formula,
            name,
            yes,
            no,
        });
    }

    fn put_rewrite(&mut self, hyp: u32, at: u32) {
        let then = self.sub_script();
        self.put_rule(Rule::Rewrite { hyp, at, then });
    }

    fn put_reduce(&mut self, hyp: u32, at: u32) {
        let then = self.sub_script();
        self.put_rule(Rule::Reduce { hyp, at, then });
    }

    fn put_range(&mut self, words: &[Word], name: u32) {
        let then = self.sub_script();
        let term = self.m.term(words);
        self.put_rule(Rule::Range { term, name, then });
    }

    fn put_linear(&mut self, words: &[Line]) {
        let first = self.m.certificate(words);
        self.put_rule(Rule::Linear {
            first,
            second: None,
        });
    }

    fn put_equal(&mut self, above: &[Line], below: &[Line]) {
        let first = self.m.certificate(above);
        let second = Some(self.m.certificate(below));
        self.put_rule(Rule::Linear { first, second });
    }
}
