//! Terms and formulas from words, each of which stands after its parts.

use crate::maker::Maker;
use dl_term::{Formula, Lab, Part, Term};
use sqlite_items::{Boxed, Items};
use std::process::Abort;

/// A word of a term or formula. Its parts are what the words before it made last and no word took yet.
#[derive(Clone, Copy)]
pub(crate) enum Word {
    Num(i64),
    /// A node or an enumerator.
    Name(u32, i64),
    Var(u32),
    Field(Lab, u8),
    /// The node stands before the index.
    Row(Lab, u8),
    Len(Lab),
    Msg(u32, Part),
    Add,
    Sub,
    If,
    True,
    Eq,
    Lt,
    Le,
    Not,
    And,
    Or,
    Implies,
    All(u32),
    Exists(u32),
    Each(u32, Lab, u8),
    Any(u32, Lab, u8),
}

impl<'a, R: Abort> Maker<'a, R> {
    /// The term that words spell. The test ends where they spell none.
    pub(crate) fn term(&self, words: &[Word]) -> Term {
        let mut made = Made::new(self);
        made.put_words(words);
        let term = made.term();
        drop(made);
        term
    }

    /// The formula that words spell. The test ends where they spell none.
    pub(crate) fn formula(&self, words: &[Word]) -> Formula {
        let mut made = Made::new(self);
        made.put_words(words);
        let formula = made.formula();
        drop(made);
        formula
    }
}

// What was made and no word took yet.
#[derive(Drop)]
struct Made<'a, R: Abort> {
    m: &'a Maker<'a, R>,
    terms: Items<Term>,
    formulas: Items<Formula>,
}

impl<'a, R: Abort> Made<'a, R> {
    fn new(m: &'a Maker<'a, R>) -> Made<'a, R> {
        Made {
            m,
            terms: Items::new(m.alloc),
            formulas: Items::new(m.alloc),
        }
    }

    fn put_words(&mut self, words: &[Word]) {
        for word in words {
            self.put(*word);
        }
    }

    fn put(&mut self, word: Word) {
        match word {
            Word::Num(number) => self.put_term(Term::Num(number)),
            Word::Name(sym, value) => self.put_term(Term::Word { sym, value }),
            Word::Var(sym) => self.put_term(Term::Var(sym)),
            Word::Field(label, field) => self.put_field(label, field),
            Word::Row(label, field) => self.put_row(label, field),
            Word::Len(label) => self.put_term(Term::Len(label)),
            Word::Msg(msg, part) => self.put_term(Term::Msg { msg, part }),
            Word::Add => self.put_sum(),
            Word::Sub => self.put_difference(),
            Word::If => self.put_choice(),
            Word::True => self.put_formula(Formula::True),
            Word::Eq => self.put_equation(),
            Word::Lt => self.put_less(),
            Word::Le => self.put_at_most(),
            Word::Not => self.put_negation(),
            Word::And => self.put_conjunction(),
            Word::Or => self.put_disjunction(),
            Word::Implies => self.put_implication(),
            Word::All(sym) => self.put_all(sym),
            Word::Exists(sym) => self.put_some(sym),
            Word::Each(msg, label, tag) => self.put_each(msg, label, tag),
            Word::Any(msg, label, tag) => self.put_any(msg, label, tag),
        }
    }

    fn term(&mut self) -> Term {
        self.m.found(self.terms.pop())
    }

    fn formula(&mut self) -> Formula {
        self.m.found(self.formulas.pop())
    }

    fn put_term(&mut self, term: Term) {
        self.m.push(&mut self.terms, term);
    }

    fn put_formula(&mut self, formula: Formula) {
        self.m.push(&mut self.formulas, formula);
    }

    fn part(&mut self) -> Boxed<Term> {
        let part = self.term();
        self.m.boxed_term(part)
    }

    fn body(&mut self) -> Boxed<Formula> {
        let body = self.formula();
        self.m.boxed(body)
    }

    fn put_field(&mut self, label: Lab, field: u8) {
        let node = self.part();
        self.put_term(Term::Field { label, field, node });
    }

    fn put_row(&mut self, label: Lab, field: u8) {
        let index = self.part();
        let node = self.part();
        self.put_term(Term::Row {
            label,
            field,
            node,
            index,
        });
    }

    fn put_sum(&mut self) {
        let right = self.part();
        let left = self.part();
        self.put_term(Term::Add(left, right));
    }

    fn put_difference(&mut self) {
        let right = self.part();
        let left = self.part();
        self.put_term(Term::Sub(left, right));
    }

    fn put_choice(&mut self) {
        let no = self.part();
        let yes = self.part();
        let right = self.part();
        let left = self.part();
        self.put_term(Term::If(left, right, yes, no));
    }

    fn put_equation(&mut self) {
        let right = self.term();
        let left = self.term();
        self.put_formula(Formula::Eq(left, right));
    }

    fn put_less(&mut self) {
        let right = self.term();
        let left = self.term();
        self.put_formula(Formula::Lt(left, right));
    }

    fn put_at_most(&mut self) {
        let right = self.term();
        let left = self.term();
        self.put_formula(Formula::Le(left, right));
    }

    fn put_negation(&mut self) {
        let body = self.body();
        self.put_formula(Formula::Not(body));
    }

    fn put_conjunction(&mut self) {
        let right = self.body();
        let left = self.body();
        self.put_formula(Formula::And(left, right));
    }

    fn put_disjunction(&mut self) {
        let right = self.body();
        let left = self.body();
        self.put_formula(Formula::Or(left, right));
    }

    fn put_implication(&mut self) {
        let right = self.body();
        let left = self.body();
        self.put_formula(Formula::Implies(left, right));
    }

    fn put_all(&mut self, sym: u32) {
        let body = self.body();
        self.put_formula(Formula::All { sym, body });
    }

    fn put_some(&mut self, sym: u32) {
        let body = self.body();
        self.put_formula(Formula::Exists { sym, body });
    }

    fn put_each(&mut self, msg: u32, label: Lab, tag: u8) {
        let body = self.body();
        self.put_formula(Formula::Each {
            msg,
            label,
            tag,
            body,
        });
    }

    fn put_any(&mut self, msg: u32, label: Lab, tag: u8) {
        let body = self.body();
        self.put_formula(Formula::Any {
            msg,
            label,
            tag,
            body,
        });
    }
}
