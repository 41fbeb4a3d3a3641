//! Certificates from words, each of which stands after its parts.

use crate::maker::Maker;
use dl_linear::{Certificate, Multiple};
use sqlite_items::Items;
use std::process::Abort;

/// A word of a certificate.
#[derive(Clone, Copy)]
pub(crate) enum Line {
    /// The line of a hypothesis, or of the goal's negation.
    Use(u32),
    /// The line before, multiplied.
    Times(i64),
    /// The line before, divided.
    Over(i64),
    /// The two lines before, added.
    Plus,
}

impl<'a, R: Abort> Maker<'a, R> {
    /// The certificate that words spell. The test ends where they spell none.
    pub(crate) fn certificate(&self, words: &[Line]) -> Certificate {
        let mut made = Items::new(self.alloc);
        for word in words {
            self.put_line(&mut made, *word);
        }
        let certificate = self.found(made.pop());
        drop(made);
        certificate
    }

    fn put_line(&self, made: &mut Items<Certificate>, word: Line) {
        let line = match word {
            Line::Use(row) => Certificate::Use(row),
            Line::Times(factor) => self.multiplied(made, factor),
            Line::Over(divisor) => self.divided(made, divisor),
            Line::Plus => self.added(made),
        };
        self.push(made, line);
    }

    fn part(&self, made: &mut Items<Certificate>, factor: i64) -> Multiple {
        Multiple {
            factor,
            certificate: self.found(made.pop()),
        }
    }

    fn multiplied(&self, made: &mut Items<Certificate>, factor: i64) -> Certificate {
        let part = self.part(made, factor);
        Certificate::Sum(self.one(part))
    }

    fn divided(&self, made: &mut Items<Certificate>, divisor: i64) -> Certificate {
        let part = self.found(made.pop());
        Certificate::Div(divisor, self.boxed(part))
    }

    fn added(&self, made: &mut Items<Certificate>) -> Certificate {
        let right = self.part(made, 1);
        let left = self.part(made, 1);
        Certificate::Sum(self.two(left, right))
    }
}
