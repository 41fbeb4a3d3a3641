//! Backward steps of example files against another reading of the notation, and some that are worked out by hand.

ghost use Rattle.std.specs.Prelude.{◌≤◌};

use crate::cases::CASES;
use crate::edges::EDGES;
use crate::examples::Example;
use crate::maker::Maker;
use crate::words::Word;
use dl_model::Instances;
use dl_term::{Formula, Lab, Term, same_formula};
use dl_wp::{ReceiveStep, SendStep, WpFault, at_init, before_receive, before_send};
use sqlite_items::Items;
use std::process::Abort;

/// What a formula is taken back over.
pub(crate) enum Step {
    Send {
        label: Lab,
        tag: u8,
        sender: &'static [Word],
        to: &'static [Word],
        /// A word for each argument.
        args: &'static [Word],
    },
    Receive {
        label: Lab,
        tag: u8,
        receiver: &'static [Word],
        msg: u32,
    },
    First,
}

/// A formula after a step, or in the first state, and the formula before it.
pub(crate) struct Case {
    pub(crate) name: &'static str,
    pub(crate) example: Example,
    pub(crate) own: Option<u8>,
    pub(crate) step: Step,
    pub(crate) after: &'static [Word],
    /// None where a name is captured.
    pub(crate) before: Option<&'static [Word]>,
}

impl<'a, R: Abort> Maker<'a, R> {
    fn atoms(&self, words: &[Word]) -> Items<Term> {
        let mut atoms = Items::new(self.alloc);
        for word in words {
            let atom = self.term(&[*word]);
            self.push(&mut atoms, atom);
        }
        atoms
    }

    fn send_step(
        &self,
        label: Lab,
        tag: u8,
        sender: &[Word],
        to: &[Word],
        args: &[Word],
    ) -> SendStep {
        SendStep {
            label,
            tag,
            sender: self.term(sender),
            to: self.term(to),
            args: self.atoms(args),
        }
    }

    fn receive_step(&self, label: Lab, tag: u8, receiver: &[Word], msg: u32) -> ReceiveStep {
        ReceiveStep {
            label,
            tag,
            receiver: self.term(receiver),
            msg,
        }
    }

    /// What `before_send` answers, where `self` is of this protocol.
    pub(crate) fn sent(
        &self,
        inst: &Instances,
        own: Option<u8>,
        step: SendStep,
        after: &Formula,
    ) -> Result<Formula, WpFault> {
        let made = before_send(self.alloc, inst, own, &step, after);
        drop(step);
        made
    }

    /// What `before_receive` answers, where `self` is of this protocol.
    pub(crate) fn received(
        &self,
        inst: &Instances,
        own: Option<u8>,
        step: ReceiveStep,
        after: &Formula,
    ) -> Result<Formula, WpFault> {
        let made = before_receive(self.alloc, inst, own, &step, after);
        drop(step);
        made
    }

    // What the call of the case's step answers.
    fn taken_back(&self, inst: &Instances, case: &Case, after: &Formula) -> Result<Formula, WpFault>
        requires { 1 ≤ inst.now.nodes }
    {
        let own = case.own;
        match case.step {
            Step::Send {
                label,
                tag,
                sender,
                to,
                args,
            } => {
                let step = self.send_step(label, tag, sender, to, args);
                self.sent(inst, own, step, after)
            }
            Step::Receive {
                label,
                tag,
                receiver,
                msg,
            } => {
                let step = self.receive_step(label, tag, receiver, msg);
                self.received(inst, own, step, after)
            }
            Step::First => at_init(self.alloc, inst, own, after),
        }
    }

    fn answer(&self, case: &Case) -> Result<Formula, WpFault> {
        let inst = self.instances(case.example);
        let after = self.formula(case.after);
        let made = self.taken_back(&inst, case, &after);
        drop(after);
        drop(inst);
        made
    }

    fn agrees(&self, case: &Case) -> bool {
        let made = self.answer(case);
        match case.before {
            Some(words) => self.is_made(made, words),
            None => is_captured(made),
        }
    }

    fn is_made(&self, made: Result<Formula, WpFault>, words: &[Word]) -> bool {
        let wanted = self.formula(words);
        let same = match &made {
            Ok(made) => same_formula(made, &wanted),
            Err(_) => false,
        };
        drop(made);
        drop(wanted);
        same
    }
}

fn is_captured(made: Result<Formula, WpFault>) -> bool {
    let captured = matches!(&made, Err(WpFault::Capture));
    drop(made);
    captured
}

#[test]
fn steps_of_files(rt: HostRuntime) {
    let m = Maker::new(&rt, rt.alloc());
    for case in &CASES {
        let name = case.name;
        assert!(rt; m.agrees(case), "{name}");
    }
}

#[test]
fn steps_by_hand(rt: HostRuntime) {
    let m = Maker::new(&rt, rt.alloc());
    for case in &EDGES {
        let name = case.name;
        assert!(rt; m.agrees(case), "{name}");
    }
}
