//! Ticks of a machine, by the command at which it is.

ghost use Rattle.std.specs.Prelude.{◌≡◌, ◌<◌, ◌+◌, ◌-◌, ◌^◌, ◌&&◌, ◌∷◌, None, Some, length, slice_get, true, false, ◌≤◌, if◌then◌else◌};
ghost use Rattle.std.specs.List.{AllByRecursion as Each};
ghost use Rattle.dl_term.specs.Measures.{IsNarrow, EachIsNarrow};
ghost use Rattle.dl_model.specs.declared.history.Call.TheVariants as call;
ghost use Rattle.dl_model.specs.Lookup.{proc_at};
ghost use Rattle.dl_model.specs.Machine.{next, returned, value_of, values_of, passes, index_value, index_is_i64, packed};
ghost use Rattle.dl_model.specs.Scopes.{IsIndex};
ghost use Rattle.dl_model.specs.Sorts.{is_i64, all_i64};
ghost use Rattle.dl_prog.specs.declared.answer.At.TheVariants as at;
ghost use Rattle.dl_prog.specs.Moves.{answer_of, moved, gone_inside, gone_back, HasEntered, into_of, resumed_with};
ghost use Rattle.dl_prog.specs.Places.{commands_in, callers_in, back_of, caller_of, saved_in, machine_of};
ghost use Rattle.dl_prog.specs.Ready.{ProcsCanRun, IsReady, IsSettled};
ghost use Rattle.dl_prog.specs.Slots.{named, put_all};

use crate::answer::At;
use crate::cont::Cont;
use crate::place::{locals_of, params_of, proc_in};
use crate::slots::{ME, Slot, entry_slots, no_slots, number_of, put};
use crate::stack::Step;
use crate::values::{index_of, number, numbers, passes};
use dl_model::{Call, Command, Proc};
use dl_term::{Formula, Term};
use sqlite_items::at;

impl Cont {
    // Makes the tick of the command, or says what the machine is at.
    pub(crate) fn make_command(&mut self, procs: &[Proc], command: &Command) -> At
        requires can_run { ProcsCanRun procs.now }
        requires ready { IsReady procs.now self.old }
        requires over { self.old.over ≡ None }
        requires here { slice_get (commands_in procs.now self.old.steps.items) self.old.at ≡ Some command.now }
        requires more { self.old.at + 1 < 2 ^ 64 }
        ensures ready { IsReady procs.now self.new }
        ensures answer { result ≡ answer_of (next procs.now (machine_of procs.now self.old)) }
        ensures moves { machine_of procs.now self.new ≡ moved (machine_of procs.now self.old) (next procs.now (machine_of procs.now self.old)) }
    {
        match command {
            Command::Send {
                label,
                tag,
                to,
                args,
                ..
            } => send(*label, *tag, to, args.as_slice(), &self.slots),
            Command::Await { label, tag, .. } => At::Call(Call::Await {
                label: *label,
                tag: *tag,
            }),
            Command::Poll { label, tag, .. } => At::Call(Call::Poll {
                label: *label,
                tag: *tag,
            }),
            Command::Read {
                label,
                field,
                index,
                ..
            } => read(*label, *field, index, &self.slots),
            Command::Set { local, value } => self.set(*local, value),
            Command::If { test, .. } => self.choose(test),
            Command::While { test, .. } => self.repeat(test),
            Command::Call { proc, args, .. } => self.call(procs, *proc, args.as_slice()),
        }
    }

    fn set(&mut self, local: u32, value: &Term) -> At
        requires narrow { IsNarrow value.now }
        requires more { self.old.at + 1 < 2 ^ 64 }
        ensures answer { result ≡ (if is_i64 (value_of value.now (named self.old.slots)) then at.Tick else at.Stopped) }
        ensures moves { self.new ≡ (if is_i64 (value_of value.now (named self.old.slots)) then record self.old { at = self.old.at + 1; slots = put_all local (value_of value.now (named self.old.slots)) self.old.slots } else self.old) }
    {
        let Some(value) = number(value, &self.slots) else {
            return At::Stopped;
        };
        put(&mut self.slots, local, value);
        self.at += 1;
        At::Tick
    }

    fn choose(&mut self, test: &Formula) -> At
        requires narrow { EachIsNarrow test.now }
        requires more { self.old.at + 1 < 2 ^ 64 }
        requires room { 0 < self.old.steps.spare }
        ensures answer { result ≡ at.Tick }
        ensures moves { self.new ≡ gone_inside self.old (passes test.now (named self.old.slots)) (self.old.at + 1) }
    {
        let first = passes(test, &self.slots);
        let back = self.at + 1;
        self.go_inside(first, back);
        At::Tick
    }

    fn repeat(&mut self, test: &Formula) -> At
        requires narrow { EachIsNarrow test.now }
        requires more { self.old.at + 1 < 2 ^ 64 }
        requires room { 0 < self.old.steps.spare }
        ensures answer { result ≡ at.Tick }
        ensures moves { self.new ≡ (if passes test.now (named self.old.slots) then gone_inside self.old true self.old.at else record self.old { at = self.old.at + 1 }) }
    {
        if passes(test, &self.slots) {
            let back = self.at;
            self.go_inside(true, back);
        } else {
            self.at += 1;
        }
        At::Tick
    }

    // Goes into the command at which it is.
    fn go_inside(&mut self, first: bool, back: usize)
        requires room { 0 < self.old.steps.spare }
        ensures { self.new ≡ gone_inside self.old first back }
    {
        self.steps.push(Step::Inside {
            at: self.at,
            first,
            back,
        });
        self.at = 0;
    }

    // Goes into a procedure, or stops at arguments outside the range of i64.
    fn call(&mut self, procs: &[Proc], callee: u8, args: &[Term]) -> At
        requires can_run { ProcsCanRun procs.now }
        requires narrow { Each IsNarrow args.now }
        requires few { length args.now ≤ 8 }
        requires same { length args.now ≡ length (proc_at procs.now callee).params }
        requires room { 0 < self.old.steps.spare }
        ensures answer { result ≡ (if all_i64 (values_of args.now (named self.old.slots)) then at.Tick else at.Stopped) }
        ensures stops { all_i64 (values_of args.now (named self.old.slots)) ≡ false → self.new ≡ self.old }
        ensures enters { all_i64 (values_of args.now (named self.old.slots)) ≡ true → HasEntered procs.now callee (values_of args.now (named self.old.slots)) self.old self.new }
    {
        let Some(args) = numbers(args, &self.slots) else {
            return At::Stopped;
        };
        self.enter(procs, callee, &args.values[..usize::from(args.count)]);
        At::Tick
    }

    fn enter(&mut self, procs: &[Proc], callee: u8, args: &[i64])
        requires can_run { ProcsCanRun procs.now }
        requires same { length args.now ≡ length (proc_at procs.now callee).params }
        requires room { 0 < self.old.steps.spare }
        ensures { HasEntered procs.now callee args.now self.old self.new }
    {
        let me = number_of(&self.slots, ME);
        let number = usize::from(callee);
        let slots = entry_slots(locals_of(procs, number), params_of(procs, number), me, args);
        self.steps.push(Step::Enter {
            proc: callee,
            back: self.at,
            saved: self.slots,
        });
        self.slots = slots;
        self.at = 0;
    }

    // Returns from the procedure, or stops at a result outside the range of i64.
    pub(crate) fn leave(&mut self, procs: &[Proc]) -> At
        requires can_run { ProcsCanRun procs.now }
        requires ready { IsReady procs.now self.old }
        requires over { self.old.over ≡ None }
        requires past { length (commands_in procs.now self.old.steps.items) ≤ self.old.at }
        requires settled { IsSettled procs.now self.old }
        ensures ready { IsReady procs.now self.new }
        ensures answer { result ≡ answer_of (next procs.now (machine_of procs.now self.old)) }
        ensures moves { machine_of procs.now self.new ≡ moved (machine_of procs.now self.old) (next procs.now (machine_of procs.now self.old)) }
    {
        match result_of(procs, proc_in(self.steps.steps()), &self.slots) {
            None => At::Stopped,
            Some(value) => {
                self.give(procs, value);
                At::Tick
            }
        }
    }

    // Gives a result to the caller, or ends the program.
    fn give(&mut self, procs: &[Proc], value: i64)
        requires can_run { ProcsCanRun procs.now }
        requires ready { IsReady procs.now self.old }
        requires over { self.old.over ≡ None }
        requires outermost { back_of self.old.steps.items ≡ None }
        ensures ready { IsReady procs.now self.new }
        ensures moves { machine_of procs.now self.new ≡ returned (callers_in procs.now self.old.steps.items) value }
    {
        match caller_of(self.steps.steps()) {
            None => self.over = Some(value),
            Some(back) => {
                self.go_back(back);
                let commands = self.settle(procs);
                self.finish_call(procs, commands, value);
            }
        }
    }

    // Goes back to the caller, which is at this position.
    fn go_back(&mut self, back: usize)
        requires { 0 < length self.old.steps.items }
        ensures { self.new ≡ gone_back self.old back }
    {
        let slots = saved_in(self.steps.steps());
        self.steps.pop();
        self.at = back;
        self.slots = slots;
    }

    // Takes what a call has returned, where the path leads into these commands.
    fn finish_call(&mut self, procs: &[Proc], commands: &[Command], value: i64)
        requires can_run { ProcsCanRun procs.now }
        requires ready { IsReady procs.now self.old }
        requires over { self.old.over ≡ None }
        requires settled { IsSettled procs.now self.old }
        requires commands { commands.now ≡ commands_in procs.now self.old.steps.items }
        ensures ready { IsReady procs.now self.new }
        ensures moves { machine_of procs.now self.new ≡ resumed_with value (machine_of procs.now self.old) }
    {
        match called_into(commands, self.at) {
            Some(into) => {
                put(&mut self.slots, into, value);
                self.at += 1;
            }
            None => {}
        }
    }
}

// A call, or a stop at a number outside the range of i64.
fn send(label: u8, tag: u8, to: &Term, args: &[Term], slots: &[Slot; 25]) -> At
    requires to { IsNarrow to.now }
    requires args { Each IsNarrow args.now }
    requires few { length args.now ≤ 8 }
    ensures { result ≡ (if is_i64 (value_of to.now (named slots.now)) && all_i64 (values_of args.now (named slots.now)) then at.Call (call.Send label tag (value_of to.now (named slots.now)) (packed (values_of args.now (named slots.now)))) else at.Stopped) }
{
    let Some(to) = number(to, slots) else {
        return At::Stopped;
    };
    let Some(args) = numbers(args, slots) else {
        return At::Stopped;
    };
    At::Call(Call::Send {
        label,
        tag,
        to,
        args,
    })
}

fn read(label: u8, field: u8, index: &Option<Term>, slots: &[Slot; 25]) -> At
    requires { IsIndex IsNarrow index.now }
    ensures { result ≡ (if index_is_i64 index.now (named slots.now) then at.Call (call.Read label field (index_value index.now (named slots.now))) else at.Stopped) }
{
    let Some(index) = index_of(index, slots) else {
        return At::Stopped;
    };
    At::Call(Call::Read {
        label,
        field,
        index,
    })
}

// What a procedure returns, or None where that is outside the range of i64.
fn result_of(procs: &[Proc], callee: u8, slots: &[Slot; 25]) -> Option<i64>
    requires { ProcsCanRun procs.now }
    ensures { result ≡ (if is_i64 (value_of (proc_at procs.now callee).result (named slots.now)) then Some (value_of (proc_at procs.now callee).result (named slots.now)) else None) }
{
    match at(procs, usize::from(callee)) {
        Some(proc) => number(&proc.result, slots),
        None => Some(0),
    }
}

// Where the caller of the innermost procedure goes on.
fn caller_of(steps: &[Step]) -> Option<usize>
    ensures { result ≡ caller_of steps.now }
{
    let [step, _, ..] = steps else {
        return None;
    };
    match step {
        Step::Enter { back, .. } => Some(*back),
        Step::Inside { .. } => None,
    }
}

// The slots of the caller.
fn saved_in(steps: &[Step]) -> [Slot; 25]
    ensures { result ≡ saved_in steps.now }
{
    let [step, ..] = steps else {
        return no_slots();
    };
    match step {
        Step::Enter { saved, .. } => *saved,
        Step::Inside { .. } => no_slots(),
    }
}

// Where the result of the call at a position goes.
fn called_into(commands: &[Command], position: usize) -> Option<u32>
    ensures into { result ≡ into_of (slice_get commands.now position) }
{
    match at(commands, position) {
        Some(command) => into_of(command),
        None => None,
    }
}

fn into_of(command: &Command) -> Option<u32>
    ensures { result ≡ into_of (Some command.now) }
{
    match command {
        Command::Call { into, .. } => Some(*into),
        Command::Send { .. } => None,
        Command::Await { .. } => None,
        Command::Poll { .. } => None,
        Command::Read { .. } => None,
        Command::Set { .. } => None,
        Command::If { .. } => None,
        Command::While { .. } => None,
    }
}
