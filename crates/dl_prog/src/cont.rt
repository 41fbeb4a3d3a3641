//! The machine of a node's program.

ghost use Rattle.std.specs.Prelude.{◌≡◌, ◌<◌, [], suc, pos, None, length, IfOk};
ghost use Rattle.dl_model.specs.Lookup.{proc_at};
ghost use Rattle.dl_model.specs.Machine.{Working, entered, next, after_reply};
ghost use Rattle.dl_prog.specs.Moves.{answer_of, moved};
ghost use Rattle.dl_prog.specs.Places.{back_of, commands_in, machine_in, machine_of};
ghost use Rattle.dl_prog.specs.Ready.{ProcsCanRun, IsReady, IsSettled, room_below};

use crate::answer::At;
use crate::asked::{Asked, asked_at};
use crate::place::{command_at, commands_in, locals_of, params_of};
use crate::room::room_below;
use crate::slots::{Slot, entry_slots, no_slots};
use crate::stack::{Stack, Step};
use dl_model::{Args, Call, Command, Proc, Reply};
use std::alloc::{AllocError, Global};

// More steps than this are answered as want of memory.
const MOST_ROOM: u64 = 4_294_967_295;

/// A program at work. It holds where it stands in the bodies of procedures and what their names stand for, and not the
/// procedures: each call is given these again.
#[derive(Drop)]
pub struct Cont {
    // What the program returned.
    pub(crate) over: Option<i64>,
    // The position among the commands that the path leads into.
    pub(crate) at: usize,
    pub(crate) slots: [Slot; 25],
    pub(crate) steps: Stack,
}

impl Cont {
    /// The machine of a node that enters a procedure with arguments. The one refusal is want of memory, and the machine
    /// takes no more later.
    pub fn make(
        alloc: Global,
        procs: &[Proc],
        proc: u8,
        node: u32,
        args: &[i64],
    ) -> Result<Cont, AllocError>
        requires can_run { ProcsCanRun procs.now }
        requires proc { proc < length procs.now }
        requires args { length args.now ≡ length (proc_at procs.now proc).params }
        ensures ready { IfOk result (λ cont. IsReady procs.now cont) }
        ensures machine { IfOk result (λ cont. machine_of procs.now cont ≡ Working (entered procs.now proc (pos node) args.now) []) }
    {
        let mut steps = make_stack(alloc, procs, proc)?;
        steps.push(Step::Enter {
            proc,
            back: 0,
            saved: no_slots(),
        });
        let number = usize::from(proc);
        let slots = entry_slots(
            locals_of(procs, number),
            params_of(procs, number),
            i64::from(node),
            args,
        );
        Ok(Cont {
            over: None,
            at: 0,
            slots,
            steps,
        })
    }

    /// Makes the next tick, or says what the machine is at: a call, what its program returned, or that a number left the
    /// range of i64. It takes no memory.
    ///
    /// The condition is that the machine was made for these procedures.
    pub fn advance(&mut self, procs: &[Proc]) -> At
        requires can_run { ProcsCanRun procs.now }
        requires ready { IsReady procs.now self.old }
        ensures ready { IsReady procs.now self.new }
        ensures answer { result ≡ answer_of (next procs.now (machine_of procs.now self.old)) }
        ensures moves { machine_of procs.now self.new ≡ moved (machine_of procs.now self.old) (next procs.now (machine_of procs.now self.old)) }
    {
        match self.over {
            Some(value) => At::Ended(value),
            None => {
                let commands = self.settle(procs);
                match asked_at(commands, self.at, &self.slots) {
                    Asked::Send { label, tag, to } => At::Call(Call::Send {
                        label,
                        tag,
                        to,
                        args: Args {
                            count: 0,
                            values: [0; 8],
                        },
                    }),
                    Asked::Await { label, tag } => At::Call(Call::Await { label, tag }),
                    Asked::Other => self.step(procs, commands),
                }
            }
        }
    }

    /// Takes the reply to the call that the machine is at. It takes no memory.
    ///
    /// The condition is that the machine was made for these procedures.
    pub fn resume(&mut self, procs: &[Proc], reply: &Reply)
        requires can_run { ProcsCanRun procs.now }
        requires ready { IsReady procs.now self.old }
        ensures ready { IsReady procs.now self.new }
        ensures moves { machine_of procs.now self.new ≡ after_reply (machine_of procs.now self.old) reply.now }
    {
        match self.over {
            Some(_) => {}
            None => {
                let commands = self.settle(procs);
                self.take(procs, commands, reply);
            }
        }
    }

    // Leaves the commands that are all made, as long as they stand in others. It answers those that it is then in, so that
    // nobody has to go along the path for them once more. Mostly there are commands left, and it stays.
    #[inline(always)]
    pub(crate) fn settle<'a>(&mut self, procs: &'a [Proc]) -> &'a [Command]
        requires ready { IsReady procs.now self.old }
        ensures ready { IsReady procs.now self.new }
        ensures over { self.new.over ≡ self.old.over }
        ensures same { machine_in procs.now self.new.steps.items self.new.at self.new.slots ≡ machine_in procs.now self.old.steps.items self.old.at self.old.slots }
        ensures settled { IsSettled procs.now self.new }
        ensures commands { result.now ≡ commands_in procs.now self.new.steps.items }
    {
        let commands = commands_in(procs, self.steps.steps());
        if self.at < commands.len() {
            return commands;
        }
        self.leave_made(procs)
    }

    // The same, a step of the path at a time.
    fn leave_made<'a>(&mut self, procs: &'a [Proc]) -> &'a [Command]
        requires ready { IsReady procs.now self.old }
        ensures ready { IsReady procs.now self.new }
        ensures over { self.new.over ≡ self.old.over }
        ensures same { machine_in procs.now self.new.steps.items self.new.at self.new.slots ≡ machine_in procs.now self.old.steps.items self.old.at self.old.slots }
        ensures settled { IsSettled procs.now self.new }
        ensures commands { result.now ≡ commands_in procs.now self.new.steps.items }
    {
        let commands = commands_in(procs, self.steps.steps());
        if self.at < commands.len() {
            return commands;
        }
        let Some(back) = outer_position(self.steps.steps()) else {
            return commands;
        };
        self.steps.pop();
        self.at = back;
        self.leave_made(procs)
    }

    // Makes the next tick, or says what the machine is at, where the path leads into these commands.
    #[inline(never)]
    fn step(&mut self, procs: &[Proc], commands: &[Command]) -> At
        requires can_run { ProcsCanRun procs.now }
        requires ready { IsReady procs.now self.old }
        requires over { self.old.over ≡ None }
        requires settled { IsSettled procs.now self.old }
        requires commands { commands.now ≡ commands_in procs.now self.old.steps.items }
        ensures ready { IsReady procs.now self.new }
        ensures answer { result ≡ answer_of (next procs.now (machine_of procs.now self.old)) }
        ensures moves { machine_of procs.now self.new ≡ moved (machine_of procs.now self.old) (next procs.now (machine_of procs.now self.old)) }
    {
        match command_at(commands, self.at) {
            Some(command) => self.make_command(procs, command),
            None => self.leave(procs),
        }
    }

    // Takes a reply, where the path leads into these commands.
    #[inline(always)]
    fn take(&mut self, procs: &[Proc], commands: &[Command], reply: &Reply)
        requires can_run { ProcsCanRun procs.now }
        requires ready { IsReady procs.now self.old }
        requires over { self.old.over ≡ None }
        requires settled { IsSettled procs.now self.old }
        requires commands { commands.now ≡ commands_in procs.now self.old.steps.items }
        ensures ready { IsReady procs.now self.new }
        ensures moves { machine_of procs.now self.new ≡ after_reply (machine_of procs.now self.old) reply.now }
    {
        match command_at(commands, self.at) {
            Some(command) => self.take_at(procs, command, reply),
            None => {}
        }
    }
}

// A path with the room that the procedure needs.
fn make_stack(alloc: Global, procs: &[Proc], proc: u8) -> Result<Stack, AllocError>
    ensures { IfOk result (λ stack. stack ≡ record { items = []; spare = room_below procs.now (suc proc) }) }
{
    let room = room_below(procs, usize::from(proc) + 1);
    if room > MOST_ROOM {
        return Err(AllocError);
    }
    Stack::make(alloc, room as usize)
}

// Where the outer commands go on, where the innermost step leads into a command.
fn outer_position(steps: &[Step]) -> Option<usize>
    ensures { result ≡ back_of steps.now }
{
    let [step, ..] = steps else {
        return None;
    };
    match step {
        Step::Inside { back, .. } => Some(*back),
        Step::Enter { .. } => None,
    }
}
