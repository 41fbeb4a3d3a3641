//! Replies to the calls of a machine.

ghost use Rattle.std.specs.Prelude.{◌≡◌, ◌<◌, ◌+◌, ◌^◌, None, Some, slice_get};
ghost use Rattle.dl_model.specs.Machine.{after_reply, listed};
ghost use Rattle.dl_prog.specs.Moves.{after_await, after_poll, after_read, slots_received};
ghost use Rattle.dl_prog.specs.Places.{commands_in, machine_of};
ghost use Rattle.dl_prog.specs.Ready.{ProcsCanRun, IsReady};

use crate::cont::Cont;
use crate::slots::{Slot, put, put_each};
use dl_model::{Args, Command, Proc, Reply};

impl Cont {
    // Takes the reply to the call of the command at which it is.
    #[inline(always)]
    pub(crate) fn take_at(&mut self, procs: &[Proc], command: &Command, reply: &Reply)
        requires can_run { ProcsCanRun procs.now }
        requires ready { IsReady procs.now self.old }
        requires over { self.old.over ≡ None }
        requires here { slice_get (commands_in procs.now self.old.steps.items) self.old.at ≡ Some command.now }
        requires more { self.old.at + 1 < 2 ^ 64 }
        ensures ready { IsReady procs.now self.new }
        ensures moves { machine_of procs.now self.new ≡ after_reply (machine_of procs.now self.old) reply.now }
    {
        match command {
            Command::Send { .. } => self.at += 1,
            Command::Await { sender, args, .. } => self.take_await(*sender, args.as_slice(), reply),
            Command::Poll {
                got,
                sender,
                args,
                ..
            } => self.take_poll(*got, *sender, args.as_slice(), reply),
            Command::Read { into, .. } => self.take_read(*into, reply),
            Command::Set { .. } => {}
            Command::If { .. } => {}
            Command::While { .. } => {}
            Command::Call { .. } => {}
        }
    }

    // Without a message it stays where it is.
    fn take_await(&mut self, sender: u32, syms: &[u32], reply: &Reply)
        requires more { self.old.at + 1 < 2 ^ 64 }
        ensures { self.new ≡ after_await sender syms.now reply.now self.old }
    {
        match reply {
            Reply::Got { from, args, .. } => {
                receive(&mut self.slots, sender, syms, *from, args);
                self.at += 1;
            }
            Reply::Sent(_) => {}
            Reply::Miss => {}
            Reply::Value(_) => {}
        }
    }

    fn take_poll(&mut self, got: u32, sender: u32, syms: &[u32], reply: &Reply)
        requires more { self.old.at + 1 < 2 ^ 64 }
        ensures { self.new ≡ after_poll got sender syms.now reply.now self.old }
    {
        match reply {
            Reply::Got { from, args, .. } => {
                put(&mut self.slots, got, 1);
                receive(&mut self.slots, sender, syms, *from, args);
            }
            Reply::Sent(_) => put(&mut self.slots, got, 0),
            Reply::Miss => put(&mut self.slots, got, 0),
            Reply::Value(_) => put(&mut self.slots, got, 0),
        }
        self.at += 1;
    }

    fn take_read(&mut self, into: u32, reply: &Reply)
        requires more { self.old.at + 1 < 2 ^ 64 }
        ensures { self.new ≡ after_read into reply.now self.old }
    {
        match reply {
            Reply::Value(value) => put(&mut self.slots, into, *value),
            Reply::Got { .. } => {}
            Reply::Sent(_) => {}
            Reply::Miss => {}
        }
        self.at += 1;
    }
}

// Sets the sender and the arguments of a message.
fn receive(slots: &mut [Slot; 25], sender: u32, syms: &[u32], from: u32, args: &Args)
    ensures { slots.new ≡ slots_received sender syms.now slots.old from (listed args.now) }
{
    put(slots, sender, i64::from(from));
    put_each(slots, syms, listed(args));
}

// The arguments, as many as their count.
fn listed(args: &Args) -> &[i64]
    ensures { result.now ≡ listed args.now }
{
    let count = usize::from(args.count);
    if count < args.values.len() {
        &args.values[..count]
    } else {
        &args.values
    }
}
