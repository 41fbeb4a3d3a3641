//! A node's turn.

ghost use Rattle.std.specs.Prelude.{◌≡◌, ◌≤◌, ◌<◌, ◌-◌, ◌+◌, ◌^◌, Some};
ghost use Rattle.dl_prog.specs.Ready.{ProcsCanRun};
ghost use Rattle.dl_soup.specs.Given.{CallIsGiven};
ghost use Rattle.dl_nodes.specs.Given.{ProcsAreGiven};
ghost use Rattle.dl_nodes.specs.Players.{BareIsReady, player_of};
ghost use Rattle.dl_nodes.specs.Serial.{Turn, called, if_can};
ghost use Rattle.dl_nodes.specs.Turns.{TurnIsMade};

use crate::bare::Bare;
use dl_model::{Call, Proc};
use dl_prog::At;
use dl_soup::Soup;

// Makes a node's turn, and says whether there is a new entry: takes the ticks up to a call, an end or the budget, and makes
// the call, if it is made.
pub(crate) fn take_turn(soup: &mut Soup, procs: &[Proc], budget: u32, bare: &mut Bare) -> bool
    requires can_run { ProcsCanRun procs.now }
    requires given { ProcsAreGiven soup.old.inst procs.now }
    requires ready { BareIsReady procs.now soup.old.inst budget bare.old }
    requires room { budget - bare.old.units ≤ soup.old.spare }
    ensures { TurnIsMade procs.now budget soup.old soup.new bare.old bare.new result }
{
    while bare.units < budget {
        let at = bare.cont.advance(procs);
        match &at {
            At::Tick => count_tick(bare),
            At::Call(call) => return make_call(soup, procs, budget, bare, call),
            At::Ended(_value) => return false,
            At::Stopped => return false,
        }
    }
    false
}

// Counts a tick.
fn count_tick(bare: &mut Bare)
    requires ticks { bare.old.ticks + 1 < 2 ^ 32 }
    requires units { bare.old.units + 1 < 2 ^ 32 }
    ensures { bare.new ≡ record { node = bare.old.node; cont = bare.old.cont; ticks = bare.old.ticks + 1; units = bare.old.units + 1; end = bare.old.end } }
{
    bare.ticks += 1;
    bare.units += 1;
}

// Makes the call that the machine asks for and takes the reply, if the call is made, and says whether it is.
fn make_call(soup: &mut Soup, procs: &[Proc], budget: u32, bare: &mut Bare, call: &Call) -> bool
    requires can_run { ProcsCanRun procs.now }
    requires ready { BareIsReady procs.now soup.old.inst budget bare.old }
    requires given { CallIsGiven soup.old.inst bare.old.node call.now }
    requires left { bare.old.units < budget }
    requires room { 0 < soup.old.spare }
    ensures ready { BareIsReady procs.now soup.old.inst budget bare.new }
    ensures turn { ◌≡◌ {A = Turn} (record { soup = soup.new; player = player_of procs.now bare.new; acts = result }) (called soup.old (player_of procs.now bare.old) (if_can soup.old bare.old.node (Some call.now))) }
{
    let made = soup.act_ready(bare.node, bare.ticks, call).is_some();
    if !made {
        return false;
    }
    // the reply is read where it stays, since a copy of it would cost much of a call
    let Some(entry) = soup.history().last() else {
        return false;
    };
    bare.cont.resume(procs, &entry.reply);
    bare.ticks = 0;
    bare.units += 1;
    true
}
