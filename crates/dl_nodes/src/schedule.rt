//! The serial schedule to its end.

ghost use Rattle.std.specs.Prelude.{◌≡◌, ◌≤◌};
ghost use Rattle.std.specs.List.{All, AllZip};
ghost use Rattle.dl_prog.specs.Ready.{ProcsCanRun};
ghost use Rattle.dl_nodes.specs.Given.{ProcsAreGiven};
ghost use Rattle.dl_nodes.specs.Players.{BareIsReady, CanJudge, HasJudged, IsFinished, judged, left_to, player_of, players_of};
ghost use Rattle.dl_nodes.specs.Turns.{IsPlayed};

use crate::bare::Bare;
use crate::round::play_round;
use dl_model::{End, Proc};
use dl_prog::At;
use dl_soup::Soup;

/// Runs the nodes' programs by the serial schedule, and says how each of them ends: the entries are added to the soup's
/// history, and each node then has its end in the soup's state, with its units there. The soup keeps its instances, its
/// shape and its order. It takes no memory.
///
/// The conditions are that the procedures can be run and their sends are of tags of the soup's instances, with as many
/// arguments as these have; that each node exists, its machine was made for these procedures, and its units are at most the
/// budget; and that the soup has room for the units that are left.
pub fn finish(soup: &mut Soup, procs: &[Proc], budget: u32, nodes: &mut [Bare])
    requires can_run { ProcsCanRun procs.now }
    requires given { ProcsAreGiven soup.old.inst procs.now }
    requires ready { All (BareIsReady procs.now soup.old.inst budget) nodes.old }
    requires room { left_to budget nodes.old ≤ soup.old.spare }
    ensures { IsFinished procs.now budget soup.old soup.new nodes.old nodes.new }
{
    play(soup, procs, budget, nodes);
    judge_nodes(procs, budget, nodes);
}

// Makes rounds until one has no entry.
fn play(soup: &mut Soup, procs: &[Proc], budget: u32, nodes: &mut [Bare])
    requires can_run { ProcsCanRun procs.now }
    requires given { ProcsAreGiven soup.old.inst procs.now }
    requires ready { All (BareIsReady procs.now soup.old.inst budget) nodes.old }
    requires room { left_to budget nodes.old ≤ soup.old.spare }
    ensures { IsPlayed procs.now budget soup.old soup.new nodes.old nodes.new }
{
    while play_round(soup, procs, budget, nodes) {}
}

// Notes the end of each node. No node goes on.
fn judge_nodes(procs: &[Proc], budget: u32, nodes: &mut [Bare])
    requires can_run { ProcsCanRun procs.now }
    requires ready { All (CanJudge procs.now budget) nodes.old }
    ensures { AllZip (HasJudged procs.now budget) (players_of procs.now nodes.old) nodes.new }
{
    for bare in nodes.iter_mut() {
        judge(procs, budget, bare);
    }
}

// Notes how a node ends that doesn't go on.
fn judge(procs: &[Proc], budget: u32, bare: &mut Bare)
    requires can_run { ProcsCanRun procs.now }
    requires ready { CanJudge procs.now budget bare.old }
    ensures { HasJudged procs.now budget (player_of procs.now bare.old) bare.new }
{
    let left = budget - bare.units;
    let at = bare.cont.advance(procs);
    bare.end = Some(end_at(&at, left));
}

// How a node ends that stands here, with so many units left.
fn end_at(at: &At, left: u32) -> End
    ensures { result ≡ judged at.now left }
{
    match at {
        At::Ended(value) => End::Ended(*value),
        At::Tick => End::Spent,
        At::Call(_) => { if left == 0 { End::Spent } else { End::Waiting } }
        At::Stopped => { if left == 0 { End::Spent } else { End::Stopped } }
    }
}
