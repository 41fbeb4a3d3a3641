//! A round of turns.

ghost use Rattle.std.specs.Prelude.{◌≡◌, ◌≤◌, ◌||◌};
ghost use Rattle.std.specs.List.{All};
ghost use Rattle.dl_prog.specs.Ready.{ProcsCanRun};
ghost use Rattle.dl_nodes.specs.Given.{ProcsAreGiven};
ghost use Rattle.dl_nodes.specs.Players.{BareIsReady, left_to};
ghost use Rattle.dl_nodes.specs.Turns.{RoundIsMade};

use crate::bare::Bare;
use crate::turn::take_turn;
use dl_model::Proc;
use dl_soup::Soup;

// Makes a round, and says whether there is a new entry.
pub(crate) fn play_round(soup: &mut Soup, procs: &[Proc], budget: u32, nodes: &mut [Bare]) -> bool
    requires can_run { ProcsCanRun procs.now }
    requires given { ProcsAreGiven soup.old.inst procs.now }
    requires ready { All (BareIsReady procs.now soup.old.inst budget) nodes.old }
    requires room { left_to budget nodes.old ≤ soup.old.spare }
    ensures { RoundIsMade procs.now budget soup.old soup.new nodes.old nodes.new result }
{
    let mut acts = false;
    for bare in nodes.iter_mut() {
        let acted = take_turn(soup, procs, budget, bare);
        acts = either(acts, acted);
    }
    acts
}

fn either(first: bool, second: bool) -> bool
    ensures { result ≡ (first || second) }
{
    first || second
}
