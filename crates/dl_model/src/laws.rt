//! Laws over the definitions of the model. Each is the contract of a function that does nothing.
ghost use Rattle.std.specs.Prelude.{◌≡◌, ◌↔◌, ◌<◌, ◌++◌, ℕ, pos, negsuc, List, [], ◌∷◌, Some, None, true, false};
ghost use Rattle.dl_term.specs.State.{State};
ghost use Rattle.dl_model.specs.declared.protocol.Instances.{Instances};
ghost use Rattle.dl_model.specs.declared.file.Decls.{Decls};
ghost use Rattle.dl_model.specs.declared.history.Entry.{Entry};
ghost use Rattle.dl_model.specs.declared.history.Call.TheVariants.{Await};
ghost use Rattle.dl_model.specs.declared.history.Reply.TheVariants.{Got, Miss};
ghost use Rattle.dl_term.specs.declared.syntax.Formula.{False, Le};
ghost use Rattle.dl_term.specs.declared.syntax.Term.{Num, Var};
ghost use Rattle.dl_model.specs.Machine.{Over, Stops, Ticks, Working, next, packed, poll_names};
ghost use Rattle.dl_model.specs.Block.{Done, Sets};
ghost use Rattle.dl_model.specs.Histories.{condensed};
ghost use Rattle.dl_model.specs.Sequents.{IsValid};
ghost use Rattle.dl_model.specs.declared.history.Order.TheVariants.{Oldest, Newest, Seed};
ghost use Rattle.dl_model.specs.declared.history.End.TheVariants.{Ended, Stopped, Spent, Waiting};
ghost use Rattle.dl_term.specs.Meaning.{holds};
ghost use Rattle.dl_term.specs.Names.{no_names, with_number};
ghost use Rattle.dl_model.specs.Delivery.{choice, drawn, matches};
ghost use Rattle.dl_model.specs.Ends.{after_ticks, end_of, units_at_end};
ghost use Rattle.dl_model.specs.Examples.{counter, counts, two_sends, inc_message, mail, seen, delivered, letter, read_letter, send_and_receive, waiting_server, served, voting, at_block, gets, swapped, swappers, waits, successor, looper, looping, claim};
ghost use Rattle.dl_model.specs.Lookup.{world_at};
ghost use Rattle.dl_model.specs.Safe.{coherent};
ghost use Rattle.dl_model.specs.Runs.{Config, IsFreeRun, IsMatch, IsRun, Leads, Replies};
ghost use Rattle.dl_model.specs.Sorts.{has};
ghost use Rattle.dl_model.specs.Formed.{InstancesAreFormed, IsFormed};
ghost use Rattle.dl_model.specs.Worlds.{KeepsWorlds};
ghost use Rattle.dl_model.specs.States.{first_state, IsWellSorted};
ghost use Rattle.dl_model.specs.Steps.{Step, Sending, CanStep, IsEnabled, Meets, after_send, after_step};

/// The first state is well-sorted, and each step of a node leads from a well-sorted state to one.
pub fn well_sorted_is_kept()
    ensures first { (inst : Instances) → InstancesAreFormed inst → IsWellSorted inst (first_state inst) }
    ensures step { (inst : Instances) (state : State) (node : ℕ) (step : Step) → IsWellSorted inst state → node < inst.nodes → CanStep inst state node step → IsWellSorted inst (after_step inst state node step) }
{}

/// A prefix of a run is a run, and the rest of the events lead on from there.
pub fn prefixes_are_runs()
    ensures { (decls : Decls) (entries more : List Entry) (after : Config) → IsRun decls (entries ++ more) after → (mid : Config) × IsRun decls entries mid × Leads decls mid more after }
{}

/// The list of matches has exactly the ids of the messages of the tag that the node can receive.
pub fn matches_are_found()
    ensures { (inst : Instances) (state : State) (node label tag id : ℕ) → (has (matches inst state node label tag) id ≡ true) ↔ IsMatch inst state node label tag id }
{}

/// On the counter two nodes send, and each count is 1. The coherence holds there, and not where a count is negative.
pub fn counter_computes()
    ensures first { first_state counter.inst ≡ counts (pos 0) (pos 0) [] }
    ensures sends { (after : Config) × IsFreeRun counter two_sends after × (after.state ≡ counts (pos 1) (pos 1) (inc_message 0 (pos 1) ∷ inc_message 1 (pos 0) ∷ [])) }
    ensures keeps { coherent counter.inst 0 (counts (pos 1) (pos 1) []) ≡ true }
    ensures breaks { coherent counter.inst 0 (counts (pos 1) (negsuc 0) []) ≡ false }
{}

/// In the mail file a node sends 7, and another one receives it: the message is not live any more, and the field is set.
pub fn mail_computes()
    ensures run { (after : Config) × IsRun (mail (pos 0)) send_and_receive after × (after.state ≡ delivered (pos 1) (read_letter ∷ [])) }
    ensures one_match { matches (mail (pos 0)).inst (delivered (pos 0) (letter ∷ [])) 1 0 0 ≡ 0 ∷ [] }
    ensures of_another { matches (mail (pos 0)).inst (delivered (pos 0) (letter ∷ [])) 0 0 0 ≡ [] }
    ensures taken { matches (mail (pos 0)).inst (delivered (pos 1) (read_letter ∷ [])) 1 0 0 ≡ [] }
    ensures no_miss { Replies (mail (pos 0)).inst (delivered (pos 0) (letter ∷ [])) 1 (Await 0 0) Miss → ⊥ }
    ensures miss { Replies (mail (pos 0)).inst (delivered (pos 1) (read_letter ∷ [])) 1 (Await 0 0) Miss }
    ensures seen_holds { holds seen (no_names 0) (delivered (pos 1) (read_letter ∷ [])) ≡ true }
    ensures seen_fails { holds seen (no_names 0) (delivered (pos 0) (read_letter ∷ [])) ≡ false }
{}

/// How the server of the mail file ends: with what it returns, without a message, at its budget, and past the range of i64.
pub fn ends_compute()
    ensures ended { end_of (mail (pos 0)).procs (mail (pos 0)).inst (delivered (pos 1) (read_letter ∷ [])) 1 1000 1 (served (pos 0)) ≡ Some (Ended (pos 7)) }
    ensures units { units_at_end (mail (pos 0)).procs 1000 1 (served (pos 0)) ≡ 2 }
    ensures waiting { end_of (mail (pos 0)).procs (mail (pos 0)).inst (delivered (pos 0) []) 1 1000 0 (waiting_server (pos 0)) ≡ Some Waiting }
    ensures goes_on { end_of (mail (pos 0)).procs (mail (pos 0)).inst (delivered (pos 0) (letter ∷ [])) 1 1000 0 (waiting_server (pos 0)) ≡ None }
    ensures spent { end_of (mail (pos 0)).procs (mail (pos 0)).inst (delivered (pos 1) (read_letter ∷ [])) 1 1 1 (served (pos 0)) ≡ Some Spent }
    ensures not_looked_at { end_of (mail (pos 9223372036854775807)).procs (mail (pos 9223372036854775807)).inst (delivered (pos 1) (read_letter ∷ [])) 1 1 1 (served (pos 9223372036854775807)) ≡ Some Spent }
    ensures stopped { end_of (mail (pos 9223372036854775807)).procs (mail (pos 9223372036854775807)).inst (delivered (pos 1) (read_letter ∷ [])) 1 1000 1 (served (pos 9223372036854775807)) ≡ Some Stopped }
    ensures stopped_units { units_at_end (mail (pos 9223372036854775807)).procs 1000 1 (served (pos 9223372036854775807)) ≡ 1 }
{}

/// A query before a cast does not meet the hook, and after it it does. A send at the vote meets it, and a world without it asks nothing.
pub fn hook_computes()
    ensures unmet { Meets voting (world_at voting 0) (first_state voting.inst) 0 (Sending 1 0 (pos 1) []) → ⊥ }
    ensures met { Meets voting (world_at voting 0) (after_step voting.inst (first_state voting.inst) 0 (Sending 0 0 (pos 1) [])) 0 (Sending 1 0 (pos 1) []) }
    ensures not_of_another { Meets voting (world_at voting 0) (after_step voting.inst (first_state voting.inst) 0 (Sending 0 0 (pos 1) [])) 1 (Sending 1 0 (pos 0) []) → ⊥ }
    ensures other_label { Meets voting (world_at voting 0) (first_state voting.inst) 0 (Sending 0 0 (pos 1) []) }
    ensures small { Meets voting (world_at voting 1) (first_state voting.inst) 0 (Sending 1 0 (pos 1) []) }
{}

/// Which of three matches is taken. The generator's first two numbers from the seed 1, divided by 2 ^ 33, leave 2 and 0 modulo 3.
pub fn order_computes()
    ensures oldest { choice Oldest 0 (4 ∷ 6 ∷ 9 ∷ []) ≡ Some 4 }
    ensures newest { choice Newest 0 (4 ∷ 6 ∷ 9 ∷ []) ≡ Some 9 }
    ensures nothing { choice (Seed 1) 0 [] ≡ None }
    ensures drawn { drawn 1 1 ≡ 7806831264735756412 }
    ensures seed { choice (Seed 1) 0 (4 ∷ 6 ∷ 9 ∷ []) ≡ Some 9 }
    ensures again { choice (Seed 1) 1 (4 ∷ 6 ∷ 9 ∷ []) ≡ Some 4 }
{}

/// The three small files are formed, and keep to their worlds.
pub fn examples_are_formed()
    ensures counter { IsFormed counter × KeepsWorlds counter }
    ensures mail { IsFormed (mail (pos 0)) × KeepsWorlds (mail (pos 0)) }
    ensures voting { IsFormed voting × KeepsWorlds voting }
{}

/// Updates are made at once, in the sender's own fields. Of a send to no node the others are made, and that of the row is left out.
pub fn updates_compute()
    ensures first { first_state swappers ≡ swapped (pos 1) (pos 0) (pos 0 ∷ pos 0 ∷ []) [] }
    ensures sent { after_send swappers (first_state swappers) 0 0 0 (pos 1) [] ≡ swapped (pos 0) (pos 1) (pos 0 ∷ pos 1 ∷ []) (inc_message 0 (pos 1) ∷ []) }
    ensures raw { after_send swappers (first_state swappers) 0 0 0 (pos 5) [] ≡ swapped (pos 0) (pos 1) (pos 0 ∷ pos 0 ∷ []) (inc_message 0 (pos 5) ∷ []) }
    ensures out_of_sort { after_send swappers (swapped (pos 1) (pos 9) (pos 0 ∷ pos 0 ∷ []) []) 0 0 0 (pos 1) [] ≡ swapped (pos 1) (pos 1) (pos 0 ∷ pos 1 ∷ []) (inc_message 0 (pos 1) ∷ []) }
    ensures disabled { IsEnabled swappers (swapped (pos 1) (pos 9) (pos 0 ∷ pos 0 ∷ []) []) 0 0 0 (pos 1) [] → ⊥ }
{}

/// A machine that goes through a loop with a call and a choice: 11 ticks, and 51 is returned. A number past the range of i64
/// stops a machine. A poll says whether it received.
pub fn machine_computes()
    ensures stops { next [] (at_block (Sets 30 (Num (pos 9223372036854775808)) Done)) ≡ Stops }
    ensures sets { next [] (at_block (Sets 30 (Num (pos 5)) Done)) ≡ Ticks (Working (record { proc = 0; left = Done; names = with_number (no_names 0) 30 (pos 5) }) []) }
    ensures missed { (poll_names 30 31 [] (no_names 0) Miss).number 30 ≡ pos 0 }
    ensures polled { (poll_names 30 31 [] (no_names 0) (Got 0 3 (packed []))).number 30 ≡ pos 1 }
    ensures sender { (poll_names 30 31 [] (no_names 0) (Got 0 3 (packed []))).number 31 ≡ pos 3 }
    ensures loops { after_ticks (successor ∷ looper ∷ []) 1000 looping ≡ record { machine = Over (pos 51); left = 989 } }
{}

/// Without a wait its 2 ticks go to the next entry of the same node, past an entry of another node.
pub fn waits_compute()
    ensures { condensed (waits ∷ two_sends ++ gets 3 ∷ []) ≡ two_sends ++ gets 5 ∷ [] }
{}

/// What is valid: a bound of a variable's sort, and anything under a false hypothesis. `false` alone is not.
pub fn validity_computes()
    ensures bounded { IsValid counter.inst (claim [] (Le (Var 30) (Num (pos 1)))) }
    ensures absurdly { IsValid counter.inst (claim (record { name = 31; formula = False } ∷ []) False) }
    ensures not_valid { IsValid counter.inst (claim [] False) → ⊥ }
    ensures too_narrow { IsValid counter.inst (claim [] (Le (Var 30) (Num (pos 0)))) → ⊥ }
{}
