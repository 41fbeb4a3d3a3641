//! Where the results of the backward steps hold.

ghost use Rattle.std.specs.Prelude.{◌≡◌, ◌<◌, ℕ, ℤ, false, Option, List};
ghost use Rattle.dl_term.specs.declared.syntax.Formula.{Formula};
ghost use Rattle.dl_term.specs.State.{State};
ghost use Rattle.dl_term.specs.Names.{Names};
ghost use Rattle.dl_term.specs.Meaning.{holds};
ghost use Rattle.dl_term.specs.Measures.{is_free};
ghost use Rattle.dl_model.specs.declared.protocol.Instances.{Instances};
ghost use Rattle.dl_model.specs.Formed.{InstancesAreFormed};
ghost use Rattle.dl_model.specs.States.{IsWellSorted, first_state};
ghost use Rattle.dl_model.specs.Steps.{IsEnabled, IsReceivable, after_send, after_receive};
ghost use Rattle.dl_wp.specs.declared.steps.SendStep.{SendStep};
ghost use Rattle.dl_wp.specs.declared.steps.ReceiveStep.{ReceiveStep};
ghost use Rattle.dl_wp.specs.Steps.{send_step, receive_step};
ghost use Rattle.dl_wp.specs.Before.{before_sent, before_received};
ghost use Rattle.dl_wp.specs.Captures.{captures, nothing_around};
ghost use Rattle.dl_wp.specs.First.{at_first};
ghost use Rattle.dl_wp.specs.Conditions.{IsAbout, IsOwn, AreThere, IsSend, IsReceive};

/// Before an enabled send its backward step holds exactly where the formula holds after it: in every well-sorted state, for
/// all names whose messages are messages of that state, where the step's terms have the values of the send.
pub fn sends_hold()
    ensures { (inst : Instances) (own : Option ℕ) (step : SendStep) (after : Formula) (names : Names) (state : State) (label node : ℕ) (to : ℤ) (args : List ℤ) →
        InstancesAreFormed inst → IsWellSorted inst state → node < inst.nodes → IsOwn inst own names → IsAbout inst own after → AreThere names state →
        IsSend inst own step names state label node to args → IsEnabled inst state node label step.tag to args →
        captures (send_step inst own step) nothing_around after ≡ false →
        holds (before_sent inst own step after) names state ≡ holds after names (after_send inst state node label step.tag to args) }
{}

/// Before the receive of a receivable message its backward step holds exactly where the formula holds after it: in every
/// well-sorted state, for all names whose messages are messages of that state, where the step's terms have the values of the
/// receive.
pub fn receives_hold()
    ensures { (inst : Instances) (own : Option ℕ) (step : ReceiveStep) (after : Formula) (names : Names) (state : State) (label node id : ℕ) →
        InstancesAreFormed inst → IsWellSorted inst state → node < inst.nodes → IsOwn inst own names → IsAbout inst own after → AreThere names state →
        IsReceive inst own step names state label node id → IsReceivable inst state node label id →
        captures (receive_step inst own step) nothing_around after ≡ false →
        holds (before_received inst own step after) names state ≡ holds after names (after_receive inst state node label id) }
{}

/// The formula at the first state, of a formula in which no name is free, holds in any state with these nodes exactly where
/// the formula holds in the first state.
pub fn first_states_hold()
    ensures { (inst : Instances) (own : Option ℕ) (formula : Formula) (names : Names) (state : State) →
        InstancesAreFormed inst → state.nodes ≡ inst.nodes → IsOwn inst own names → IsAbout inst own formula → ((name : ℕ) → is_free formula name ≡ false) →
        holds (at_first inst own formula) names state ≡ holds formula names (first_state inst) }
{}
