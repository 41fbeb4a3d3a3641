//! Laws of the shape of states. Each is the contract of a function that does nothing.

ghost use Rattle.std.specs.Prelude.{ℕ, ℤ, List};
ghost use Rattle.dl_term.specs.State.{State};
ghost use Rattle.dl_model.specs.declared.protocol.Instances.{Instances};
ghost use Rattle.dl_model.specs.States.{first_state, IsWellSorted};
ghost use Rattle.dl_model.specs.Steps.{after_send, after_receive};
ghost use Rattle.dl_proto.specs.Shaped.{IsShaped};

/// The first state has the nodes, labels and fields of its instances, and each send and receive, enabled or not, keeps them.
pub fn shape_is_kept()
    ensures first { (inst : Instances) → IsShaped inst (first_state inst) }
    ensures sent { (inst : Instances) (state : State) (from label tag : ℕ) (to : ℤ) (args : List ℤ) → IsShaped inst state → IsShaped inst (after_send inst state from label tag to args) }
    ensures received { (inst : Instances) (state : State) (node label id : ℕ) → IsShaped inst state → IsShaped inst (after_receive inst state node label id) }
{}

/// A well-sorted state has the nodes, labels and fields of its instances.
pub fn well_sorted_is_shaped()
    ensures { (inst : Instances) (state : State) → IsWellSorted inst state → IsShaped inst state }
{}
