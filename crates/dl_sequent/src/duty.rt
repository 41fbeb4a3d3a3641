//! The names of proof obligations.

/// A proof obligation by its name. Protocols, invariants, procedures, labels and tags go by their positions, the points
/// of a procedure by their numbers from 1, in the order in which they are written.
#[derive(Clone, Copy, Debug, PartialEq, Eq)]
pub enum Duty {
    /// The protocol's coherence holds at first.
    InitProtocol {
        protocol: u8,
    },
    /// The invariant holds at first.
    InitInvariant {
        invariant: u8,
    },
    /// A send, or a receive, of the tag keeps the protocol's coherence.
    StepProtocol {
        protocol: u8,
        tag: u8,
        receive: bool,
    },
    /// A send, or a receive, of the label's tag keeps the invariant.
    StepInvariant {
        invariant: u8,
        label: u8,
        tag: u8,
        receive: bool,
    },
    /// A procedure's precondition gives the annotation that its body comes to first.
    Start {
        proc: u8,
    },
    /// The send at the point is enabled, and meets the hooks.
    Guard {
        proc: u8,
        point: u32,
    },
    /// What follows the point holds after its send.
    AfterSend {
        proc: u8,
        point: u32,
    },
    /// What follows the point holds after a message is received there.
    Got {
        proc: u8,
        point: u32,
    },
    /// What follows the point holds where it found no message.
    Miss {
        proc: u8,
        point: u32,
    },
    /// What follows the point holds after its read.
    AfterRead {
        proc: u8,
        point: u32,
    },
    /// The body of the loop at the point keeps its annotation.
    Body {
        proc: u8,
        point: u32,
    },
    /// What follows the loop at the point holds after it.
    Exit {
        proc: u8,
        point: u32,
    },
    /// The call at the point meets its procedure's precondition.
    Enter {
        proc: u8,
        point: u32,
    },
    /// What follows the call at the point holds after it.
    Leave {
        proc: u8,
        point: u32,
    },
    /// A step of another node keeps the annotation of the point, or the postcondition where the point is 0.
    Stable {
        proc: u8,
        point: u32,
        label: u8,
        tag: u8,
        receive: bool,
    },
    /// A step of another node keeps what the call at the point holds on to.
    Frame {
        proc: u8,
        point: u32,
        label: u8,
        tag: u8,
        receive: bool,
    },
    /// The precondition of the node's procedure holds at first. The node goes by its index.
    Deploy {
        node: u32,
    },
}
