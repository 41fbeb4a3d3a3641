//! The programs of nodes.
use dl_term::{Formula, Sort, Term};
use sqlite_items::Items;

/// A command. `note` is its annotation: a formula that holds whenever the node is there.
/// Labels, tags, fields and procedures are positions, and locals are numbers of names.
#[derive(Drop)]
pub enum Command {
    /// Sends a message.
    Send {
        note: Formula,
        label: u8,
        tag: u8,
        to: Term,
        args: Items<Term>,
    },
    /// Waits for a message, and sets its sender and its arguments.
    Await {
        note: Formula,
        label: u8,
        tag: u8,
        sender: u32,
        args: Items<u32>,
    },
    /// Sets `got` to 1 and receives as an await does where there is a message, and else sets `got` to 0.
    Poll {
        note: Formula,
        got: u32,
        label: u8,
        tag: u8,
        sender: u32,
        args: Items<u32>,
    },
    /// Sets a local to an own field, or to an own row at the index.
    Read {
        note: Formula,
        into: u32,
        label: u8,
        field: u8,
        index: Option<Term>,
    },
    Set {
        local: u32,
        value: Term,
    },
    If {
        test: Formula,
        yes: Items<Command>,
        no: Items<Command>,
    },
    /// A loop. `note` holds at each test.
    While {
        test: Formula,
        note: Formula,
        body: Items<Command>,
    },
    /// Runs an earlier procedure, and sets a local to what it returns. `frame` is a formula that its run keeps.
    Call {
        note: Formula,
        frame: Formula,
        into: u32,
        proc: u8,
        args: Items<Term>,
    },
}

/// A procedure of a world. Locals begin at 0.
#[derive(Drop)]
pub struct Proc {
    pub sym: u32,
    /// The position of its world.
    pub world: u8,
    /// The name of each parameter, with its sort.
    pub params: Items<(u32, Sort)>,
    pub locals: Items<u32>,
    /// Over `me` and the parameters.
    pub pre: Formula,
    /// Over `me`, the parameters and `result`.
    pub post: Formula,
    pub body: Items<Command>,
    /// What it returns.
    pub result: Term,
}
