//! Calls of programs, their replies, and histories of them.

/// The arguments of a message: at most 8 numbers. Those past the count are 0.
#[derive(Clone, Copy, Debug, PartialEq, Eq)]
pub struct Args {
    pub count: u8,
    pub values: [i64; 8],
}

/// What a program asks of the soup. Labels, tags and fields are positions.
#[derive(Clone, Copy, Debug, PartialEq, Eq)]
pub enum Call {
    /// Send a message. The addressee may be a number that is no node.
    Send {
        label: u8,
        tag: u8,
        to: i64,
        args: Args,
    },
    /// Receive a message of the tag, or else go on.
    Poll {
        label: u8,
        tag: u8,
    },
    /// Receive a message of the tag, or else wait.
    Await {
        label: u8,
        tag: u8,
    },
    /// Read an own field, or an own row at the index.
    Read {
        label: u8,
        field: u8,
        index: Option<i64>,
    },
}

/// What the soup answers.
#[derive(Clone, Copy, Debug, PartialEq, Eq)]
pub enum Reply {
    /// The id of the message that was sent: its position in the soup.
    Sent(u32),
    /// A message was received: its id, its sender and its arguments.
    Got { id: u32, from: u32, args: Args },
    /// There is no message to receive.
    Miss,
    /// What the field has.
    Value(i64),
}

/// An event: a node takes its ticks, makes its call and gets its reply.
#[derive(Clone, Copy, Debug, PartialEq, Eq)]
pub struct Entry {
    pub node: u32,
    pub ticks: u32,
    pub call: Call,
    pub reply: Reply,
}

/// Which of several messages is received.
#[derive(Clone, Copy, Debug, PartialEq, Eq)]
pub enum Order {
    /// The one with the least id.
    Oldest,
    /// The one with the greatest id.
    Newest,
    /// One that is drawn by a generator with this seed.
    Seed(u64),
}

/// How a node's program ends within its budget.
#[derive(Clone, Copy, Debug, PartialEq, Eq)]
pub enum End {
    /// It returned this number.
    Ended(i64),
    /// A number left the range of i64.
    Stopped,
    /// Its ticks and calls are as many as the budget.
    Spent,
    /// It waits for a message that isn't there.
    Waiting,
}
