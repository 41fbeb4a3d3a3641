//! Entries, written shortly.

use dl_model::{Args, Call, Entry, Reply};

pub(crate) fn no_args() -> Args {
    Args {
        count: 0,
        values: [0; 8],
    }
}

pub(crate) fn one_arg(value: i64) -> Args {
    Args {
        count: 1,
        values: [value, 0, 0, 0, 0, 0, 0, 0],
    }
}

// A send of the first tag.
pub(crate) fn sends(node: u32, ticks: u32, label: u8, to: i64, args: Args, id: u32) -> Entry {
    Entry {
        node,
        ticks,
        call: Call::Send {
            label,
            tag: 0,
            to,
            args,
        },
        reply: Reply::Sent(id),
    }
}

// An await of the first tag at the first label.
pub(crate) fn awaits(node: u32, reply: Reply) -> Entry {
    Entry {
        node,
        ticks: 0,
        call: Call::Await { label: 0, tag: 0 },
        reply,
    }
}

// A poll of the first tag.
pub(crate) fn polls(node: u32, label: u8, reply: Reply) -> Entry {
    Entry {
        node,
        ticks: 0,
        call: Call::Poll { label, tag: 0 },
        reply,
    }
}

pub(crate) fn got(id: u32, from: u32, args: Args) -> Reply {
    Reply::Got { id, from, args }
}
