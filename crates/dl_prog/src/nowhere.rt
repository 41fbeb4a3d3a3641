//! The state in which terms over names alone are read.

ghost use Rattle.std.specs.Prelude.{◌≡◌, length};
ghost use Rattle.dl_term.specs.State.{State, field_at, soup_at, message_at, tag_of, part_at};
ghost use Rattle.dl_model.specs.Words.{no_state};

use dl_term::{Part, View};

// A state without nodes and labels.
#[derive(Clone, Copy)]
pub(crate) struct Nowhere;

impl View for Nowhere {
    ghost state = { λ nowhere. no_state };

    fn nodes(&self) -> u32
        ensures { result ≡ no_state.nodes }
    {
        0
    }

    fn field(&self, _label: u8, _field: u8, _node: i128, _index: i128) -> i64
        ensures { result ≡ field_at no_state _label _field _node _index }
    {
        0
    }

    fn len(&self, _label: u8) -> u32
        ensures { result ≡ length (soup_at no_state _label) }
    {
        0
    }

    fn tag(&self, _label: u8, _id: u32) -> u8
        ensures { result ≡ tag_of (message_at no_state _label _id) }
    {
        0
    }

    fn part(&self, _label: u8, _id: u32, _part: Part) -> i64
        ensures { result ≡ part_at no_state _label _id _part }
    {
        0
    }
}
