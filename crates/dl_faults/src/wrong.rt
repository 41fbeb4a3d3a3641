//! What is wrong with a file, and which of several such things is answered.

ghost use Rattle.std.specs.Prelude.{◌≡◌};
ghost use Rattle.dl_faults.specs.Wrong.{goes_before as stands_before, goes_before_in_line as stands_before_in_line, joined};

use dl_sequent::Duty;
use dl_tree::Place;

/// What is named where something is wrong.
#[derive(Clone, Copy, Debug, PartialEq, Eq)]
pub enum Named {
    Nothing,
    /// A hook, by its position in the file.
    Hook(u8),
    /// A label, by its position in the file.
    Label(u8),
    Obligation(Duty),
}

/// Something that is wrong with a file.
#[derive(Clone, Copy, Debug, PartialEq, Eq)]
pub struct Wrong {
    /// The number of the rule that is broken.
    pub rule: u8,
    pub place: Place,
    pub what: Named,
}

impl Wrong {
    /// Whether this stands earlier in the text than the other, or at the same place by a smaller rule.
    pub fn goes_before(&self, other: &Wrong) -> bool
        ensures { result ≡ stands_before self.now other.now }
    {
        self.place.line < other.place.line
            || (self.place.line == other.place.line && self.goes_before_in_line(other))
    }

    fn goes_before_in_line(&self, other: &Wrong) -> bool
        ensures { result ≡ stands_before_in_line self.now other.now }
    {
        self.place.col < other.place.col
            || (self.place.col == other.place.col && self.rule < other.rule)
    }
}

/// The earlier one of two things that are wrong, if any is: the first, unless the second goes before it.
pub fn earlier_of(first: Option<Wrong>, second: Option<Wrong>) -> Option<Wrong>
    ensures { result ≡ joined first second }
{
    match (first, second) {
        (Some(wrong), Some(other)) => {
            if other.goes_before(&wrong) {
                Some(other)
            } else {
                Some(wrong)
            }
        }
        (Some(wrong), None) => Some(wrong),
        (None, second) => second,
    }
}
