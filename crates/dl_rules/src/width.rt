//! How large the value of a term may be.

ghost use Rattle.std.specs.Prelude.{◌≡◌, ◌≤◌, ◌*◌, ◌+◌, ◌^◌, min, Some};
ghost use Rattle.dl_forms.specs.Context.{look_up};
ghost use Rattle.dl_forms.specs.Width.{stored, word_width};
ghost use Rattle.dl_rules.specs.Judged.{or_wide};
ghost use Rattle.dl_rules.specs.Sights.{context_of};

use crate::seen::word_value;
use crate::sight::Sight;
use dl_scope::Text;
use dl_tree::Place;

/// The first fault of a term, and how large its value may be, up to 2 ^ 127.
#[derive(Clone, Copy)]
pub(crate) struct Judged {
    pub(crate) fault: Option<(u8, Place)>,
    pub(crate) width: u128,
}

const LIMIT: u128 = 170141183460469231731687303715884105728;

/// The size of what is stored.
pub(crate) const STORED: u128 = 9223372036854775808;

/// The width of a name.
pub(crate) fn word_width<'x, 'a>(sight: &Sight<'x, 'a>, text: &Text<'a>) -> u128
    ensures bound { result ≤ 2 ^ 63 }
    ensures value { result ≡ word_width (look_up text.now (context_of sight.now).words) }
{
    match word_value(sight.walk, sight.hides, text) {
        Some(value) => u128::from(value.unsigned_abs()),
        None => STORED,
    }
}

/// The width of a sum or a difference.
pub(crate) fn sum(left: u128, right: u128) -> u128
    requires left { left ≤ 2 ^ 127 }
    requires right { right ≤ 2 ^ 127 }
    ensures bound { result ≤ 2 ^ 127 }
    ensures value { result ≡ min (left + right) (2 ^ 127) }
{
    left.saturating_add(right).min(LIMIT)
}

/// The width of a product.
pub(crate) fn product(left: u128, right: u128) -> u128
    requires left { left ≤ 2 ^ 127 }
    requires right { right ≤ 2 ^ 127 }
    ensures bound { result ≤ 2 ^ 127 }
    ensures value { result ≡ min (left * right) (2 ^ 127) }
{
    left.saturating_mul(right).min(LIMIT)
}

/// A term of this width, whose parts have this first fault.
pub(crate) fn limited(place: Place, width: u128, faults: Option<(u8, Place)>) -> Judged
    requires { width ≤ 2 ^ 127 }
    ensures fault { result.fault ≡ or_wide width place faults }
    ensures width { result.width ≡ width }
{
    let fault = if width == LIMIT {
        Some((16, place))
    } else {
        faults
    };
    Judged { fault, width }
}

/// A list of no form of a term.
pub(crate) fn malformed(place: Place) -> Judged
    ensures fault { result.fault ≡ Some (10, place) }
    ensures width { result.width ≡ stored }
{
    Judged {
        fault: Some((10, place)),
        width: STORED,
    }
}
