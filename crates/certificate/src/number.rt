ghost use Rattle.std.specs.Prelude.{◌≡◌, ◌≤◌, length, take, IfSome, nat_lt, ◌&&◌, ◌==◌, slice_index};
ghost use Rattle.certificate.specs.Reading as Reading;

use crate::digits::Digits;
use crate::limits::POTENTIAL_DIGITS_MAX;
use flow_model::POTENTIAL_MAX;

/// The number at the start of the text, of at most `places` digits and at most `most`, and the text after it. A number
/// has no leading zero.
#[tactic(auto, unfolding(crate::specs::Reading::read_number))]
pub(crate) fn number<N: Digits>(text: &[u8], places: usize, most: N) -> Option<(N, &[u8])>
    requires { places ≤ N.places }
    ensures value { Reading.value_view N.value result ≡ Reading.read_number places (N.value most) text.now }
    ensures fits { IfSome result (λ r. N.value r.0 ≤ N.value most) }
{
    let (value, len) = digits::<N>(front(text, places));
    if len == 0 {
        return None;
    }
    if has_leading_zero(text, len) {
        return None;
    }
    if value.is_above(most) {
        return None;
    }
    Some((value, &text[len..]))
}

/// The first `most` bytes, or all if there are fewer.
fn front(text: &[u8], most: usize) -> &[u8]
    ensures front { result.now ≡ take most text.now }
    ensures few { length result.now ≤ most }
    ensures within { length result.now ≤ length text.now }
{
    if text.len() < most {
        text
    } else {
        &text[..most]
    }
}

/// Whether a number of `len` digits has a leading zero.
fn has_leading_zero(text: &[u8], len: usize) -> bool
    requires { len ≤ length text.now }
    ensures { result ≡ (nat_lt 1 len && (slice_index text.now 0 == 48)) }
{
    len > 1 && text[0] == b'0'
}

/// The value of the digits at the start of the text, and their number.
fn digits<N: Digits>(text: &[u8]) -> (N, usize)
    requires { length text.now ≤ N.places }
    ensures len { result.1 ≡ Reading.digit_count text.now }
    ensures value { N.value result.0 ≡ Reading.read_on 0 (take result.1 text.now) }
    ensures within { result.1 ≤ length text.now }
{
    let mut value = N::zero();
    let mut len = 0;
    for byte in text {
        if !byte.is_ascii_digit() {
            break;
        }
        value = value.push(*byte - b'0');
        len += 1;
    }
    (value, len)
}

/// A potential: a number, after a minus if it is below 0.
#[tactic(auto, unfolding(crate::specs::Reading::read_signed))]
pub(crate) fn signed(text: &[u8]) -> Option<(i128, &[u8])>
    ensures { Reading.read_view result ≡ Reading.read_signed text.now }
{
    if let [b'-', text @ ..] = text {
        return negative(text);
    }
    let (value, text) = number(text, POTENTIAL_DIGITS_MAX, POTENTIAL_MAX)?;
    Some((value as i128, text))
}

/// A number below 0, whose minus was read.
#[tactic(auto, unfolding(crate::specs::Reading::read_negative))]
fn negative(text: &[u8]) -> Option<(i128, &[u8])>
    ensures { Reading.read_view result ≡ Reading.read_negative text.now }
{
    let (value, text) = number(text, POTENTIAL_DIGITS_MAX, POTENTIAL_MAX)?;
    if value == 0 {
        return None;
    }
    Some((0 - value as i128, text))
}
