// Numbers as text, in decimal and in hexadecimal: read, and written. By hand: std's `parse` takes text and a plus sign, and its
// `format!` an allocator; a script is bytes, and playing it cannot fail.
#![tactic(auto)]

ghost use Rattle.std.specs.Prelude.{◌≡◌, ◌<◌, ◌≤◌};
ghost use Rattle.digits.specs.Reading.{found, digit, digits, decimal, hex, positive, negative, signed_decimal};
ghost use Rattle.digits.specs.Writing.{character, written, places, numeral_of, decimal_text, hex_text};

use lists::Bounded;

// A number's characters by value; what stands behind those that count is 0.
pub type Numeral = Bounded<u8, 20>;

// The value of a digit.
#[tactic(auto, unfolding(crate::specs::Reading::digit))]
pub fn digit_of(b: u8) -> Option<u8>
    ensures { result ≡ found 16 (digit b) }
{
    match b {
        b'0'..=b'9' => Some(b - b'0'),
        b'A'..=b'F' => Some(b - b'A' + 10),
        b'a'..=b'f' => Some(b - b'a' + 10),
        _ => None,
    }
}

// The value of a digit below the base; a byte that is no digit stands for 16, as the definition says of every base.
#[tactic(auto, using(crate::proofs::Digits::digit_or))]
fn digit_below(base: u8, b: u8) -> Option<u8>
    ensures { result ≡ found base (digit b) }
{
    let d = digit_of(b).unwrap_or(16);
    (d < base).then_some(d)
}

// The number of some digits, below 65,536.
pub fn digits_of(base: u8, w: &[u8]) -> Option<u16>
    ensures { result ≡ found 65536 (digits base 0 w.now) }
{
    let mut n: u16 = 0;
    for b in w {
        let d = digit_below(base, *b)?;
        n = n.checked_mul(u16::from(base))?.checked_add(u16::from(d))?;
    }
    Some(n)
}

// A decimal number without a sign.
#[tactic(auto, unfolding(crate::specs::Reading::decimal))]
pub fn decimal_of(w: &[u8]) -> Option<u16>
    ensures { result ≡ found 65536 (decimal w.now) }
{
    if w.is_empty() {
        return None;
    }
    digits_of(10, w)
}

// A number of exactly n hex digits.
#[tactic(auto, unfolding(crate::specs::Reading::hex))]
pub fn hex_of(n: usize, w: &[u8]) -> Option<u16>
    ensures { result ≡ found 65536 (hex n w.now) }
{
    if w.len() != n {
        return None;
    }
    digits_of(16, w)
}

// A number without a minus as a pattern of 16 bits.
#[tactic(auto, unfolding(crate::specs::Reading::positive))]
fn positive_of(n: u16) -> Option<u16>
    ensures { result ≡ found 65536 (positive n) }
{
    (n < 32768).then_some(n)
}

// A number after a minus as a pattern of 16 bits.
#[tactic(auto, unfolding(crate::specs::Reading::negative))]
fn negative_of(n: u16) -> Option<u16>
    ensures { result ≡ found 65536 (negative n) }
{
    (n <= 32768).then_some(n.wrapping_neg())
}

// A signed number as a pattern of 16 bits.
pub fn signed_decimal_of(w: &[u8]) -> Option<u16>
    ensures { result ≡ found 65536 (signed_decimal w.now) }
{
    let (sign, number) = w.split_first()?;
    match *sign {
        b'-' => decimal_of(number).and_then(negative_of),
        b'+' => decimal_of(number).and_then(positive_of),
        _ => decimal_of(w).and_then(positive_of),
    }
}

// The upper-case digit of a number below 16.
#[tactic(auto, unfolding(crate::specs::Writing::character))]
fn character_of(d: u8) -> u8
    requires { d < 16 }
    ensures { result ≡ character d }
{
    if d < 10 { b'0' + d } else { b'A' + (d - 10) }
}

// How many decimal digits a number has. `checked_ilog10` gives one less, and nothing for 0, which is no plainer.
fn places_of(n: u64) -> usize
    ensures { result ≡ places n }
{
    let mut left = n;
    for count in 1..20 {
        if left < 10 {
            return count;
        }
        left /= 10;
    }
    20
}

// The lowest digits of a number, stored from the last to the first: by places, since `iter_mut().rev()` is no shorter.
fn written_of(base: u64, len: usize, n: u64) -> Numeral
    requires base_nonzero { 0 < base }
    requires base_bound { base ≤ 16 }
    requires len_bound { len ≤ 20 }
    ensures { result ≡ numeral_of (written base len n) }
{
    let mut items = [0u8; 20];
    let mut left = n;
    for i in (0..len).rev() {
        items[i] = character_of((left % base) as u8);
        left /= base;
    }
    Numeral { items, len }
}

// A number in decimal, without leading zeros.
#[tactic(auto, using(crate::proofs::Characters::places_most))]
pub fn decimal_text(n: u64) -> Numeral
    ensures { result ≡ numeral_of (decimal_text n) }
{
    written_of(10, places_of(n), n)
}

// A byte in two hex digits.
pub fn hex_text(b: u8) -> Numeral
    ensures { result ≡ numeral_of (hex_text b) }
{
    written_of(16, 2, u64::from(b))
}
