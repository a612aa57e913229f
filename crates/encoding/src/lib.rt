// Numbers as bytes, words and bits, signed numbers and floats, reply data, elements by index, and a check that refuses.
#![tactic(auto)]

ghost use Rattle.std.specs.Prelude.{◌≡◌, cond, [], ◌∷◌, ◌+◌, ◌-◌, ◌*◌, ◌/◌, ◌%◌, get_or, set};
ghost use Rattle.lists.specs.Data.{data_of, extended};
ghost use Rattle.lists.specs.Numbers.{number, word_at, bytes, bits_number};
ghost use Rattle.model.specs.Temperature.{signed_of, pattern_of, float_bits};
ghost use Rattle.model.specs.Counters.{some_data};
ghost use Rattle.model.specs.Numbers.{number_of, refused_by};

use lists::Data;
use model::Refusal;

// A float's bits as two registers.
#[derive(Drop)]
pub struct FloatWords {
    pub high: u16,
    pub low: u16,
}

// No bytes.
#[tactic(auto, unfolding(lists::specs::Data::padded))]
pub fn empty() -> Data
    ensures { result ≡ data_of [] }
{
    Data::empty(0)
}

// A two-byte number, high byte first.
#[tactic(auto, unfolding(lists::specs::Numbers::bytes))]
pub fn push16(d: Data, word: u16) -> Data
    ensures { result ≡ extended d (bytes 2 word) }
{
    append(d, &word.to_be_bytes())
}

// A four-byte number, its high byte first.
pub fn push32(d: Data, v: u32) -> Data
    ensures { result ≡ extended d (bytes 4 v) }
{
    append(d, &v.to_be_bytes())
}

// `d` with these bytes after its own: the bounded list's `append`, as the definitions have it.
#[tactic(auto, using(lists::proofs::DataLaws::extended_same))]
pub fn append(d: Data, bytes: &[u8]) -> Data
    ensures { result ≡ extended d bytes.now }
{
    d.append(bytes)
}

// The number of two bytes, high byte first.
pub fn be16(high: u8, low: u8) -> u16
    ensures { result ≡ number (high ∷ low ∷ []) }
{
    u16::from_be_bytes([high, low])
}

// The high byte of a two-byte number.
pub fn high_byte(v: u16) -> u8
    ensures { result ≡ v / 256 }
{
    v.to_be_bytes()[0]
}

// Its low byte.
pub fn low_byte(v: u16) -> u8
    ensures { result ≡ v % 256 }
{
    v.to_be_bytes()[1]
}

// The number of two words, the high one first. Std has the bytes of a number, and not its words.
pub fn be32(high: u16, low: u16) -> u32
    ensures { result ≡ high * 65536 + low }
{
    u32::from(high) * 65536 + u32::from(low)
}

// The high word of a four-byte number.
pub fn high_word(v: u32) -> u16
    ensures { result ≡ v / 65536 }
{
    (v / 65536) as u16
}

// Its low word.
pub fn low_word(v: u32) -> u16
    ensures { result ≡ v % 65536 }
{
    (v % 65536) as u16
}

// The number of sixteen bits, the lowest first. A loop of shifts: so the sample call, which lays a mask on the number, is quickest.
#[inline(always)]
pub fn bits_of(bs: [bool; 16]) -> u16
    ensures { result ≡ bits_number bs }
{
    let mut bits = 0;
    for i in 0..16 {
        bits = bits | (u16::from(bs[i]) << i);
    }
    bits
}

// A 16-bit pattern read as two's complement.
#[tactic(auto, using(crate::proofs::Words::signed_cast), unfolding(model::specs::Temperature::signed_of))]
pub fn signed_of(n: u16) -> i16
    ensures { result ≡ signed_of n }
{
    n.cast_signed()
}

// The two's complement pattern of a number.
pub fn pattern_of(x: i16) -> u16
    ensures { result ≡ pattern_of x }
{
    x.cast_unsigned()
}

// The bits of a float, 0 for a NaN: `f32::to_bits` asks that there is none.
#[tactic(auto, unfolding(model::specs::Temperature::float_bits))]
pub fn float_bits(x: f32) -> u32
    ensures { result ≡ float_bits x }
{
    if x.is_nan() { 0 } else { x.to_bits() }
}

// The two words of a float's bits.
pub fn float_words(x: f32) -> FloatWords
    ensures { result ≡ record { high = float_bits x / 65536; low = float_bits x % 65536 } }
{
    let bits = float_bits(x);
    let high = high_word(bits);
    let low = low_word(bits);
    FloatWords { high, low }
}

// The element of an index, or `default` where there is none.
pub fn element<T: Copy>(xs: &[T], k: usize, default: T) -> T
    ensures { result ≡ get_or xs.now k default }
{
    xs.get(k).copied().unwrap_or(default)
}

// The sixteen with one replaced, where the index has one.
pub fn with_element<T: Copy>(xs: [T; 16], k: usize, x: T) -> [T; 16]
    ensures { result ≡ set xs k x }
{
    let mut next = xs;
    if k < 16 {
        next[k] = x;
    }
    next
}

// The index of a number: one less, and 0 for 0.
pub fn index_of(n: u8) -> usize
    ensures { result ≡ n - 1 }
{
    usize::from(n).saturating_sub(1)
}

// The byte at i, or 0 past the end.
pub fn at(d: &[u8], i: usize) -> u8
    ensures { result ≡ get_or d.now i 0 }
{
    element(d, i, 0)
}

// Two bytes from i on as a number.
pub fn word_from(d: &[u8], i: usize) -> u16
    ensures { result ≡ word_at d.now i }
{
    if i < d.len() {
        be16(d[i], at(d, i + 1))
    } else {
        0
    }
}

// 8, where an instruction that takes no data has some.
pub fn no_data(d: &[u8]) -> Result<(), Refusal>
    ensures { refused_by result ≡ cond (some_data d.now) 8 0 }
{
    refused_if(!d.is_empty(), Refusal::DataLength)
}

// Refused where a condition holds.
pub fn refused_if(holds: bool, refusal: Refusal) -> Result<(), Refusal>
    ensures { refused_by result ≡ cond holds (number_of refusal) 0 }
{
    if holds { Err(refusal) } else { Ok(()) }
}

// The number of the first condition that holds, for numbers that are no `Refusal` too: this one's, or else what comes after it.
pub fn first_number(holds: bool, number: u8, later: u8) -> u8
    ensures { result ≡ cond holds number later }
{
    if holds { number } else { later }
}
