// One line of a script as a call.
#![tactic(auto)]

ghost use Rattle.std.specs.Prelude.{ℕ, ◌≡◌, ◌<◌, ◌≤◌, true, ◌||◌, [], ◌∷◌, eqb, ltb, length, MatchOption, MatchResult, IfSome};
ghost use Rattle.digits.specs.Reading.{hex, decimal};
ghost use Rattle.script.specs.Words.{blank, solid, other, plain, leading, uncr, body, parts, behind, trimmed, same};
ghost use Rattle.script.specs.Lines.{of_kind, sample, toggle, temperature, framed, text_frame, texted, keyword, called, parsed_line};
ghost use Rattle.script.specs.Results.{parsed_of, frame_parsed};
ghost use Rattle.script.specs.declared.Reason.TheVariants.{BadHex, BadNumber};

use lists::Bounded;
use std::fmt;

// The bytes of a frame. An array and no `Vec`: reading a line cannot run out of memory.
pub type Frame = Bounded<u8, 300>;

// What a line asks for.
#[derive(Clone, Copy)]
pub enum Line {
    Empty,
    Samples { bits: u16, times: u16 },
    Toggles { first: u16, second: u16, times: u16 },
    Temperature(i16),
    Fault,
    Spinel(Frame),
    Modbus(Frame),
    Text(Frame),
}

// Why a line is wrong.
#[derive(Clone, Copy, PartialEq, Eq, Debug)]
pub enum Reason {
    UnknownWord,
    BadHex,
    BadNumber,
    TooManyWords,
    FrameTooLong,
    MissingWord,
}

impl fmt::Display for Reason {
    fn fmt<W: fmt::Write>(&self, f: &mut fmt::Formatter<W>) -> fmt::Result {
        f.write_str(match self {
            Reason::UnknownWord => {
                "unknown word: expected sample, toggle, temperature, spinel, modbus or text"
            }
            Reason::BadHex => {
                "bad hex: expected four hex digits after sample, twice four after toggle, two hex digits for each byte of a frame"
            }
            Reason::BadNumber => {
                "bad number: expected 1 to 65535 samples or toggles, a temperature of -32768 to 32767 tenths, or fault"
            }
            Reason::TooManyWords => {
                "too many words: expected sample HHHH, sample HHHH N, toggle HHHH HHHH N, temperature T or temperature fault"
            }
            Reason::FrameTooLong => "frame too long: expected at most 300 bytes",
            Reason::MissingWord => {
                "missing word: expected sample HHHH, sample HHHH N, toggle HHHH HHHH N, temperature T or temperature fault"
            }
        })
    }
}

// Whether a byte is a space or a tab.
fn is_blank(b: u8) -> bool
    ensures { result ≡ blank b }
{
    matches!(b, b' ' | b'\t')
}

// How many blanks a line starts with. A function over the test, for this and the next two, would be one call of std's as they are.
fn blanks(s: &[u8]) -> usize
    ensures { result ≡ leading blank s.now }
{
    s.iter().position(|b| !is_blank(*b)).unwrap_or(s.len())
}

// How many bytes of a word it starts with.
fn solids(s: &[u8]) -> usize
    ensures { result ≡ leading solid s.now }
{
    s.iter().position(|b| is_blank(*b)).unwrap_or(s.len())
}

// How many bytes stand before the first that is `stop`, or before the end.
pub fn stop_at(s: &[u8], stop: u8) -> usize
    ensures { result ≡ leading (other stop) s.now }
{
    s.iter().position(|b| *b == stop).unwrap_or(s.len())
}

// The first word and what follows it, or nothing where no word is left.
fn next_word(s: &[u8]) -> Option<(&[u8], &[u8])>
    ensures cases { MatchOption result (parts s.now ≡ []) (λ p. parts s.now ≡ p.0.now ∷ parts p.1.now) }
    ensures rest { IfSome result (λ p. p.1.now ≡ behind s.now) }
    ensures shorter { IfSome result (λ p. length p.1.now < length s.now) }
{
    let start = &s[blanks(s)..];
    if start.is_empty() {
        return None;
    }
    Some(start.split_at(solids(start)))
}

// The line without a CR at its end.
pub fn without_cr(line: &[u8]) -> &[u8]
    ensures { result.now ≡ uncr line.now }
{
    line.strip_suffix(b"\r").unwrap_or(line)
}

// The line before its comment.
fn body_of(line: &[u8]) -> &[u8]
    ensures { result.now ≡ body line.now }
{
    let s = without_cr(line);
    &s[..stop_at(s, b'#')]
}

// The bytes without the blanks at their end.
fn trimmed(s: &[u8]) -> &[u8]
    ensures { result.now ≡ trimmed s.now }
{
    let mut end = s.len();
    while 0 < end && is_blank(s[end - 1]) {
        end -= 1;
    }
    &s[..end]
}

// Sixteen bits in four hex digits.
fn bits_of(w: &[u8]) -> Result<u16, Reason>
    ensures { MatchResult result (λ n. (n ≡ hex 4 w.now) × (n < 65536)) (λ e. (e ≡ BadHex) × (65536 ≤ hex 4 w.now)) }
{
    digits::hex_of(4, w).ok_or(Reason::BadHex)
}

// How many times: 1 to 65,535.
fn times_of(w: &[u8]) -> Result<u16, Reason>
    ensures { MatchResult result (λ n. (n ≡ decimal w.now) × (n < 65536) × (0 < n)) (λ e. (e ≡ BadNumber) × ((eqb (decimal w.now) 0 || ltb 65535 (decimal w.now)) ≡ true)) }
{
    digits::decimal_of(w)
        .filter(|n| *n != 0)
        .ok_or(Reason::BadNumber)
}

// The words after `sample`.
#[tactic(auto, unfolding(crate::specs::Lines::sample))]
fn sample_of(s: &[u8]) -> Result<Line, Reason>
    ensures { parsed_of result ≡ sample (parts s.now) }
{
    let (bits, s) = next_word(s).ok_or(Reason::MissingWord)?;
    let Some((times, s)) = next_word(s) else {
        let bits = bits_of(bits)?;
        return Ok(Line::Samples { bits, times: 1 });
    };
    if next_word(s).is_some() {
        return Err(Reason::TooManyWords);
    }
    let bits = bits_of(bits)?;
    let times = times_of(times)?;
    Ok(Line::Samples { bits, times })
}

// The words after `toggle`.
#[tactic(auto, unfolding(crate::specs::Lines::toggle))]
fn toggle_of(s: &[u8]) -> Result<Line, Reason>
    ensures { parsed_of result ≡ toggle (parts s.now) }
{
    let (first, s) = next_word(s).ok_or(Reason::MissingWord)?;
    let (second, s) = next_word(s).ok_or(Reason::MissingWord)?;
    let (times, s) = next_word(s).ok_or(Reason::MissingWord)?;
    if next_word(s).is_some() {
        return Err(Reason::TooManyWords);
    }
    let first = bits_of(first)?;
    let second = bits_of(second)?;
    let times = times_of(times)?;
    Ok(Line::Toggles {
        first,
        second,
        times,
    })
}

// The words after `temperature`.
#[tactic(auto, unfolding(crate::specs::Lines::temperature, crate::specs::Lines::tenths_of))]
fn temperature_of(s: &[u8]) -> Result<Line, Reason>
    ensures { parsed_of result ≡ temperature (parts s.now) }
{
    let (word, s) = next_word(s).ok_or(Reason::MissingWord)?;
    if next_word(s).is_some() {
        return Err(Reason::TooManyWords);
    }
    if word == b"fault".as_slice() {
        return Ok(Line::Fault);
    }
    let pattern = digits::signed_decimal_of(word).ok_or(Reason::BadNumber)?;
    Ok(Line::Temperature(encoding::signed_of(pattern)))
}

// A byte in two hex digits.
fn byte_of(w: &[u8]) -> Result<u8, Reason>
    ensures { MatchResult result (λ b. (b ≡ hex 2 w.now) × (b < 256)) (λ e. (e ≡ BadHex) × (256 ≤ hex 2 w.now)) }
{
    let n = digits::hex_of(2, w).ok_or(Reason::BadHex)?;
    u8::try_from(n).map_err(|_| Reason::BadHex)
}

// The bytes of a frame, one from each word.
fn frame_of(s: &[u8]) -> Result<Frame, Reason>
    ensures { (k : ℕ) → frame_parsed k result ≡ framed (of_kind k) (parts s.now) }
{
    let mut frame = Frame::empty(0);
    let mut rest = s;
    while let Some((word, behind)) = next_word(rest) {
        if 300 <= frame.len {
            return Err(Reason::FrameTooLong);
        }
        let byte = byte_of(word)?;
        // In place: a `push` for each byte copies the frame.
        frame.items[frame.len] = byte;
        frame.len += 1;
        rest = behind;
    }
    Ok(frame)
}

// The frame of a `text` line, by what stands behind the word: its characters and a CR.
fn typed_of(s: &[u8]) -> Result<Frame, Reason>
    ensures { frame_parsed 8 result ≡ texted (text_frame s.now) }
{
    let characters = trimmed(&s[s.len().min(1)..]);
    if 300 <= characters.len() {
        return Err(Reason::FrameTooLong);
    }
    Ok(Frame::empty(0).append(characters).push(b'\r'))
}

// A call by its first word and what follows it. A `match` on the word is compared byte by byte: a goal for each byte that differs.
fn called_of(word: &[u8], s: &[u8]) -> Result<Line, Reason>
    ensures { parsed_of result ≡ called (keyword word.now) (parts s.now) s.now }
{
    if word == b"sample".as_slice() {
        return sample_of(s);
    }
    if word == b"toggle".as_slice() {
        return toggle_of(s);
    }
    if word == b"temperature".as_slice() {
        return temperature_of(s);
    }
    if word == b"spinel".as_slice() {
        return frame_of(s).map(Line::Spinel);
    }
    if word == b"modbus".as_slice() {
        return frame_of(s).map(Line::Modbus);
    }
    if word == b"text".as_slice() {
        return typed_of(s).map(Line::Text);
    }
    Err(Reason::UnknownWord)
}

// The call that a line asks for, or why it is wrong.
#[tactic(auto, unfolding(crate::specs::Lines::parsed_line, crate::specs::Lines::by_parts))]
pub fn parse(line: &[u8]) -> Result<Line, Reason>
    ensures { parsed_of result ≡ parsed_line line.now }
{
    match next_word(body_of(line)) {
        Some((word, s)) => called_of(word, s),
        None => Ok(Line::Empty),
    }
}
