// Text frames (02, E2): checks 2 to 6, the code that is typed, and the numbers and states behind it.
#![tactic(auto)]

ghost use Rattle.std.specs.Prelude.{◌≡◌, true, false, cond, drop, MatchOption};
ghost use Rattle.lists.specs.Tests.{within};
ghost use Rattle.model.specs.Text.{is_text, characters, text_shape_wrong, text_address_wrong, text_broadcast_wrong, text_wire, typed, commands_outputs};
ghost use Rattle.model.specs.Text.{digits_in, typed_number, behind, number_first, number_alone, state_entry};
ghost use Rattle.model.specs.Numbers.{refused_by};
ghost use Rattle.model.specs.Wire.{frame_refusal};
ghost use Rattle.model.specs.Text.{state_first, state_alone, state_and_time, time_typed};

use lists::Entry;
use model::{Refusal, TextCode};

// Whether a frame on the Spinel port is text.
#[tactic(auto, unfolding(model::specs::Text::is_text))]
pub fn is_text(frame: &[u8]) -> bool
    ensures { result ≡ is_text frame.now }
{
    matches!(frame, [b'*', b'B', ..])
}

// The characters between address and carriage return.
pub fn characters(frame: &[u8]) -> &[u8]
    ensures { result.now ≡ characters frame.now }
{
    frames::between(3, 1, frame)
}

// The code ---------------------------------------------------------------------------------

// The code that a text begins by, the longest first, and the characters behind it.
#[tactic(auto, unfolding(model::specs::Text::typed_by, model::specs::Text::begins))]
pub fn typed(t: &[u8]) -> (Option<TextCode>, &[u8])
    ensures { record { code = result.0; parameters = result.1.now } ≡ typed t.now }
{
    match t {
        [b'O', b'S', b'T', behind @ ..] => (Some(TextCode::PulseOutput), behind),
        [b'I', b'R', behind @ ..] => (Some(TextCode::ReadInput), behind),
        [b'O', b'R', behind @ ..] => (Some(TextCode::ReadOutput), behind),
        [b'O', b'S', behind @ ..] => (Some(TextCode::SetOutput), behind),
        [b'O', b'T', behind @ ..] => (Some(TextCode::PulseOutput), behind),
        [b'R', b'T', behind @ ..] => (Some(TextCode::ReadTemperature), behind),
        [b'I', b'S', behind @ ..] => (Some(TextCode::SetNotice), behind),
        [b'I', b'X', behind @ ..] => (Some(TextCode::ReadNotice), behind),
        [b'A', b'S', behind @ ..] => (Some(TextCode::SetAddress), behind),
        [b'S', b'S', behind @ ..] => (Some(TextCode::SetSpeed), behind),
        [b'E', behind @ ..] => (Some(TextCode::GivePermission), behind),
        _ => (None, t),
    }
}

// Numbers and states -----------------------------------------------------------------------

// How many digits a text begins with.
fn digits_in(t: &[u8]) -> usize
    ensures { result ≡ digits_in t.now }
{
    t.iter().take_while(|c| c.is_ascii_digit()).count()
}

// Whether so many digits make a number.
#[tactic(auto, unfolding(lists::specs::Tests::within))]
fn make_number(n: usize) -> bool
    ensures { result ≡ within 1 3 n }
{
    (1..=3).contains(&n)
}

// The number of one to three digits that a text begins with, and what is behind it.
fn number_first(t: &[u8]) -> Option<(u16, &[u8])>
    ensures { MatchOption result (number_first t.now ≡ false) (λ p. (number_first t.now ≡ true) × (p.0 ≡ typed_number t.now) × (p.1.now ≡ behind t.now)) }
{
    let n = digits_in(t);
    if !make_number(n) {
        return None;
    }
    let (number, behind) = t.split_at(n);
    Some((digits::decimal_of(number)?, behind))
}

// A number, and nothing behind it.
pub fn number_alone(t: &[u8]) -> Option<u16>
    ensures { MatchOption result (number_alone t.now ≡ false) (λ n. (number_alone t.now ≡ true) × (n ≡ typed_number t.now)) }
{
    let (number, behind) = number_first(t)?;
    behind.is_empty().then_some(number)
}

// A number and the state behind it, as an entry, and what is behind both.
fn state_first(t: &[u8]) -> Option<(Entry, &[u8])>
    ensures { MatchOption result (state_first t.now ≡ false) (λ p. (state_first t.now ≡ true) × (p.0 ≡ state_entry t.now) × (p.1.now ≡ drop 1 (behind t.now))) }
{
    let (number, behind) = number_first(t)?;
    let (letter, rest) = behind.split_first()?;
    let on = match *letter {
        b'H' => 1,
        b'L' => 0,
        _ => return None,
    };
    let entry = Entry {
        number: usize::from(number),
        value: on,
    };
    Some((entry, rest))
}

// OS: a number and a state, and nothing behind them.
pub fn state_alone(t: &[u8]) -> Option<Entry>
    ensures { MatchOption result (state_alone t.now ≡ false) (λ e. (state_alone t.now ≡ true) × (e ≡ state_entry t.now)) }
{
    let (entry, rest) = state_first(t)?;
    rest.is_empty().then_some(entry)
}

// OT: a number, a state and a time.
pub fn state_and_time(t: &[u8]) -> Option<(Entry, u16)>
    ensures { MatchOption result (state_and_time t.now ≡ false) (λ p. (state_and_time t.now ≡ true) × (p.0 ≡ state_entry t.now) × (p.1 ≡ time_typed t.now)) }
{
    let (entry, rest) = state_first(t)?;
    Some((entry, number_alone(rest)?))
}

// Checks 2 to 6 ----------------------------------------------------------------------------

// 3. Not ended by a carriage return.
#[tactic(auto, unfolding(model::specs::Text::text_shape_wrong))]
fn shape_refusal(frame: &[u8]) -> Result<(), Refusal>
    ensures { refused_by result ≡ cond (text_shape_wrong frame.now) 3 0 }
{
    encoding::refused_if(!matches!(frame, [.., b'\r']), Refusal::Shape)
}

// 5. Neither the own address, nor `$`, nor `%`.
#[tactic(auto, unfolding(model::specs::Text::text_address_wrong))]
fn address_refusal(own: u8, to: u8) -> Result<(), Refusal>
    ensures { refused_by result ≡ cond (text_address_wrong own to) 5 0 }
{
    encoding::refused_if(!(to == own || matches!(to, b'$' | b'%')), Refusal::Address)
}

// Whether a code may go to all modules.
#[tactic(auto, unfolding(model::specs::Text::commands_outputs))]
fn commands_outputs(code: Option<TextCode>) -> bool
    ensures { result ≡ commands_outputs code }
{
    matches!(code, Some(TextCode::SetOutput | TextCode::PulseOutput))
}

// 6. To all modules, and neither OS nor OT.
fn broadcast_refusal(frame: &[u8]) -> Result<(), Refusal>
    ensures { refused_by result ≡ cond (text_broadcast_wrong frame.now) 6 0 }
{
    let (code, _) = typed(characters(frame));
    let to_all = encoding::at(frame, 2) == b'%';
    encoding::refused_if(to_all & !commands_outputs(code), Refusal::Broadcast)
}

// Refusals 2 to 6 of a text frame in checking order; there is no check for 4.
#[tactic(auto, unfolding(model::specs::Wire::frame_refusal))]
pub fn text_refusal(own: u8, frame: &[u8]) -> Result<(), Refusal>
    ensures { refused_by result ≡ frame_refusal text_wire false own frame.now }
{
    frames::length_refusal(5, 32, frame)?;
    shape_refusal(frame)?;
    address_refusal(own, encoding::at(frame, 2))?;
    broadcast_refusal(frame)
}
