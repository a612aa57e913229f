// What a sample comes to: of the inputs, with pulses, links and the notice; of the thermometer.
#![tactic(auto)]

ghost use Rattle.std.specs.Prelude.{◌≡◌, ◌<◌, List, [], Bool, Some, None};
ghost use Rattle.lists.specs.Numbers.{bit_at, bits_number};
ghost use Rattle.model.specs.declared.Inputs.{Inputs as InputsOf};
ghost use Rattle.model.specs.Text.{state_letter, text_notice};
ghost use Rattle.model.specs.Notice.{noticed, notice_frame, notice_written};
ghost use Rattle.model.specs.Temperature.{reading_of, taken};
ghost use Rattle.model.specs.Calls.{sampled};
ghost use Rattle.inputs.specs.declared.Edged.{Edged as EdgedOf};
ghost use Rattle.inputs.specs.Passes.{stable_bits};
ghost use Rattle.sampling.specs.Parts.{frame_bytes, bytes_of, out_of};

use inputs::{Edged, Sampled};
use model::{Module, Notice};

// A notice's frame, in the format that it was switched on in; each in an array of its own size.
#[derive(Clone, Copy)]
pub enum NoticeFrame {
    Binary([u8; 11]),
    Text([u8; 25]),
}

// What a sample comes to, whatever the lent buffer: the state after, and the notice's frame, where one is due.
#[derive(Drop)]
pub struct AfterSample {
    pub after: Module,
    pub notice: Option<NoticeFrame>,
}

// Whether a notice is due after these edges.
fn is_due(n: Notice, e: Edged) -> bool
    ensures { (es : List Bool) → e.found ≡ bits_number es → result ≡ noticed n es }
{
    n.format != 0 && inputs::any_masked(n.mask, e.found)
}

// The letter of the input at a place.
fn letter_at(states: u16, k: u32) -> u8
    requires { k < 16 }
    ensures { result ≡ state_letter (bit_at states k) }
{
    replies::state_letter((states >> k) % 2 == 1)
}

// A notice as text (E2): the inputs' letters in fives, each by its place. It is given the states as a number: lines that are passed
// on would be copied at every sample.
fn text_notice(address: u8, states: u16) -> [u8; 25]
    ensures { (inputs : List Bool) → states ≡ bits_number inputs → result ≡ text_notice address inputs }
{
    [
        b'*',
        b'B',
        address,
        b'D',
        b' ',
        letter_at(states, 0),
        letter_at(states, 1),
        letter_at(states, 2),
        letter_at(states, 3),
        letter_at(states, 4),
        b' ',
        letter_at(states, 5),
        letter_at(states, 6),
        letter_at(states, 7),
        letter_at(states, 8),
        letter_at(states, 9),
        b' ',
        letter_at(states, 10),
        letter_at(states, 11),
        letter_at(states, 12),
        letter_at(states, 13),
        letter_at(states, 14),
        b' ',
        letter_at(states, 15),
        b'\r',
    ]
}

// The frame of a notice: as text, or a reply with ACK 0DH and the states as its data.
#[tactic(auto, unfolding(model::specs::Notice::notice_frame))]
fn notice_frame(address: u8, n: Notice, states: u16) -> NoticeFrame
    ensures { (x : InputsOf) → states ≡ stable_bits x.lines → frame_bytes result ≡ notice_frame address n x }
{
    if n.format == b'B' {
        return NoticeFrame::Text(text_notice(address, states));
    }
    NoticeFrame::Binary(replies::word_reply(address, n.signature, 0x0D, states))
}

// The notice that the sampled inputs make due.
fn notice(address: u8, n: Notice, s: Sampled) -> Option<NoticeFrame>
    ensures none { s.edges ≡ None → bytes_of result ≡ [] }
    ensures some { (e : EdgedOf) (es : List Bool) (x : InputsOf) → s.edges ≡ Some e → e.found ≡ bits_number es → e.states ≡ stable_bits x.lines → bytes_of result ≡ notice_written address n es x }
{
    match s.edges {
        Some(e) => {
            if is_due(n, e) {
                return Some(notice_frame(address, n, e.states));
            }
            None
        }
        None => None,
    }
}

// Debounce and counting, the notice, one step of every pulse, and the links. Reads the sampling number and the notice's mask once each,
// and gives them on (E3). No path of its own for a notice: two ways out would copy the settings.
pub fn handle(m: Module, bits: u16) -> AfterSample
    ensures { out_of result ≡ sampled bits m }
{
    let s = inputs::sample(m.settings.sampling, m.settings.modes, m.inputs, bits);
    let notice = notice(m.spinel.address, m.settings.notice, s);
    let pulsed = outputs::pulse_outputs(m.outputs);
    let linked = linking::link_outputs(m.settings.links, s.edges, pulsed);
    let mut after = m;
    after.inputs = s.inputs;
    after.outputs = linked;
    AfterSample { after, notice }
}

// The state after a temperature sample: thermostats act, and a valid reading is remembered.
pub fn heat(m: Module, good: bool, tenths: i16) -> Module
    ensures { result ≡ taken (reading_of good tenths) m }
{
    let r = thermostat::reading_of(good, tenths);
    let t = heating::take_reading(m.outputs, m.settings.thermostats, m.last, r);
    let outputs = t.outputs;
    Module {
        outputs,
        reading: t.reading,
        last: t.last,
        ..m
    }
}
