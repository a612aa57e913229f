// The five calls: fresh, sample, temperature, spinel, modbus; what demands 1 and 3 say of them, and requests E3 and E8.
#![tactic(auto)]

ghost use Rattle.std.specs.Prelude.{◌≡◌, ◌≤◌, length};
ghost use Rattle.lists.specs.Data.{bytes_in, over};
ghost use Rattle.model.specs.State.{fresh_module};
ghost use Rattle.model.specs.Numbers.{refusal_in};
ghost use Rattle.model.specs.Refusals.{silent, buffer_short};
ghost use Rattle.model.specs.Wire.{frame_handled, frame_call};
ghost use Rattle.model.specs.Calls.{sample_call, temperature_call, spinel_call, modbus_call, answer_of, Answered};
ghost use Rattle.model.specs.Demand1.{RefusalsHold};
ghost use Rattle.model.specs.Cycles.{CyclesConserved, CyclesConservedFrom};
ghost use Rattle.model.specs.Alone.{OneInputAlone};
ghost use Rattle.model.specs.Linked.{LinksAside, LinksApart, PulsesEndByLinks};
ghost use Rattle.sampling.specs.Parts.{bytes_of};

use modbus::ModbusWire;
use model::{Answer, Module, Refusal};
use outcomes::Handled;
use sampling::NoticeFrame;
use spinel::SpinelWire;
use text_port::TextWire;
use wires::Wire;

// The fifth call: the fresh state.
pub fn fresh() -> Module
    ensures { result ≡ fresh_module }
{
    startup::fresh()
}

// Condition 1: the lent buffer could not take a frame of 256 bytes.
fn is_short(room: usize) -> bool
    ensures { result ≡ buffer_short room }
{
    room < 256
}

// Refusal 1.
fn no_room(m: Module) -> Answer
    ensures { result ≡ answer_of (silent 1 m) }
{
    outcomes::silenced(Refusal::ShortBuffer.number(), m)
}

// Bytes to the lent buffer, by the one line that writes it; and how many they are.
fn write_out(bytes: &[u8], reply: &mut [u8]) -> usize
    requires { length bytes.now ≤ length reply.old }
    ensures value { result ≡ length bytes.now }
    ensures reply_after { reply.new ≡ over bytes.now reply.old }
{
    reply[..bytes.len()].copy_from_slice(bytes);
    bytes.len()
}

// The answer to a frame that was handled, and its reply written.
fn reply_out(h: Handled, reply: &mut [u8]) -> Answer
    requires { (h.reply.len ≤ 256) × (h.reply.len ≤ length reply.old) }
    ensures value { result ≡ record { refusal = refusal_in h.refusal; len = h.reply.len; after = h.after } }
    ensures reply_after { reply.new ≡ over (bytes_in h.reply) reply.old }
{
    let len = write_out(h.reply.as_slice(), reply);
    Answer {
        refusal: h.refusal.map_or(0, Refusal::number),
        len,
        after: h.after,
    }
}

// The notice of a sample written, where there is one; how many bytes it has.
fn notice_out(notice: Option<NoticeFrame>, reply: &mut [u8]) -> usize
    requires { 25 ≤ length reply.old }
    ensures value { result ≡ length (bytes_of notice) }
    ensures reply_after { reply.new ≡ over (bytes_of notice) reply.old }
{
    match notice {
        Some(NoticeFrame::Binary(frame)) => write_out(&frame, reply),
        Some(NoticeFrame::Text(frame)) => write_out(&frame, reply),
        None => 0,
    }
}

// A frame of any bytes on either port: refusal 1, else what the frame comes to.
#[tactic(auto, unfolding(model::specs::Wire::frame_call))]
fn frame_call<W: Wire>(m: Module, frame: &[u8], reply: &mut [u8]) -> Answer
    requires { length (frame_handled W.wire frame.now m).reply ≤ 256 }
    ensures { Answered (frame_call W.wire (length reply.old) frame.now m) result reply.old reply.new }
{
    if is_short(reply.len()) {
        return no_room(m);
    }
    reply_out(wires::handle::<W>(m, frame), reply)
}

// The millisecond sample: sixteen bits, bit 0 for input 1. Inlined: a caller that makes many keeps the state in place.
#[inline(always)]
#[tactic(auto, unfolding(model::specs::Calls::sample_call))]
pub fn sample(m: Module, bits: u16, reply: &mut [u8]) -> Answer
    ensures { Answered (sample_call (length reply.old) bits m) result reply.old reply.new }
{
    if is_short(reply.len()) {
        return no_room(m);
    }
    let s = sampling::handle(m, bits);
    let len = notice_out(s.notice, reply);
    Answer {
        refusal: 0,
        len,
        after: s.after,
    }
}

// The temperature sample: whether the value is good, and its tenths, which 01 gives with a bad one too. It has no buffer and no
// refusal.
#[tactic(auto, unfolding(model::specs::Calls::temperature_call))]
pub fn temperature(m: Module, good: bool, tenths: i16) -> Answer
    ensures { result ≡ answer_of (temperature_call 0 good tenths m) }
{
    Answer {
        refusal: 0,
        len: 0,
        after: sampling::heat(m, good, tenths),
    }
}

// A frame on the Spinel port, text or binary by its first two bytes (E2). Not inlined, nor is the next: in a loop of calls its
// values would be cleared at each.
#[inline(never)]
#[tactic(auto, using(crate::proofs::Frames::spinel_room, crate::proofs::Frames::text_room))]
pub fn spinel(m: Module, frame: &[u8], reply: &mut [u8]) -> Answer
    ensures { Answered (spinel_call (length reply.old) frame.now m) result reply.old reply.new }
{
    if text_frames::is_text(frame) {
        return frame_call::<TextWire>(m, frame, reply);
    }
    frame_call::<SpinelWire>(m, frame, reply)
}

// A frame on the Modbus port.
#[inline(never)]
#[tactic(auto, using(crate::proofs::Frames::modbus_room))]
pub fn modbus(m: Module, frame: &[u8], reply: &mut [u8]) -> Answer
    ensures { Answered (modbus_call (length reply.old) frame.now m) result reply.old reply.new }
{
    frame_call::<ModbusWire>(m, frame, reply)
}

// Demand 1: of every call in every state, by which number it is refused and what a refusal leaves, in the definitions that the
// calls above promise. It does nothing.
#[tactic(auto, using(model::proofs::Refused::refusals_hold))]
pub fn refusals_hold()
    ensures { RefusalsHold }
{}

// Demand 3: over every list of these calls from the fresh state, edges are collected plus counter. It does nothing.
#[tactic(auto, using(model::proofs::Conservation::conserved))]
pub fn cycles_conserved()
    ensures { CyclesConserved }
{}

// The same from any state and tally that agree in an input (E4), of which the fresh ones are a case. It does nothing.
#[tactic(auto, using(model::proofs::Conservation::conserved_from))]
pub fn cycles_conserved_from()
    ensures { CyclesConservedFrom }
{}

// E3: what samples make of an input goes by the sampling number and by that input alone. It does nothing.
pub fn one_input_alone()
    ensures { OneInputAlone }
{}

// E8: of all that a sample changes and tells, only outputs go by links. It does nothing.
#[tactic(auto, using(model::proofs::Linked::links_aside))]
pub fn links_aside()
    ensures { LinksAside }
{}

// E8: after any calls no output has a link and an active thermostat. It does nothing.
#[tactic(auto, using(model::proofs::Linked::links_apart))]
pub fn links_apart()
    ensures { LinksApart }
{}

// E8: a sample ends a pulse by a link where the link acts, and nowhere else. It does nothing.
#[tactic(auto, using(model::proofs::Linked::pulses_end_by_links))]
pub fn pulses_end_by_links()
    ensures { PulsesEndByLinks }
{}
