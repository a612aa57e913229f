// What text requests come to, code by code (02, E2): decoded, judged, applied.
#![tactic(auto)]

ghost use Rattle.std.specs.Prelude.{◌≡◌, ◌≤◌, false, [], ◌∷◌, not, cond, length, get_or, map, IfOk};
ghost use Rattle.lists.specs.Data.{data_of};
ghost use Rattle.lists.specs.Tests.{within};
ghost use Rattle.model.specs.declared.Line.{Line as LineOf};
ghost use Rattle.model.specs.State.{half_seconds, notice, port, turned_off, with_outputs, with_notice, with_spinel};
ghost use Rattle.model.specs.Samples.{input_states};
ghost use Rattle.model.specs.Refusals.{refuse, on_part, reading, judged};
ghost use Rattle.model.specs.Counters.{give_permission};
ghost use Rattle.model.specs.Outputs.{set_output, act_on, pulse_outputs, output_states};
ghost use Rattle.model.specs.Text.{typed_number, number_alone, acknowledged, read_state, set_one, pulse_one, sign, temperature_told, read_thermometer, one_character, switch_notice, tell_notice, configure, is_address, is_speed, speed_of};
ghost use Rattle.model.specs.Numbers.{refused_by};
ghost use Rattle.encoding.specs.Answers.{told, told_of};
ghost use Rattle.outcomes.specs.Parts.{outcome, served_of};

use lists::{Data, Entry};
use model::{HalfSeconds, Line, Module, Notice, Output, Port, Reading, Refusal};
use outcomes::Served;
use output_effects::Holders;

// These characters are told.
fn told_characters(told: &[u8]) -> Data
    requires { length told.now ≤ 256 }
    ensures { result ≡ data_of told.now }
{
    encoding::append(encoding::empty(), told)
}

// A request that was done is told by the digit of its ACK, 0, alone.
fn done(after: Module) -> Served
    ensures { result ≡ record { after = after; body = data_of (0x30 ∷ []) } }
{
    Served {
        after,
        body: told_characters(b"0"),
    }
}

// IR, OR, RT, IX: what is told ---------------------------------------------------------------

// A number and nothing else, that of one of so many.
#[tactic(auto, unfolding(lists::specs::Tests::within))]
fn number_up_to(t: &[u8], most: u16) -> Result<u16, Refusal>
    ensures number { refused_by result ≡ cond (not (number_alone t.now)) 8 (cond (not (within 1 most (typed_number t.now))) 11 0) }
    ensures value { IfOk result (λ n. n ≡ typed_number t.now) }
{
    let n = text_frames::number_alone(t).ok_or(Refusal::DataLength)?;
    encoding::refused_if(!(1..=most).contains(&n), Refusal::Value)?;
    Ok(n)
}

// The state of the number typed.
#[tactic(auto, using(encoding::proofs::Telling::told_refused, encoding::proofs::Telling::told_answered), unfolding(model::specs::Text::read_state, model::specs::Refusals::refusal_of))]
fn read_state(t: &[u8], states: [bool; 16]) -> Result<Data, Refusal>
    ensures { told result ≡ told_of (acknowledged (read_state t.now states)) }
{
    let n = number_up_to(t, 16)?;
    let on = encoding::element(&states, usize::from(n).saturating_sub(1), false);
    Ok(told_characters(&[b'0', replies::state_letter(on)]))
}

// The character of a temperature's sign.
fn sign(tenths: i16) -> u8
    ensures { result ≡ sign tenths }
{
    if tenths < 0 { b'-' } else { b'+' }
}

// The reading, in seven characters behind ACK 0; a fault is told by ACK 5 alone.
#[tactic(auto, unfolding(model::specs::Text::temperature_told))]
fn temperature_told(reading: Reading) -> Data
    ensures { result ≡ data_of (temperature_told reading) }
{
    let Reading::Valid(tenths, _) = reading else {
        return told_characters(b"5");
    };
    let size = tenths.unsigned_abs();
    told_characters(&[
        b'0',
        sign(tenths),
        replies::last_digit(size / 1000),
        replies::last_digit(size / 100),
        replies::last_digit(size / 10),
        b'.',
        replies::last_digit(size),
        b'C',
    ])
}

// The reading of the one thermometer.
#[tactic(auto, using(crate::proofs::Requests::thermometer_refused, crate::proofs::Requests::thermometer_told))]
fn read_thermometer(t: &[u8], reading: Reading) -> Result<Data, Refusal>
    ensures { told result ≡ told_of (read_thermometer t.now reading) }
{
    number_up_to(t, 1)?;
    Ok(temperature_told(reading))
}

// The notice's format, as a letter, or 0 where it is off.
#[tactic(auto, using(encoding::proofs::Telling::told_refused, encoding::proofs::Telling::told_answered), unfolding(model::specs::Text::tell_notice, model::specs::Refusals::refusal_of))]
fn tell_notice(t: &[u8], n: Notice) -> Result<Data, Refusal>
    ensures { told result ≡ told_of (acknowledged (tell_notice t.now n)) }
{
    encoding::no_data(t)?;
    let format = if port_effects::is_on(n) {
        n.format
    } else {
        b'0'
    };
    Ok(told_characters(&[b'0', format]))
}

// Each code on the whole module ---------------------------------------------------------------

// The sixteen stable states.
fn stable_states(a: [Line; 16]) -> [bool; 16]
    ensures { result ≡ map (λ (y : LineOf). y.stable) a }
{
    a.map(|x| x.stable)
}

// The sixteen outputs' states.
fn output_states(os: [Output; 16]) -> [bool; 16]
    ensures { result ≡ output_states os }
{
    os.map(|o| o.on)
}

// IR
#[tactic(auto, using(crate::proofs::Requests::acked_told))]
pub fn read_input(m: Module, t: &[u8]) -> Result<Served, Refusal>
    ensures { outcome m result ≡ served_of (judged m (acknowledged (reading m (read_state t.now (input_states m.inputs))))) }
{
    outcomes::told(m, read_state(t, stable_states(m.inputs.lines)))
}

// OR
#[tactic(auto, using(crate::proofs::Requests::acked_told))]
pub fn read_output(m: Module, t: &[u8]) -> Result<Served, Refusal>
    ensures { outcome m result ≡ served_of (judged m (acknowledged (reading m (read_state t.now (output_states m.outputs))))) }
{
    outcomes::told(m, read_state(t, output_states(m.outputs)))
}

// One output set.
#[tactic(auto, using(crate::proofs::Requests::set_refused, crate::proofs::Requests::set_done))]
fn switch_one(m: Module, e: Entry) -> Result<Served, Refusal>
    ensures { outcome m result ≡ served_of (judged m (acknowledged (on_part (with_outputs m) (act_on set_output m.reading m.settings.thermostats (e ∷ []) m.outputs)))) }
{
    let es = [e];
    output_effects::switch_refusal(&Holders::of(&m), &es)?;
    Ok(done(outcomes::with_outputs(m, output_effects::set(m.outputs, &es))))
}

// OS: as 20H.
#[tactic(auto, using(crate::proofs::Requests::set_wrong, crate::proofs::Requests::set_passed))]
pub fn set_output(m: Module, t: &[u8]) -> Result<Served, Refusal>
    ensures { outcome m result ≡ served_of (judged m (acknowledged (on_part (with_outputs m) (set_one m.reading m.settings.thermostats t.now m.outputs)))) }
{
    match text_frames::state_alone(t) {
        Some(entry) => switch_one(m, entry),
        None => Err(Refusal::DataLength),
    }
}

// One output pulsed.
#[tactic(auto, using(crate::proofs::Requests::pulse_refused, crate::proofs::Requests::pulse_done))]
fn start_one(m: Module, time: HalfSeconds, e: Entry) -> Result<Served, Refusal>
    ensures { outcome m result ≡ served_of (judged m (acknowledged (on_part (with_outputs m) (pulse_outputs time m.reading m.settings.thermostats (e ∷ []) m.outputs)))) }
{
    let es = [e];
    output_effects::pulse_refusal(time, &Holders::of(&m), &es)?;
    Ok(done(outcomes::with_outputs(m, output_effects::pulse(time, m.outputs, &es))))
}

// The same for any time: one over 255 is refused 11.
#[tactic(auto, using(crate::proofs::Requests::pulse_over))]
fn pulse_for(m: Module, time: u16, e: Entry) -> Result<Served, Refusal>
    ensures { outcome m result ≡ served_of (judged m (acknowledged (on_part (with_outputs m) (pulse_outputs (half_seconds time) m.reading m.settings.thermostats (e ∷ []) m.outputs)))) }
{
    match u8::try_from(time) {
        Ok(time) => start_one(m, HalfSeconds(time), e),
        Err(_) => Err(Refusal::Value),
    }
}

// OT, OST: as 23H.
#[tactic(auto, using(crate::proofs::Requests::pulse_wrong, crate::proofs::Requests::pulse_passed))]
pub fn pulse_output(m: Module, t: &[u8]) -> Result<Served, Refusal>
    ensures { outcome m result ≡ served_of (judged m (acknowledged (on_part (with_outputs m) (pulse_one m.reading m.settings.thermostats t.now m.outputs)))) }
{
    match text_frames::state_and_time(t) {
        Some((entry, time)) => pulse_for(m, time, entry),
        None => Err(Refusal::DataLength),
    }
}

// RT
#[tactic(auto, using(outcomes::proofs::Laws::told_law))]
pub fn read_temperature(m: Module, t: &[u8]) -> Result<Served, Refusal>
    ensures { outcome m result ≡ served_of (judged m (reading m (read_thermometer t.now m.reading))) }
{
    outcomes::told(m, read_thermometer(t, m.reading))
}

// The notice on, as text and for all inputs, or off.
fn switched(on: bool, n: Notice) -> Notice
    ensures { result ≡ cond on (notice 0x42 0xFFFF n.signature) (turned_off n) }
{
    if on {
        Notice {
            format: b'B',
            mask: 0xFFFF,
            ..n
        }
    } else {
        port_effects::turned_off(n)
    }
}

// Whether a text is one character, a 0 or a 1.
#[tactic(auto, unfolding(lists::specs::Tests::within))]
fn is_switch(t: &[u8]) -> bool
    ensures { result ≡ one_character (within 0x30 0x31) t.now }
{
    matches!(t, [b'0' | b'1'])
}

// IS
#[tactic(auto, using(crate::proofs::Requests::notice_wrong, crate::proofs::Requests::notice_refused, crate::proofs::Requests::notice_done))]
pub fn set_notice(m: Module, t: &[u8]) -> Result<Served, Refusal>
    ensures { outcome m result ≡ served_of (judged m (acknowledged (on_part (with_notice m) (switch_notice t.now m.settings.notice)))) }
{
    encoding::refused_if(!is_switch(t), Refusal::DataLength)?;
    let n = m.settings.notice;
    let on = encoding::at(t, 0) == b'1';
    encoding::refused_if(on & port_effects::is_on(n), Refusal::Value)?;
    Ok(done(outcomes::with_notice(m, switched(on, n))))
}

// IX
#[tactic(auto, using(crate::proofs::Requests::acked_told))]
pub fn read_notice(m: Module, t: &[u8]) -> Result<Served, Refusal>
    ensures { outcome m result ≡ served_of (judged m (acknowledged (reading m (tell_notice t.now m.settings.notice)))) }
{
    outcomes::told(m, tell_notice(t, m.settings.notice))
}

// E: as E4H.
#[tactic(auto, using(crate::proofs::Requests::permission_refused, crate::proofs::Requests::permission_given))]
pub fn give_permission(m: Module, universal: bool, t: &[u8]) -> Result<Served, Refusal>
    ensures { outcome m result ≡ served_of (judged m (acknowledged (on_part (with_spinel m) (give_permission universal t.now m.spinel)))) }
{
    let served = port_instructions::give_permission(m, universal, t)?;
    Ok(done(served.after))
}

// A new address or speed, then the reset: what AS and SS share.
#[tactic(auto, using(crate::proofs::Requests::configure_closed, crate::proofs::Requests::configured))]
fn configure(m: Module, permitted: bool, universal: bool, port: Port) -> Result<Served, Refusal>
    ensures { outcome m result ≡ served_of (judged m (acknowledged (configure permitted universal port m))) }
{
    encoding::refused_if(universal | !permitted, Refusal::Permission)?;
    let set = outcomes::with_spinel(m, port);
    Ok(done(startup::reset_state(set)))
}

// Whether a text is one character that an address may be.
#[tactic(auto, unfolding(lists::specs::Tests::within))]
fn is_address(t: &[u8]) -> bool
    ensures { result ≡ one_character is_address t.now }
{
    matches!(t, [b'0'..=b'9' | b'A'..=b'Z' | b'a'..=b'z'])
}

// AS
#[tactic(auto, using(crate::proofs::Requests::configure_wrong, crate::proofs::Requests::configure_passed))]
pub fn set_address(m: Module, permitted: bool, universal: bool, t: &[u8]) -> Result<Served, Refusal>
    ensures { outcome m result ≡ served_of (judged m (acknowledged (refuse 8 (not (one_character is_address t.now)) (configure permitted universal (port (get_or t.now 0 0) m.spinel.speed false) m)))) }
{
    encoding::refused_if(!is_address(t), Refusal::DataLength)?;
    let port = Port {
        address: encoding::at(t, 0),
        speed: m.spinel.speed,
        permitted: false,
    };
    configure(m, permitted, universal, port)
}

// Whether a text is one character that tells a speed.
#[tactic(auto, unfolding(lists::specs::Tests::within))]
fn is_speed(t: &[u8]) -> bool
    ensures { result ≡ one_character is_speed t.now }
{
    matches!(t, [b'0'..=b'9' | b'A' | b'B'])
}

// The speed code that a character tells.
#[tactic(auto, unfolding(lists::specs::Tests::within))]
fn speed_of(c: u8) -> u8
    ensures { result ≡ speed_of c }
{
    if c.is_ascii_digit() {
        c - b'0'
    } else {
        c.saturating_sub(b'A' - 10)
    }
}

// SS
#[tactic(auto, using(crate::proofs::Requests::configure_wrong, crate::proofs::Requests::configure_passed))]
pub fn set_speed(m: Module, permitted: bool, universal: bool, t: &[u8]) -> Result<Served, Refusal>
    ensures { outcome m result ≡ served_of (judged m (acknowledged (refuse 8 (not (one_character is_speed t.now)) (configure permitted universal (port m.spinel.address (speed_of (get_or t.now 0 0)) false) m)))) }
{
    encoding::refused_if(!is_speed(t), Refusal::DataLength)?;
    let port = Port {
        address: m.spinel.address,
        speed: speed_of(encoding::at(t, 0)),
        permitted: false,
    };
    configure(m, permitted, universal, port)
}
