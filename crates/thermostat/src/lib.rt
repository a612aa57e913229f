// One thermostat, and the thermometer: a reading from mark and tenths, what a thermostat does with a valid one, ERR at a fault.
#![tactic(auto)]

ghost use Rattle.std.specs.Prelude.{◌≡◌, ◌&&◌};
ghost use Rattle.std.specs.Int.Signed.{lt_z, le_z};
ghost use Rattle.model.specs.Temperature.{reading_of, levelled, banded, crossed, crossing, heated, failed};
ghost use Rattle.thermostat.specs.Acting.{acting};

use holding::Action;
use model::{Output, Reading, Thermostat};

// A sample's reading: valid where it is marked good and from -100 to 200 degrees, else a fault.
pub fn reading_of(good: bool, tenths: i16) -> Reading
    ensures { result ≡ reading_of good tenths }
{
    if good & ((-1000 <= tenths) & (tenths <= 2000)) {
        return Reading::Valid(tenths, tenths as f32 / 10.0);
    }
    Reading::Fault
}

// SS 00 (`above` is true) and 01 (`above` is false) without the third S: the output's state above TEMPx, the opposite below TEMPy.
fn level(above: bool, h: Thermostat, now: i16, o: Output) -> Output
    ensures { result ≡ levelled above h now o }
{
    if h.tempx < now {
        return outputs::set(above);
    }
    if now < h.tempy {
        return outputs::set(!above);
    }
    o
}

// SS 00 and 01 with the third S: on in the band and off outside, or the reverse.
#[tactic(auto, unfolding(model::specs::Temperature::banded))]
fn band(h: Thermostat, now: i16) -> Output
    ensures { result ≡ banded h now }
{
    let on = matches!(holding::action_of(h), Action::On);
    if holding::is_in_band(h, now) {
        return outputs::set(on);
    }
    outputs::set(!on)
}

// From at most TEMPx to above it.
fn rose(x: i16, last: i16, now: i16) -> bool
    ensures { result ≡ (le_z last x && lt_z x now) }
{
    (last <= x) & (x < now)
}

// From at least TEMPy to below it.
fn fell(y: i16, last: i16, now: i16) -> bool
    ensures { result ≡ (le_z y last && lt_z now y) }
{
    (y <= last) & (now < y)
}

// Whether the reading crossed its limit: TEMPx upwards (K 0) or TEMPy downwards (K 1).
fn crossed_limit(h: Thermostat, last: Reading, now: i16) -> bool
    ensures { result ≡ crossed h last now }
{
    let Reading::Valid(t, _) = last else {
        return false;
    };
    if holding::is_on_fall(h) {
        return fell(h.tempy, t, now);
    }
    rose(h.tempx, t, now)
}

// SS 10 (`on` is true) and 11 (`on` is false): a crossing starts a pulse, which lasts TIME.
fn cross(on: bool, h: Thermostat, last: Reading, now: i16, o: Output) -> Output
    ensures { result ≡ crossing on h last now o }
{
    if crossed_limit(h, last, now) {
        return outputs::start(on, outputs::second_samples(h.time));
    }
    o
}

// One output at a valid sample, by its thermostat's three S. The four parameters are the definition's: a struct of them would be made here
// to be taken apart in the next.
pub fn heat(last: Reading, now: i16, h: Thermostat, o: Output) -> Output
    ensures { result ≡ heated last now h o }
{
    if !holding::is_active(h) {
        return o;
    }
    if holding::has_third_s(h) {
        return band(h, now);
    }
    match holding::action_of(h) {
        Action::On => level(true, h, now, o),
        Action::Off => level(false, h, now, o),
        Action::OnPulse => cross(true, h, last, now, o),
        Action::OffPulse => cross(false, h, last, now, o),
    }
}

// One output at a fault sample: ERR 1 sets it off, ERR 2 on, any other leaves it.
pub fn fail(h: Thermostat, o: Output) -> Output
    ensures { result ≡ failed h o }
{
    if !holding::is_active(h) {
        return o;
    }
    match h.err {
        1 => outputs::set(false),
        2 => outputs::set(true),
        _ => o,
    }
}

// One output at a sample with this reading.
pub fn act(last: Reading, r: Reading, h: Thermostat, o: Output) -> Output
    ensures { result ≡ acting last r h o }
{
    match r {
        Reading::Valid(now, _) => heat(last, now, h, o),
        Reading::Fault => fail(h, o),
    }
}
