// What a thermostat's flags say, whether it holds its output, and whether it can stand beside the output's link. The flags are FSSKSTTT;
// elsewhere they are only stored and shown.
#![tactic(auto)]

ghost use Rattle.std.specs.Prelude.{◌≡◌, ◌-◌, get_or};
ghost use Rattle.model.specs.State.{fresh_link, has_link};
ghost use Rattle.model.specs.Temperature.{active, action, on_fall, third_s, sensor, setting_shown, in_band, free, clash};
ghost use Rattle.holding.specs.Actions.{bits_of};

use model::{Link, Reading, Thermostat};

// F: whether it acts at all.
pub fn is_active(h: Thermostat) -> bool
    ensures { result ≡ active h }
{
    128 <= h.flags
}

// SS: what it does to its output, on or off, or a pulse that begins with on or off. Without the third S that is above TEMPx, or at a
// crossing; with it, in its band.
#[derive(Clone, Copy)]
pub enum Action {
    On,
    Off,
    OnPulse,
    OffPulse,
}

// The action of its two bits.
pub fn action_of(h: Thermostat) -> Action
    ensures { bits_of result ≡ action h }
{
    match h.flags / 32 % 4 {
        0 => Action::On,
        1 => Action::Off,
        2 => Action::OnPulse,
        _ => Action::OffPulse,
    }
}

// K: whether its pulses start below TEMPy.
pub fn is_on_fall(h: Thermostat) -> bool
    ensures { result ≡ on_fall h }
{
    h.flags / 16 % 2 == 1
}

// The third S: whether it goes by its band.
pub fn has_third_s(h: Thermostat) -> bool
    ensures { result ≡ third_s h }
{
    h.flags / 8 % 2 == 1
}

// TTT: the sensor's number.
pub fn sensor_of(h: Thermostat) -> u8
    ensures { result ≡ sensor h }
{
    h.flags % 8
}

// The third S, SS and K as 38H shows them.
pub fn setting_shown(h: Thermostat) -> u8
    ensures { result ≡ setting_shown h }
{
    let third = if has_third_s(h) { 8 } else { 0 };
    third + h.flags / 16 % 8
}

// Whether a temperature is in its band, from TEMPy to TEMPx.
pub fn is_in_band(h: Thermostat, tenths: i16) -> bool
    ensures { result ≡ in_band h tenths }
{
    (h.tempy..=h.tempx).contains(&tenths)
}

// Whether a thermostat leaves its output to commands.
#[tactic(auto, unfolding(model::specs::Temperature::free))]
pub fn is_free(r: Reading, h: Thermostat) -> bool
    ensures { result ≡ free r h }
{
    let off = !is_active(h);
    match r {
        Reading::Valid(t, _) => off | is_in_band(h, t),
        Reading::Fault => off,
    }
}

// Links ----------------------------------------------------------------------------------

// The link of an output's number; 0, which is refused before, is taken for 1, and behind the last stands a fresh one.
pub fn link_at(ls: &[Link; 16], n: u8) -> Link
    ensures { result ≡ get_or ls.now (n - 1) fresh_link }
{
    encoding::element(ls, encoding::index_of(n), Link::FRESH)
}

// Whether a link is one: action 0 is none.
pub fn is_linked(l: Link) -> bool
    ensures { result ≡ has_link l }
{
    l.action != 0
}

// Whether a link and a thermostat can't both be an output's: each would drive it.
pub fn clashes(l: Link, h: Thermostat) -> bool
    ensures { result ≡ clash l h }
{
    is_linked(l) & is_active(h)
}
