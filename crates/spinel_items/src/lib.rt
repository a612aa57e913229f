// What Spinel shows of one input or output, after the reply so far: its pulse, preset, mode, link or thermostat.
#![tactic(auto)]

ghost use Rattle.std.specs.Prelude.{◌≡◌, cond, ◌+◌, ◌<◌};
ghost use Rattle.lists.specs.Data.{extended};
ghost use Rattle.model.specs.Counters.{mode_shown};
ghost use Rattle.model.specs.Links.{link_shown};
ghost use Rattle.model.specs.Outputs.{pulse_shown, preset_shown, mode_byte};
ghost use Rattle.model.specs.Temperature.{group_shown};
ghost use Rattle.spinel_items.specs.Shown.{settings_shown};

use lists::Data;
use model::{Link, Output, Preset, Thermostat};

// A set byte: bit 7 and the number.
fn set_byte(on: bool, n: u8) -> u8
    requires { cond on 128 0 + n < 256 }
    ensures { result ≡ cond on 128 0 + n }
{
    if on { 128 + n } else { n }
}

// Set byte and remaining time of output n, behind the reply so far: the two are what a list read passes on.
#[tactic(auto, unfolding(model::specs::Outputs::pulse_shown, lists::specs::Data::extended))]
pub fn show_pulse(os: [Output; 16], n: u8, out: Data) -> Data
    ensures { result ≡ extended out (pulse_shown os n) }
{
    let o = encoding::element(&os, encoding::index_of(n), Output::FRESH);
    let first = out.push(set_byte(o.on, n));
    first.push(outputs::remaining_time(o.left))
}

// Type and time of preset n.
#[tactic(auto, unfolding(model::specs::Outputs::preset_shown, lists::specs::Data::extended))]
pub fn show_preset(ps: [Preset; 16], n: u8, out: Data) -> Data
    ensures { result ≡ extended out (preset_shown ps n) }
{
    let p = preset_effects::preset_at(ps, n);
    out.push(p.kind).push(p.time.0)
}

// Mode byte of output n: A0H with the third S, SS and K of an active thermostat, else the preset's type.
#[tactic(auto, unfolding(model::specs::Outputs::mode_byte, lists::specs::Data::extended))]
pub fn show_mode(hs: [Thermostat; 16], ps: [Preset; 16], n: u8, out: Data) -> Data
    ensures { result ≡ extended out (mode_byte hs ps n) }
{
    let h = output_effects::thermostat_at(&hs, usize::from(n));
    if holding::is_active(h) {
        return out.push(0xA0 + holding::setting_shown(h));
    }
    let p = preset_effects::preset_at(ps, n);
    out.push(p.kind)
}

// Input and action of the link of output n.
#[tactic(auto, unfolding(model::specs::Links::link_shown, lists::specs::Data::extended))]
pub fn show_link(ls: [Link; 16], n: u8, out: Data) -> Data
    ensures { result ≡ extended out (link_shown ls n) }
{
    let l = holding::link_at(&ls, n);
    out.push(l.input).push(l.action)
}

// Mode of input n.
#[tactic(auto, unfolding(model::specs::Counters::mode_shown, lists::specs::Data::extended))]
pub fn show_input_mode(ms: [u8; 16], n: u8, out: Data) -> Data
    ensures { result ≡ extended out (mode_shown ms n) }
{
    out.push(encoding::element(&ms, encoding::index_of(n), 0))
}

// A thermostat's group, its eight bytes in turn.
#[tactic(auto, unfolding(lists::specs::Data::extended, lists::specs::Numbers::bytes))]
fn show_settings(h: Thermostat, n: u8, out: Data) -> Data
    ensures { result ≡ extended out (settings_shown n h) }
{
    let head = out.push(n).push(h.flags);
    let x = encoding::push16(head, encoding::pattern_of(h.tempx));
    let y = encoding::push16(x, encoding::pattern_of(h.tempy));
    y.push(h.time.0).push(h.err)
}

// The group of output n.
#[tactic(auto, unfolding(model::specs::Temperature::group_shown))]
pub fn show_group(hs: [Thermostat; 16], n: u8, out: Data) -> Data
    ensures { result ≡ extended out (group_shown hs n) }
{
    let h = output_effects::thermostat_at(&hs, usize::from(n));
    show_settings(h, n, out)
}
