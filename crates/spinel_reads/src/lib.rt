// What requests read of numbers listed (1BH 33H 36H 38H 41H 6BH), by one loop, and all states (30H 31H).
#![tactic(auto)]

ghost use Rattle.std.specs.Prelude.{◌≡◌, ◌≤◌, ℕ, List, length};
ghost use mathlib.Core.List.{[], flat_map};
ghost use Rattle.lists.specs.Data.{data_of, extended};
ghost use Rattle.lists.specs.Numbers.{bits_number};
ghost use Rattle.model.specs.Counters.{listed, list_read, mode_shown};
ghost use Rattle.model.specs.Links.{link_shown};
ghost use Rattle.model.specs.Outputs.{pulse_shown, preset_shown, mode_byte, output_states};
ghost use Rattle.model.specs.Temperature.{group_shown, read_thermostats};
ghost use Rattle.encoding.specs.Answers.{told, told_of};
ghost use Rattle.spinel_reads.specs.Answers.{states_told};
ghost use Rattle.spinel_reads.specs.Shown.{Shows, all_if_none};

use lists::Data;
use model::{Link, Output, Preset, Refusal, Thermostat};

// The numbers listed ---------------------------------------------------------------------

// What `show` puts behind a reply for a number, of every number listed in turn.
fn show_listed<F: Fn(u8, Data) -> Data>(d: &[u8], show: F) -> Data
    requires { F.IsAlwaysCallable show }
    ensures { (bytes : ℕ → List ℕ) → Shows (F.post show) bytes → result ≡ extended (data_of []) (flat_map bytes (listed d.now)) }
{
    let mut reply = encoding::empty();
    for n in number_lists::listed(d) {
        reply = show(*n, reply);
    }
    reply
}

// A list read.
fn list_read<F: Fn(u8, Data) -> Data>(d: &[u8], show: F) -> Result<Data, Refusal>
    requires { F.IsAlwaysCallable show }
    ensures { (bytes : ℕ → List ℕ) → Shows (F.post show) bytes → ((n : ℕ) → length (bytes n) ≤ 16) → told result ≡ told_of (list_read bytes d.now) }
{
    number_lists::list_refusal(d)?;
    Ok(show_listed(d, show))
}

// 6BH: the mode of each input.
pub fn read_input_modes(ms: [u8; 16], d: &[u8]) -> Result<Data, Refusal>
    ensures { told result ≡ told_of (list_read (mode_shown ms) d.now) }
{
    list_read(d, |n, reply| spinel_items::show_input_mode(ms, n, reply))
}

// 33H: set byte and remaining time of each.
pub fn read_pulses(os: [Output; 16], d: &[u8]) -> Result<Data, Refusal>
    ensures { told result ≡ told_of (list_read (pulse_shown os) d.now) }
{
    list_read(d, |n, reply| spinel_items::show_pulse(os, n, reply))
}

// 36H: type and time of each.
pub fn read_presets(ps: [Preset; 16], d: &[u8]) -> Result<Data, Refusal>
    ensures { told result ≡ told_of (list_read (preset_shown ps) d.now) }
{
    list_read(d, |n, reply| spinel_items::show_preset(ps, n, reply))
}

// 38H: a mode byte of each.
pub fn read_modes(hs: [Thermostat; 16], ps: [Preset; 16], d: &[u8]) -> Result<Data, Refusal>
    ensures { told result ≡ told_of (list_read (mode_byte hs ps) d.now) }
{
    list_read(d, |n, reply| spinel_items::show_mode(hs, ps, n, reply))
}

// 41H: input and action of the link of each.
pub fn read_links(ls: [Link; 16], d: &[u8]) -> Result<Data, Refusal>
    ensures { told result ≡ told_of (list_read (link_shown ls) d.now) }
{
    list_read(d, |n, reply| spinel_items::show_link(ls, n, reply))
}

// The groups of the outputs listed: no data ask for all, as a single 00 does elsewhere.
fn show_groups(hs: [Thermostat; 16], d: &[u8]) -> Data
    ensures { result ≡ extended (data_of []) (flat_map (group_shown hs) (listed (all_if_none d.now))) }
{
    let all = [0];
    let asked = if d.is_empty() { &all } else { d };
    show_listed(asked, |n, reply| spinel_items::show_group(hs, n, reply))
}

// 1BH: the groups of the outputs listed, or without data of all.
pub fn read_thermostats(d: &[u8], hs: [Thermostat; 16]) -> Result<Data, Refusal>
    ensures { told result ≡ told_of (read_thermostats d.now hs) }
{
    encoding::refused_if(12 < d.len(), Refusal::DataLength)?;
    encoding::refused_if(!number_lists::all_numbers(d), Refusal::Value)?;
    Ok(show_groups(hs, d))
}

// 30H, 31H: states -----------------------------------------------------------------------

// The outputs' states as a number, output 1 lowest.
pub fn output_bits(os: [Output; 16]) -> u16
    ensures { result ≡ bits_number (output_states os) }
{
    encoding::bits_of(os.map(|o| o.on))
}

// 30H of the outputs' states, 31H of the inputs': two bytes. The request has no data.
#[tactic(auto, using(encoding::proofs::Telling::told_refused, encoding::proofs::Telling::told_answered, crate::proofs::States::states_gathered), unfolding(crate::specs::Answers::states_told, model::specs::Refusals::refusal_of))]
pub fn read_states(d: &[u8], bits: u16) -> Result<Data, Refusal>
    ensures { told result ≡ states_told d.now bits }
{
    encoding::no_data(d)?;
    Ok(encoding::push16(encoding::empty(), bits))
}
