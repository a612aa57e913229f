// What requests do to the presets, and what a preset that is started does to its output.
#![tactic(auto)]

ghost use Rattle.std.specs.Prelude.{◌≡◌};
ghost use mathlib.Core.List.{List, foldl};
ghost use Rattle.lists.specs.Tests.{all};
ghost use Rattle.lists.specs.Chunks.{chunks};
ghost use Rattle.model.specs.declared.Output.{Output as OutputOf};
ghost use Rattle.model.specs.declared.Preset.{Preset as PresetOf};
ghost use Rattle.model.specs.Numbers.{refused_by};
ghost use Rattle.model.specs.Refusals.{refusal_of};
ghost use Rattle.model.specs.Temperature.{free_at};
ghost use Rattle.model.specs.Outputs.{preset_settable, set_preset, set_presets, preset_of, start_preset, preset_ready, start_presets};

use model::{HalfSeconds, Output, Preset, Refusal};
use output_effects::Holders;

// The preset of a number; 0, which is refused before, is taken for 1, and behind the last stands a fresh one. `element` is what
// this has in common with `output_effects::thermostat_at`.
pub fn preset_at(ps: [Preset; 16], n: u8) -> Preset
    ensures { result ≡ preset_of ps n }
{
    encoding::element(&ps, encoding::index_of(n), Preset::FRESH)
}

// Whether preset n can be started: one of type 0 cannot.
#[tactic(auto, unfolding(model::specs::Outputs::preset_ready))]
fn is_ready(ps: [Preset; 16], n: u8) -> bool
    ensures { result ≡ preset_ready ps n }
{
    let p = preset_at(ps, n);
    number_lists::is_number(n) & (p.kind != 0)
}

// Whether every preset of the list can be started.
fn all_ready(ps: [Preset; 16], d: &[u8]) -> bool
    ensures { result ≡ all (preset_ready ps) d.now }
{
    d.iter().all(|n| is_ready(ps, *n))
}

// Whether no output of the list is held.
fn all_free(holders: &Holders, d: &[u8]) -> bool
    ensures { result ≡ all (free_at holders.now.reading holders.now.thermostats) d.now }
{
    d.iter().all(|n| holders.is_free(usize::from(*n)))
}

// 25H: why presets are not started, whatever the outputs.
#[tactic(auto, using(crate::proofs::Lengths::lengths), unfolding(model::specs::Outputs::start_presets, model::specs::Refusals::refusal_of))]
pub fn start_refusal(ps: [Preset; 16], holders: &Holders, d: &[u8]) -> Result<(), Refusal>
    ensures { (os : List OutputOf) → refused_by result ≡ refusal_of (start_presets ps holders.now.reading holders.now.thermostats d.now os) }
{
    encoding::refused_if(!number_lists::items_of(1, d.len()), Refusal::DataLength)?;
    encoding::refused_if(!all_ready(ps, d), Refusal::Value)?;
    encoding::refused_if(!all_free(holders, d), Refusal::Held)
}

// Preset n started: type 2 is on first.
#[tactic(auto, unfolding(model::specs::Outputs::start_preset))]
fn start_preset(ps: [Preset; 16], os: [Output; 16], n: u8) -> [Output; 16]
    ensures { result ≡ start_preset ps os n }
{
    let p = preset_at(ps, n);
    let samples = outputs::half_second_samples(p.time);
    output_effects::switch_at(os, encoding::index_of(n), p.kind == 2, samples)
}

// The outputs after every preset of the list.
pub fn start(ps: [Preset; 16], os: [Output; 16], d: &[u8]) -> [Output; 16]
    ensures { result ≡ foldl (start_preset ps) os d.now }
{
    d.iter().fold(
        os,
        |copy, n|
            ensures { result ≡ start_preset ps copy n.now }
        { start_preset(ps, copy, *n) },
    )
}

// Whether a triple of output, type and time can be set: type 0, or 2 or 3 with a time of 1 to 255.
// The type is judged as the byte that is stored, for the reason at `model::Preset`.
#[tactic(auto, unfolding(model::specs::Outputs::preset_settable, lists::specs::Tests::within))]
fn is_settable(t: &[u8]) -> bool
    ensures { result ≡ preset_settable t.now }
{
    let kind = encoding::at(t, 1);
    let has_time = 1 <= encoding::at(t, 2);
    number_lists::is_number(encoding::at(t, 0))
        & ((kind == 0) | (((kind == 2) | (kind == 3)) & has_time))
}

// Whether every triple can be set.
fn all_settable(d: &[u8]) -> bool
    ensures { result ≡ all preset_settable (chunks 3 d.now) }
{
    d.chunks_exact(3).all(is_settable)
}

// 26H: why triples are not set, whatever the presets.
#[tactic(auto, using(crate::proofs::Lengths::lengths), unfolding(model::specs::Outputs::set_presets, model::specs::Refusals::refusal_of))]
pub fn presets_refusal(d: &[u8]) -> Result<(), Refusal>
    ensures { (ps : List PresetOf) → refused_by result ≡ refusal_of (set_presets d.now ps) }
{
    encoding::refused_if(!number_lists::items_of(3, d.len()), Refusal::DataLength)?;
    encoding::refused_if(!all_settable(d), Refusal::Value)
}

// The presets after one triple.
#[tactic(auto, unfolding(model::specs::Outputs::set_preset))]
fn set_preset(ps: [Preset; 16], t: &[u8]) -> [Preset; 16]
    ensures { result ≡ set_preset ps t.now }
{
    let time = HalfSeconds(encoding::at(t, 2));
    let p = Preset {
        kind: encoding::at(t, 1),
        time,
    };
    encoding::with_element(ps, encoding::index_of(encoding::at(t, 0)), p)
}

// The presets after every triple.
pub fn set_presets(ps: [Preset; 16], d: &[u8]) -> [Preset; 16]
    ensures { result ≡ foldl set_preset ps (chunks 3 d.now) }
{
    d.chunks_exact(3).fold(ps, set_preset)
}
