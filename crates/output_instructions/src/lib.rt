// What Spinel's instructions come to for the outputs and the presets, and the states that they read: decoded, judged, applied.
#![tactic(auto)]

ghost use Rattle.std.specs.Prelude.{◌≡◌, not, map};
ghost use Rattle.model.specs.State.{with_outputs, with_presets};
ghost use Rattle.model.specs.Samples.{input_states};
ghost use Rattle.model.specs.Refusals.{refuse, on_part, reading, judged};
ghost use Rattle.model.specs.Counters.{items_of, list_read};
ghost use Rattle.model.specs.Outputs.{set_byte, set_outputs, pulse_outputs, set_pulses, start_presets, set_presets};
ghost use Rattle.model.specs.Outputs.{pulse_shown, preset_shown, mode_byte, output_states, read_states};
ghost use Rattle.outcomes.specs.Parts.{outcome, served_of};

use model::{HalfSeconds, Module, Refusal};
use outcomes::Served;
use output_effects::Holders;

// 20H. A function for this and the next would take judge and effect as closures: 01 has a small one for each.
#[tactic(auto, using(crate::proofs::Switches::no_sets, crate::proofs::Switches::sets_refused, crate::proofs::Switches::sets_done))]
pub fn set_outputs(m: Module, d: &[u8]) -> Result<Served, Refusal>
    ensures { outcome m result ≡ served_of (judged m (on_part (with_outputs m) (set_outputs m.reading m.settings.thermostats d.now m.outputs))) }
{
    encoding::refused_if(!number_lists::items_of(1, d.len()), Refusal::DataLength)?;
    let sets = decoders::set_bytes(d);
    let es = sets.as_slice();
    output_effects::switch_refusal(&Holders::of(&m), es)?;
    Ok(Served::without_data(outcomes::with_outputs(m, output_effects::set(m.outputs, es))))
}

// Pulses of one time, a set byte for each.
#[tactic(auto, using(crate::proofs::Switches::no_pulses, crate::proofs::Switches::pulses_refused, crate::proofs::Switches::pulses_done))]
fn pulse_listed(m: Module, time: HalfSeconds, d: &[u8]) -> Result<Served, Refusal>
    ensures { outcome m result ≡ served_of (judged m (on_part (with_outputs m) (refuse 8 (not (items_of 1 d.now)) (pulse_outputs time m.reading m.settings.thermostats (map set_byte d.now) m.outputs)))) }
{
    encoding::refused_if(!number_lists::items_of(1, d.len()), Refusal::DataLength)?;
    let sets = decoders::set_bytes(d);
    let es = sets.as_slice();
    output_effects::pulse_refusal(time, &Holders::of(&m), es)?;
    Ok(Served::without_data(outcomes::with_outputs(m, output_effects::pulse(time, m.outputs, es))))
}

// 23H: the time, then set bytes.
pub fn set_pulses(m: Module, d: &[u8]) -> Result<Served, Refusal>
    ensures { outcome m result ≡ served_of (judged m (on_part (with_outputs m) (set_pulses m.reading m.settings.thermostats d.now m.outputs))) }
{
    let Some((time, sets)) = d.split_first() else {
        return Err(Refusal::DataLength);
    };
    pulse_listed(m, HalfSeconds(*time), sets)
}

// 25H
#[tactic(auto, using(crate::proofs::Switches::start_refused, crate::proofs::Switches::started))]
pub fn start_presets(m: Module, d: &[u8]) -> Result<Served, Refusal>
    ensures { outcome m result ≡ served_of (judged m (on_part (with_outputs m) (start_presets m.settings.presets m.reading m.settings.thermostats d.now m.outputs))) }
{
    let ps = m.settings.presets;
    preset_effects::start_refusal(ps, &Holders::of(&m), d)?;
    Ok(Served::without_data(outcomes::with_outputs(m, preset_effects::start(ps, m.outputs, d))))
}

// 26H
#[tactic(auto, using(crate::proofs::Switches::presets_refused, crate::proofs::Switches::presets_done))]
pub fn set_presets(m: Module, d: &[u8]) -> Result<Served, Refusal>
    ensures { outcome m result ≡ served_of (judged m (on_part (with_presets m) (set_presets d.now m.settings.presets))) }
{
    preset_effects::presets_refusal(d)?;
    let ps = preset_effects::set_presets(m.settings.presets, d);
    Ok(Served::without_data(outcomes::with_presets(m, ps)))
}

// 30H
#[tactic(auto, using(outcomes::proofs::Laws::told_law, spinel_reads::proofs::States::states_told_lem))]
pub fn read_outputs(m: Module, d: &[u8]) -> Result<Served, Refusal>
    ensures { outcome m result ≡ served_of (judged m (reading m (read_states d.now (output_states m.outputs)))) }
{
    outcomes::told(
        m,
        spinel_reads::read_states(d, spinel_reads::output_bits(m.outputs)),
    )
}

// 31H
#[tactic(auto, using(outcomes::proofs::Laws::told_law, spinel_reads::proofs::States::states_told_lem), unfolding(inputs::specs::Passes::stable_bits))]
pub fn read_inputs(m: Module, d: &[u8]) -> Result<Served, Refusal>
    ensures { outcome m result ≡ served_of (judged m (reading m (read_states d.now (input_states m.inputs)))) }
{
    outcomes::told(
        m,
        spinel_reads::read_states(d, inputs::stable_bits(m.inputs.lines)),
    )
}

// 33H
#[tactic(auto, using(outcomes::proofs::Laws::told_law))]
pub fn read_pulses(m: Module, d: &[u8]) -> Result<Served, Refusal>
    ensures { outcome m result ≡ served_of (judged m (reading m (list_read (pulse_shown m.outputs) d.now))) }
{
    outcomes::told(m, spinel_reads::read_pulses(m.outputs, d))
}

// 36H
#[tactic(auto, using(outcomes::proofs::Laws::told_law))]
pub fn read_presets(m: Module, d: &[u8]) -> Result<Served, Refusal>
    ensures { outcome m result ≡ served_of (judged m (reading m (list_read (preset_shown m.settings.presets) d.now))) }
{
    outcomes::told(m, spinel_reads::read_presets(m.settings.presets, d))
}

// 38H
#[tactic(auto, using(outcomes::proofs::Laws::told_law))]
pub fn read_output_modes(m: Module, d: &[u8]) -> Result<Served, Refusal>
    ensures { outcome m result ≡ served_of (judged m (reading m (list_read (mode_byte m.settings.thermostats m.settings.presets) d.now))) }
{
    outcomes::told(
        m,
        spinel_reads::read_modes(m.settings.thermostats, m.settings.presets, d),
    )
}
