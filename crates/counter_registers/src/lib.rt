// What a write of registers 100, 200 and 300 up comes to for the counters and the modes: decoded, judged, applied.
#![tactic(auto)]

ghost use Rattle.std.specs.Prelude.{◌≡◌};
ghost use Rattle.model.specs.State.{with_counters, with_modes};
ghost use Rattle.model.specs.Refusals.{on_part, judged};
ghost use Rattle.model.specs.Registers.{write_counters, write_deductions, write_modes};
ghost use Rattle.model.specs.Modbus.{words};
ghost use Rattle.outcomes.specs.Parts.{outcome, served_of};

use model::{Module, Refusal};
use outcomes::Served;

// Registers 100 to 115. One function for these and for the modes would take a group, two closures and their promises, which is no plainer.
#[tactic(auto, using(crate::proofs::Writes::counters_outside, crate::proofs::Writes::counters_unfit, crate::proofs::Writes::counters_done))]
pub fn write_counters(m: Module, a: u16, d: &[u8]) -> Result<Served, Refusal>
    ensures { outcome m result ≡ served_of (judged m (on_part (with_counters m) (write_counters a (words d.now) m.inputs.counters))) }
{
    let outside = groups::is_outside(groups::COUNTERS, a, d.len() / 2);
    encoding::refused_if(outside, Refusal::Range)?;
    let decoded = decoders::registers(groups::COUNTERS, a, d);
    let es = decoded.as_slice();
    counter_effects::clear_refusal(es)?;
    let counters = counter_effects::clear(m.inputs.counters, es);
    Ok(Served::without_data(outcomes::with_counters(m, counters)))
}

// Registers 200 to 215
#[tactic(auto, using(crate::proofs::Writes::deductions_outside, crate::proofs::Writes::deductions_unfit, crate::proofs::Writes::deductions_done))]
pub fn write_deductions(m: Module, a: u16, d: &[u8]) -> Result<Served, Refusal>
    ensures { outcome m result ≡ served_of (judged m (on_part (with_counters m) (write_deductions a (words d.now) m.inputs.counters))) }
{
    let count = d.len() / 2;
    let wrong = groups::is_outside(groups::DEDUCTIONS, a, count) | (12 < count);
    encoding::refused_if(wrong, Refusal::Range)?;
    let decoded = decoders::registers(groups::DEDUCTIONS, a, d);
    let es = decoded.as_slice();
    counter_effects::deduct_refusal(m.inputs.counters, es)?;
    let counters = counter_effects::deduct(m.inputs.counters, es);
    Ok(Served::without_data(outcomes::with_counters(m, counters)))
}

// Registers 300 to 315
#[tactic(auto, using(crate::proofs::Writes::modes_outside, crate::proofs::Writes::modes_unfit, crate::proofs::Writes::modes_done))]
pub fn write_modes(m: Module, a: u16, d: &[u8]) -> Result<Served, Refusal>
    ensures { outcome m result ≡ served_of (judged m (on_part (with_modes m) (write_modes a (words d.now) m.settings.modes))) }
{
    let outside = groups::is_outside(groups::MODES, a, d.len() / 2);
    encoding::refused_if(outside, Refusal::Range)?;
    let decoded = decoders::registers(groups::MODES, a, d);
    let es = decoded.as_slice();
    counter_effects::modes_refusal(es)?;
    let modes = counter_effects::set_modes(m.settings.modes, es);
    Ok(Served::without_data(outcomes::with_modes(m, modes)))
}
