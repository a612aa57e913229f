// What a write of registers 500 up or of coils comes to for the outputs: decoded, judged, applied.
#![tactic(auto)]

ghost use Rattle.std.specs.Prelude.{◌≡◌, not, ◌||◌, [], ◌∷◌, ◌/◌, eqb};
ghost use Rattle.model.specs.State.{with_outputs};
ghost use Rattle.model.specs.Refusals.{refuse, on_part, judged};
ghost use Rattle.model.specs.Registers.{write_pulse, write_coils};
ghost use Rattle.model.specs.Modbus.{words, bits_from};
ghost use Rattle.outcomes.specs.Parts.{outcome, served_of};

use lists::Entry;
use model::{HalfSeconds, Module, Refusal};
use outcomes::Served;
use output_effects::Holders;

// Registers 500 to 515: a single one, whose high byte is the first state (FF or 00) and low byte the time.
#[tactic(auto, using(crate::proofs::Writes::no_register, crate::proofs::Writes::no_pulse_state, crate::proofs::Writes::pulse_refused, crate::proofs::Writes::pulse_done))]
pub fn write_pulse(m: Module, a: u16, d: &[u8]) -> Result<Served, Refusal>
    ensures { outcome m result ≡ served_of (judged m (on_part (with_outputs m) (write_pulse m.reading m.settings.thermostats a (words d.now) m.outputs))) }
{
    let count = d.len() / 2;
    let wrong = groups::is_outside(groups::OUTPUTS, a, count) | (count != 1);
    encoding::refused_if(wrong, Refusal::Range)?;
    let v = encoding::word_from(d, 0);
    let no_state = (v / 256 != 0xFF) & (v / 256 != 0x00);
    encoding::refused_if(no_state, Refusal::Value)?;
    let time = HalfSeconds(encoding::low_byte(v));
    let es = [Entry {
        number: groups::number(groups::OUTPUTS, a),
        value: u32::from(v / 0xFF00),
    }];
    output_effects::pulse_refusal(time, &Holders::of(&m), &es)?;
    Ok(Served::without_data(outcomes::with_outputs(m, output_effects::pulse(time, m.outputs, &es))))
}

// 05: one coil, on by FF00, off by 0000.
#[tactic(auto, using(crate::proofs::Writes::no_coil, crate::proofs::Writes::no_coil_state, crate::proofs::Writes::coil_refused, crate::proofs::Writes::coil_done))]
pub fn write_coil(m: Module, a: u16, v: u16) -> Result<Served, Refusal>
    ensures { outcome m result ≡ served_of (judged m (on_part (with_outputs m) (refuse 11 (not (eqb v 0xFF00 || eqb v 0x0000)) (write_coils m.reading m.settings.thermostats a (v / 0xFF00 ∷ []) m.outputs)))) }
{
    let wrong = groups::is_outside(groups::BITS, a, 1);
    encoding::refused_if(wrong, Refusal::Range)?;
    let no_state = (v != 0xFF00) & (v != 0x0000);
    encoding::refused_if(no_state, Refusal::Value)?;
    let es = [Entry {
        number: groups::number(groups::BITS, a),
        value: u32::from(v / 0xFF00),
    }];
    output_effects::switch_refusal(&Holders::of(&m), &es)?;
    Ok(Served::without_data(outcomes::with_outputs(m, output_effects::set(m.outputs, &es))))
}

// 0F: n coils from coil a on, each by its bit.
#[tactic(auto, using(crate::proofs::Writes::no_coils, crate::proofs::Writes::coils_refused, crate::proofs::Writes::coils_done))]
pub fn write_coils(m: Module, a: u16, n: u16, d: &[u8]) -> Result<Served, Refusal>
    ensures { outcome m result ≡ served_of (judged m (on_part (with_outputs m) (write_coils m.reading m.settings.thermostats a (bits_from 0 n d.now) m.outputs))) }
{
    encoding::refused_if(
        groups::is_outside(groups::BITS, a, usize::from(n)),
        Refusal::Range,
    )?;
    let coils = decoders::coils(a, n, d);
    let es = coils.as_slice();
    output_effects::switch_refusal(&Holders::of(&m), es)?;
    Ok(Served::without_data(outcomes::with_outputs(m, output_effects::set(m.outputs, es))))
}
