// What a write of registers 600 up comes to for the thermostats: decoded, judged, applied.
#![tactic(auto)]

ghost use Rattle.std.specs.Prelude.{◌≡◌};
ghost use Rattle.model.specs.State.{with_thermostats};
ghost use Rattle.model.specs.Refusals.{on_part, judged};
ghost use Rattle.model.specs.Registers.{write_thermostat};
ghost use Rattle.model.specs.Modbus.{words};
ghost use Rattle.outcomes.specs.Parts.{outcome, served_of};

use model::{Module, Refusal};
use outcomes::Served;

// Registers 600 to 663: flags that are no byte are refused as a setpoint that does not fit is.
#[tactic(auto, using(crate::proofs::Writes::no_place, crate::proofs::Writes::flags_wide, crate::proofs::Writes::settings_refused, crate::proofs::Writes::written))]
pub fn write_thermostat(m: Module, a: u16, d: &[u8]) -> Result<Served, Refusal>
    ensures { outcome m result ≡ served_of (judged m (on_part (with_thermostats m) (write_thermostat m.settings.links a (words d.now) m.settings.thermostats))) }
{
    encoding::refused_if(groups::no_thermostat(a, d.len() / 2), Refusal::Range)?;
    let wide = 255 < encoding::word_from(d, 0);
    encoding::refused_if(wide, Refusal::Value)?;
    let written = setpoints::from_registers(a, d);
    let es = written.as_slice();
    thermostat_effects::thermostats_refusal(&m.settings.links, es)?;
    let hs = thermostat_effects::set_thermostats(m.settings.thermostats, es);
    Ok(Served::without_data(outcomes::with_thermostats(m, hs)))
}
