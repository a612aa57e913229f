// What a write of registers 0 to 2 comes to for the Modbus port: decoded, judged, applied.
#![tactic(auto)]

ghost use Rattle.std.specs.Prelude.{◌≡◌};
ghost use Rattle.model.specs.State.{with_modbus};
ghost use Rattle.model.specs.Refusals.{on_part, judged};
ghost use Rattle.model.specs.Registers.{write_permission, write_port};
ghost use Rattle.model.specs.Modbus.{words};
ghost use Rattle.outcomes.specs.Parts.{outcome, served_of};

use model::{Module, Refusal};
use outcomes::Served;

// Register 0
#[tactic(auto, using(crate::proofs::Writes::no_permission, crate::proofs::Writes::permission_unfit, crate::proofs::Writes::permission_given))]
pub fn write_permission(m: Module, single: bool, a: u16, d: &[u8]) -> Result<Served, Refusal>
    ensures { outcome m result ≡ served_of (judged m (on_part (with_modbus m) (write_permission single a (words d.now) m.modbus))) }
{
    let wrong = groups::is_outside(groups::PERMISSION, a, d.len() / 2) | !single;
    encoding::refused_if(wrong, Refusal::Range)?;
    encoding::refused_if(decoders::value_at(d, 0) != 0x00FF, Refusal::Value)?;
    let port = port_effects::permitted(m.modbus, true);
    Ok(Served::without_data(outcomes::with_modbus(m, port)))
}

// Registers 1 to 2: address and speed, then the reset.
#[tactic(auto, using(crate::proofs::Writes::no_port, crate::proofs::Writes::port_closed, crate::proofs::Writes::port_unfit, crate::proofs::Writes::port_set))]
pub fn write_port(m: Module, permitted: bool, a: u16, d: &[u8]) -> Result<Served, Refusal>
    ensures { outcome m result ≡ served_of (judged m (write_port permitted a (words d.now) m)) }
{
    let outside = groups::is_outside(groups::PORT, a, d.len() / 2);
    encoding::refused_if(outside, Refusal::Range)?;
    encoding::refused_if(!permitted, Refusal::Permission)?;
    let decoded = decoders::registers(groups::PORT, a, d);
    let es = decoded.as_slice();
    port_effects::fields_refusal(es)?;
    let port = port_effects::set_fields(m.modbus, es);
    let set = outcomes::with_modbus(m, port);
    Ok(Served::without_data(startup::reset_state(set)))
}
