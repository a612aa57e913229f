// What Spinel's instructions come to for the thermostats, and what they read of the temperature: decoded, judged, applied.
#![tactic(auto)]

ghost use Rattle.std.specs.Prelude.{◌≡◌};
ghost use Rattle.model.specs.State.{with_thermostats};
ghost use Rattle.model.specs.Refusals.{on_part, reading, judged};
ghost use Rattle.model.specs.Temperature.{read_temperature, set_thermostats, read_thermostats};
ghost use Rattle.outcomes.specs.Parts.{outcome, served_of};

use model::{Module, Refusal};
use outcomes::Served;

// 1AH. A function for this and for 6AH would take their effects as closures: 01 has a small one for each.
#[tactic(auto, using(crate::proofs::Groups::no_groups, crate::proofs::Groups::groups_refused, crate::proofs::Groups::groups_set))]
pub fn set_thermostats(m: Module, d: &[u8]) -> Result<Served, Refusal>
    ensures { outcome m result ≡ served_of (judged m (on_part (with_thermostats m) (set_thermostats m.settings.links d.now m.settings.thermostats))) }
{
    encoding::refused_if(!number_lists::items_of(8, d.len()), Refusal::DataLength)?;
    let groups = setpoints::from_groups(d);
    let es = groups.as_slice();
    thermostat_effects::thermostats_refusal(&m.settings.links, es)?;
    let hs = thermostat_effects::set_thermostats(m.settings.thermostats, es);
    Ok(Served::without_data(outcomes::with_thermostats(m, hs)))
}

// 1BH
#[tactic(auto, using(outcomes::proofs::Laws::told_law))]
pub fn read_thermostats(m: Module, d: &[u8]) -> Result<Served, Refusal>
    ensures { outcome m result ≡ served_of (judged m (reading m (read_thermostats d.now m.settings.thermostats))) }
{
    outcomes::told(m, spinel_reads::read_thermostats(d, m.settings.thermostats))
}

// 51H
#[tactic(auto, using(outcomes::proofs::Laws::told_law))]
pub fn read_temperature(m: Module, d: &[u8]) -> Result<Served, Refusal>
    ensures { outcome m result ≡ served_of (judged m (reading m (read_temperature d.now m.reading))) }
{
    outcomes::told(m, thermostat_effects::read_temperature(d, m.reading))
}
