// What setpoints of either port come to, judged and put in place; and the reading that 51H shows.
#![tactic(auto)]

ghost use Rattle.std.specs.Prelude.{◌≡◌};
ghost use mathlib.Core.List.{foldl};
ghost use Rattle.lists.specs.Data.{data_of};
ghost use Rattle.lists.specs.Tests.{all, any};
ghost use Rattle.model.specs.Temperature.{action_fits, thermostat_fits, reading_shown, read_temperature};
ghost use Rattle.model.specs.Numbers.{refused_by};
ghost use Rattle.encoding.specs.Answers.{told, told_of};
ghost use Rattle.thermostat_effects.specs.Parts.{setpoint_fits, setpoint_clashes, setpoint_put, setpoints_refusal};

use holding::Action;
use lists::Data;
use model::{Link, Reading, Refusal, Thermostat};
use setpoints::Setpoint;

// Whether its action is allowed: pulses take a time, and go with no third S.
fn action_fits(h: Thermostat) -> bool
    ensures { result ≡ action_fits h }
{
    match holding::action_of(h) {
        Action::On | Action::Off => true,
        Action::OnPulse | Action::OffPulse => !holding::has_third_s(h) & (h.time.0 != 0),
    }
}

// Whether a thermostat's settings are allowed.
#[tactic(auto, unfolding(model::specs::Temperature::thermostat_fits))]
fn fits(h: Thermostat) -> bool
    ensures { result ≡ thermostat_fits h }
{
    let settable = (h.tempy <= h.tempx) & action_fits(h);
    (h.err <= 2) & (!holding::is_active(h) | ((holding::sensor_of(h) == 1) & settable))
}

// Whether a setpoint has the number of an output and settings that are allowed.
#[tactic(auto, unfolding(crate::specs::Parts::setpoint_fits))]
fn setpoint_fits(e: &Setpoint) -> bool
    ensures { result ≡ setpoint_fits e.now }
{
    number_lists::is_number(e.number) & fits(e.thermostat)
}

// Whether every setpoint fits.
fn all_fit(es: &[Setpoint]) -> bool
    ensures { result ≡ all setpoint_fits es.now }
{
    es.iter().all(setpoint_fits)
}

// Whether a setpoint is of an active thermostat for an output that has a link.
#[tactic(auto, unfolding(crate::specs::Parts::setpoint_clashes))]
fn clashes(ls: &[Link; 16], e: &Setpoint) -> bool
    ensures { result ≡ setpoint_clashes ls.now e.now }
{
    holding::clashes(holding::link_at(ls, e.number), e.thermostat)
}

// Whether some setpoint is.
fn some_clash(ls: &[Link; 16], es: &[Setpoint]) -> bool
    ensures { result ≡ any (setpoint_clashes ls.now) es.now }
{
    es.iter().any(|e| clashes(ls, e))
}

// Why setpoints are refused, by the links beside them: every value is judged before any link.
#[tactic(auto, unfolding(crate::specs::Parts::setpoints_refusal))]
pub fn thermostats_refusal(ls: &[Link; 16], es: &[Setpoint]) -> Result<(), Refusal>
    ensures { refused_by result ≡ setpoints_refusal ls.now es.now }
{
    encoding::refused_if(!all_fit(es), Refusal::Value)?;
    encoding::refused_if(some_clash(ls, es), Refusal::Clash)
}

// The thermostats after a setpoint.
#[tactic(auto, unfolding(crate::specs::Parts::setpoint_put))]
fn put(hs: [Thermostat; 16], e: &Setpoint) -> [Thermostat; 16]
    ensures { result ≡ setpoint_put hs e.now }
{
    encoding::with_element(hs, encoding::index_of(e.number), e.thermostat)
}

// The thermostats after all setpoints, in turn.
pub fn set_thermostats(hs: [Thermostat; 16], es: &[Setpoint]) -> [Thermostat; 16]
    ensures { result ≡ foldl setpoint_put hs es.now }
{
    es.iter().fold(hs, put)
}

// The reading -----------------------------------------------------------------------------

// The reading as 51H shows it.
fn show_reading(r: Reading) -> Data
    ensures { result ≡ data_of (reading_shown r) }
{
    match r {
        Reading::Valid(t, _) => {
            encoding::push16(
                encoding::empty().push(1).push(0x80),
                encoding::pattern_of(t),
            )
        }
        Reading::Fault => { encoding::push16(encoding::empty().push(1).push(0), 0) }
    }
}

// 51H: the reading.
pub fn read_temperature(d: &[u8], r: Reading) -> Result<Data, Refusal>
    ensures { told result ≡ told_of (read_temperature d.now r) }
{
    encoding::refused_if(d.len() != 1, Refusal::DataLength)?;
    encoding::refused_if(1 < encoding::at(d, 0), Refusal::Value)?;
    Ok(show_reading(r))
}
