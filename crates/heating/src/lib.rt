// What the sixteen thermostats do with a reading.
#![tactic(auto)]

ghost use Rattle.std.specs.Prelude.{◌≡◌};
ghost use Rattle.model.specs.Temperature.{by_thermostat};
ghost use Rattle.thermostat.specs.Acting.{acting};
ghost use Rattle.heating.specs.Parts.{taken_parts};

use model::{Output, Reading, Thermostat};
use std::array::from_fn;

// The sixteen outputs at a sample with this reading.
fn act_all(last: Reading, r: Reading, hs: [Thermostat; 16], os: [Output; 16]) -> [Output; 16]
    ensures { result ≡ by_thermostat (acting last r) hs os }
{
    from_fn(|i| thermostat::act(last, r, hs[i], os[i]))
}

// What a temperature sample changes.
#[derive(Drop)]
pub struct Taken {
    pub outputs: [Output; 16],
    pub reading: Reading,
    pub last: Reading,
}

// A new reading: the thermostats act, and a valid one is the last valid from now on.
pub fn take_reading(os: [Output; 16], hs: [Thermostat; 16], last: Reading, r: Reading) -> Taken
    ensures { result ≡ taken_parts os hs last r }
{
    let outputs = act_all(last, r, hs, os);
    match r {
        Reading::Valid(_, _) => Taken {
            outputs,
            reading: r,
            last: r,
        },
        Reading::Fault => Taken {
            outputs,
            reading: r,
            last,
        },
    }
}
