// What requests do to the outputs: set, pulsed, or held by a thermostat; each on no more of the state than it may change.
#![tactic(auto)]

ghost use Rattle.std.specs.Prelude.{◌≡◌, ◌-◌, get_or, set};
ghost use mathlib.Core.List.{List, foldl};
ghost use Rattle.lists.specs.Tests.{all};
ghost use Rattle.lists.specs.declared.Entry.{Entry as EntryOf};
ghost use Rattle.model.specs.declared.Output.{Output as OutputOf};
ghost use Rattle.model.specs.State.{output, fresh_thermostat};
ghost use Rattle.model.specs.Numbers.{refused_by};
ghost use Rattle.model.specs.Refusals.{refusal_of};
ghost use Rattle.model.specs.Temperature.{free_at};
ghost use Rattle.model.specs.Outputs.{number_fits, set_output, start_pulse, act_on, pulse_outputs};
ghost use Rattle.output_effects.specs.Switching.{switch_one};

use lists::Entry;
use model::{HalfSeconds, Module, Output, Reading, Refusal, Thermostat};

// The thermostat of a number; 0, which is refused before, is taken for 1, and behind the last stands a fresh one.
pub fn thermostat_at(hs: &[Thermostat; 16], n: usize) -> Thermostat
    ensures { result ≡ get_or hs.now (n - 1) fresh_thermostat }
{
    encoding::element(hs, n.saturating_sub(1), Thermostat::FRESH)
}

// What may hold outputs: the thermostats, by the reading.
#[derive(Clone, Copy)]
pub struct Holders {
    pub reading: Reading,
    pub thermostats: [Thermostat; 16],
}

impl Holders {
    // Those of a module.
    pub fn of(m: &Module) -> Holders
        ensures { result ≡ record { reading = m.now.reading; thermostats = m.now.settings.thermostats } }
    {
        Holders {
            reading: m.reading,
            thermostats: m.settings.thermostats,
        }
    }

    // Whether the thermostat of output n leaves it to commands.
    #[tactic(auto, unfolding(model::specs::Temperature::free_at))]
    pub fn is_free(&self, n: usize) -> bool
        ensures { result ≡ free_at self.now.reading self.now.thermostats n }
    {
        holding::is_free(self.reading, thermostat_at(&self.thermostats, n))
    }
}

// The output at a place on or off, with so many samples of a pulse to go.
pub fn switch_at(os: [Output; 16], k: usize, on: bool, samples: u32) -> [Output; 16]
    ensures { result ≡ set os k (output on samples) }
{
    encoding::with_element(os, k, Output { on, left: samples })
}

// Switching: what either port's entries come to --------------------------------------------

// Whether no entry's output is held.
pub fn are_free(holders: &Holders, es: &[Entry]) -> bool
    ensures { result ≡ all (λ e. free_at holders.now.reading holders.now.thermostats e.number) es.now }
{
    es.iter().all(|e| holders.is_free(e.number))
}

// Whether every entry has the number of an output.
fn are_numbered(es: &[Entry]) -> bool
    ensures { result ≡ all number_fits es.now }
{
    es.iter().all(|e| entries::is_numbered(*e))
}

// Why outputs are not switched, whatever is done to them: every number is judged before any holding.
#[tactic(auto, unfolding(model::specs::Outputs::act_on, model::specs::Refusals::refusal_of))]
pub fn switch_refusal(holders: &Holders, es: &[Entry]) -> Result<(), Refusal>
    ensures { (act : List OutputOf → EntryOf → List OutputOf) (os : List OutputOf) → refused_by result ≡ refusal_of (act_on act holders.now.reading holders.now.thermostats es.now os) }
{
    encoding::refused_if(!are_numbered(es), Refusal::Value)?;
    encoding::refused_if(!are_free(holders, es), Refusal::Held)
}

// Why pulses of one time are not started: a time of 0 is none.
pub fn pulse_refusal(time: HalfSeconds, holders: &Holders, es: &[Entry]) -> Result<(), Refusal>
    ensures { (os : List OutputOf) → refused_by result ≡ refusal_of (pulse_outputs time holders.now.reading holders.now.thermostats es.now os) }
{
    encoding::refused_if(time.0 < 1, Refusal::Value)?;
    switch_refusal(holders, es)
}

// The outputs with the one that an entry names on or off, and so many samples of a pulse to go.
#[tactic(auto, unfolding(crate::specs::Switching::switch_one))]
fn switch_one(os: [Output; 16], e: Entry, samples: u32) -> [Output; 16]
    ensures { result ≡ switch_one samples os e }
{
    switch_at(os, entries::place(e), e.value == 1, samples)
}

// The outputs with each that is named on or off, and so many samples of a pulse to go. Of a closure over an array nothing is
// inferred: this one says what it gives.
fn switch(os: [Output; 16], es: &[Entry], samples: u32) -> [Output; 16]
    ensures { result ≡ foldl (switch_one samples) os es.now }
{
    es.iter().fold(
        os,
        |copy, e|
            ensures { result ≡ switch_one samples copy e.now }
        { switch_one(copy, *e, samples) },
    )
}

// The outputs after sets, which end pulses.
#[tactic(auto, unfolding(crate::specs::Switching::switch_one, model::specs::Outputs::set_output))]
pub fn set(os: [Output; 16], es: &[Entry]) -> [Output; 16]
    ensures { result ≡ foldl set_output os es.now }
{
    switch(os, es, 0)
}

// The outputs after pulses of one time were started, each from the state it first takes.
#[tactic(auto, unfolding(crate::specs::Switching::switch_one, model::specs::Outputs::start_pulse))]
pub fn pulse(time: HalfSeconds, os: [Output; 16], es: &[Entry]) -> [Output; 16]
    ensures { result ≡ foldl (start_pulse time) os es.now }
{
    switch(os, es, outputs::half_second_samples(time))
}
