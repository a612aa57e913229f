// What a request comes to for the whole module, on either port: a part's answer put back in its place.
#![tactic(auto)]

ghost use Rattle.std.specs.Prelude.{◌≡◌, []};
ghost use Rattle.lists.specs.Data.{data_of};
ghost use Rattle.model.specs.State.{with_counters, with_outputs, with_modes, with_sampling, with_presets, with_links, with_thermostats, with_notice, with_sum_tested, with_spinel, with_modbus};
ghost use Rattle.model.specs.Refusals.{silent};
ghost use Rattle.model.specs.Numbers.{number_of};
ghost use Rattle.model.specs.Calls.{answer_of};
ghost use Rattle.encoding.specs.Answers.{told};
ghost use Rattle.outcomes.specs.Parts.{outcome, told_about, handling, handled_of};

use lists::Data;
use model::{
    Answer, Inputs, Link, Module, Notice, Output, Port, Preset, Refusal, Settings, Thermostat,
};

// What an accepted instruction or function comes to: the state after, and the reply's data. A refused one leaves the state.
#[derive(Drop)]
pub struct Served {
    pub after: Module,
    pub body: Data,
}

impl Served {
    // An answer without data.
    pub fn without_data(after: Module) -> Served
        ensures { result ≡ record { after = after; body = data_of [] } }
    {
        Served {
            after,
            body: encoding::empty(),
        }
    }
}

// What a frame or a sample comes to, whatever the lent buffer: what refuses it, the state after, and the reply's bytes.
#[derive(Drop)]
pub struct Handled {
    pub refusal: Option<Refusal>,
    pub after: Module,
    pub reply: Data,
}

// An answer that only reads.
pub fn told(m: Module, read: Result<Data, Refusal>) -> Result<Served, Refusal>
    ensures { outcome m result ≡ told_about m (told read) }
{
    let body = read?;
    Ok(Served { after: m, body })
}

// The module with one part put in place: a function for each, since no parameter can name a field ------------

// The module with these counters.
pub fn with_counters(m: Module, counters: [u32; 16]) -> Module
    ensures { result ≡ with_counters m counters }
{
    Module {
        inputs: Inputs {
            counters,
            ..m.inputs
        },
        ..m
    }
}

// The module with these outputs.
pub fn with_outputs(m: Module, outputs: [Output; 16]) -> Module
    ensures { result ≡ with_outputs m outputs }
{
    Module { outputs, ..m }
}

// The module with these modes.
pub fn with_modes(m: Module, modes: [u8; 16]) -> Module
    ensures { result ≡ with_modes m modes }
{
    Module {
        settings: Settings {
            modes,
            ..m.settings
        },
        ..m
    }
}

// The module with this sampling number.
pub fn with_sampling(m: Module, sampling: u8) -> Module
    ensures { result ≡ with_sampling m sampling }
{
    Module {
        settings: Settings {
            sampling,
            ..m.settings
        },
        ..m
    }
}

// The module with these presets.
pub fn with_presets(m: Module, presets: [Preset; 16]) -> Module
    ensures { result ≡ with_presets m presets }
{
    Module {
        settings: Settings {
            presets,
            ..m.settings
        },
        ..m
    }
}

// The module with these links.
pub fn with_links(m: Module, links: [Link; 16]) -> Module
    ensures { result ≡ with_links m links }
{
    Module {
        settings: Settings {
            links,
            ..m.settings
        },
        ..m
    }
}

// The module with these thermostats.
pub fn with_thermostats(m: Module, thermostats: [Thermostat; 16]) -> Module
    ensures { result ≡ with_thermostats m thermostats }
{
    Module {
        settings: Settings {
            thermostats,
            ..m.settings
        },
        ..m
    }
}

// The module with this notice.
pub fn with_notice(m: Module, notice: Notice) -> Module
    ensures { result ≡ with_notice m notice }
{
    Module {
        settings: Settings {
            notice,
            ..m.settings
        },
        ..m
    }
}

// The module with the test of SUM on or off.
pub fn with_sum_tested(m: Module, sum_tested: bool) -> Module
    ensures { result ≡ with_sum_tested m sum_tested }
{
    Module {
        settings: Settings {
            sum_tested,
            ..m.settings
        },
        ..m
    }
}

// The module with this Spinel port.
pub fn with_spinel(m: Module, spinel: Port) -> Module
    ensures { result ≡ with_spinel m spinel }
{
    Module { spinel, ..m }
}

// The module with this Modbus port.
pub fn with_modbus(m: Module, modbus: Port) -> Module
    ensures { result ≡ with_modbus m modbus }
{
    Module { modbus, ..m }
}

// A frame that fails 2 to 6: nothing changes, and there is no reply.
pub fn unheard(refusal: Refusal, m: Module) -> Handled
    ensures { handling result ≡ handled_of (silent (number_of refusal) m) }
{
    let after = m;
    Handled {
        refusal: Some(refusal),
        after,
        reply: encoding::empty(),
    }
}

// The answer of a call that changes nothing and replies nothing, by any number.
pub fn silenced(number: u8, m: Module) -> Answer
    ensures { result ≡ answer_of (silent number m) }
{
    Answer {
        refusal: number,
        len: 0,
        after: m,
    }
}
