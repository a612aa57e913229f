// The states that a module starts from: fresh, and after a reset.
#![tactic(auto)]

ghost use Rattle.std.specs.Prelude.{◌≡◌};
ghost use Rattle.model.specs.State.{fresh_module};
ghost use Rattle.model.specs.Counters.{runs_ended, cleared_counters, reset};

use model::{
    Inputs, Line, Link, Module, Notice, Output, Port, Preset, Reading, Settings, Thermostat,
};

// Each port's fresh address and speed, not permitted.
const PORT: Port = Port {
    address: 0x31,
    speed: 6,
    permitted: false,
};

// The settings of a fresh module.
#[tactic(auto, unfolding(model::specs::State::fresh_module))]
fn fresh_settings() -> Settings
    ensures { result ≡ fresh_module.settings }
{
    Settings {
        modes: [0; 16],
        sampling: 20,
        presets: [Preset::FRESH; 16],
        links: [Link::FRESH; 16],
        thermostats: [Thermostat::FRESH; 16],
        notice: Notice {
            format: 0,
            mask: 0,
            signature: 0,
        },
        sum_tested: true,
    }
}

// The fresh state.
#[tactic(auto, unfolding(model::specs::State::fresh_module))]
pub fn fresh() -> Module
    ensures { result ≡ fresh_module }
{
    Module {
        inputs: Inputs {
            lines: [Line::FRESH; 16],
            counters: [0; 16],
        },
        outputs: [Output::FRESH; 16],
        settings: fresh_settings(),
        reading: Reading::Fault,
        last: Reading::Fault,
        spinel: PORT,
        modbus: PORT,
    }
}

// Runs zeroed, stable states kept.
fn reset_lines(a: [Line; 16]) -> [Line; 16]
    ensures { result ≡ runs_ended a }
{
    a.map(|x| Line { run: 0, ..x })
}

fn reset_inputs(x: Inputs) -> Inputs
    ensures { result ≡ record { lines = runs_ended x.lines; counters = cleared_counters } }
{
    let counters = [0; 16];
    Inputs {
        lines: reset_lines(x.lines),
        counters,
    }
}

// A reset: outputs off, no pulse, counter or run left, no port permitted; all else stays.
#[tactic(auto, unfolding(model::specs::Counters::reset))]
pub fn reset_state(m: Module) -> Module
    ensures { result ≡ reset m }
{
    let outputs = [Output::FRESH; 16];
    Module {
        inputs: reset_inputs(m.inputs),
        outputs,
        spinel: port_effects::permitted(m.spinel, false),
        modbus: port_effects::permitted(m.modbus, false),
        ..m
    }
}
