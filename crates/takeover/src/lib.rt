// The state of a module whose counters had 16 bits, taken over by one whose counters have 32.
#![tactic(auto)]

ghost use Rattle.std.specs.Prelude.{◌≡◌};
ghost use Rattle.takeover.specs.TakenOver.{inputs_over, settings_over, port_over, taken_over};
ghost use Rattle.takeover.specs.Across.{CyclesConservedAcross};

use model::{
    Inputs, Line, Link, Module, Notice, Output, Port, Preset, Reading, Settings, Thermostat,
};

// What samples changed of the inputs. The types of this state are spelt out, and not the model's with another counter: a setting
// that the model gets later is none of theirs.
#[derive(Drop)]
pub struct InputsBefore {
    pub lines: [Line; 16],
    pub counters: [u16; 16],
}

// A port.
#[derive(Clone, Copy)]
pub struct PortBefore {
    pub address: u8,
    pub speed: u8,
    pub permitted: bool,
}

// The settings.
#[derive(Drop)]
pub struct SettingsBefore {
    pub modes: [u8; 16],
    pub sampling: u8,
    pub presets: [Preset; 16],
    pub thermostats: [Thermostat; 16],
    pub notice: Notice,
}

// The whole state.
#[derive(Drop)]
pub struct ModuleBefore {
    pub inputs: InputsBefore,
    pub outputs: [Output; 16],
    pub settings: SettingsBefore,
    pub reading: Reading,
    pub last: Reading,
    pub spinel: PortBefore,
    pub modbus: PortBefore,
}

// Each counter with its value.
fn widen(cs: [u16; 16]) -> [u32; 16]
    ensures { result ≡ cs }
{
    cs.map(|c| u32::from(c))
}

// States, runs and counters.
impl From<InputsBefore> for Inputs {
    ghost from_gives = { λ x inputs. inputs ≡ inputs_over x };

    fn from(x: InputsBefore) -> Inputs {
        let lines = x.lines;
        Inputs {
            lines,
            counters: widen(x.counters),
        }
    }
}

// Every setting; no output has a link, as none had before, and SUM is tested, as it always was.
impl From<SettingsBefore> for Settings {
    ghost from_gives = { λ s settings. settings ≡ settings_over s };

    fn from(s: SettingsBefore) -> Settings {
        let SettingsBefore {
            modes,
            sampling,
            presets,
            thermostats,
            notice,
        } = s;
        Settings {
            modes,
            sampling,
            presets,
            links: [Link::FRESH; 16],
            thermostats,
            notice,
            sum_tested: true,
        }
    }
}

// Address, speed and permission.
impl From<PortBefore> for Port {
    ghost from_gives = { λ p port. port ≡ port_over p };

    fn from(p: PortBefore) -> Port {
        Port {
            address: p.address,
            speed: p.speed,
            permitted: p.permitted,
        }
    }
}

// The module as it goes on from a state of before.
pub fn take_over(b: ModuleBefore) -> Module
    ensures { result ≡ taken_over b }
{
    let outputs = b.outputs;
    Module {
        inputs: Inputs::from(b.inputs),
        outputs,
        settings: Settings::from(b.settings),
        reading: b.reading,
        last: b.last,
        spinel: Port::from(b.spinel),
        modbus: Port::from(b.modbus),
    }
}

// Demand 3 across the take-over: where the sum was exact before it, it goes on. It does nothing.
pub fn cycles_conserved_across()
    ensures { CyclesConservedAcross }
{}
