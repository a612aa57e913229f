// Setpoints: what either port's bytes say of one thermostat, decoded and held by value.
#![tactic(auto)]

ghost use Rattle.std.specs.Prelude.{◌≡◌, [], ◌∷◌, map, take};
ghost use Rattle.lists.specs.Chunks.{chunks};
ghost use Rattle.model.specs.Temperature.{group_thermostat};
ghost use Rattle.setpoints.specs.Setpoints.{group_setpoint, register_setpoint, setpoints_of, setpoints_in};

use lists::Bounded;
use model::{Seconds, Thermostat};

// What one output's thermostat is to be: the output's number, and the settings.
#[derive(Clone, Copy)]
pub struct Setpoint {
    pub number: u8,
    pub thermostat: Thermostat,
}

impl Setpoint {
    const FRESH: Setpoint = Setpoint {
        number: 0,
        thermostat: Thermostat::FRESH,
    };
}

// At most twelve of them, by value; what stands behind those that count is empty.
pub type Setpoints = Bounded<Setpoint, 12>;

// The settings in a group's eight bytes, the first aside.
#[tactic(auto, unfolding(model::specs::Temperature::group_thermostat))]
fn settings_in(c: &[u8]) -> Thermostat
    ensures { result ≡ group_thermostat c.now }
{
    Thermostat {
        flags: encoding::at(c, 1),
        tempx: encoding::signed_of(encoding::word_from(c, 2)),
        tempy: encoding::signed_of(encoding::word_from(c, 4)),
        time: Seconds(encoding::at(c, 6)),
        err: encoding::at(c, 7),
    }
}

// A group: the output, then its settings.
#[tactic(auto, unfolding(crate::specs::Setpoints::group_setpoint))]
fn group_in(c: &[u8]) -> Setpoint
    ensures { result ≡ group_setpoint c.now }
{
    let number = encoding::at(c, 0);
    let thermostat = settings_in(c);
    Setpoint { number, thermostat }
}

// No setpoints.
#[tactic(auto, unfolding(crate::specs::Setpoints::setpoints_of))]
fn none() -> Setpoints
    ensures { result ≡ setpoints_of [] }
{
    Setpoints::empty(Setpoint::FRESH)
}

// 1AH: its groups in turn; those after the twelfth are passed by, since the list is full.
pub fn from_groups(d: &[u8]) -> Setpoints
    ensures { result ≡ setpoints_of (take 12 (map group_setpoint (chunks 8 d.now))) }
{
    d.chunks_exact(8)
        .fold(none(), |list, group| list.push(group_in(group)))
}

// Registers 600 up: the four from a on, for the thermostat that they belong to.
#[tactic(auto, unfolding(crate::specs::Setpoints::register_setpoint, crate::specs::Setpoints::setpoints_of, lists::specs::Bounded::added))]
pub fn from_registers(a: u16, d: &[u8]) -> Setpoints
    ensures { result ≡ setpoints_of (register_setpoint a d.now ∷ []) }
{
    let place = groups::place(groups::THERMOSTATS, a) / 4;
    let number = ((place + 1) % 256) as u8;
    let thermostat = settings_in(d);
    none().push(Setpoint { number, thermostat })
}
