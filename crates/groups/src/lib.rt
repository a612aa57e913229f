// The groups of Modbus registers, coils and inputs, and whether a range lies in one.
#![tactic(auto)]

ghost use Rattle.std.specs.Prelude.{◌≡◌, ◌-◌};
ghost use Rattle.model.specs.Registers.{outside, number_at, no_thermostat};

use model::Group;

// Holding registers: the permission, the port, counters, deductions, modes, outputs, and four for each thermostat.
pub const PERMISSION: Group = Group { first: 0, count: 1 };

pub const PORT: Group = Group { first: 1, count: 2 };

pub const COUNTERS: Group = Group {
    first: 100,
    count: 16,
};

pub const DEDUCTIONS: Group = Group {
    first: 200,
    count: 16,
};

pub const MODES: Group = Group {
    first: 300,
    count: 16,
};

pub const OUTPUTS: Group = Group {
    first: 500,
    count: 16,
};

pub const THERMOSTATS: Group = Group {
    first: 600,
    count: 64,
};

// Input registers of the reading; coils, and inputs read as bits.
pub const READING: Group = Group { first: 0, count: 4 };

pub const BITS: Group = Group {
    first: 0,
    count: 16,
};

// 9: n registers from a on are none, or do not all lie in the group.
pub fn is_outside(g: Group, a: u16, n: usize) -> bool
    ensures { result ≡ outside g a n }
{
    let first = usize::from(g.first);
    let end = first + usize::from(g.count);
    let at = usize::from(a);
    n == 0 || !(first..=end).contains(&at) || end - at < n
}

// How far register a stands behind the group's first.
pub fn place(g: Group, a: u16) -> usize
    ensures { result ≡ a - g.first }
{
    usize::from(a).saturating_sub(usize::from(g.first))
}

// The number of the input or output that register a is for.
pub fn number(g: Group, a: u16) -> usize
    ensures { result ≡ number_at g a }
{
    (usize::from(a) + 1).saturating_sub(usize::from(g.first))
}

// 9: n registers from a on are not the four of one thermostat.
pub fn no_thermostat(a: u16, n: usize) -> bool
    ensures { result ≡ no_thermostat a n }
{
    is_outside(THERMOSTATS, a, n) || n != 4 || place(THERMOSTATS, a) % 4 != 0
}
