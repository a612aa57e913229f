// The module's state, and what a call answers.
#![tactic(auto)]

ghost use Rattle.std.specs.Prelude.{◌≡◌};
ghost use Rattle.model.specs.Numbers.{number_of};

// One input: its stable state, and the run of samples that differ from it.
#[derive(Clone, Copy)]
pub struct Line {
    pub stable: bool,
    pub run: u8,
}

// Fresh values are constants by 01's name for them: `default()` would not say that the fresh state is meant.
impl Line {
    pub const FRESH: Line = Line {
        stable: false,
        run: 0,
    };
}

// What samples change of the inputs: each line, and what it has counted.
#[derive(Clone, Copy)]
pub struct Inputs {
    pub lines: [Line; 16],
    pub counters: [u32; 16],
}

// One output: its state, and the samples left of its pulse (0: no pulse, a number and no Option, as 01 counts it down to 0).
#[derive(Clone, Copy)]
pub struct Output {
    pub on: bool,
    pub left: u32,
}

impl Output {
    pub const FRESH: Output = Output { on: false, left: 0 };
}

// A time in half seconds: of a pulse, of a preset. It and the next are two types since 01 names the two units.
#[derive(Clone, Copy)]
pub struct HalfSeconds(pub u8);

// A time in seconds: a thermostat's TIME.
#[derive(Clone, Copy)]
pub struct Seconds(pub u8);

// A preset pulse of an output: its type (0: no pulse, 2: it begins with on, 3: with off) and its time. The type is a byte and
// no enum: any may be stored, and is shown as it is stored.
#[derive(Clone, Copy)]
pub struct Preset {
    pub kind: u8,
    pub time: HalfSeconds,
}

impl Preset {
    pub const FRESH: Preset = Preset {
        kind: 0,
        time: HalfSeconds(0),
    };
}

// The link of an output (E8): the input whose edges drive it, and how (0: no link). The action is a byte and no enum: any may be stored,
// and is shown as it is stored.
#[derive(Clone, Copy)]
pub struct Link {
    pub input: u8,
    pub action: u8,
}

impl Link {
    pub const FRESH: Link = Link {
        input: 0,
        action: 0,
    };
}

// A thermostat's settings. The flags are FSSKSTTT. Flags and ERR are bytes and no enums: any may be stored, and is shown so.
#[derive(Clone, Copy)]
pub struct Thermostat {
    pub flags: u8,
    pub tempx: i16,
    pub tempy: i16,
    pub time: Seconds,
    pub err: u8,
}

impl Thermostat {
    pub const FRESH: Thermostat = Thermostat {
        flags: 0,
        tempx: 0,
        tempy: 0,
        time: Seconds(0),
        err: 0,
    };
}

// A reading of the thermometer: the temperature, as tenths and as a float, or a fault, the two cases that 01 names.
#[derive(Clone, Copy)]
pub enum Reading {
    Valid(i16, f32),
    Fault,
}

// The notice of inputs: its format (61H: on; 42H: on, as text; 0: off; a byte, shown as it is stored), its mask, and the
// signature of the binary request that last switched it on.
#[derive(Clone, Copy)]
pub struct Notice {
    pub format: u8,
    pub mask: u16,
    pub signature: u8,
}

// A port: its address, its speed, a code that is shown as it is stored, and whether its next request may configure it.
#[derive(Clone, Copy)]
pub struct Port {
    pub address: u8,
    pub speed: u8,
    pub permitted: bool,
}

// What only requests change, and a reset keeps: the inputs' modes and sampling number, presets, links, thermostats, the notice, and
// whether the Spinel port tests SUM. Modes are bytes and no enum: any may be stored, and is shown so.
#[derive(Clone, Copy)]
pub struct Settings {
    pub modes: [u8; 16],
    pub sampling: u8,
    pub presets: [Preset; 16],
    pub links: [Link; 16],
    pub thermostats: [Thermostat; 16],
    pub notice: Notice,
    pub sum_tested: bool,
}

// The whole state. `last` is the last valid reading, a fault where there was none: `Reading` says that by its own two cases.
#[derive(Clone, Copy)]
pub struct Module {
    pub inputs: Inputs,
    pub outputs: [Output; 16],
    pub settings: Settings,
    pub reading: Reading,
    pub last: Reading,
    pub spinel: Port,
    pub modbus: Port,
}

// A group of registers, coils or inputs: the first, and how many.
#[derive(Clone, Copy)]
pub struct Group {
    pub first: u16,
    pub count: u16,
}

// What a text frame asks for, each by its code (E2); OT has a second spelling, OST.
#[derive(Clone, Copy)]
pub enum TextCode {
    ReadInput, // IR
    ReadOutput, // OR
    SetOutput, // OS
    PulseOutput, // OT
    ReadTemperature, // RT
    SetNotice, // IS
    ReadNotice, // IX
    GivePermission, // E
    SetAddress, // AS
    SetSpeed, // SS
}

// Why a call is refused, each by its number.
#[derive(Clone, Copy)]
pub enum Refusal {
    ShortBuffer = 1,
    FrameLength = 2,
    Shape = 3,
    Checksum = 4,
    Address = 5,
    Broadcast = 6,
    Unlisted = 7,
    DataLength = 8,
    Range = 9,
    Permission = 10,
    Value = 11,
    Held = 12,
    Repeated = 13,
    Clash = 14,
}

impl Refusal {
    // The number that an answer carries.
    pub fn number(self) -> u8
        ensures { result ≡ number_of self }
    {
        self as u8
    }
}

// What a call answers: the refusal's number (0: accepted), which 01 has it carry, the state after, and the reply's length: its bytes
// stand in the buffer that the caller lends.
#[derive(Drop)]
pub struct Answer {
    pub refusal: u8,
    pub len: usize,
    pub after: Module,
}
