// The Modbus port: its wire, and function and register range, which pick what serves a frame that passes its checks.
#![tactic(auto)]

ghost use Rattle.std.specs.Prelude.{◌≡◌, Bool, List, length};
ghost use Rattle.lists.specs.Numbers.{bits_number};
ghost use Rattle.model.specs.Samples.{input_states};
ghost use Rattle.model.specs.Refusals.{judged, refuse};
ghost use Rattle.model.specs.Outputs.{output_states};
ghost use Rattle.model.specs.Temperature.{reading_words};
ghost use Rattle.model.specs.Registers.{reading_group, read_words, read_bits};
ghost use Rattle.model.specs.Modbus.{start_of, second_of, quantity_wrong, words, registers_read, registers_written};
ghost use Rattle.model.specs.Modbus.{coil_written, register_written, coils_written, several_written, modbus_asked, modbus_wire};
ghost use Rattle.encoding.specs.Answers.{told, told_of};
ghost use Rattle.outcomes.specs.Parts.{outcome, served_of};
ghost use Rattle.modbus.specs.Room.{modbus_room};

use lists::Data;
use model::{Inputs, Module, Output, Port, Reading, Refusal};
use outcomes::Served;
use wires::Wire;

// Reading --------------------------------------------------------------------------------

// 01, 02: some of sixteen states, which are the bits, the first lowest.
fn read_states(bits: u16, b: &[u8]) -> Result<Data, Refusal>
    ensures { (states : List Bool) → length states ≡ 16 → bits_number states ≡ bits → told result ≡ told_of (refuse 8 (quantity_wrong 2000 b.now) (read_bits states (start_of b.now) (second_of b.now))) }
{
    let (a, n) = modbus_bodies::part_asked(2000, b)?;
    bit_reads::read_bits(bits, a, n)
}

// 01: coils.
fn read_coils(os: [Output; 16], b: &[u8]) -> Result<Data, Refusal>
    ensures { told result ≡ told_of (refuse 8 (quantity_wrong 2000 b.now) (read_bits (output_states os) (start_of b.now) (second_of b.now))) }
{
    read_states(spinel_reads::output_bits(os), b)
}

// 02: inputs.
fn read_inputs(x: Inputs, b: &[u8]) -> Result<Data, Refusal>
    ensures { told result ≡ told_of (refuse 8 (quantity_wrong 2000 b.now) (read_bits (input_states x) (start_of b.now) (second_of b.now))) }
{
    read_states(inputs::stable_bits(x.lines), b)
}

// The register groups that 03 reads, by the first register.
#[tactic(auto, unfolding(model::specs::Modbus::registers_read, lists::specs::Tests::within, model::specs::Refusals::judged))]
fn read_group(m: &Module, a: u16, n: u16) -> Result<Data, Refusal>
    ensures { told result ≡ told_of (registers_read a n m.now) }
{
    match a {
        1..=2 => register_reads::read_port(m.modbus, a, n),
        100..=115 => register_reads::read_counters(m.inputs.counters, a, n),
        300..=315 => register_reads::read_modes(m.settings.modes, a, n),
        500..=515 => register_reads::read_outputs(m.outputs, a, n),
        600..=663 => register_reads::read_thermostat(m.settings.thermostats, a, n),
        _ => Err(Refusal::Range),
    }
}

// 03: registers.
fn read_registers(m: &Module, b: &[u8]) -> Result<Data, Refusal>
    ensures { told result ≡ told_of (refuse 8 (quantity_wrong 125 b.now) (registers_read (start_of b.now) (second_of b.now) m.now)) }
{
    let (a, n) = modbus_bodies::part_asked(125, b)?;
    read_group(m, a, n)
}

// 04: the input registers.
fn read_reading(reading: Reading, b: &[u8]) -> Result<Data, Refusal>
    ensures { told result ≡ told_of (refuse 8 (quantity_wrong 125 b.now) (read_words reading_group (reading_words reading) (start_of b.now) (second_of b.now))) }
{
    let (a, n) = modbus_bodies::part_asked(125, b)?;
    register_reads::read_input(reading, a, n)
}

// Writing --------------------------------------------------------------------------------

// The register groups that 06 (a single value) and 10H write, by the first register; the values are lent, two bytes each. Here and in
// the functions that it picks the two stay two parameters, as the definitions take them.
#[tactic(auto, unfolding(model::specs::Modbus::registers_written, lists::specs::Tests::within, model::specs::Refusals::judged))]
fn write_group(
    m: Module,
    permitted: bool,
    single: bool,
    a: u16,
    d: &[u8],
) -> Result<Served, Refusal>
    ensures { outcome m result ≡ served_of (judged m (registers_written permitted single a (words d.now) m)) }
{
    match a {
        0 => port_registers::write_permission(m, single, a, d),
        1..=2 => port_registers::write_port(m, permitted, a, d),
        100..=115 => counter_registers::write_counters(m, a, d),
        200..=215 => counter_registers::write_deductions(m, a, d),
        300..=315 => counter_registers::write_modes(m, a, d),
        500..=515 => output_registers::write_pulse(m, a, d),
        600..=663 => thermostat_registers::write_thermostat(m, a, d),
        _ => Err(Refusal::Range),
    }
}

// 05: one coil.
fn write_coil(m: Module, b: &[u8]) -> Result<Served, Refusal>
    ensures { outcome m result ≡ served_of (judged m (coil_written b.now m)) }
{
    encoding::refused_if(b.len() != 4, Refusal::DataLength)?;
    let a = encoding::word_from(b, 0);
    let v = encoding::word_from(b, 2);
    modbus_bodies::echo(output_registers::write_coil(m, a, v), b)
}

// 06: one register.
fn write_register(m: Module, permitted: bool, b: &[u8]) -> Result<Served, Refusal>
    ensures { outcome m result ≡ served_of (judged m (register_written permitted b.now m)) }
{
    encoding::refused_if(b.len() != 4, Refusal::DataLength)?;
    let a = encoding::word_from(b, 0);
    modbus_bodies::echo(write_group(m, permitted, true, a, &b[2..]), b)
}

// 0F: several coils.
fn write_coils(m: Module, b: &[u8]) -> Result<Served, Refusal>
    ensures { outcome m result ≡ served_of (judged m (coils_written b.now m)) }
{
    let n = encoding::word_from(b, 2);
    let size = usize::from(n).div_ceil(8);
    modbus_bodies::count_refusal(1968, size, b)?;
    let a = encoding::word_from(b, 0);
    modbus_bodies::echo(output_registers::write_coils(m, a, n, &b[5..]), b)
}

// 10H: several registers.
fn write_registers(m: Module, permitted: bool, b: &[u8]) -> Result<Served, Refusal>
    ensures { outcome m result ≡ served_of (judged m (several_written permitted b.now m)) }
{
    let n = encoding::word_from(b, 2);
    let size = 2 * usize::from(n);
    modbus_bodies::count_refusal(123, size, b)?;
    let a = encoding::word_from(b, 0);
    modbus_bodies::echo(write_group(m, permitted, false, a, &b[5..]), b)
}

// A frame --------------------------------------------------------------------------------

// The function byte picks the function above that answers; 7 where 01 lists none of that byte.
#[tactic(auto, unfolding(model::specs::Modbus::modbus_asked, model::specs::Refusals::judged))]
fn serve(m: Module, permitted: bool, function: u8, b: &[u8]) -> Result<Served, Refusal>
    ensures { outcome m result ≡ served_of (judged m (modbus_asked permitted function b.now m)) }
{
    match function {
        0x01 => outcomes::told(m, read_coils(m.outputs, b)),
        0x02 => outcomes::told(m, read_inputs(m.inputs, b)),
        0x03 => outcomes::told(m, read_registers(&m, b)),
        0x04 => outcomes::told(m, read_reading(m.reading, b)),
        0x05 => write_coil(m, b),
        0x06 => write_register(m, permitted, b),
        0x0F => write_coils(m, b),
        0x10 => write_registers(m, permitted, b),
        _ => Err(Refusal::Unlisted),
    }
}

// The Modbus wire: what differs on it from the other.
pub struct ModbusWire;

impl Wire for ModbusWire {
    ghost wire = { modbus_wire };

    // 256 bytes less the 4 that frame them.
    ghost room = { 252 };

    fn port(m: &Module) -> Port {
        m.modbus
    }

    fn with_port(m: Module, port: Port) -> Module {
        outcomes::with_modbus(m, port)
    }

    fn refusal(m: &Module, frame: &[u8]) -> Result<(), Refusal> {
        frames::modbus_refusal(m.modbus.address, frame)
    }

    fn serve(m: Module, permitted: bool, frame: &[u8]) -> Result<Served, Refusal> {
        let function = encoding::at(frame, 1);
        serve(m, permitted, function, frames::modbus_body(frame))
    }

    fn to_all(frame: &[u8]) -> bool {
        encoding::at(frame, 0) == 0
    }

    fn reply(own: u8, frame: &[u8], answer: Result<Data, Refusal>) -> Data {
        port_answers::reply_on_modbus(own, frame, answer)
    }

    ghost short = { modbus_room };
}
