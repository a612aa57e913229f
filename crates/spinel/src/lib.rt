// Binary frames on the Spinel port: their wire, and the instruction byte that picks what serves a frame that passes its checks.
#![tactic(auto)]

ghost use Rattle.model.specs.Spinel.{spinel_wire};
ghost use Rattle.spinel.specs.Room.{spinel_room};

use lists::Data;
use model::{Module, Port, Refusal};
use outcomes::Served;
use wires::Wire;

// The Spinel wire: what differs on it from the other.
pub struct SpinelWire;

impl Wire for SpinelWire {
    ghost wire = { spinel_wire };

    // 256 bytes less the 9 that frame them.
    ghost room = { 247 };

    fn port(m: &Module) -> Port {
        m.spinel
    }

    fn with_port(m: Module, port: Port) -> Module {
        outcomes::with_spinel(m, port)
    }

    fn refusal(m: &Module, frame: &[u8]) -> Result<(), Refusal> {
        frames::spinel_refusal(m.settings.sum_tested, m.spinel.address, frame)
    }

    // What the instruction asks for; 7 where 01 lists none of that byte.
    #[tactic(auto, unfolding(model::specs::Spinel::spinel_request, model::specs::Spinel::spinel_asked, model::specs::Refusals::judged))]
    fn serve(m: Module, permitted: bool, frame: &[u8]) -> Result<Served, Refusal> {
        let universal = encoding::at(frame, 4) == 0xFE;
        let signature = encoding::at(frame, 5);
        let d = frames::spinel_data(frame);
        match encoding::at(frame, 6) {
            0x10 => port_instructions::set_notice(m, signature, d),
            0x11 => port_instructions::read_notice(m, d),
            0x1A => thermostat_instructions::set_thermostats(m, d),
            0x1B => thermostat_instructions::read_thermostats(m, d),
            0x20 => output_instructions::set_outputs(m, d),
            0x23 => output_instructions::set_pulses(m, d),
            0x25 => output_instructions::start_presets(m, d),
            0x26 => output_instructions::set_presets(m, d),
            0x30 => output_instructions::read_outputs(m, d),
            0x31 => output_instructions::read_inputs(m, d),
            0x33 => output_instructions::read_pulses(m, d),
            0x36 => output_instructions::read_presets(m, d),
            0x38 => output_instructions::read_output_modes(m, d),
            0x40 => link_instructions::set_links(m, d),
            0x41 => link_instructions::read_links(m, d),
            0x51 => thermostat_instructions::read_temperature(m, d),
            0x60 => counter_instructions::read_counters(m, d),
            0x61 => counter_instructions::deduct_counters(m, d),
            0x62 => counter_instructions::set_sampling(m, d),
            0x63 => counter_instructions::read_sampling(m, d),
            0x6A => counter_instructions::set_modes(m, d),
            0x6B => counter_instructions::read_modes(m, d),
            0xE0 => port_instructions::set_port(m, permitted, universal, d),
            0xE3 => port_instructions::reset_module(m, d),
            0xE4 => port_instructions::give_permission(m, universal, d),
            0xEE => port_instructions::set_sum_test(m, permitted, d),
            0xF0 => port_instructions::read_port(m, d),
            0xFE => port_instructions::read_sum_test(m, d),
            _ => Err(Refusal::Unlisted),
        }
    }

    fn to_all(frame: &[u8]) -> bool {
        encoding::at(frame, 4) == 0xFF
    }

    fn reply(own: u8, frame: &[u8], answer: Result<Data, Refusal>) -> Data {
        port_answers::reply_on_spinel(own, frame, answer)
    }

    ghost short = { spinel_room };
}
