// Text frames on the Spinel port (02, E2): their wire, and the code that picks what serves one that passes its checks.
#![tactic(auto)]

ghost use Rattle.model.specs.Text.{text_wire};
ghost use Rattle.text_port.specs.Room.{text_room};

use lists::Data;
use model::{Module, Port, Refusal, TextCode};
use outcomes::Served;
use wires::Wire;

// The text wire: it leads to the Spinel port too.
pub struct TextWire;

impl Wire for TextWire {
    ghost wire = { text_wire };

    // 256 bytes less the 4 that frame them.
    ghost room = { 252 };

    fn port(m: &Module) -> Port {
        m.spinel
    }

    fn with_port(m: Module, port: Port) -> Module {
        outcomes::with_spinel(m, port)
    }

    fn refusal(m: &Module, frame: &[u8]) -> Result<(), Refusal> {
        text_frames::text_refusal(m.spinel.address, frame)
    }

    // What the code asks for; 7 where none is typed.
    #[tactic(auto, unfolding(model::specs::Text::text_request, model::specs::Text::asked_if, model::specs::Text::asked_by, model::specs::Refusals::judged))]
    fn serve(m: Module, permitted: bool, frame: &[u8]) -> Result<Served, Refusal> {
        let universal = encoding::at(frame, 2) == b'$';
        let (code, t) = text_frames::typed(text_frames::characters(frame));
        match code {
            Some(TextCode::ReadInput) => text_instructions::read_input(m, t),
            Some(TextCode::ReadOutput) => text_instructions::read_output(m, t),
            Some(TextCode::SetOutput) => text_instructions::set_output(m, t),
            Some(TextCode::PulseOutput) => text_instructions::pulse_output(m, t),
            Some(TextCode::ReadTemperature) => text_instructions::read_temperature(m, t),
            Some(TextCode::SetNotice) => text_instructions::set_notice(m, t),
            Some(TextCode::ReadNotice) => text_instructions::read_notice(m, t),
            Some(TextCode::GivePermission) => text_instructions::give_permission(m, universal, t),
            Some(TextCode::SetAddress) => text_instructions::set_address(
                m, permitted, universal, t,
            ),
            Some(TextCode::SetSpeed) => text_instructions::set_speed(m, permitted, universal, t),
            None => Err(Refusal::Unlisted),
        }
    }

    fn to_all(frame: &[u8]) -> bool {
        encoding::at(frame, 2) == b'%'
    }

    fn reply(own: u8, frame: &[u8], answer: Result<Data, Refusal>) -> Data {
        port_answers::reply_on_text(own, answer)
    }

    ghost short = { text_room };
}
