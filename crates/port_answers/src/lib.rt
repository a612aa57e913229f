// The replies of both ports, and of text: what is told of a request, framed as its kind is.
#![tactic(auto)]

ghost use Rattle.std.specs.Prelude.{◌≡◌, ℕ, List};
ghost use Rattle.lists.specs.Data.{data_of};
ghost use Rattle.model.specs.declared.Module.{Module as ModuleOf};
ghost use Rattle.model.specs.Spinel.{spinel_wire};
ghost use Rattle.model.specs.Modbus.{modbus_wire};
ghost use Rattle.model.specs.Text.{text_wire};
ghost use Rattle.encoding.specs.Answers.{told};
ghost use Rattle.wires.specs.Answers.{done_of};

use lists::Data;
use model::Refusal;

// The Spinel reply: its ACK tells a refusal, and it bears the module's own address, whatever the frame's.
#[tactic(auto, unfolding(replies::specs::Replies::spinel_replied))]
pub fn reply_on_spinel(own: u8, frame: &[u8], answer: Result<Data, Refusal>) -> Data
    ensures { (m : ModuleOf) → result ≡ data_of (spinel_wire.replied own frame.now (done_of 247 m (told answer))) }
{
    let signature = encoding::at(frame, 5);
    match answer {
        Ok(body) => replies::spinel_reply(own, signature, replies::ack_of(0), body),
        Err(refusal) => replies::spinel_reply(
            own,
            signature,
            replies::ack_of(refusal.number()),
            encoding::empty(),
        ),
    }
}

// The text reply: what is told, or the digit of the ACK that tells a refusal, from the module's own address.
pub fn reply_on_text(own: u8, answer: Result<Data, Refusal>) -> Data
    ensures { (f : List ℕ) (m : ModuleOf) → result ≡ data_of (text_wire.replied own f (done_of 252 m (told answer))) }
{
    match answer {
        Ok(body) => replies::text_reply(own, body.as_slice()),
        Err(refusal) => {
            let number = refusal.number();
            let ack = replies::ack_of(number);
            replies::text_reply(own, &[replies::last_digit(u16::from(ack))])
        }
    }
}

// The Modbus reply, or the exception that tells a refusal.
#[tactic(auto, unfolding(replies::specs::Replies::modbus_replied))]
pub fn reply_on_modbus(own: u8, frame: &[u8], answer: Result<Data, Refusal>) -> Data
    ensures { (m : ModuleOf) → result ≡ data_of (modbus_wire.replied own frame.now (done_of 252 m (told answer))) }
{
    let function = encoding::at(frame, 1);
    match answer {
        Ok(body) => replies::modbus_reply(own, function, body),
        Err(refusal) => {
            let code = replies::exception_of(refusal.number());
            replies::exception_reply(own, function, code)
        }
    }
}
