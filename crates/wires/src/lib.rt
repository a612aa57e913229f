// What is done with a frame, once, over what differs between the wires that frames come by.
#![tactic(auto)]

ghost use Rattle.std.specs.Prelude.{◌≡◌, ℕ, ◌≤◌, Bool, List, eqb, length};
ghost use Rattle.lists.specs.Data.{data_of};
ghost use Rattle.model.specs.declared.Module.{Module as ModuleOf};
ghost use Rattle.model.specs.Numbers.{refused_by};
ghost use Rattle.model.specs.Refusals.{judged};
ghost use Rattle.model.specs.Wire.{Wire as WireOf, frame_refusal, frame_answered, frame_acted, frame_handled};
ghost use Rattle.encoding.specs.Answers.{told};
ghost use Rattle.outcomes.specs.Parts.{outcome, served_of, handling, handled_of};
ghost use Rattle.wires.specs.Answers.{done_of};

use lists::Data;
use model::{Module, Port, Refusal};
use outcomes::{Handled, Served};

pub trait Wire {
    // This wire as it is defined, and how many bytes of data its replies have room for.
    ghost wire: { WireOf };

    ghost room: { ℕ };

    // The port that it leads to.
    fn port(m: &Module) -> Port
        ensures { result ≡ wire.port m.now };

    // The module with another port in its place.
    fn with_port(m: Module, port: Port) -> Module
        ensures { result ≡ wire.with_port m port };

    // Checks 2 to 6 of a frame, by the port's address and whether 4 is tested.
    fn refusal(m: &Module, frame: &[u8]) -> Result<(), Refusal>
        ensures { refused_by result ≡ frame_refusal wire (wire.check_tested m.now) (wire.port m.now).address frame.now };

    // What a frame asks for, by whether its port was permitted.
    fn serve(m: Module, permitted: bool, frame: &[u8]) -> Result<Served, Refusal>
        ensures { outcome m result ≡ served_of (judged m (wire.asked permitted frame.now m)) };

    // Whether a frame goes to all modules, so that nothing goes back.
    fn to_all(frame: &[u8]) -> bool
        ensures { result ≡ eqb (wire.addressee frame.now) wire.broadcast };

    // The reply from this address to a frame: with its data, or that it was refused.
    fn reply(own: u8, frame: &[u8], answer: Result<Data, Refusal>) -> Data
        ensures { (m : ModuleOf) → result ≡ data_of (wire.replied own frame.now (done_of room m (told answer))) };

    // There is room for whatever it may ask for.
    ghost short: { (permitted : Bool) (f : List ℕ) (m : ModuleOf) → length (judged m (wire.asked permitted f m)).reply ≤ room };
}

// The reply to a frame: none where it goes to all modules.
#[tactic(auto, unfolding(model::specs::Wire::frame_answered))]
fn answer<W: Wire>(own: u8, frame: &[u8], answer: Result<Data, Refusal>) -> Data
    ensures { (m : ModuleOf) → result ≡ data_of (frame_answered W.wire own frame.now (done_of W.room m (told answer))).reply }
{
    if W::to_all(frame) {
        encoding::empty()
    } else {
        W::reply(own, frame, answer)
    }
}

// A frame that passes 2 to 6: its port's permission ends, accepted or not, and the reply bears the address from before it.
// Not inlined: a frame that fails one would pay for what a request needs.
#[inline(never)]
fn act<W: Wire>(m: Module, frame: &[u8]) -> Handled
    ensures { handling result ≡ handled_of (frame_acted W.wire frame.now m) }
{
    let port = W::port(&m);
    let own = port.address;
    let used = W::with_port(m, port_effects::permitted(port, false));
    match W::serve(used, port.permitted, frame) {
        Ok(served) => Handled {
            refusal: None,
            after: served.after,
            reply: answer::<W>(own, frame, Ok(served.body)),
        },
        Err(refusal) => Handled {
            refusal: Some(refusal),
            after: used,
            reply: answer::<W>(own, frame, Err(refusal)),
        },
    }
}

// Any frame: checks 2 to 6, then what it asks for.
#[tactic(auto, unfolding(model::specs::Wire::frame_handled))]
pub fn handle<W: Wire>(m: Module, frame: &[u8]) -> Handled
    ensures { handling result ≡ handled_of (frame_handled W.wire frame.now m) }
{
    match W::refusal(&m, frame) {
        Ok(()) => act::<W>(m, frame),
        Err(refusal) => outcomes::unheard(refusal, m),
    }
}
