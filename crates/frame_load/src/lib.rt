// One frame played again and again on either port, for a caller that times it.
#![tactic(auto)]

ghost use Rattle.std.specs.Prelude.{◌≡◌, length};
ghost use Rattle.model.specs.Calls.{acted, Answered};
ghost use Rattle.frame_load.specs.Play.{ready_to_play, act_of, play_one, buffer_one, play_many, buffer_many, outcome_of};

use model::{Answer, Module};

// The state after some calls, the bytes of their replies, and the sum of their refusal numbers (0: all were accepted).
#[derive(Drop)]
struct Played {
    after: Module,
    written: u64,
    refusals: u64,
}

// The same for a caller in another language, with no more of the state than the counters.
#[repr(C)]
#[derive(Drop)]
pub struct Outcome {
    pub written: u64,
    pub refusals: u64,
    pub counters: [u32; 16],
}

// No call yet: counters that cover thousands of deductions, each another number, the first of them above 65,535.
#[tactic(auto, unfolding(crate::specs::Play::ready_to_play))]
fn ready() -> Played
    ensures { result ≡ ready_to_play }
{
    let mut m = startup::fresh();
    // Through a variable: an array that is stored in a field of a field gets no proof.
    let mut inputs = m.inputs;
    inputs.counters = [
        65540, 65539, 65538, 65537, 65536, 65535, 65534, 65533, 65532, 65531, 65530, 65529, 65528,
        65527, 65526, 65525,
    ];
    m.inputs = inputs;
    Played {
        after: m,
        written: 0,
        refusals: 0,
    }
}

// The frame on its port: a `bool` and no enum, as the signature of `frame_play` for C has it.
#[tactic(auto, unfolding(crate::specs::Play::act_of))]
fn call(m: Module, modbus: bool, frame: &[u8], reply: &mut [u8]) -> Answer
    ensures { Answered (acted (length reply.old) (act_of modbus frame.now) m) result reply.old reply.new }
{
    if modbus {
        return iomodule::modbus(m, frame, reply);
    }
    iomodule::spinel(m, frame, reply)
}

// One call more.
#[tactic(auto, unfolding(crate::specs::Play::play_one, crate::specs::Play::buffer_one))]
fn play_one(p: Played, modbus: bool, frame: &[u8], reply: &mut [u8]) -> Played
    ensures value { result ≡ play_one (length reply.old) (act_of modbus frame.now) p }
    ensures reply_after { reply.new ≡ buffer_one (length reply.old) (act_of modbus frame.now) p reply.old }
{
    let a = call(p.after, modbus, frame, reply);
    Played {
        after: a.after,
        written: p.written.wrapping_add(a.len as u64),
        refusals: p.refusals.wrapping_add(u64::from(a.refusal)),
    }
}

// n calls, one after another.
#[tactic(auto, unfolding(crate::specs::Play::play_many, crate::specs::Play::buffer_many))]
fn play(p: Played, n: u32, modbus: bool, frame: &[u8], reply: &mut [u8]) -> Played
    ensures value { result ≡ play_many (length reply.old) (act_of modbus frame.now) n p }
    ensures reply_after { reply.new ≡ buffer_many (length reply.old) (act_of modbus frame.now) n p reply.old }
{
    let mut after = p;
    for _turn in 0..n {
        after = play_one(after, modbus, frame, reply);
    }
    after
}

// What is told of them.
fn told(p: Played) -> Outcome
    ensures { result ≡ outcome_of p }
{
    // Through a variable: a field that is an array, put straight into a literal, gets no proof.
    let counters = p.after.inputs.counters;
    Outcome {
        written: p.written,
        refusals: p.refusals,
        counters,
    }
}

// n calls of one frame from the ready state, on the Modbus or the Spinel port; the last reply stays in the lent buffer.
#[unsafe(no_mangle)]
pub extern "C" fn frame_play(modbus: bool, n: u32, frame: &[u8], reply: &mut [u8]) -> Outcome
    ensures value { result ≡ outcome_of (play_many (length reply.old) (act_of modbus frame.now) n ready_to_play) }
    ensures reply_after { reply.new ≡ buffer_many (length reply.old) (act_of modbus frame.now) n ready_to_play reply.old }
{
    told(play(ready(), n, modbus, frame, reply))
}
