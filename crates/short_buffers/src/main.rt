// Refusal 1: calls with buffers of 0, 1 and 255 bytes change nothing and touch no byte; with 256 bytes the same calls are accepted.
#![tactic(auto)]

ghost use Rattle.std.specs.Prelude.{◌≡◌, ◌≤◌, length};
ghost use Rattle.lists.specs.Data.{over};
ghost use Rattle.model.specs.Calls.{acted, run, Answered};
ghost use Rattle.short_buffers.specs.Tries.{kept_of, act_of, tried};

use model::{Answer, Module};

// One call: a sample of these bits, or a frame on its port. No closure in its place is plainer: the calls' names are printed.
#[derive(Clone, Copy)]
enum Call<'a> {
    Sample(u16),
    Spinel(&'a [u8]),
    Modbus(&'a [u8]),
}

// How many bytes are still EE.
fn kept(b: &[u8]) -> usize
    ensures { result ≡ kept_of b.now }
{
    b.iter().filter(|x| **x == 0xEE).count()
}

// The call made.
#[tactic(auto, unfolding(crate::specs::Tries::act_of))]
fn make(m: Module, call: Call, reply: &mut [u8]) -> Answer
    ensures { Answered (acted (length reply.old) (act_of call.entry) m) result reply.old reply.new }
{
    match call {
        Call::Sample(bits) => iomodule::sample(m, bits, reply),
        Call::Spinel(frame) => iomodule::spinel(m, frame, reply),
        Call::Modbus(frame) => iomodule::modbus(m, frame, reply),
    }
}

// Functions that only print, and main, have no contract: std promises nothing of what is written, and a write that fails
// is passed over. The gate holds it to the file `stdout`.

fn print_name(rt: &impl Print, call: Call) {
    let _ = match call {
        Call::Sample(_) => rt.write_all(b"sample, "),
        Call::Spinel(_) => rt.write_all(b"spinel, "),
        Call::Modbus(_) => rt.write_all(b"modbus, "),
    };
}

// By the number that an answer carries.
fn print_refusal(rt: &impl Print, refusal: u8) {
    if refusal == 0 {
        let _ = rt.write_all(b"accepted");
        return;
    }
    let _ = print!(rt; "refused by {refusal}");
}

// A blank and the two digits of each byte.
fn print_bytes(rt: &impl Print, bytes: &[u8]) {
    for b in bytes {
        let pair = digits::hex_text(*b);
        let _ = rt.write_all(&[b' ', pair.items[0], pair.items[1]]);
    }
}

// The length of the buffer, the number that the answer carries, the reply, and how many bytes beyond it are as they were.
fn print_line(rt: &impl Print, room: usize, refusal: u8, reply: &[u8], same: usize) {
    let len = reply.len();
    let _ = print!(rt; "{room} bytes: ");
    print_refusal(rt, refusal);
    let _ = print!(rt; ", reply of {len} bytes");
    print_bytes(rt, reply);
    let _ = println!(rt; ", {same} bytes as they were");
}

// The state after a call on a buffer filled with EE, its line printed.
fn told(rt: &impl Print, m: Module, call: Call, reply: &mut [u8]) -> Module
    ensures value { result ≡ (acted (length reply.old) (act_of call.entry) m).after }
    ensures reply_after { reply.new ≡ over (acted (length reply.old) (act_of call.entry) m).reply reply.old }
{
    let a = make(m, call, reply);
    let len = a.len;
    let same = kept(&reply[len..]);
    print_name(rt, call);
    print_line(rt, reply.len(), a.refusal, &reply[..len], same);
    a.after
}

// The same with `room` bytes.
fn attempt(rt: &impl Print, m: Module, call: Call, room: usize) -> Module
    requires { room ≤ 256 }
    ensures { result ≡ (acted room (act_of call.entry) m).after }
{
    let mut space = [0xEEu8; 256];
    told(rt, m, call, &mut space[..room])
}

// A call with the four lengths, and a Spinel or Modbus read before and after the one that is accepted.
#[tactic(auto, unfolding(model::specs::Calls::run, model::specs::Calls::step))]
fn attempts(rt: &impl Print, m: Module, call: Call, read: Call) -> Module
    ensures { result ≡ run m (tried (act_of call.entry) (act_of read.entry)) }
{
    let none = attempt(rt, m, call, 0);
    let one = attempt(rt, none, call, 1);
    let short = attempt(rt, one, call, 255);
    let before = attempt(rt, short, read, 256);
    let after = attempt(rt, before, call, 256);
    attempt(rt, after, read, 256)
}

fn main(rt: HostRuntime) {
    let _ = rt.write_all(b"62H number 1; 6AH input 1 counts both edges; 10H notice on\n");
    let number = b"\x2A\x61\x00\x06\x31\x02\x62\x01\xD8\x0D";
    let mode = b"\x2A\x61\x00\x07\x31\x02\x6A\x01\x03\xCC\x0D";
    let notice = b"\x2A\x61\x00\x06\x31\x02\x10\x01\x2A\x0D";
    let numbered = attempt(&rt, iomodule::fresh(), Call::Spinel(number), 256);
    let counting = attempt(&rt, numbered, Call::Spinel(mode), 256);
    let ready = attempt(&rt, counting, Call::Spinel(notice), 256);
    let _ = rt.write_all(b"sample 0001; counter 1 by 60H\n");
    let counter = b"\x2A\x61\x00\x06\x31\x02\x60\x01\xDA\x0D";
    let sampled = attempts(&rt, ready, Call::Sample(1), Call::Spinel(counter));
    let _ = rt.write_all(b"20H output 1 on; outputs by 30H\n");
    let first = b"\x2A\x61\x00\x06\x31\x02\x20\x81\x9A\x0D";
    let outputs = b"\x2A\x61\x00\x05\x31\x02\x30\x0C\x0D";
    let set = attempts(&rt, sampled, Call::Spinel(first), Call::Spinel(outputs));
    let _ = rt.write_all(b"05 coil 1 on; coils by 01\n");
    let second = b"\x31\x05\x00\x01\xFF\x00\xD8\x0A";
    let coils = b"\x31\x01\x00\x00\x00\x10\x38\x36";
    attempts(&rt, set, Call::Modbus(second), Call::Modbus(coils));
}
