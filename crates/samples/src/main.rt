// Plays 2,000,000 generated samples of a typical, a full and a linked load, and prints the counters reached and the bytes of the notices.
#![tactic(auto)]

ghost use Rattle.std.specs.Prelude.{◌≡◌, cond, ltb, get_or};

use load::Played;
use std::array::from_fn;

// What is printed of an outcome: the sixteen counters reached, then the bytes of the notices.
#[inline(always)]
fn number_at(p: &Played, i: usize) -> u64
    ensures { result ≡ cond (ltb i 16) (get_or p.now.after.inputs.counters i 0) p.now.written }
{
    match p.after.inputs.counters.get(i) {
        Some(counter) => u64::from(*counter),
        None => p.written,
    }
}

// One load of 2,000,000 samples, and what is printed of it. Not inlined, and its numbers are taken out at once: so no more of the
// state than they need is kept through the samples, which take a third of the time then.
#[inline(never)]
fn print_load(rt: &impl Print, name: &[u8], noisy: bool, from: Played) {
    let mut reply = [0u8; 256];
    let reached = load::play(noisy, 2_000_000, from, &mut reply);
    let numbers: [u64; 17] = from_fn(|i| number_at(&reached, i));
    let _ = rt.write_all(name);
    for number in numbers {
        let _ = println!(rt; "{number}");
    }
}

// What is written has no contract: std promises nothing of it, and a write that fails is passed over. The gate holds it to the file `stdout`.
fn main(rt: HostRuntime) {
    let typical = load::start(20, 3, 0xFFFF, 0, 0);
    print_load(&rt, b"typical load\n", false, typical);
    let full = load::start(1, 3, 0xFFFF, 3_000_000, 0);
    print_load(&rt, b"full load\n", true, full);
    let linked = load::start(1, 3, 0xFFFF, 3_000_000, 1);
    print_load(&rt, b"linked load\n", true, linked);
}
