// Runs of generated samples, typical, full and linked load: their outcome is checked, and they are timed.
#![tactic(auto)]

ghost use Rattle.std.specs.Prelude.{◌≡◌, length};
ghost use Rattle.load.specs.Play.{next_seed, typical_next, noisy_next, source_next, play_one, buffer_one, play_many, buffer_many, links_by, start_of, left_by, summed};

use model::{Link, Module, Notice, Output};
use std::array::from_fn;

// Where the generator stands: its last number, and the sixteen bits of the last sample.
#[derive(Clone, Copy)]
pub struct Source {
    pub seed: u32,
    pub level: u16,
}

// The state after some samples, and how many bytes their notices had.
#[derive(Clone, Copy)]
pub struct Played {
    pub after: Module,
    pub source: Source,
    pub written: u64,
}

fn next_seed(seed: u32) -> u32
    ensures { result ≡ next_seed seed }
{
    ((u64::from(seed) % 2147483648 * 1103515245 + 12345) % 2147483648) as u32
}

// Now and then one input changes.
fn typical_next(s: Source) -> Source
    ensures { result ≡ typical_next s }
{
    let place = next_seed(s.seed);
    let chance = next_seed(place);
    let level = s.level;
    if chance / 65536 % 125 == 0 {
        let bit = 1u16 << (place / 65536 % 16);
        return Source {
            seed: chance,
            level: level ^ bit,
        };
    }
    Source {
        seed: chance,
        level,
    }
}

// Any sixteen bits.
fn noisy_next(s: Source) -> Source
    ensures { result ≡ noisy_next s }
{
    let seed = next_seed(s.seed);
    Source {
        seed,
        level: (seed / 32768 % 65536) as u16,
    }
}

// Either kind. A bool, since `load_play` takes one by the C interface.
fn source_next(noisy: bool, s: Source) -> Source
    ensures { result ≡ source_next noisy s }
{
    if noisy {
        return noisy_next(s);
    }
    typical_next(s)
}

// One sample more.
fn play_one(noisy: bool, p: Played, reply: &mut [u8]) -> Played
    ensures value { result ≡ play_one (length reply.old) noisy p }
    ensures reply_after { reply.new ≡ buffer_one (length reply.old) noisy p reply.old }
{
    let source = source_next(noisy, p.source);
    let a = iomodule::sample(p.after, source.level, reply);
    Played {
        after: a.after,
        source,
        written: p.written.wrapping_add(a.len as u64),
    }
}

// n samples, one after another. Inlined: a caller that asks for a part of the state keeps no more of it.
#[inline(always)]
pub fn play(noisy: bool, n: u32, p: Played, reply: &mut [u8]) -> Played
    ensures value { result ≡ play_many (length reply.old) noisy n p }
    ensures reply_after { reply.new ≡ buffer_many (length reply.old) noisy n p reply.old }
{
    let mut after = p;
    for _turn in 0..n {
        after = play_one(noisy, after, reply);
    }
    after
}

// Each output linked to the input of its number; by action 0 none is.
fn links_by(action: u8) -> [Link; 16]
    ensures { result ≡ links_by action }
{
    if action == 0 {
        return [Link::FRESH; 16];
    }
    from_fn(|i| Link {
        input: i as u8 + 1,
        action,
    })
}

// The state to start from: every input counts by `mode`, tells by the mask and drives its output by `action` (0: no links); four
// pulses, and twelve of `rest` samples.
pub fn start(sampling: u8, mode: u8, mask: u16, rest: u32, action: u8) -> Played
    ensures { result ≡ start_of sampling mode mask rest action }
{
    let f = startup::fresh();
    // Through a variable: an array that is stored in a field of a field gets no proof.
    let mut settings = f.settings;
    settings.modes = [mode; 16];
    settings.sampling = sampling;
    settings.links = links_by(action);
    let first = Output {
        on: true,
        left: 3_000_000,
    };
    let mut outputs = [Output {
        on: true,
        left: rest,
    }; 16];
    outputs[..4].fill(first);
    settings.notice = Notice {
        format: 0x61,
        mask,
        signature: 2,
    };
    Played {
        after: Module {
            outputs,
            settings,
            ..f
        },
        source: Source {
            seed: 12345,
            level: 0,
        },
        written: 0,
    }
}

// What samples leave in a counter and an output, as one number.
fn left_by(counter: u32, o: Output) -> u64
    ensures { result ≡ left_by counter o }
{
    u64::from(counter) + u64::from(o.left) + u64::from(o.on)
}

// Counters, outputs and the bytes of the notices, added up: a compiler may leave out what nobody asks for.
fn sum(p: Played) -> u64
    ensures { result ≡ summed p }
{
    let counters = p.after.inputs.counters;
    let outputs = p.after.outputs;
    let mut total = p.written;
    // By place: of `zip` no invariant over what is left of both lists closed.
    for i in 0..16 {
        total = total.wrapping_add(left_by(counters[i], outputs[i]));
    }
    total
}

// One load from its start, for a caller that times it. Nothing of it is known before the call, so that all is worked out in it.
#[unsafe(no_mangle)]
pub extern "C" fn load_play(
    noisy: bool,
    n: u32,
    sampling: u8,
    mode: u8,
    mask: u16,
    rest: u32,
    action: u8,
    reply: &mut [u8],
) -> u64
    ensures value { result ≡ summed (play_many (length reply.old) noisy n (start_of sampling mode mask rest action)) }
    ensures reply_after { reply.new ≡ buffer_many (length reply.old) noisy n (start_of sampling mode mask rest action) reply.old }
{
    sum(play(noisy, n, start(sampling, mode, mask, rest, action), reply))
}
