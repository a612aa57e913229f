// The sixteen inputs: whether a sample can change any line, the pass over the lines, which of them had an edge, counters, and the
// edges that a mask sees.
#![tactic(auto)]

ghost use Rattle.std.specs.Prelude.{◌≡◌, ◌<◌, List, Bool};
ghost use Rattle.lists.specs.Tests.{any};
ghost use Rattle.lists.specs.Numbers.{bit_at, bits_number};
ghost use Rattle.model.specs.Samples.{lines_sampled, edges, counters_sampled};
ghost use Rattle.inputs.specs.Passes.{any_masked, selected_lines, is_moving, any_moving, sampled_of, stable_bits};

use model::{Inputs, Line};
use std::array::from_fn;

// Which lines have an edge, and the stable states after it, as two numbers, input 1 lowest: what is done after an edge is given these and
// no lines, which would be copied at every sample.
#[derive(Clone, Copy)]
pub struct Edged {
    pub found: u16,
    pub states: u16,
}

// The inputs after a sample, and its edges, where there was any.
#[derive(Clone, Copy)]
pub struct Sampled {
    pub inputs: Inputs,
    pub edges: Option<Edged>,
}

// Bit i of a sample.
fn bit_at(bits: u16, i: usize) -> bool
    requires { i < 16 }
    ensures { result ≡ bit_at bits i }
{
    (bits >> i) % 2 == 1
}

// The pass over the sixteen lines.
pub fn sample_lines(a: [Line; 16], sampling: u8, bits: u16) -> [Line; 16]
    ensures { result ≡ lines_sampled sampling bits a }
{
    from_fn(|i| lines::sample_line(a[i], sampling, bit_at(bits, i)))
}

// Which lines have an edge that their mode selects. By copies: without, the sample call took 46.9 ns for 26.7 on the full load, and
// more by `from_fn`.
fn selected_lines(modes: [u8; 16], was: [Line; 16], now: [Line; 16]) -> [bool; 16]
    ensures { result ≡ selected_lines modes was now }
{
    let mut found = [false; 16];
    for i in 0..16usize {
        let mode = modes[i];
        let before = was[i];
        let after = now[i];
        found[i] = lines::is_selected(mode, before, after);
    }
    found
}

// Every counter by its own line's edge. Edges are bytes and counters four bytes, so each has a pass of its own.
pub fn count_lines(
    counters: [u32; 16],
    modes: [u8; 16],
    was: [Line; 16],
    now: [Line; 16],
) -> [u32; 16]
    ensures { result ≡ counters_sampled modes was now counters }
{
    let found = selected_lines(modes, was, now);
    from_fn(|i| lines::count(found[i], counters[i]))
}

// Which lines have an edge.
pub fn edges_of(was: [Line; 16], now: [Line; 16]) -> [bool; 16]
    ensures { result ≡ edges was now }
{
    from_fn(|i| lines::is_edge(was[i], now[i]))
}

// Whether there is any.
pub fn any_edge(edged: [bool; 16]) -> bool
    ensures { result ≡ any (λ b. b) edged }
{
    edged.contains(&true)
}

// Whether there is any on a line with its mask bit.
pub fn any_masked(mask: u16, found: u16) -> bool
    ensures { (edged : List Bool) → found ≡ bits_number edged → result ≡ any_masked mask edged }
{
    found & mask != 0
}

// The stable states as a number, input 1 lowest. By `from_fn`: by `map` the sample call took 29.5 ns for 26.7 on the full load.
#[inline(always)]
pub fn stable_bits(a: [Line; 16]) -> u16
    ensures { result ≡ stable_bits a }
{
    encoding::bits_of(from_fn(|i| a[i].stable))
}

// Whether a sample with this bit can change a line: where it is equal and there is no run, it does not.
fn is_moving(x: Line, bit: bool) -> bool
    ensures { result ≡ is_moving bit x }
{
    (bit != x.stable) | (x.run != 0)
}

// Whether it can change any. A loop, so that it has no branch.
fn any_moving(a: [Line; 16], bits: u16) -> bool
    ensures { result ≡ any_moving bits a }
{
    let mut found = false;
    for i in 0..16 {
        found = found | is_moving(a[i], bit_at(bits, i));
    }
    found
}

// The inputs' part of a sample. Where no line can change nothing does, and without an edge no counter: those passes are left out.
pub fn sample(sampling: u8, modes: [u8; 16], x: Inputs, bits: u16) -> Sampled
    ensures { result ≡ sampled_of bits sampling modes x }
{
    if !any_moving(x.lines, bits) {
        return Sampled {
            inputs: x,
            edges: None,
        };
    }
    let lines = sample_lines(x.lines, sampling, bits);
    let edges = edges_of(x.lines, lines);
    if !any_edge(edges) {
        return Sampled {
            inputs: Inputs { lines, ..x },
            edges: None,
        };
    }
    let counters = count_lines(x.counters, modes, x.lines, lines);
    let edged = Edged {
        found: encoding::bits_of(edges),
        states: stable_bits(lines),
    };
    Sampled {
        inputs: Inputs { lines, counters },
        edges: Some(edged),
    }
}
