// What links make of the outputs in a sample (E8). Arranged so that a sample without an edge, or without any link, takes what it took
// before there were links; docs/PERFORMANCE.md tells how that was found.
#![tactic(auto)]

ghost use Rattle.std.specs.Prelude.{◌≡◌, ◌-◌, ◌<◌, cond, [], ◌∷◌, map};
ghost use Rattle.lists.specs.Tests.{any};
ghost use Rattle.lists.specs.Numbers.{bit_at, bits_number};
ghost use Rattle.model.specs.State.{has_link, link, output};
ghost use Rattle.linking.specs.Links.{sets, sets_on, links_in, links_by, sets_by, outputs_by, outputs_set, linked_by};

use inputs::Edged;
use model::{Link, Output};
use std::array::from_fn;

// Which outputs are set, and which of them on, as numbers, output 1 lowest.
#[derive(Clone, Copy)]
pub struct Sets {
    pub set: u16,
    pub on: u16,
}

// Whether any output has a link. A loop over all of them, so that it has no branch.
fn any_link(links: [Link; 16]) -> bool
    ensures { result ≡ any has_link links }
{
    let mut found = false;
    for i in 0..16 {
        found = found | holding::is_linked(links[i]);
    }
    found
}

// The bit of a link's input; 0 is taken for 1, and behind the last stands none.
fn bit_of(bits: u16, input: u8) -> bool
    ensures { result ≡ bit_at bits (input - 1) }
{
    let place = input.saturating_sub(1);
    if 15 < place {
        return false;
    }
    (bits >> place) % 2 == 1
}

// Whether a link sets its output: by its action, at an edge of its input, or at one that rises.
#[tactic(auto, unfolding(crate::specs::Links::sets))]
fn is_set(l: Link, found: u16, states: u16) -> bool
    ensures { result ≡ sets found states l }
{
    let a = l.action;
    let risen = bit_of(states, l.input);
    bit_of(found, l.input) & (((a == 1) | (a == 2)) | (((a == 3) | (a == 4)) & risen))
}

// Whether it sets it to on, if it does.
#[tactic(auto, unfolding(crate::specs::Links::sets_on))]
fn is_set_on(l: Link, states: u16) -> bool
    ensures { result ≡ sets_on states l }
{
    let a = l.action;
    let risen = bit_of(states, l.input);
    (a == 3) | (((a == 1) & risen) | ((a == 2) & !risen))
}

// The outputs that are set, as a number. This and the next put it together bit by bit: by `bits_of` the sample call took 207 ns for 121 with
// sixteen links on the full load.
fn set_bits(links: [Link; 16], found: u16, states: u16) -> u16
    ensures { result ≡ bits_number (map (sets found states) links) }
{
    let mut bits = 0;
    for i in 0..16 {
        bits = bits | (u16::from(is_set(links[i], found, states)) << i);
    }
    bits
}

// Those that would be set to on.
fn on_bits(links: [Link; 16], states: u16) -> u16
    ensures { result ≡ bits_number (map (sets_on states) links) }
{
    let mut bits = 0;
    for i in 0..16 {
        bits = bits | (u16::from(is_set_on(links[i], states)) << i);
    }
    bits
}

// Four links as one number: a number is handed to a function of its own without the array that it comes from.
#[inline(always)]
fn word_of(a: Link, b: Link, c: Link, d: Link) -> u64
    ensures { links_in result ≡ a ∷ b ∷ c ∷ d ∷ [] }
{
    u64::from_le_bytes([
        a.input, a.action, b.input, b.action, c.input, c.action, d.input, d.action,
    ])
}

fn link(input: u8, action: u8) -> Link
    ensures { result ≡ link input action }
{
    Link { input, action }
}

// The sixteen links of four such numbers.
#[tactic(auto, unfolding(crate::specs::Links::links_in))]
fn links_of(w0: u64, w1: u64, w2: u64, w3: u64) -> [Link; 16]
    ensures { result ≡ links_by w0 w1 w2 w3 }
{
    let a = w0.to_le_bytes();
    let b = w1.to_le_bytes();
    let c = w2.to_le_bytes();
    let d = w3.to_le_bytes();
    [
        link(a[0], a[1]),
        link(a[2], a[3]),
        link(a[4], a[5]),
        link(a[6], a[7]),
        link(b[0], b[1]),
        link(b[2], b[3]),
        link(b[4], b[5]),
        link(b[6], b[7]),
        link(c[0], c[1]),
        link(c[2], c[3]),
        link(c[4], c[5]),
        link(c[6], c[7]),
        link(d[0], d[1]),
        link(d[2], d[3]),
        link(d[4], d[5]),
        link(d[6], d[7]),
    ]
}

// What the links, given so, set. Not inlined: beside the other passes it would keep the whole module in memory.
#[cold]
#[inline(never)]
fn sets_of(w0: u64, w1: u64, w2: u64, w3: u64, found: u16, states: u16) -> Sets
    ensures { result ≡ sets_by (links_by w0 w1 w2 w3) found states }
{
    let links = links_of(w0, w1, w2, w3);
    Sets {
        set: set_bits(links, found, states),
        on: on_bits(links, states),
    }
}

// One output, set or left.
#[inline(always)]
fn put(o: Output, is_set: bool, on: bool) -> Output
    ensures { result ≡ cond is_set (output on 0) o }
{
    if is_set { outputs::set(on) } else { o }
}

// The bit of a place.
#[inline(always)]
fn bit_at(bits: u16, i: usize) -> bool
    requires { i < 16 }
    ensures { result ≡ bit_at bits i }
{
    (bits >> i) % 2 == 1
}

// Every output by what is set.
#[inline(always)]
fn put_all(a: [Output; 16], s: Sets) -> [Output; 16]
    ensures { result ≡ outputs_set s a }
{
    from_fn(|i| put(a[i], bit_at(s.set, i), bit_at(s.on, i)))
}

// The outputs after their links, where a line has an edge.
#[inline(always)]
fn drive(l: [Link; 16], e: Edged, a: [Output; 16]) -> [Output; 16]
    ensures { result ≡ outputs_by e.found e.states l a }
{
    let w0 = word_of(l[0], l[1], l[2], l[3]);
    let w1 = word_of(l[4], l[5], l[6], l[7]);
    let w2 = word_of(l[8], l[9], l[10], l[11]);
    let w3 = word_of(l[12], l[13], l[14], l[15]);
    put_all(a, sets_of(w0, w1, w2, w3, e.found, e.states))
}

// The outputs after their links, by the edges of a sample.
pub fn link_outputs(links: [Link; 16], edged: Option<Edged>, a: [Output; 16]) -> [Output; 16]
    ensures { result ≡ linked_by edged links a }
{
    match edged {
        Some(e) => {
            if any_link(links) {
                return drive(links, e, a);
            }
            a
        }
        None => a,
    }
}
