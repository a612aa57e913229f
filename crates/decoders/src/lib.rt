// A request's data as entries: lists, registers, set bytes and coils, by one loop over what stands at each place.
#![tactic(auto)]

ghost use Rattle.std.specs.Prelude.{◌≡◌, ℕ, List, map, ◌/◌, ◌%◌, ◌^◌, ◌<◌, length, get_or, take};
ghost use Rattle.lists.specs.declared.Entry.{Entry as EntryOf};
ghost use Rattle.lists.specs.Entries.{entry, entries, numbered, entries_of};
ghost use Rattle.model.specs.Outputs.{set_byte};
ghost use Rattle.model.specs.Modbus.{words, bits_from};
ghost use Rattle.model.specs.Registers.{bit_group, number_at};

use lists::{Entries, Entry};
use model::Group;

// The entry of two bytes at a place: a number and a value. That there is such a place is asked of each of these functions by its own
// width.
#[tactic(auto, using(crate::proofs::Places::pair_place))]
fn pair_at(d: &[u8], j: usize) -> Entry
    requires { j < length d.now / 2 }
    ensures { result ≡ get_or (entries 2 d.now) j (entry 0 0) }
{
    let number = usize::from(encoding::at(d, 2 * j));
    let value = u32::from(encoding::at(d, 2 * j + 1));
    Entry { number, value }
}

// The entry of five bytes at a place: a number and a value of four.
#[tactic(auto, using(crate::proofs::Places::five_place))]
fn five_at(d: &[u8], j: usize) -> Entry
    requires { j < length d.now / 5 }
    ensures { result ≡ get_or (entries 5 d.now) j (entry 0 0) }
{
    let number = usize::from(encoding::at(d, 5 * j));
    let high = encoding::word_from(d, 5 * j + 1);
    let low = encoding::word_from(d, 5 * j + 3);
    let value = encoding::be32(high, low);
    Entry { number, value }
}

// The value of two bytes at a place, for the group's register so many after a.
#[tactic(auto, using(crate::proofs::Places::register_place))]
fn register_at(g: Group, a: u16, d: &[u8], j: usize) -> Entry
    requires { j < length d.now / 2 }
    ensures { result ≡ get_or (numbered (number_at g a) (words d.now)) j (entry 0 0) }
{
    let number = groups::number(g, a) + j;
    let word = encoding::word_from(d, 2 * j);
    Entry {
        number,
        value: u32::from(word),
    }
}

// The set byte at a place: the top bit for on, below it the output's number.
#[tactic(auto, using(crate::proofs::Places::set_place), unfolding(model::specs::Outputs::set_byte))]
fn set_at(d: &[u8], j: usize) -> Entry
    ensures { result ≡ get_or (map set_byte d.now) j (entry 0 0) }
{
    let b = encoding::at(d, j);
    let number = usize::from(b % 128);
    let value = u32::from(b / 128);
    Entry { number, value }
}

// Bit j of the bytes, each byte's lowest first; 0 past the end.
fn bit_of(d: &[u8], j: usize) -> u32
    ensures { result ≡ get_or d.now (j / 8) 0 / 2 ^ (j % 8) % 2 }
{
    let b = encoding::at(d, j / 8);
    u32::from((b >> (j % 8)) % 2)
}

// The bit at a place of n, for the coil so many after a.
#[tactic(auto, using(crate::proofs::Places::coil_place))]
fn coil_at(a: u16, n: u16, d: &[u8], j: usize) -> Entry
    requires { j < n }
    ensures { result ≡ get_or (numbered (number_at bit_group a) (bits_from 0 n d.now)) j (entry 0 0) }
{
    let number = groups::number(groups::BITS, a) + j;
    let value = bit_of(d, j);
    Entry { number, value }
}

// The first sixteen of n entries, the one at each place by a call. By its place and not by chunks: a coil is a bit of a byte, and
// a register's number goes by its place.
fn decode<F: Fn(usize) -> Entry>(n: usize, entry_at: F) -> Entries
    requires { (j : ℕ) → j < n → F.pre entry_at j }
    ensures { (l : List EntryOf) → length l ≡ n → ((j : ℕ) (e : EntryOf) → j < n → F.post entry_at j e → e ≡ get_or l j (entry 0 0)) → result ≡ entries_of (take 16 l) }
{
    let mut es = entries::none();
    for j in 0..n {
        es = es.push(entry_at(j));
    }
    es
}

// Numbers, each with a value of one byte.
pub fn pairs(d: &[u8]) -> Entries
    ensures { result ≡ entries_of (take 16 (entries 2 d.now)) }
{
    decode(d.len() / 2, |j| pair_at(d, j))
}

// Numbers, each with a value of four bytes.
pub fn fives(d: &[u8]) -> Entries
    ensures { result ≡ entries_of (take 16 (entries 5 d.now)) }
{
    decode(d.len() / 5, |j| five_at(d, j))
}

// Values of two bytes for the inputs or outputs that the group's registers from a on are for.
pub fn registers(g: Group, a: u16, d: &[u8]) -> Entries
    ensures { result ≡ entries_of (take 16 (numbered (number_at g a) (words d.now))) }
{
    decode(d.len() / 2, |j| register_at(g, a, d, j))
}

// The value of two bytes at a place, or 0 past the end.
#[tactic(auto, using(crate::proofs::Places::value_place, crate::proofs::Places::value_out))]
pub fn value_at(d: &[u8], j: usize) -> u16
    ensures { result ≡ get_or (words d.now) j 0 }
{
    if j < d.len() / 2 {
        return encoding::word_from(d, 2 * j);
    }
    0
}

// Set bytes: numbers of outputs, each with 1 for on and 0 for off.
pub fn set_bytes(d: &[u8]) -> Entries
    ensures { result ≡ entries_of (take 16 (map set_byte d.now)) }
{
    decode(d.len(), |j| set_at(d, j))
}

// Bits for the outputs that n coils from a on are for.
pub fn coils(a: u16, n: u16, d: &[u8]) -> Entries
    ensures { result ≡ entries_of (take 16 (numbered (number_at bit_group a) (bits_from 0 n d.now))) }
{
    decode(usize::from(n), |j| coil_at(a, n, d, j))
}
