// Decoded entries: none, and what an entry's number and value say.
#![tactic(auto)]

ghost use Rattle.std.specs.Prelude.{◌≡◌, [], ◌-◌, ◌%◌};
ghost use Rattle.lists.specs.Entries.{entries_of};
ghost use Rattle.model.specs.Counters.{is_number};

use lists::{Entries, Entry};

// No entries.
#[tactic(auto, unfolding(lists::specs::Entries::entries_of))]
pub fn none() -> Entries
    ensures { result ≡ entries_of [] }
{
    Entries::empty(Entry {
        number: 0,
        value: 0,
    })
}

// Whether an entry has the number of an input or an output. `number_lists::is_number` says so of a byte: each is one call of std's.
#[tactic(auto, unfolding(lists::specs::Tests::within))]
pub fn is_numbered(e: Entry) -> bool
    ensures { result ≡ is_number e.number }
{
    (1..=16).contains(&e.number)
}

// The place of an entry's number: one less, and 0 for 0. `encoding::index_of` says so of a byte: each is one call of std's.
pub fn place(e: Entry) -> usize
    ensures { result ≡ e.number - 1 }
{
    e.number.saturating_sub(1)
}

// The low byte of an entry's value.
pub fn byte(e: Entry) -> u8
    ensures { result ≡ e.value % 256 }
{
    (e.value % 256) as u8
}
