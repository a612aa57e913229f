// Counters read and collected (60H).
#![tactic(auto)]

ghost use Rattle.std.specs.Prelude.{◌≡◌, List, ℕ};
ghost use Rattle.lists.specs.Tests.{all};
ghost use Rattle.model.specs.Numbers.{refused_by};
ghost use Rattle.model.specs.Refusals.{refusal_of};
ghost use Rattle.model.specs.Counters.{parameters, read_one, read_counters};
ghost use Rattle.number_lists.specs.Items.{low_six_number};
ghost use Rattle.counter_reads.specs.Reading.{asks_every, every_of, read_step, read_start, read_rest};

use lists::Data;
use model::Refusal;

// 60H: the counters after it, and the reply's data.
#[derive(Drop)]
pub struct Collected {
    pub counters: [u32; 16],
    pub reply: Data,
}

// Whether there is a single parameter with number 0, which stands for all.
#[tactic(auto, unfolding(crate::specs::Reading::asks_every))]
fn asks_every(d: &[u8]) -> bool
    ensures { result ≡ asks_every d.now }
{
    d.len() == 1 && d[0] % 64 == 0
}

// Whether every parameter names an input.
#[tactic(auto, using(crate::proofs::Readings::named_law))]
fn all_named(d: &[u8]) -> bool
    ensures { result ≡ all low_six_number (parameters d.now) }
{
    asks_every(d) | number_lists::all_low_six(d)
}

// All sixteen parameters, with bit 7 if `p` has it.
fn every_of(p: u8) -> [u8; 16]
    ensures { result ≡ every_of p }
{
    if p < 128 {
        number_lists::EVERY
    } else {
        number_lists::EVERY.map(|n| n | 128)
    }
}

// The counters after one parameter: where it has bit 7, the one read is zeroed.
#[tactic(auto, unfolding(model::specs::Counters::read_one))]
fn collect_one(cs: [u32; 16], p: u8) -> [u32; 16]
    ensures { result ≡ read_one cs p }
{
    if p < 128 {
        cs
    } else {
        encoding::with_element(cs, encoding::index_of(p % 64), 0)
    }
}

// One parameter: its counter is read as the copy stood before it.
#[tactic(auto, unfolding(crate::specs::Reading::read_step))]
fn read_one(r: Collected, p: u8) -> Collected
    ensures { result ≡ read_step r p }
{
    let value = encoding::element(&r.counters, encoding::index_of(p % 64), 0);
    let counters = collect_one(r.counters, p);
    let reply = encoding::push32(r.reply, value);
    Collected { counters, reply }
}

// Before the first parameter: 20H, the counters' width in bits.
#[tactic(auto, using(lists::proofs::DataLaws::push_law))]
fn read_start(cs: [u32; 16]) -> Collected
    ensures { result ≡ read_start cs }
{
    Collected {
        counters: cs,
        reply: encoding::empty().push(32),
    }
}

// The parameters in turn, on a copy of the counters.
fn read_each(cs: [u32; 16], ps: &[u8]) -> Collected
    ensures { result ≡ read_rest (read_start cs) ps.now }
{
    ps.iter().fold(read_start(cs), |r, p| read_one(r, *p))
}

// 60H: why it is refused, whatever the counters.
#[tactic(auto, using(crate::proofs::Readings::sizes), unfolding(model::specs::Counters::read_counters, model::specs::Refusals::refusal_of))]
pub fn read_refusal(d: &[u8]) -> Result<(), Refusal>
    ensures { (cs : List ℕ) → refused_by result ≡ refusal_of (read_counters d.now cs) }
{
    encoding::refused_if(!number_lists::items_of(1, d.len()), Refusal::DataLength)?;
    encoding::refused_if(!all_named(d), Refusal::Value)
}

// 60H: read, and collect.
#[tactic(auto, using(crate::proofs::Readings::named_every, crate::proofs::Readings::named_own))]
pub fn collect(cs: [u32; 16], d: &[u8]) -> Collected
    ensures { result ≡ read_rest (read_start cs) (parameters d.now) }
{
    if asks_every(d) {
        read_each(cs, &every_of(encoding::at(d, 0)))
    } else {
        read_each(cs, d)
    }
}
