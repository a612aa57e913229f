// What requests do to the counters, modes and sampling number, each on no more of the state than it may change.
#![tactic(auto)]

ghost use Rattle.std.specs.Prelude.{◌≡◌, cond, not, ℕ};
ghost use mathlib.Core.List.{List, foldl};
ghost use Rattle.lists.specs.Tests.{all};
ghost use Rattle.model.specs.Numbers.{refused_by};
ghost use Rattle.model.specs.Refusals.{refusal_of};
ghost use Rattle.model.specs.Counters.{deductible, deduct_one, deduct};
ghost use Rattle.model.specs.Counters.{set_modes, set_sampling, read_sampling};
ghost use Rattle.model.specs.Registers.{is_zero, clear_one};
ghost use Rattle.encoding.specs.Answers.{told, told_of};
ghost use Rattle.counter_effects.specs.Answers.{set_mode_byte};

use lists::{Data, Entry};
use model::Refusal;

// Whether a deduction has the number of an input and is at most its counter.
#[tactic(auto, unfolding(model::specs::Counters::deductible))]
fn is_covered(cs: [u32; 16], e: Entry) -> bool
    ensures { result ≡ deductible cs e }
{
    let have = encoding::element(&cs, entries::place(e), 0);
    entries::is_numbered(e) & (e.value <= have)
}

// The counters after a deduction.
#[tactic(auto, unfolding(model::specs::Counters::deduct_one))]
fn deduct_one(cs: [u32; 16], e: &Entry) -> [u32; 16]
    ensures { result ≡ deduct_one cs e.now }
{
    let k = entries::place(*e);
    let have = encoding::element(&cs, k, 0);
    encoding::with_element(cs, k, have.saturating_sub(e.value))
}

// Why deductions are refused: each must be covered. The judges differ in their test, and say it by `all` and `refused_if` alone.
pub fn deduct_refusal(cs: [u32; 16], es: &[Entry]) -> Result<(), Refusal>
    ensures { refused_by result ≡ refusal_of (deduct es.now cs) }
{
    let covered = es.iter().all(|e| is_covered(cs, *e));
    encoding::refused_if(!covered, Refusal::Value)
}

// The counters after the deductions.
pub fn deduct(cs: [u32; 16], es: &[Entry]) -> [u32; 16]
    ensures { result ≡ foldl deduct_one cs es.now }
{
    es.iter().fold(cs, deduct_one)
}

// Why values written to counters are refused: a counter can only be cleared.
pub fn clear_refusal(es: &[Entry]) -> Result<(), Refusal>
    ensures { refused_by result ≡ cond (not (all is_zero es.now)) 11 0 }
{
    let zeros = es.iter().all(|e| rules::is_zero(*e));
    encoding::refused_if(!zeros, Refusal::Value)
}

// The counters with the one that is named at 0.
#[tactic(auto, unfolding(model::specs::Registers::clear_one))]
fn clear_one(cs: [u32; 16], e: &Entry) -> [u32; 16]
    ensures { result ≡ clear_one cs e.now }
{
    encoding::with_element(cs, entries::place(*e), 0)
}

// The counters with each that is named at 0.
pub fn clear(cs: [u32; 16], es: &[Entry]) -> [u32; 16]
    ensures { result ≡ foldl clear_one cs es.now }
{
    es.iter().fold(cs, clear_one)
}

// The modes after a setting. A mode is a byte and no enum: any may be stored, and 6BH and registers 300 up show it so.
#[tactic(auto, unfolding(crate::specs::Answers::set_mode_byte, model::specs::Counters::set_mode))]
fn set_mode(ms: [u8; 16], e: &Entry) -> [u8; 16]
    ensures { result ≡ set_mode_byte ms e.now }
{
    encoding::with_element(ms, entries::place(*e), entries::byte(*e))
}

// Why settings of modes are refused, whatever the modes.
pub fn modes_refusal(es: &[Entry]) -> Result<(), Refusal>
    ensures { (ms : List ℕ) → refused_by result ≡ refusal_of (set_modes es.now ms) }
{
    let settable = es.iter().all(|e| rules::is_mode_setting(*e));
    encoding::refused_if(!settable, Refusal::Value)
}

// The modes after the settings.
pub fn set_modes(ms: [u8; 16], es: &[Entry]) -> [u8; 16]
    ensures { result ≡ foldl set_mode_byte ms es.now }
{
    es.iter().fold(ms, set_mode)
}

// 62H: why a sampling number is refused.
#[tactic(auto, unfolding(model::specs::Counters::set_sampling, model::specs::Refusals::refusal_of, lists::specs::Tests::within))]
pub fn sampling_refusal(d: &[u8]) -> Result<(), Refusal>
    ensures { refused_by result ≡ refusal_of (set_sampling d.now) }
{
    encoding::refused_if(d.len() != 1, Refusal::DataLength)?;
    encoding::refused_if(encoding::at(d, 0) < 1, Refusal::Value)
}

// 63H: read it.
pub fn read_sampling(sampling: u8, d: &[u8]) -> Result<Data, Refusal>
    ensures { told result ≡ told_of (read_sampling d.now sampling) }
{
    encoding::no_data(d)?;
    Ok(encoding::empty().push(sampling))
}
