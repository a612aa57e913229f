// What Spinel's instructions come to for the counters, the modes and the sampling number: decoded, judged, applied.
#![tactic(auto)]

ghost use Rattle.std.specs.Prelude.{◌≡◌, not};
ghost use Rattle.lists.specs.Entries.{entries};
ghost use Rattle.model.specs.State.{with_counters, with_modes, with_sampling};
ghost use Rattle.model.specs.Refusals.{refuse, on_part, reading, judged};
ghost use Rattle.model.specs.Counters.{items_of, list_read, read_counters, deduct, named_twice, clear_all, deduct_counters, set_modes_list, mode_shown, set_sampling, read_sampling};
ghost use Rattle.outcomes.specs.Parts.{outcome, served_of};

use model::{Module, Refusal};
use outcomes::Served;

// 60H
#[tactic(auto, using(crate::proofs::Lists::not_read, crate::proofs::Lists::read_done))]
pub fn read_counters(m: Module, d: &[u8]) -> Result<Served, Refusal>
    ensures { outcome m result ≡ served_of (judged m (on_part (with_counters m) (read_counters d.now m.inputs.counters))) }
{
    counter_reads::read_refusal(d)?;
    let read = counter_reads::collect(m.inputs.counters, d);
    Ok(Served {
        after: outcomes::with_counters(m, read.counters),
        body: read.reply,
    })
}

// 61H of one byte: 00 clears all.
#[tactic(auto, using(outcomes::proofs::Laws::refused_at, outcomes::proofs::Laws::done_at), unfolding(model::specs::Counters::clear_all, model::specs::Refusals::refusal_of))]
fn clear_all(m: Module, b: u8) -> Result<Served, Refusal>
    ensures { outcome m result ≡ served_of (judged m (on_part (with_counters m) (clear_all b))) }
{
    encoding::refused_if(b != 0, Refusal::Value)?;
    Ok(Served::without_data(outcomes::with_counters(m, [0; 16])))
}

// 61H of other lengths: five bytes for each deduction, the input and the amount, no number twice.
#[tactic(auto, using(crate::proofs::Lists::no_deductions, crate::proofs::Lists::named_again, crate::proofs::Lists::not_covered, crate::proofs::Lists::deducted))]
fn deduct_listed(m: Module, d: &[u8]) -> Result<Served, Refusal>
    ensures { outcome m result ≡ served_of (judged m (on_part (with_counters m) (refuse 8 (not (items_of 5 d.now)) (refuse 13 (named_twice (entries 5 d.now)) (deduct (entries 5 d.now) m.inputs.counters))))) }
{
    encoding::refused_if(!number_lists::items_of(5, d.len()), Refusal::DataLength)?;
    let decoded = decoders::fives(d);
    let es = decoded.as_slice();
    encoding::refused_if(rules::named_twice(es), Refusal::Repeated)?;
    counter_effects::deduct_refusal(m.inputs.counters, es)?;
    let counters = counter_effects::deduct(m.inputs.counters, es);
    Ok(Served::without_data(outcomes::with_counters(m, counters)))
}

// 61H
#[tactic(auto, unfolding(model::specs::Counters::deduct_counters))]
pub fn deduct_counters(m: Module, d: &[u8]) -> Result<Served, Refusal>
    ensures { outcome m result ≡ served_of (judged m (on_part (with_counters m) (deduct_counters d.now m.inputs.counters))) }
{
    if d.len() == 1 {
        clear_all(m, d[0])
    } else {
        deduct_listed(m, d)
    }
}

// 62H
#[tactic(auto, using(outcomes::proofs::Laws::refused_at, outcomes::proofs::Laws::done_at), unfolding(model::specs::Counters::set_sampling, model::specs::Refusals::refusal_of))]
pub fn set_sampling(m: Module, d: &[u8]) -> Result<Served, Refusal>
    ensures { outcome m result ≡ served_of (judged m (on_part (with_sampling m) (set_sampling d.now))) }
{
    counter_effects::sampling_refusal(d)?;
    Ok(Served::without_data(outcomes::with_sampling(m, encoding::at(d, 0))))
}

// 63H
#[tactic(auto, using(outcomes::proofs::Laws::told_law))]
pub fn read_sampling(m: Module, d: &[u8]) -> Result<Served, Refusal>
    ensures { outcome m result ≡ served_of (judged m (reading m (read_sampling d.now m.settings.sampling))) }
{
    outcomes::told(m, counter_effects::read_sampling(m.settings.sampling, d))
}

// 6AH
#[tactic(auto, using(crate::proofs::Lists::no_modes, crate::proofs::Lists::modes_unfit, crate::proofs::Lists::modes_done))]
pub fn set_modes(m: Module, d: &[u8]) -> Result<Served, Refusal>
    ensures { outcome m result ≡ served_of (judged m (on_part (with_modes m) (set_modes_list d.now m.settings.modes))) }
{
    encoding::refused_if(!number_lists::items_of(2, d.len()), Refusal::DataLength)?;
    let decoded = decoders::pairs(d);
    let es = decoded.as_slice();
    counter_effects::modes_refusal(es)?;
    let modes = counter_effects::set_modes(m.settings.modes, es);
    Ok(Served::without_data(outcomes::with_modes(m, modes)))
}

// 6BH
#[tactic(auto, using(outcomes::proofs::Laws::told_law))]
pub fn read_modes(m: Module, d: &[u8]) -> Result<Served, Refusal>
    ensures { outcome m result ≡ served_of (judged m (reading m (list_read (mode_shown m.settings.modes) d.now))) }
{
    outcomes::told(m, spinel_reads::read_input_modes(m.settings.modes, d))
}
