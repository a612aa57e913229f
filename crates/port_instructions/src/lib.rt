// What Spinel's instructions come to for the port itself, the test of SUM, the notice and the reset: decoded, judged, applied.
#![tactic(auto)]

ghost use Rattle.std.specs.Prelude.{◌≡◌};
ghost use Rattle.model.specs.State.{with_spinel, with_notice, with_sum_tested};
ghost use Rattle.model.specs.Refusals.{on_part, reading, judged};
ghost use Rattle.model.specs.Counters.{give_permission, set_port, read_port, reset_module};
ghost use Rattle.model.specs.Notice.{set_notice, read_notice};
ghost use Rattle.model.specs.SumTest.{set_sum_test, read_sum_test};
ghost use Rattle.outcomes.specs.Parts.{outcome, served_of};

use model::{Module, Port, Refusal};
use outcomes::Served;

// 10H
pub fn set_notice(m: Module, signature: u8, d: &[u8]) -> Result<Served, Refusal>
    ensures { outcome m result ≡ served_of (judged m (on_part (with_notice m) (set_notice signature d.now m.settings.notice))) }
{
    port_effects::notice_refusal(d, m.settings.notice)?;
    let notice = port_effects::notice_set(signature, d, m.settings.notice);
    Ok(Served::without_data(outcomes::with_notice(m, notice)))
}

// 11H
#[tactic(auto, using(outcomes::proofs::Laws::told_law))]
pub fn read_notice(m: Module, d: &[u8]) -> Result<Served, Refusal>
    ensures { outcome m result ≡ served_of (judged m (reading m (read_notice d.now m.settings.notice))) }
{
    outcomes::told(m, port_effects::read_notice(d, m.settings.notice))
}

// E0H: a new address and speed, then the reset.
#[tactic(auto, using(crate::proofs::Ports::port_length, crate::proofs::Ports::port_closed, crate::proofs::Ports::port_unfit, crate::proofs::Ports::port_set))]
pub fn set_port(m: Module, permitted: bool, universal: bool, d: &[u8]) -> Result<Served, Refusal>
    ensures { outcome m result ≡ served_of (judged m (set_port permitted universal d.now m)) }
{
    encoding::refused_if(d.len() != 2, Refusal::DataLength)?;
    encoding::refused_if(universal | !permitted, Refusal::Permission)?;
    let address = encoding::at(d, 0);
    let speed = encoding::at(d, 1);
    encoding::refused_if((0xFD < address) | (0x0B < speed), Refusal::Value)?;
    let port = Port {
        address,
        speed,
        permitted: false,
    };
    let set = outcomes::with_spinel(m, port);
    Ok(Served::without_data(startup::reset_state(set)))
}

// E3H
#[tactic(auto, using(outcomes::proofs::Laws::refused_at, outcomes::proofs::Laws::done_at), unfolding(model::specs::Counters::reset_module, model::specs::Refusals::refusal_of))]
pub fn reset_module(m: Module, d: &[u8]) -> Result<Served, Refusal>
    ensures { outcome m result ≡ served_of (judged m (reset_module d.now m)) }
{
    encoding::no_data(d)?;
    Ok(Served::without_data(startup::reset_state(m)))
}

// E4H
#[tactic(auto, using(crate::proofs::Ports::permission_with_data, crate::proofs::Ports::permission_to_all, crate::proofs::Ports::permission_given))]
pub fn give_permission(m: Module, universal: bool, d: &[u8]) -> Result<Served, Refusal>
    ensures { outcome m result ≡ served_of (judged m (on_part (with_spinel m) (give_permission universal d.now m.spinel))) }
{
    encoding::no_data(d)?;
    encoding::refused_if(universal, Refusal::Permission)?;
    let port = port_effects::permitted(m.spinel, true);
    Ok(Served::without_data(outcomes::with_spinel(m, port)))
}

// F0H
#[tactic(auto, using(outcomes::proofs::Laws::told_law))]
pub fn read_port(m: Module, d: &[u8]) -> Result<Served, Refusal>
    ensures { outcome m result ≡ served_of (judged m (reading m (read_port d.now m.spinel))) }
{
    outcomes::told(m, port_effects::read_port(d, m.spinel))
}

// EEH: the test of SUM on or off.
#[tactic(auto, using(crate::proofs::Ports::turned_length, crate::proofs::Ports::turned_closed, crate::proofs::Ports::turned_unfit, crate::proofs::Ports::turned_so))]
pub fn set_sum_test(m: Module, permitted: bool, d: &[u8]) -> Result<Served, Refusal>
    ensures { outcome m result ≡ served_of (judged m (on_part (with_sum_tested m) (set_sum_test permitted d.now))) }
{
    encoding::refused_if(d.len() != 1, Refusal::DataLength)?;
    encoding::refused_if(!permitted, Refusal::Permission)?;
    let state = encoding::at(d, 0);
    encoding::refused_if(1 < state, Refusal::Value)?;
    Ok(Served::without_data(outcomes::with_sum_tested(m, state == 1)))
}

// FEH
#[tactic(auto, using(outcomes::proofs::Laws::told_law))]
pub fn read_sum_test(m: Module, d: &[u8]) -> Result<Served, Refusal>
    ensures { outcome m result ≡ served_of (judged m (reading m (read_sum_test d.now m.settings.sum_tested))) }
{
    outcomes::told(m, port_effects::read_sum_test(d, m.settings.sum_tested))
}
