// The notice's settings, the ports' address, speed and permission, and the test of SUM.
#![tactic(auto)]

ghost use Rattle.std.specs.Prelude.{◌≡◌, cond, not, ◌&&◌, ℕ, eqb, length, get_or};
ghost use mathlib.Core.List.{foldl};
ghost use Rattle.lists.specs.Tests.{all};
ghost use Rattle.model.specs.State.{permit, is_on, turned_off};
ghost use Rattle.model.specs.Numbers.{refused_by};
ghost use Rattle.model.specs.Refusals.{refusal_of};
ghost use Rattle.model.specs.Counters.{read_port};
ghost use Rattle.model.specs.Notice.{mask_given, set_notice, read_notice};
ghost use Rattle.model.specs.SumTest.{read_sum_test};
ghost use Rattle.model.specs.Registers.{port_settable};
ghost use Rattle.encoding.specs.Answers.{told, told_of};
ghost use Rattle.port_effects.specs.Parts.{set_port_byte};

use lists::{Data, Entry};
use model::{Notice, Port, Refusal};

// A port with its permission given or ended.
pub fn permitted(p: Port, given: bool) -> Port
    ensures { result ≡ permit given p }
{
    Port {
        permitted: given,
        ..p
    }
}

// The mask of 10H: all inputs where it is left out.
fn mask_given(d: &[u8]) -> u16
    ensures { result ≡ mask_given d.now }
{
    if d.len() == 1 {
        0xFFFF
    } else {
        encoding::word_from(d, 1)
    }
}

// Whether the notice is on, in either format.
pub fn is_on(n: Notice) -> bool
    ensures { result ≡ is_on n }
{
    n.format != 0
}

// The notice off, with no input in its mask.
pub fn turned_off(n: Notice) -> Notice
    ensures { result ≡ turned_off n }
{
    Notice {
        format: 0,
        mask: 0,
        ..n
    }
}

// Whether 10H's first byte and length do not go with the notice as it is.
fn notice_unfit(d: &[u8], n: Notice) -> bool
    ensures { result ≡ cond (eqb (get_or d.now 0 0) 1) (is_on n) (not (eqb (get_or d.now 0 0) 0 && eqb (length d.now) 1)) }
{
    match encoding::at(d, 0) {
        1 => is_on(n),
        0 => d.len() != 1,
        _ => true,
    }
}

// 10H: why it is refused, whatever its signature.
#[tactic(auto, unfolding(model::specs::Notice::set_notice, model::specs::Refusals::refusal_of))]
pub fn notice_refusal(d: &[u8], n: Notice) -> Result<(), Refusal>
    ensures { (signature : ℕ) → refused_by result ≡ refusal_of (set_notice signature d.now n) }
{
    encoding::refused_if((d.len() != 1) & (d.len() != 3), Refusal::DataLength)?;
    encoding::refused_if(notice_unfit(d, n), Refusal::Value)
}

// 10H: the notice on, with its mask and the request's signature, or off.
#[tactic(auto, unfolding(model::specs::Notice::set_notice))]
pub fn notice_set(signature: u8, d: &[u8], n: Notice) -> Notice
    ensures { result ≡ (set_notice signature d.now n).after }
{
    if encoding::at(d, 0) == 1 {
        Notice {
            format: 0x61,
            mask: mask_given(d),
            signature,
        }
    } else {
        turned_off(n)
    }
}

// 11H: the format byte and the mask.
pub fn read_notice(d: &[u8], n: Notice) -> Result<Data, Refusal>
    ensures { told result ≡ told_of (read_notice d.now n) }
{
    encoding::no_data(d)?;
    Ok(encoding::push16(encoding::empty().push(n.format), n.mask))
}

// F0H: address and speed.
pub fn read_port(d: &[u8], p: Port) -> Result<Data, Refusal>
    ensures { told result ≡ told_of (read_port d.now p) }
{
    encoding::no_data(d)?;
    Ok(encoding::empty().push(p.address).push(p.speed))
}

// FEH: 01 while SUM is tested, else 00.
#[tactic(auto, using(encoding::proofs::Telling::told_refused, encoding::proofs::Telling::told_answered), unfolding(model::specs::SumTest::read_sum_test, model::specs::Refusals::refusal_of))]
pub fn read_sum_test(d: &[u8], tested: bool) -> Result<Data, Refusal>
    ensures { told result ≡ told_of (read_sum_test d.now tested) }
{
    encoding::no_data(d)?;
    Ok(encoding::empty().push(u8::from(tested)))
}

// Registers 1 and 2 --------------------------------------------------------------------------

// A port with its address set, for register 1, or its speed.
#[tactic(auto, unfolding(crate::specs::Parts::set_port_byte, model::specs::Registers::set_port_field))]
fn set_field(p: Port, e: &Entry) -> Port
    ensures { result ≡ set_port_byte p e.now }
{
    let v = entries::byte(*e);
    if e.number == 1 {
        Port { address: v, ..p }
    } else {
        Port { speed: v, ..p }
    }
}

// Why values for the port's registers are refused.
pub fn fields_refusal(es: &[Entry]) -> Result<(), Refusal>
    ensures { refused_by result ≡ cond (not (all port_settable es.now)) 11 0 }
{
    let fit = es.iter().all(|e| rules::is_port_field(*e));
    encoding::refused_if(!fit, Refusal::Value)
}

// The port after them.
pub fn set_fields(p: Port, es: &[Entry]) -> Port
    ensures { result ≡ foldl set_port_byte p es.now }
{
    es.iter().fold(p, set_field)
}
