// What Modbus functions share: the checks of a body, and the echo of a write.
#![tactic(auto)]

ghost use Rattle.std.specs.Prelude.{◌≡◌, ◌+◌, cond, length, IfOk};
ghost use Rattle.model.specs.declared.Module.{Module as ModuleOf};
ghost use Rattle.model.specs.Numbers.{refused_by};
ghost use Rattle.model.specs.Modbus.{start_of, second_of, quantity_wrong, count_wrong};
ghost use Rattle.outcomes.specs.Parts.{outcome};
ghost use Rattle.modbus_bodies.specs.Parts.{head_of, echoed};

use model::Refusal;
use outcomes::Served;

// Start and quantity that a function which reads asks for; 8: other than these two, or a quantity that is not 1 to `most`. A pair and
// no struct: the definitions take the two by themselves, and a write of registers has a start and its values.
#[tactic(auto, unfolding(model::specs::Modbus::quantity_wrong, lists::specs::Tests::within))]
pub fn part_asked(most: u16, b: &[u8]) -> Result<(u16, u16), Refusal>
    ensures number { refused_by result ≡ cond (quantity_wrong most b.now) 8 0 }
    ensures part { IfOk result (λ p. (p.0 ≡ start_of b.now) × (p.1 ≡ second_of b.now)) }
{
    let n = encoding::word_from(b, 2);
    let fits = b.len() == 4 && (1..=most).contains(&n);
    encoding::refused_if(!fits, Refusal::DataLength)?;
    Ok((encoding::word_from(b, 0), n))
}

// 8: other than a start, a quantity of 1 to `most`, the byte count `size` and so many bytes.
#[tactic(auto, unfolding(model::specs::Modbus::count_wrong, lists::specs::Tests::within))]
pub fn count_refusal(most: u16, size: usize, b: &[u8]) -> Result<(), Refusal>
    ensures number { refused_by result ≡ cond (count_wrong most size b.now) 8 0 }
    ensures counted { IfOk result (λ _. length b.now ≡ 5 + size) }
{
    let n = encoding::word_from(b, 2);
    let count = usize::from(encoding::at(b, 4));
    let right = (1..=most).contains(&n) && count == size && b.len() == 5 + count;
    encoding::refused_if(!right, Refusal::DataLength)
}

// The answer to a write: where it is accepted, the first four bytes of its body come back.
pub fn echo(written: Result<Served, Refusal>, b: &[u8]) -> Result<Served, Refusal>
    ensures { (m : ModuleOf) → outcome m result ≡ echoed (head_of b.now) (outcome m written) }
{
    let after = written?.after;
    let body = (0..4).fold(encoding::empty(), |d, i| d.push(encoding::at(b, i)));
    Ok(Served { after, body })
}
