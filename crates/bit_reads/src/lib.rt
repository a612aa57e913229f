// Coils and inputs that are read (01 02): bits of sixteen states, in bytes.
#![tactic(auto)]

ghost use Rattle.std.specs.Prelude.{◌≡◌, ◌+◌, ◌^◌, ◌≤◌};
ghost use Rattle.lists.specs.Data.{data_of};
ghost use Rattle.encoding.specs.Answers.{told};
ghost use Rattle.bit_reads.specs.Answers.{part_of, bits_shown, bits_told};

use lists::Data;
use model::Refusal;

// n bits of a number from bit k on.
#[tactic(auto, unfolding(crate::specs::Answers::part_of))]
fn bits_part(bits: u16, k: u16, n: u16) -> u16
    requires { k + n ≤ 16 }
    ensures { result ≡ part_of bits k n }
{
    ((u32::from(bits) >> k) % (1u32 << n)) as u16
}

// How many bytes n bits take, then these bytes, the lowest first.
#[tactic(auto, using(crate::proofs::Bits::shown_0, crate::proofs::Bits::shown_1, crate::proofs::Bits::shown_2))]
fn show_bits(v: u16, n: u16) -> Data
    requires { n ≤ 16 }
    ensures { result ≡ data_of (bits_shown v n) }
{
    let head = encoding::empty().push(((n + 7) / 8) as u8);
    if n == 0 {
        return head;
    }
    let first = head.push(encoding::low_byte(v));
    if n <= 8 {
        return first;
    }
    first.push(encoding::high_byte(v))
}

// n of sixteen coils or inputs from place k on; their states are the bits, the first lowest.
pub fn read_bits(bits: u16, k: u16, n: u16) -> Result<Data, Refusal>
    ensures { told result ≡ bits_told bits k n }
{
    encoding::refused_if(
        groups::is_outside(groups::BITS, k, usize::from(n)),
        Refusal::Range,
    )?;
    Ok(show_bits(bits_part(bits, k, n), n))
}
