// Lists of numbers: how many items a request has, the numbers of inputs and outputs, and those that a list read names.
#![tactic(auto)]

ghost use Rattle.std.specs.Prelude.{◌≡◌};
ghost use Rattle.lists.specs.Tests.{all};
ghost use Rattle.model.specs.Numbers.{refused_by};
ghost use Rattle.model.specs.Counters.{is_number, listed};
ghost use Rattle.number_lists.specs.Items.{items_in, low_six_number, asks_all, list_refusal};

use model::Refusal;

// All sixteen numbers.
pub const EVERY: [u8; 16] = [1, 2, 3, 4, 5, 6, 7, 8, 9, 10, 11, 12, 13, 14, 15, 16];

// Whether n bytes are 1 to 12 items of w bytes each, and nothing over.
#[tactic(auto, unfolding(crate::specs::Items::items_in, lists::specs::Tests::within))]
pub fn items_of(w: usize, n: usize) -> bool
    ensures { result ≡ items_in w n }
{
    w != 0 && n % w == 0 && (1..=12).contains(&(n / w))
}

// Whether n is the number of an input or an output, 1 to 16.
#[tactic(auto, unfolding(lists::specs::Tests::within))]
pub fn is_number(n: u8) -> bool
    ensures { result ≡ is_number n }
{
    (1..=16).contains(&n)
}

// Whether every byte is one.
pub fn all_numbers(d: &[u8]) -> bool
    ensures { result ≡ all is_number d.now }
{
    d.iter().all(|p| is_number(*p))
}

// Whether the low six bits of every byte are one, as a parameter of 60H has it.
pub fn all_low_six(d: &[u8]) -> bool
    ensures { result ≡ all low_six_number d.now }
{
    d.iter().all(|p| is_number(*p % 64))
}

// Whether the list is a single 00, which stands for all.
#[tactic(auto, unfolding(crate::specs::Items::asks_all))]
pub fn is_all(d: &[u8]) -> bool
    ensures { result ≡ asks_all d.now }
{
    matches!(d, [0])
}

// The numbers that a list read names.
#[tactic(auto, unfolding(model::specs::Counters::listed, crate::specs::Items::asks_all))]
pub fn listed(d: &[u8]) -> &[u8]
    ensures { result.now ≡ listed d.now }
{
    if is_all(d) { &EVERY } else { d }
}

// Whether a list read names numbers only.
pub fn all_listed(d: &[u8]) -> bool
    ensures { result ≡ all is_number (listed d.now) }
{
    all_numbers(listed(d))
}

// Why a list read is refused.
pub fn list_refusal(d: &[u8]) -> Result<(), Refusal>
    ensures { refused_by result ≡ list_refusal d.now }
{
    encoding::refused_if(!items_of(1, d.len()), Refusal::DataLength)?;
    encoding::refused_if(!all_listed(d), Refusal::Value)
}
