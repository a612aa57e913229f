// What a decoded entry must be by itself, whatever the state, and whether a number stands twice.
#![tactic(auto)]

ghost use Rattle.std.specs.Prelude.{◌≡◌};
ghost use Rattle.model.specs.Counters.{mode_settable, named_twice};
ghost use Rattle.model.specs.Registers.{port_settable, is_zero};

use lists::Entry;

// An input that there is, and a mode.
#[tactic(auto, unfolding(model::specs::Counters::mode_settable))]
pub fn is_mode_setting(e: Entry) -> bool
    ensures { result ≡ mode_settable e }
{
    entries::is_numbered(e) & (e.value <= 3)
}

// A 0, the only value that a counter can be set to.
#[tactic(auto, unfolding(model::specs::Registers::is_zero))]
pub fn is_zero(e: Entry) -> bool
    ensures { result ≡ is_zero e }
{
    e.value == 0
}

// An address for register 1, else a speed.
#[tactic(auto, unfolding(model::specs::Registers::port_settable, lists::specs::Tests::within))]
pub fn is_port_field(e: Entry) -> bool
    ensures { result ≡ port_settable e }
{
    if e.number == 1 {
        (1..=247).contains(&e.value)
    } else {
        (3..=10).contains(&e.value)
    }
}

// Whether some number stands twice: each is looked for among those behind it, so that sixteen entries take 120 looks at most.
pub fn named_twice(es: &[Entry]) -> bool
    ensures { result ≡ named_twice es.now }
{
    let mut rest = es;
    while let Some((e, behind)) = rest.split_first() {
        if behind.iter().any(|f| e.number == f.number) {
            return true;
        }
        rest = behind;
    }
    false
}
