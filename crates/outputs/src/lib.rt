// The outputs: sets, pulses counted in samples, remaining time.
#![tactic(auto)]

ghost use Rattle.std.specs.Prelude.{◌≡◌, map};
ghost use Rattle.model.specs.State.{output};
ghost use Rattle.model.specs.Times.{half_second_samples, second_samples};
ghost use Rattle.model.specs.Outputs.{pulsed, remaining};

use model::{HalfSeconds, Output, Seconds};

// A time in half seconds, 500 samples each.
pub fn half_second_samples(t: HalfSeconds) -> u32
    ensures { result ≡ half_second_samples t }
{
    u32::from(t.0) * 500
}

// A time in seconds, 1,000 samples each.
pub fn second_samples(t: Seconds) -> u32
    ensures { result ≡ second_samples t }
{
    u32::from(t.0) * 1000
}

// An output that is set: that ends its pulse.
pub fn set(on: bool) -> Output
    ensures { result ≡ output on 0 }
{
    Output { on, left: 0 }
}

// An output that starts a pulse of so many samples.
pub fn start(on: bool, samples: u32) -> Output
    ensures { result ≡ output on samples }
{
    Output { on, left: samples }
}

// One output after one sample: the last one of its pulse inverts it. Without a branch: by `match` the sample call took 15.9 ns for 11.2.
#[tactic(auto, unfolding(model::specs::Outputs::pulsed))]
pub fn pulse(o: Output) -> Output
    ensures { result ≡ pulsed o }
{
    Output {
        on: o.on != (o.left == 1),
        left: o.left.saturating_sub(1),
    }
}

// Every output after one sample. A loop: by `map` the sample call took 83 ns for 11. Always: left out without a pulse, it took 31 for
// 14 in the form before that.
pub fn pulse_outputs(a: [Output; 16]) -> [Output; 16]
    ensures { result ≡ map pulsed a }
{
    let mut next = a;
    for o in &mut next {
        *o = pulse(*o);
    }
    next
}

// The remaining time of a pulse: the half seconds that have not ended, at most 255.
pub fn remaining_time(left: u32) -> u8
    ensures { result ≡ remaining left }
{
    if 127_500 < left {
        return 255;
    }
    ((left + 499) / 500) as u8
}
