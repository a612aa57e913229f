// One input: a sample of its line, its edges, and counting by mode.
#![tactic(auto)]

ghost use Rattle.std.specs.Prelude.{◌≡◌};
ghost use Rattle.model.specs.Samples.{line_sampled, is_edge, selected_edge, counted};

use model::Line;

// One line's sample: debounce by run and sampling number.
pub fn sample_line(x: Line, sampling: u8, bit: bool) -> Line
    ensures { result ≡ line_sampled sampling bit x }
{
    if bit == x.stable {
        return Line { run: 0, ..x };
    }
    if u16::from(sampling) <= u16::from(x.run) + 1 {
        return Line {
            stable: bit,
            run: 0,
        };
    }
    Line {
        run: x.run + 1,
        ..x
    }
}

// Whether the sample moved the stable state. The line before and after stay two parameters, as the definitions take them.
pub fn is_edge(was: Line, now: Line) -> bool
    ensures { result ≡ is_edge was now }
{
    was.stable != now.stable
}

// Whether a line has an edge that its mode selects.
pub fn is_selected(mode: u8, was: Line, now: Line) -> bool
    ensures { result ≡ selected_edge mode was now }
{
    let rising = now.stable;
    is_edge(was, now) & ((mode == 3) | ((mode == 1) & rising) | ((mode == 2) & !rising))
}

// One more for a selected edge: the largest value is followed by 0.
#[tactic(auto, unfolding(model::specs::Samples::counted))]
pub fn count(selected: bool, counter: u32) -> u32
    ensures { result ≡ counted selected counter }
{
    if selected {
        counter.wrapping_add(1)
    } else {
        counter
    }
}
