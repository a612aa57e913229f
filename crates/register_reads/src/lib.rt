// The register groups that Modbus reads (03 04), as words.
#![tactic(auto)]

ghost use Rattle.std.specs.Prelude.{◌≡◌, ◌*◌, ◌≤◌, length};
ghost use mathlib.Core.List.{◌∷◌, map, flat_map};
ghost use Rattle.lists.specs.Data.{data_of};
ghost use Rattle.lists.specs.Numbers.{bytes};
ghost use Rattle.model.specs.Temperature.{reading_words};
ghost use Rattle.model.specs.Registers.{counter_group, mode_group, output_group, port_group, reading_group};
ghost use Rattle.model.specs.Registers.{read_words, port_words, counter_word, output_word, thermostat_words, read_thermostat};
ghost use Rattle.encoding.specs.Answers.{told, told_of};

use lists::Data;
use model::{Group, Output, Port, Reading, Refusal, Thermostat};

// Words ----------------------------------------------------------------------------------

// A byte count, then the words.
fn show_words(words: &[u16]) -> Data
    requires { length words.now ≤ 16 }
    ensures { result ≡ data_of (2 * length words.now ∷ flat_map (bytes 2) words.now) }
{
    let count = (2 * words.len()) as u8;
    let head = encoding::empty().push(count);
    words
        .iter()
        .fold(head, |reply, word| encoding::push16(reply, *word))
}

// n registers from `a` on, of a group that shows these words. Start and quantity stay two parameters, as the definitions take them.
fn tell_words(g: Group, words: &[u16], a: u16, n: u16) -> Result<Data, Refusal>
    requires whole { length words.now ≡ g.count }
    requires few { g.count ≤ 16 }
    ensures { told result ≡ told_of (read_words g words.now a n) }
{
    let count = usize::from(n);
    encoding::refused_if(groups::is_outside(g, a, count), Refusal::Range)?;
    let k = groups::place(g, a);
    Ok(show_words(&words[k..k + count]))
}

// 100 to 115: counters, as much of each as a register has room for.
pub fn read_counters(cs: [u32; 16], a: u16, n: u16) -> Result<Data, Refusal>
    ensures { told result ≡ told_of (read_words counter_group (map counter_word cs) a n) }
{
    let words = cs.map(encoding::low_word);
    tell_words(groups::COUNTERS, &words, a, n)
}

// 300 to 315: modes, two bytes each.
pub fn read_modes(ms: [u8; 16], a: u16, n: u16) -> Result<Data, Refusal>
    ensures { told result ≡ told_of (read_words mode_group ms a n) }
{
    let words = ms.map(u16::from);
    tell_words(groups::MODES, &words, a, n)
}

// An output's word: FF or 00 for its state, then its remaining time.
#[tactic(auto, unfolding(model::specs::Registers::output_word, lists::specs::Numbers::number))]
pub fn output_word(o: Output) -> u16
    ensures { result ≡ output_word o }
{
    let state = if o.on { 0xFF } else { 0x00 };
    encoding::be16(state, outputs::remaining_time(o.left))
}

// The same of each output.
pub fn output_words(os: [Output; 16]) -> [u16; 16]
    ensures { result ≡ map output_word os }
{
    os.map(output_word)
}

// 500 to 515: outputs.
pub fn read_outputs(os: [Output; 16], a: u16, n: u16) -> Result<Data, Refusal>
    ensures { told result ≡ told_of (read_words output_group (map output_word os) a n) }
{
    let words = output_words(os);
    tell_words(groups::OUTPUTS, &words, a, n)
}

// 1 to 2: a port's address and speed.
pub fn read_port(p: Port, a: u16, n: u16) -> Result<Data, Refusal>
    ensures { told result ≡ told_of (read_words port_group (port_words p) a n) }
{
    let words = [u16::from(p.address), u16::from(p.speed)];
    tell_words(groups::PORT, &words, a, n)
}

// Status, tenths and float of a reading.
#[tactic(auto, unfolding(model::specs::Temperature::reading_words))]
fn reading_words(reading: Reading) -> [u16; 4]
    ensures { result ≡ reading_words reading }
{
    match reading {
        Reading::Valid(t, x) => {
            let w = encoding::float_words(x);
            [0, encoding::pattern_of(t), w.high, w.low]
        }
        Reading::Fault => [1, 0, 0, 0],
    }
}

// Input registers 0 to 3: the reading.
pub fn read_input(reading: Reading, a: u16, n: u16) -> Result<Data, Refusal>
    ensures { told result ≡ told_of (read_words reading_group (reading_words reading) a n) }
{
    let words = reading_words(reading);
    tell_words(groups::READING, &words, a, n)
}

// Thermostats ----------------------------------------------------------------------------

// The four words of a thermostat.
#[tactic(auto, unfolding(model::specs::Registers::thermostat_words, lists::specs::Numbers::number))]
fn thermostat_words(h: Thermostat) -> [u16; 4]
    ensures { result ≡ thermostat_words h }
{
    let x = encoding::pattern_of(h.tempx);
    let y = encoding::pattern_of(h.tempy);
    let last = encoding::be16(h.time.0, h.err);
    [u16::from(h.flags), x, y, last]
}

// 600 to 663: one thermostat by its four registers.
pub fn read_thermostat(hs: [Thermostat; 16], a: u16, n: u16) -> Result<Data, Refusal>
    ensures { told result ≡ told_of (read_thermostat hs a n) }
{
    encoding::refused_if(groups::no_thermostat(a, usize::from(n)), Refusal::Range)?;
    let place = groups::place(groups::THERMOSTATS, a) / 4;
    let words = thermostat_words(encoding::element(&hs, place, Thermostat::FRESH));
    Ok(show_words(&words))
}
