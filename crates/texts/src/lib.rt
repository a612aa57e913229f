// The line of an answer, as text.
#![tactic(auto)]

ghost use Rattle.std.specs.Prelude.{◌≡◌, take};
ghost use Rattle.digits.specs.Writing.{decimal_text};
ghost use Rattle.lists.specs.Bounded.{added};
ghost use Rattle.texts.specs.Texts.{text_of, answer_text, answer_characters};

use lists::Bounded;

// Characters by value; what stands behind those that count is 0. An array and no `String`, and no `write!`: playing a script cannot
// fail, and the text is proved.
pub type Text = Bounded<u8, 772>;

// A number in decimal.
fn number_text(n: u8) -> Text
    ensures { result ≡ text_of (decimal_text n) }
{
    Text::empty(0).append(digits::decimal_text(u64::from(n)).as_slice())
}

// One character behind the others, as far as there is room; in place, since a `push` copies the text.
#[tactic(auto, unfolding(lists::specs::Bounded::added))]
fn put(out: &mut Text, x: u8)
    ensures { out.new ≡ added out.old x }
{
    if out.len < 772 {
        out.items[out.len] = x;
        out.len += 1;
    }
}

// The number that an answer carries, a blank and two hex digits for each byte of the reply, and a line feed. No reply has more
// than 256 bytes.
pub fn answer_text(refusal: u8, reply: &[u8]) -> Text
    ensures { result ≡ text_of (answer_text refusal (take 256 reply.now)) }
{
    let shown = &reply[..reply.len().min(256)];
    let mut out = number_text(refusal);
    for b in shown {
        let pair = digits::hex_text(*b);
        put(&mut out, b' ');
        put(&mut out, pair.items[0]);
        put(&mut out, pair.items[1]);
    }
    put(&mut out, b'\n');
    out
}

// The number that an answer carries, a blank and the reply's characters without a CR at their end, and a line feed; without a
// reply the number and a line feed.
pub fn answer_characters(refusal: u8, reply: &[u8]) -> Text
    ensures { result ≡ text_of (answer_characters refusal (take 256 reply.now)) }
{
    let shown = &reply[..reply.len().min(256)];
    let number = number_text(refusal);
    if shown.is_empty() {
        return number.push(b'\n');
    }
    number
        .push(b' ')
        .append(script::without_cr(shown))
        .push(b'\n')
}
