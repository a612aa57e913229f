// The framing of both ports' replies and exceptions (01, Frames) and of text (E2), and the ACK or code that tells a refusal.
#![tactic(auto)]

ghost use Rattle.std.specs.Prelude.{◌≡◌, ◌+◌, ◌≤◌, ◌++◌, length, take};
ghost use Rattle.std.proofs.Math.Seq.{paste};
ghost use Rattle.lists.specs.Data.{padded, data_of};
ghost use Rattle.lists.specs.Numbers.{bytes};
ghost use Rattle.model.specs.Frames.{spinel_reply, modbus_reply, exception_function, exception_reply};
ghost use Rattle.model.specs.Refusals.{ack_of, exception_of};
ghost use Rattle.model.specs.Text.{state_letter, last_digit, text_reply};
ghost use Rattle.replies.specs.Replies.{spinel_replied, modbus_replied};

use lists::Data;

// The ACK that tells a refusal; 00 tells that there is none. It takes every number: an enum would take fewer.
#[tactic(auto, unfolding(model::specs::Refusals::ack_of))]
pub fn ack_of(n: u8) -> u8
    ensures { result ≡ ack_of n }
{
    match n {
        0 => 0x00,
        7 => 0x02,
        10 => 0x04,
        _ => 0x03,
    }
}

// A refusal's exception code, of every number too.
#[tactic(auto, unfolding(model::specs::Refusals::exception_of))]
pub fn exception_of(n: u8) -> u8
    ensures { result ≡ exception_of n }
{
    match n {
        7 => 0x01,
        9 => 0x02,
        10 | 12 | 14 => 0x04,
        _ => 0x03,
    }
}

// The array with some bytes stored from place `at` on.
fn place(start: [u8; 256], at: usize, from: &[u8]) -> [u8; 256]
    requires { at + length from.now ≤ 256 }
    ensures { result ≡ paste start at from.now (length from.now) }
{
    let mut bytes = start;
    bytes[at..at + from.len()].copy_from_slice(from);
    bytes
}

// A reply up to its last bytes, its head and then its data, in the one array that is filled in place.
#[tactic(auto, using(crate::proofs::Framing::begun_law))]
fn begun(head: &[u8], d: &[u8]) -> [u8; 256]
    requires { length head.now + length d.now ≤ 256 }
    ensures { result ≡ padded (head.now ++ d.now) }
{
    place(place([0; 256], 0, head), head.len(), d)
}

// A Spinel reply: 2A 61, NUM, address, signature and ACK, then data, SUM and 0D.
pub fn spinel_reply(address: u8, signature: u8, ack: u8, d: Data) -> Data
    ensures { result ≡ spinel_replied address signature ack d }
{
    let shown = d.as_slice();
    let n = shown.len().min(247);
    let num = (n as u16) + 5;
    let head = [
        0x2A,
        0x61,
        encoding::high_byte(num),
        encoding::low_byte(num),
        address,
        signature,
        ack,
    ];
    let end = 7 + n;
    let mut bytes = begun(&head, &shown[..n]);
    let sum = checksum::spinel_sum(&bytes[..end]);
    bytes[end] = sum;
    bytes[end + 1] = 0x0D;
    Data {
        items: bytes,
        len: end + 2,
    }
}

// A Spinel reply whose data are one word, in an array of its own size, where reply data would clear and copy 256 bytes.
pub fn word_reply(address: u8, signature: u8, ack: u8, word: u16) -> [u8; 11]
    ensures { result ≡ spinel_reply address signature ack (bytes 2 word) }
{
    let high = encoding::high_byte(word);
    let low = encoding::low_byte(word);
    let head = [0x2A, 0x61, 0x00, 0x07, address, signature, ack, high, low];
    let sum = checksum::spinel_sum(&head);
    [
        0x2A, 0x61, 0x00, 0x07, address, signature, ack, high, low, sum, 0x0D,
    ]
}

// The letter that tells a state in text.
pub fn state_letter(on: bool) -> u8
    ensures { result ≡ state_letter on }
{
    if on { b'H' } else { b'L' }
}

// The digit for the lowest decimal place of a number.
pub fn last_digit(n: u16) -> u8
    ensures { result ≡ last_digit n }
{
    b'0' + (n % 10) as u8
}

// A text reply: `*B` and the address, what is told, and a carriage return. 256 bytes less 4 are told at most.
pub fn text_reply(address: u8, told: &[u8]) -> Data
    ensures { result ≡ data_of (text_reply address (take 252 told.now)) }
{
    let n = told.len().min(252);
    let end = 3 + n;
    let mut bytes = begun(&[b'*', b'B', address], &told[..n]);
    bytes[end] = b'\r';
    Data {
        items: bytes,
        len: end + 1,
    }
}

// Address, function and body, then their CRC, low byte first.
fn modbus_frame(address: u8, function: u8, body: &[u8]) -> Data
    ensures { result ≡ data_of (modbus_reply address function (take 252 body.now)) }
{
    let n = body.len().min(252);
    let end = 2 + n;
    let mut bytes = begun(&[address, function], &body[..n]);
    let crc = checksum::crc16(&bytes[..end]);
    bytes[end] = encoding::low_byte(crc);
    bytes[end + 1] = encoding::high_byte(crc);
    Data {
        items: bytes,
        len: end + 2,
    }
}

// A Modbus reply: a frame from this address with the body's bytes.
#[tactic(auto, unfolding(crate::specs::Replies::modbus_replied))]
pub fn modbus_reply(address: u8, function: u8, body: Data) -> Data
    ensures { result ≡ modbus_replied address function body }
{
    modbus_frame(address, function, body.as_slice())
}

// The function of an exception: its top bit set.
#[tactic(auto, using(crate::proofs::Framing::top_bit))]
fn exception_function(function: u8) -> u8
    ensures { result ≡ exception_function function }
{
    function | 0x80
}

// An exception reply: a Modbus reply of that function, whose body is the code.
pub fn exception_reply(address: u8, function: u8, code: u8) -> Data
    ensures { result ≡ data_of (exception_reply address function code) }
{
    modbus_frame(address, exception_function(function), &[code])
}
