// The two checks of a frame: the byte sum of Spinel and the CRC of Modbus.
#![tactic(auto)]

ghost use Rattle.std.specs.Prelude.{◌≡◌, ◌%◌};
ghost use Rattle.model.specs.Frames.{total, sum_of, crc_bit, crc_byte, crc_of};

// The sum of the bytes modulo 256.
pub fn byte_sum(s: &[u8]) -> u8
    ensures { result ≡ total s.now % 256 }
{
    let mut sum = 0u8;
    for b in s {
        sum = sum.wrapping_add(*b);
    }
    sum
}

// SUM of a Spinel frame over the bytes before it.
pub fn spinel_sum(s: &[u8]) -> u8
    ensures { result ≡ sum_of s.now }
{
    255 - byte_sum(s)
}

// One bit of the CRC, the lowest first.
#[tactic(auto, unfolding(model::specs::Frames::crc_bit))]
pub fn crc_bit(c: u16) -> u16
    ensures { result ≡ crc_bit c }
{
    if c % 2 == 1 { (c / 2) ^ 0xA001 } else { c / 2 }
}

// One byte of the CRC: it goes into the low byte, then eight bits are passed.
#[tactic(auto, unfolding(model::specs::Frames::crc_byte))]
pub fn crc_byte(c: u16, b: u8) -> u16
    ensures { result ≡ crc_byte c b }
{
    let mut x = c ^ u16::from(b);
    for _bit in 0..8u8 {
        x = crc_bit(x);
    }
    x
}

// CRC of a Modbus frame over the bytes before it.
#[tactic(auto, unfolding(model::specs::Frames::crc_of))]
pub fn crc16(s: &[u8]) -> u16
    ensures { result ≡ crc_of s.now }
{
    let mut c: u16 = 0xFFFF;
    for b in s {
        c = crc_byte(c, *b);
    }
    c
}
