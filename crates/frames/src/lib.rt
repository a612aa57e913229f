// Checks 2 to 6 of binary frames on both ports (01, the refusals), and where their data stand; and what text frames share with them.
#![tactic(auto)]

ghost use Rattle.std.specs.Prelude.{◌≡◌, ◌≤◌, ◌+◌, ◌-◌, true, cond, ◌&&◌, length, take, drop, IfOk};
ghost use Rattle.model.specs.Frames.{spinel_data, modbus_body};
ghost use Rattle.model.specs.Numbers.{refused_by};
ghost use Rattle.model.specs.Refusals.{frame_length_wrong, shape_wrong, sum_wrong, crc_wrong, spinel_address_wrong, modbus_address_wrong, spinel_broadcast_wrong, modbus_broadcast_wrong};
ghost use Rattle.model.specs.Wire.{frame_refusal};
ghost use Rattle.model.specs.Spinel.{spinel_wire};
ghost use Rattle.model.specs.Modbus.{modbus_wire};

use model::Refusal;

// 2. Fewer bytes than the least of its kind, or more than the most.
#[tactic(auto, unfolding(lists::specs::Tests::within))]
pub fn length_refusal(least: usize, most: usize, frame: &[u8]) -> Result<(), Refusal>
    ensures number { refused_by result ≡ cond (frame_length_wrong least most frame.now) 2 0 }
    ensures long { IfOk result (λ _. least ≤ length frame.now) }
{
    let fits = (least..=most).contains(&frame.len());
    encoding::refused_if(!fits, Refusal::FrameLength)
}

// 3. Not begun by 2A 61, not ended by 0D, or NUM does not tell the bytes that follow it.
#[tactic(auto, unfolding(model::specs::Refusals::shape_wrong))]
fn shape_refusal(frame: &[u8]) -> Result<(), Refusal>
    requires { 9 ≤ length frame.now }
    ensures { refused_by result ≡ cond (shape_wrong frame.now) 3 0 }
{
    let n = frame.len();
    let num = encoding::be16(frame[2], frame[3]);
    let wrong = frame[0] != 0x2A
        || frame[1] != 0x61
        || frame[n - 1] != 0x0D
        || usize::from(num) != n - 4;
    encoding::refused_if(wrong, Refusal::Shape)
}

// 4. SUM is tested (E5), and the last byte but one isn't that of all before it.
#[tactic(auto, unfolding(model::specs::Refusals::sum_wrong))]
fn sum_refusal(tested: bool, frame: &[u8]) -> Result<(), Refusal>
    requires { 9 ≤ length frame.now }
    ensures { refused_by result ≡ cond (tested && sum_wrong frame.now) 4 0 }
{
    let end = frame.len() - 2;
    let sum = checksum::spinel_sum(&frame[..end]);
    encoding::refused_if(tested && frame[end] != sum, Refusal::Checksum)
}

// 4. The last two bytes aren't the CRC of all before them, low byte first.
#[tactic(auto, unfolding(model::specs::Refusals::crc_wrong))]
fn crc_refusal(frame: &[u8]) -> Result<(), Refusal>
    requires { 4 ≤ length frame.now }
    ensures { refused_by result ≡ cond (crc_wrong frame.now) 4 0 }
{
    let end = frame.len() - 2;
    let crc = checksum::crc16(&frame[..end]);
    let wrong = frame[end] != encoding::low_byte(crc) || frame[end + 1] != encoding::high_byte(crc);
    encoding::refused_if(wrong, Refusal::Checksum)
}

// 5. Neither the own address, nor FE, nor FF. The ports' rules stand apart, each as the definitions have it.
#[tactic(auto, unfolding(model::specs::Refusals::spinel_address_wrong))]
fn spinel_address_refusal(own: u8, to: u8) -> Result<(), Refusal>
    ensures { refused_by result ≡ cond (spinel_address_wrong own to) 5 0 }
{
    encoding::refused_if(!(to == own || matches!(to, 0xFE | 0xFF)), Refusal::Address)
}

// 5. Neither the own address, nor 0.
#[tactic(auto, unfolding(model::specs::Refusals::modbus_address_wrong))]
fn modbus_address_refusal(own: u8, to: u8) -> Result<(), Refusal>
    ensures { refused_by result ≡ cond (modbus_address_wrong own to) 5 0 }
{
    encoding::refused_if(!(to == own || to == 0), Refusal::Address)
}

// 6. To all modules, and neither 20H nor 23H nor 25H.
#[tactic(auto, unfolding(model::specs::Refusals::spinel_broadcast_wrong))]
fn spinel_broadcast_refusal(to: u8, i: u8) -> Result<(), Refusal>
    ensures { refused_by result ≡ cond (spinel_broadcast_wrong to i) 6 0 }
{
    encoding::refused_if(
        to == 0xFF && !matches!(i, 0x20 | 0x23 | 0x25),
        Refusal::Broadcast,
    )
}

// 6. To all modules, and neither 05 nor 0F.
#[tactic(auto, unfolding(model::specs::Refusals::modbus_broadcast_wrong))]
fn modbus_broadcast_refusal(to: u8, function: u8) -> Result<(), Refusal>
    ensures { refused_by result ≡ cond (modbus_broadcast_wrong to function) 6 0 }
{
    encoding::refused_if(
        to == 0 && !matches!(function, 0x05 | 0x0F),
        Refusal::Broadcast,
    )
}

// Refusals 2 to 6 of a Spinel frame in checking order, 4 only where SUM is tested.
#[tactic(auto, unfolding(model::specs::Wire::frame_refusal))]
pub fn spinel_refusal(tested: bool, own: u8, frame: &[u8]) -> Result<(), Refusal>
    ensures { refused_by result ≡ frame_refusal spinel_wire tested own frame.now }
{
    length_refusal(9, 256, frame)?;
    shape_refusal(frame)?;
    sum_refusal(tested, frame)?;
    spinel_address_refusal(own, frame[4])?;
    spinel_broadcast_refusal(frame[4], frame[6])
}

// Refusals 2 to 6 of a Modbus frame in checking order; 3 is Spinel's alone.
#[tactic(auto, unfolding(model::specs::Wire::frame_refusal))]
pub fn modbus_refusal(own: u8, frame: &[u8]) -> Result<(), Refusal>
    ensures { refused_by result ≡ frame_refusal modbus_wire true own frame.now }
{
    length_refusal(4, 256, frame)?;
    crc_refusal(frame)?;
    modbus_address_refusal(own, frame[0])?;
    modbus_broadcast_refusal(frame[0], frame[1])
}

// The bytes from `start` on, without the `last` at the end; none where the frame is too short.
pub fn between(start: usize, last: usize, frame: &[u8]) -> &[u8]
    ensures { result.now ≡ take (length frame.now - (start + last)) (drop start frame.now) }
{
    let end = frame.len().saturating_sub(last);
    frame.get(start..end).unwrap_or(&[])
}

// The data of a Spinel frame: all between instruction and SUM.
pub fn spinel_data(frame: &[u8]) -> &[u8]
    ensures { result.now ≡ spinel_data frame.now }
{
    between(7, 2, frame)
}

// The body of a Modbus frame: all between function and CRC.
pub fn modbus_body(frame: &[u8]) -> &[u8]
    ensures { result.now ≡ modbus_body frame.now }
{
    between(2, 2, frame)
}
