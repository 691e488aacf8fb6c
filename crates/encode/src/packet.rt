// Writes packets: a header before joined messages, and the heartbeat.
ghost use Rattle.std.specs.Prelude.{◌≡◌, ◌≤◌, length};
ghost use Rattle.codes.specs.Refusals.{answered, refusal_of};
ghost use Rattle.encode.specs.Packing.{messages_fault, WrotePacket, WroteHeartbeat};

use crate::parts::{header_bytes, put_parts};
use codes::packet::PacketType;
use codes::refusal::Refusal;
use feed::packet::LONGEST_PACKET;
use messages::numbers::{HEADER_SIZE, LAST_NUMBER, in_range};
use messages::read::read_message;

// At least one message, and none broken; they stand behind the packet's header.
fn check_messages(messages: &[u8], subscription: u8) -> Result<(), Refusal>
    requires { length messages.now ≤ 8184 }
    ensures { refusal_of result ≡ messages_fault subscription messages.now }
{
    if messages.is_empty() {
        return Err(Refusal::BrokenMessage(HEADER_SIZE));
    }
    // A cursor, and not the iterator over a packet's messages: that one would carry a second offset through every
    // packet for the header that these have not got yet.
    let mut at = 0;
    while at < messages.len() {
        let message = read_message(&messages[at..], subscription, HEADER_SIZE + at)?;
        at += message.size();
    }
    Ok(())
}

// Writes an M packet over joined messages. Refusals: 1 where it would be longer than 8,192 bytes, 4 for its number,
// 5 at the offset in the packet of a message that is broken (8 where there is none), then 9.
pub fn write_packet(
    messages: &[u8],
    number: u32,
    subscription: u8,
    out: &mut [u8],
) -> Result<usize, Refusal>
    ensures { WrotePacket subscription number messages.now out.old out.new (answered (λ n. n) result) }
{
    if messages.len() > LONGEST_PACKET - HEADER_SIZE {
        return Err(Refusal::PacketLength);
    }
    if !in_range(number) {
        return Err(Refusal::NumberOutOfRange);
    }
    check_messages(messages, subscription)?;
    let length = (HEADER_SIZE + messages.len()) as u16;
    let header = header_bytes(length, u8::from(PacketType::Messages), subscription, number);
    put_parts(&header, messages, &[], out)
}

// Writes a heartbeat that names the last M packet sent, or 0. Refusals: 4, then 9.
pub fn write_heartbeat(number: u32, subscription: u8, out: &mut [u8]) -> Result<usize, Refusal>
    ensures { WroteHeartbeat subscription number out.old out.new (answered (λ n. n) result) }
{
    if number > LAST_NUMBER {
        return Err(Refusal::NumberOutOfRange);
    }
    let header = header_bytes(8, u8::from(PacketType::Heartbeat), subscription, number);
    put_parts(&header, &[], &[], out)
}
