// A packet: its header, and its messages one after the other.
ghost use Rattle.std.specs.Prelude.{◌≡◌, IfSome, IfOk, Ok};
ghost use Rattle.std.specs.Option.{option_map};
ghost use Rattle.codes.specs.Refusals.{answered};
ghost use Rattle.feed.specs.Agreement.{PacketsAgree, HeartbeatsAgree};
ghost use Rattle.feed.specs.Packets.{good_length, good_number, good_body, header_verdict, packet_verdict};
ghost use Rattle.std.specs.Iterator.{at_most};

use codes::packet::PacketType;
use codes::refusal::Refusal;
use messages::header::RawHeader;
use messages::message::Message;
use messages::numbers::{HEADER_SIZE, LAST_NUMBER, in_range};
use messages::read::read_message;

// The longest packet, in bytes.
pub const LONGEST_PACKET: usize = 8_192;

// The header of a packet, checked.
#[derive(Clone, Copy, Debug, PartialEq, Eq)]
pub struct Header {
    pub kind: PacketType,
    pub subscription: u8,
    pub number: u32,
}

impl Header {
    // The header of a packet on this subscription, or refusal 1, 2, 3 or 4, in this order.
    pub fn read(bytes: &[u8], subscription: u8) -> Result<Header, Refusal>
        ensures verdict { answered (λ h. h) result ≡ header_verdict subscription bytes.now }
        ensures own { IfOk result (λ h. h.subscription ≡ subscription) }
    {
        let raw = RawHeader::read(bytes).ok_or(Refusal::PacketLength)?;
        if !is_good_length(raw.length, bytes.len()) {
            return Err(Refusal::PacketLength);
        }
        if raw.subscription != subscription {
            return Err(Refusal::OtherSubscription);
        }
        let kind = PacketType::try_from(raw.code).map_err(|_| Refusal::PacketType)?;
        let number = raw.last;
        if !is_good_number(kind, number) {
            return Err(Refusal::NumberOutOfRange);
        }
        Ok(Header {
            kind,
            subscription,
            number,
        })
    }
}

// A heartbeat may name 0, before the first packet is sent.
fn is_good_number(kind: PacketType, number: u32) -> bool
    ensures { result ≡ good_number kind number }
{
    match kind {
        PacketType::Messages => in_range(number),
        PacketType::Heartbeat => number <= LAST_NUMBER,
    }
}

// An M packet has a message, a heartbeat none.
fn is_good_body(kind: PacketType, len: usize) -> bool
    ensures { result ≡ good_body kind len }
{
    match kind {
        PacketType::Messages => len > HEADER_SIZE,
        PacketType::Heartbeat => len == HEADER_SIZE,
    }
}

// Whether a packet can have so many bytes: 8 to 8,192, as its length field says.
pub fn is_good_length(said: u16, len: usize) -> bool
    ensures { result ≡ good_length said len }
{
    len >= HEADER_SIZE && len <= LONGEST_PACKET && said as usize == len
}

// A packet on the subscription that it was read for, without looking at its messages yet. (Nobody compares or prints a
// packet as a whole, so it derives no more.)
#[derive(Clone, Copy)]
pub struct Packet<'a> {
    header: Header,
    bytes: &'a [u8],
    ghost good: { packet_verdict header.subscription bytes.now ≡ Ok header },
}

impl<'a> Packet<'a> {
    ghost use Rattle.feed.specs.Items.{nth};
    ghost use Rattle.feed.specs.Pending.{pending, packet_items, item_of, Cut};

    // Refusals 1 to 4 as for the header, and then 5 at 8 for an M packet without a message or a B packet over 8 bytes.
    pub fn read(bytes: &'a [u8], subscription: u8) -> Result<Packet<'a>, Refusal>
        ensures verdict { answered (λ p. p.header) result ≡ packet_verdict subscription bytes.now }
        ensures packets { PacketsAgree subscription bytes.now (answered (λ p. p.header) result) }
        ensures heartbeats { HeartbeatsAgree subscription bytes.now (answered (λ p. p.header) result) }
        ensures bytes { IfOk result (λ p. p.bytes.now ≡ bytes.now) }
    {
        let header = Header::read(bytes, subscription)?;
        if !is_good_body(header.kind, bytes.len()) {
            return Err(Refusal::BrokenMessage(HEADER_SIZE));
        }
        Ok(Packet { header, bytes })
    }

    // The header that was checked.
    pub fn header(self) -> Header
        ensures { result ≡ self.entry.header }
    {
        self.header
    }

    // The item of an index among the messages, counted from 0: a message with its offset, or the refusal of a broken
    // one, which is the last. None past the last.
    pub fn message(self, index: usize) -> Option<Result<(usize, Message<'a>), Refusal>>
        ensures item { option_map item_of result ≡ nth index (packet_items self.entry) }
        ensures own { IfSome result (Cut self.entry.bytes.now) }
    {
        self.messages().nth(index)
    }

    // The messages with their offsets in the packet; a broken one is the last item, as its refusal.
    pub fn messages(self) -> Messages<'a>
        ensures packet { result.packet.now ≡ self.entry.bytes.now }
        ensures all { pending result ≡ packet_items self.entry }
    {
        let Packet {
            header,
            bytes: packet,
        } = self;
        Messages {
            packet,
            at: HEADER_SIZE,
            subscription: header.subscription,
        }
    }
}

// What is left of a packet's messages: a place in the packet, and not the rest alone, since each message is handed out
// with its offset.
#[derive(Drop)]
pub struct Messages<'a> {
    packet: &'a [u8],
    at: usize,
    subscription: u8,
}

impl<'a> Iterator for Messages<'a> {
    ghost use Rattle.feed.specs.Pending.{bytes_left, Next};

    type Item = Result<(usize, Message<'a>), Refusal>;

    ghost next_gives = { Next };

    ghost remaining = { λ s. at_most (bytes_left s) };

    // The next message with its offset, or the refusal of a broken one, after which nothing is left.
    #[tactic(auto, using(crate::proofs::Steps::pending_none, crate::proofs::Steps::pending_good, crate::proofs::Steps::own_part, crate::proofs::Steps::pending_refused))]
    fn next(&mut self) -> Option<Result<(usize, Message<'a>), Refusal>> {
        let at = self.at;
        if at >= self.packet.len() {
            return None;
        }
        match read_message(&self.packet[at..], self.subscription, at) {
            Ok(message) => {
                self.at = at + message.size();
                Some(Ok((at, message)))
            }
            Err(refusal) => {
                self.at = self.packet.len();
                Some(Err(refusal))
            }
        }
    }
}
