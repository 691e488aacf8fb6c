// Why a packet is refused for its messages, found before anything is changed.
ghost use Rattle.std.specs.Prelude.{◌≡◌, ◌<◌, ◌≤◌, length, IfOk};
ghost use Rattle.codes.specs.Refusals.{answered, refusal_of};
ghost use Rattle.messages.specs.Messages.{content};
ghost use Rattle.feed.specs.Pending.{packet_items};
ghost use Rattle.codes.specs.declared.packet.PacketType.TheVariants.{Messages};
ghost use Rattle.runs.specs.States.{contents_of};
ghost use Rattle.runs.specs.Verdicts.{is_reset, startable, judged, refused_for, checked};

use codes::packet::PacketType;
use codes::refusal::Refusal;
use feed::packet::Packet;
use kinds::kind::Kind;
use messages::fields::EventForm;
use messages::message::Message;
use messages::numbers::HEADER_SIZE;

fn is_reset(message: &Message) -> bool
    ensures { result ≡ is_reset (content message.now) }
{
    matches!(message, Message::Event(event) if matches!(event.fields().form, EventForm::Reset))
}

// The reset stands at the front of packet 1 and nowhere else; every other message belongs.
fn judge<K: Kind>(number: u32, offset: usize, message: &Message) -> Result<(), Refusal>
    ensures { refusal_of result ≡ judged K.Kind.meaning number offset (content message.now) }
{
    let opens = number == 1 && offset == HEADER_SIZE;
    if is_reset(message) != opens {
        return Err(Refusal::MisplacedReset(offset));
    }
    if !opens && !K::belongs(message) {
        return Err(Refusal::ForeignMessage(offset));
    }
    Ok(())
}

// While waiting only packet 1 is taken.
fn is_startable(kind: PacketType, number: u32) -> bool
    ensures { result ≡ startable kind number }
{
    matches!(kind, PacketType::Messages) && number == 1
}

// Rows 5 to 8: the first faulty message, and then a packet that comes before the reset.
fn check<K: Kind>(packet: Packet, waiting: bool) -> Result<(), Refusal>
    ensures { refusal_of result ≡ refused_for K.Kind.meaning waiting packet.entry.header (packet_items packet.entry) }
{
    let header = packet.header();
    for item in packet.messages() {
        let (offset, message) = item?;
        judge::<K>(header.number, offset, &message)?;
    }
    if waiting && !is_startable(header.kind, header.number) {
        return Err(Refusal::NoReset);
    }
    Ok(())
}

// A packet that the checks let through. (It lives within a delivery, where nobody compares or prints it.)
#[derive(Clone, Copy)]
pub(crate) struct Checked<'a> {
    pub(crate) packet: Packet<'a>,
    ghost numbered: { packet.header.number ≤ 4294967294 },
    ghost first: { packet.header.kind ≡ Messages → 0 < length (contents_of (packet_items packet)) },
}

impl<'a> Checked<'a> {
    // A packet that the table does not refuse, rows 1 to 8.
    #[tactic(auto, using(runs::proofs::Checks::checked_refused, runs::proofs::Checks::checked_faulty, runs::proofs::Checks::checked_good, runs::proofs::Headers::read_header, std::proofs::lemmas::Result::err_from_is_err_and))]
    pub(crate) fn read<K: Kind>(
        bytes: &'a [u8],
        subscription: u8,
        waiting: bool,
    ) -> Result<Checked<'a>, Refusal>
        ensures verdict { answered (λ c. c.packet.header) result ≡ checked K.Kind.meaning subscription waiting bytes.now }
        ensures bytes { IfOk result (λ c. c.packet.bytes.now ≡ bytes.now) }
        ensures own { IfOk result (λ c. c.packet.header.subscription ≡ subscription) }
    {
        let packet = Packet::read(bytes, subscription)?;
        check::<K>(packet, waiting)?;
        Ok(Checked { packet })
    }
}
