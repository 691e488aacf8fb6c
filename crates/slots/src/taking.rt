// How slots take messages.
ghost use Rattle.std.specs.Prelude.{◌≡◌, map};
ghost use Rattle.messages.specs.Messages.{content};
ghost use Rattle.runs.specs.Taking.{numbered, takes, taken};
ghost use Rattle.runs.specs.Watching.{renewed, offered, moves, offered_if, moves_if, fed, moved};
ghost use Rattle.feed.specs.Pending.{packet_items};
ghost use Rattle.runs.specs.States.{contents_of};
ghost use Rattle.slots.specs.Slots.{watching, watchings, place};

use crate::slot::{Kept, Slot};
use feed::packet::Packet;
use kinds::kind::Kind;
use messages::message::Message;
use messages::symbol::Symbol;

// The place of the first slot of a symbol, if there is one.
pub fn find<R>(slots: &[Slot<R>], symbol: &Symbol) -> Option<usize>
    ensures { result ≡ place symbol.now slots.now }
{
    slots.iter().position(|slot| slot.symbol == *symbol)
}

// The taking rule; whether the last number moved.
fn take<K: Kind>(slot: &mut Slot<K::Record>, number: u32, message: &Message) -> bool
    ensures after { watching K.Kind.shows slot.new ≡ record { symbol = slot.old.symbol; slot = taken K.Kind.meaning (watching K.Kind.shows slot.old).slot (record { symbol = slot.old.symbol; number = number; content = content message.now }) } }
    ensures answer { result ≡ takes K.Kind.meaning slot.old.kept.last (record { symbol = slot.old.symbol; number = number; content = content message.now }) }
{
    let moves = number > slot.kept.last && (number - slot.kept.last == 1 || K::settles(message));
    if moves {
        K::step(&mut slot.kept.record, message);
        slot.kept.last = number;
    }
    slot.seen = slot.seen.max(number);
    moves
}

// A numbered message goes to the slot of its series, if there is one; whether the last number moved.
#[tactic(auto, using(crate::proofs::Places::offered_at, crate::proofs::Places::offered_none, crate::proofs::Places::moves_none))]
fn offer<K: Kind>(
    slots: &mut [Slot<K::Record>],
    symbol: &Symbol,
    number: u32,
    message: &Message,
) -> bool
    ensures after { watchings K.Kind.shows slots.new ≡ offered K.Kind.meaning (record { symbol = symbol.entry.now; number = number; content = content message.now }) (watchings K.Kind.shows slots.old) }
    ensures answer { result ≡ moves K.Kind.meaning (record { symbol = symbol.entry.now; number = number; content = content message.now }) (watchings K.Kind.shows slots.old) }
{
    // A `match`: a closure that changes the slots says nothing of them afterwards.
    match find(slots, symbol) {
        Some(i) => take::<K>(&mut slots[i], number, message),
        None => false,
    }
}

// A message, whatever it is: an event of an underlying and the reset go to no slot.
fn feed<K: Kind>(slots: &mut [Slot<K::Record>], message: &Message) -> bool
    ensures after { watchings K.Kind.shows slots.new ≡ offered_if K.Kind.meaning (numbered (content message.now)) (watchings K.Kind.shows slots.old) }
    ensures answer { result ≡ moves_if K.Kind.meaning (numbered (content message.now)) (watchings K.Kind.shows slots.old) }
{
    let Some(name) = message.name() else {
        return false;
    };
    offer::<K>(slots, &name.1, name.0, message)
}

// The messages of a packet, in order; how many moved a last number. A loop: with a chain
// of `map_while`, `filter` and `count`, whose closure changes the slots, neither clause was proved.
pub fn feed_all<K: Kind>(slots: &mut [Slot<K::Record>], packet: Packet) -> usize
    ensures after { watchings K.Kind.shows slots.new ≡ fed K.Kind.meaning (watchings K.Kind.shows slots.old) (contents_of (packet_items packet.entry)) }
    ensures answer { result ≡ moved K.Kind.meaning (watchings K.Kind.shows slots.old) (contents_of (packet_items packet.entry)) }
{
    let mut moved = 0;
    for item in packet.messages() {
        let Ok((_, message)) = item else {
            return moved;
        };
        if feed::<K>(slots, &message) {
            moved += 1;
        }
    }
    moved
}

// All slots, for a session to start: an empty record, and no message.
#[tactic(auto, using(crate::proofs::Places::renew_on, crate::proofs::Places::renew_end))]
pub fn renew_all<K: Kind>(slots: &mut [Slot<K::Record>])
    ensures { watchings K.Kind.shows slots.new ≡ map (renewed K.Kind.meaning) (watchings K.Kind.shows slots.old) }
{
    for slot in slots.iter_mut() {
        slot.kept = Kept {
            record: K::empty(),
            last: 0,
        };
        slot.seen = 0;
    }
}
