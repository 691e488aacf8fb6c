// A session over slots that are lent to it: what it holds, and its calls.
ghost use Rattle.std.specs.Prelude.{◌≡◌, slice_get};
ghost use Rattle.std.specs.Option.{option_map};
ghost use Rattle.codes.specs.Refusals.{answered};
ghost use Rattle.messages.specs.Content.{stamp_in};
ghost use Rattle.feed.specs.Pending.{packet_items};
ghost use Rattle.runs.specs.States.{opened, delivered, looked, waits, view, contents_of};
ghost use Rattle.runs.specs.Runs.{DeliverLaw, LookLaw};
ghost use Rattle.runs.specs.Watching.{named};
ghost use Rattle.session.specs.Sessions.{state, seen_by};
ghost use Rattle.slots.specs.Slots.{watching, watchings};

use crate::check::Checked;
use crate::progress::Progress;
use codes::packet::PacketType;
use codes::refusal::Refusal;
use feed::packet::Packet;
use kinds::kind::Kind;
use messages::symbol::Symbol;
use slots::opening::name_all;
use slots::slot::Slot;
use slots::taking::{feed_all, find, renew_all};

// A session of a kind, on one subscription.
#[derive(Drop)]
pub struct Session<'a, K: Kind> {
    slots: &'a mut [Slot<K::Record>],
    subscription: u8,
    // Of the reset that started it; none while it waits for one.
    stamp: Option<u32>,
    progress: Progress,
}

// Whether a series shows its highest number that has come.
#[derive(Clone, Copy, Debug, PartialEq, Eq)]
pub enum Mark {
    Current,
    Stale,
}

// What is shown of a series.
#[derive(Debug, PartialEq, Eq, Drop)]
pub struct Look<'a, R> {
    pub record: &'a R,
    pub last: u32,
    pub mark: Mark,
}

// What is shown of a slot: stale while a higher number was seen than the last taken.
fn show<K: Kind>(slot: &Slot<K::Record>) -> Look<'_, K::Record>
    ensures { seen_by K.Kind.shows result ≡ view (watching K.Kind.shows slot.now).slot }
{
    Look {
        record: &slot.kept.record,
        last: slot.kept.last,
        mark: if slot.kept.last < slot.seen {
            Mark::Stale
        } else {
            Mark::Current
        },
    }
}

// A session over these symbols and slots, as far as both go, which waits for a reset. It cannot refuse: after
// `check_watch_list` has answered Ok, there are as many slots as symbols.
pub fn open_session<'a, K: Kind>(
    subscription: u8,
    symbols: &[Symbol],
    slots: &'a mut [Slot<K::Record>],
) -> Session<'a, K>
    ensures state { state K.Kind.shows result ≡ opened K.Kind.meaning subscription (named (watchings K.Kind.shows slots.old) symbols.now) }
    ensures same { result.slots.ghost_name ≡ slots.entry.ghost_name }
{
    name_all::<K>(slots, symbols);
    renew_all::<K>(slots);
    Session {
        slots,
        subscription,
        stamp: None,
        progress: Progress { next: 1, top: 0 },
    }
}

// The stamp of the packet's first message, if one can be read.
#[tactic(auto, using(crate::proofs::Stamps::first_stamp))]
fn first_stamp(packet: Packet) -> Option<u32>
    ensures { result ≡ option_map stamp_in (slice_get (contents_of (packet_items packet.entry)) 0) }
{
    let (_, message) = packet.message(0)?.ok()?;
    Some(message.stamp())
}

impl<'a, K: Kind> Session<'a, K> {
    // The packet it expects next.
    pub fn next(&self) -> u32
        ensures { result ≡ (state K.Kind.shows self.now).next }
    {
        self.progress.next
    }

    // The highest packet it knows of.
    pub fn top(&self) -> u32
        ensures { result ≡ (state K.Kind.shows self.now).top }
    {
        self.progress.top
    }

    // Whether it waits for a reset.
    pub fn is_waiting(&self) -> bool
        ensures { result ≡ waits (state K.Kind.shows self.now) }
    {
        self.stamp.is_none()
    }

    // Takes one packet, whole or not at all: how many of its messages moved a last number, or the refusal, 1 to 8, of
    // the uppermost row that is met; then nothing has changed. It holds the same borrow of the lender's slots: no ghost
    // field can speak of what was before a call, and without `same` a lender knows nothing of its slots afterwards.
    #[tactic(auto, unfolding(runs::specs::States::delivered))]
    pub fn deliver(&mut self, bytes: &[u8]) -> Result<usize, Refusal>
        ensures answer { answered (λ n. n) result ≡ (delivered K.Kind.meaning (state K.Kind.shows self.old) bytes.now).0 }
        ensures after { state K.Kind.shows self.new ≡ (delivered K.Kind.meaning (state K.Kind.shows self.old) bytes.now).1 }
        ensures same { self.new.slots.ghost_name ≡ self.old.slots.ghost_name }
        ensures law { DeliverLaw K.Kind.meaning (state K.Kind.shows self.old) bytes.now (answered (λ n. n) result) (state K.Kind.shows self.new) }
    {
        let checked = Checked::read::<K>(bytes, self.subscription, self.is_waiting())?;
        let packet = checked.packet;
        let header = packet.header();
        match header.kind {
            PacketType::Heartbeat => {
                self.progress = self.progress.heard(checked);
                Ok(0)
            }
            PacketType::Messages => {
                // Packet 1 starts a session, unless it has the session's own stamp.
                let stamp = first_stamp(packet);
                if header.number == 1 && self.stamp != stamp {
                    renew_all::<K>(self.slots);
                    self.stamp = stamp;
                    self.progress = Progress { next: 2, top: 1 };
                } else {
                    self.progress = self.progress.after(checked);
                }
                Ok(feed_all::<K>(self.slots, packet))
            }
        }
    }

    // What is shown of a watched series: refusal 8 while waiting, 11 for a symbol that is not watched.
    #[tactic(auto, using(runs::proofs::Theorem::look_law, slots::proofs::Places::viewed_at, slots::proofs::Places::viewed_none, std::proofs::lemmas::Result::err_from_is_err_and))]
    pub fn look(&self, symbol: &Symbol) -> Result<Look<'_, K::Record>, Refusal>
        ensures answer { answered (seen_by K.Kind.shows) result ≡ looked (state K.Kind.shows self.now) symbol.now }
        ensures law { LookLaw K.Kind.meaning (state K.Kind.shows self.now) symbol.now (answered (seen_by K.Kind.shows) result) }
    {
        if self.is_waiting() {
            return Err(Refusal::NoReset);
        }
        let slots = &*self.slots;
        let i = find(slots, symbol).ok_or(Refusal::NotWatched)?;
        Ok(show::<K>(&slots[i]))
    }
}
