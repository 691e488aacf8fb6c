// A caller that lends its slots to a session, lets the session go, and knows what its slots hold.
#![tactic(auto)]

ghost use Rattle.std.specs.Prelude.{◌≡◌};
ghost use Rattle.runs.specs.States.{opened, delivered};
ghost use Rattle.runs.specs.Watching.{named};
ghost use Rattle.slots.specs.Slots.{watchings};

use kinds::kind::Kind;
use messages::symbol::Symbol;
use session::session::open_session;
use slots::slot::Slot;

#[cfg(test)]
mod deliveries;
#[cfg(test)]
mod levels;
#[cfg(test)]
mod made;

// Two packets of a subscription, delivered to slots that are lent for as long.
pub fn deliver_two<K: Kind>(
    subscription: u8,
    symbols: &[Symbol],
    slots: &mut [Slot<K::Record>],
    one: &[u8],
    other: &[u8],
)
    ensures { watchings K.Kind.shows slots.new ≡ (delivered K.Kind.meaning (delivered K.Kind.meaning (opened K.Kind.meaning subscription (named (watchings K.Kind.shows slots.old) symbols.now)) one.now).1 other.now).1.slots }
{
    let mut session = open_session::<K>(subscription, symbols, slots);
    let _ = session.deliver(one);
    let _ = session.deliver(other);
}
