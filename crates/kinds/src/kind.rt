// What a kind of record is.
ghost use Rattle.std.specs.Prelude.{◌≡◌, ℕ, true, List};
ghost use Rattle.messages.specs.Messages.{content};
ghost use Rattle.kinds.specs.Meaning.{Meaning};

use messages::message::Message;

// A kind is a type; no value of it is ever held.
pub trait Kind {
    // What is kept of one series.
    type Record: Drop;

    // What the kind makes of message contents, with its law.
    ghost meaning: { Meaning };

    // What a record means: its numbers, in the order in which they are printed.
    ghost shows: { Self.Record → List ℕ };

    // The record of a series before its first message.
    fn empty() -> Self::Record
        ensures { shows result ≡ meaning.empty };

    // Whether a session of this kind may carry the message.
    fn belongs(message: &Message) -> bool
        ensures { result ≡ meaning.belongs (content message.now) };

    // Whether the message settles: if so, the record after it is the same, whatever it was before.
    fn settles(message: &Message) -> bool
        ensures { result ≡ meaning.settles (content message.now) };

    // Takes the message into the record. It refuses nothing.
    fn step(held: &mut Self::Record, message: &Message)
        ensures { shows held.new ≡ meaning.step (shows held.old) (content message.now) };
}

// Takes one message into two records. Where it settles they show the same from then on, whatever they were.
pub fn step_both<K: Kind>(one: &mut K::Record, other: &mut K::Record, message: &Message) -> bool
    ensures settles { result ≡ K.Kind.meaning.settles (content message.now) }
    ensures one { K.Kind.shows one.new ≡ K.Kind.meaning.step (K.Kind.shows one.old) (content message.now) }
    ensures other { K.Kind.shows other.new ≡ K.Kind.meaning.step (K.Kind.shows other.old) (content message.now) }
    ensures alike { result ≡ true → K.Kind.shows one.new ≡ K.Kind.shows other.new }
{
    K::step(one, message);
    K::step(other, message);
    K::settles(message)
}
