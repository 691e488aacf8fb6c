// Writes each of the three messages from its fields.
ghost use Rattle.std.specs.Prelude.{◌≡◌, ◌^◌, ◌<◌, ◌≤◌, ◌++◌};
ghost use Rattle.codes.specs.Refusals.{answered};
ghost use Rattle.messages.specs.Content.{Content, quote, imbalance, event};
ghost use Rattle.encode.specs.Encode.{quote_tail, imbalance_tail, form_named, form_tail, encoded, writable};
ghost use Rattle.encode.specs.Typed.{Typed, TypedForm};
ghost use Rattle.encode.specs.Writing.{Wrote};

use crate::parts::{Parts, header_bytes, named_bytes, put_parts};
use codes::event::EventCode;
use codes::message::MessageType;
use codes::refusal::Refusal;
use messages::fields::{EventFields, EventForm, ImbalanceFields, LATEST_TIME, QuoteFields};
use messages::symbol::is_nameable;

// A quote's bytes from 40 on.
fn quote_tail(fields: QuoteFields) -> [u8; 12]
    ensures bytes { result ≡ quote_tail fields }
    ensures contracts { fields.contracts < 2 ^ 32 }
    ensures price { fields.price < 2 ^ 32 }
{
    let side = u8::from(fields.side);
    let insert = u8::from(fields.insert);
    let delete = u8::from(fields.delete);
    let [c0, c1, c2, c3] = fields.contracts.to_be_bytes();
    let [p0, p1, p2, p3] = fields.price.to_be_bytes();
    [0, side, insert, delete, c0, c1, c2, c3, p0, p1, p2, p3]
}

// An imbalance's bytes from 40 on.
fn imbalance_tail(fields: ImbalanceFields) -> [u8; 20]
    ensures bytes { result ≡ imbalance_tail fields }
    ensures time { fields.time < 2 ^ 16 }
    ensures contracts { fields.contracts < 2 ^ 32 }
    ensures price { fields.price < 2 ^ 32 }
    ensures total { fields.total < 2 ^ 32 }
    ensures market { fields.market < 2 ^ 32 }
{
    let auction = u8::from(fields.auction);
    let [h0, h1] = fields.time.to_be_bytes();
    let [c0, c1, c2, c3] = fields.contracts.to_be_bytes();
    let [p0, p1, p2, p3] = fields.price.to_be_bytes();
    let [t0, t1, t2, t3] = fields.total.to_be_bytes();
    let [m0, m1, m2, m3] = fields.market.to_be_bytes();
    [
        0, auction, h0, h1, c0, c1, c2, c3, p0, p1, p2, p3, t0, t1, t2, t3, m0, m1, m2, m3,
    ]
}

// An event's number and symbol, null but for an event of a series.
fn form_named(form: EventForm) -> [u8; 32]
    ensures bytes { result ≡ form_named form }
    ensures typed { TypedForm form }
{
    match form {
        EventForm::Numbered { number, symbol, .. } => named_bytes(number, symbol),
        EventForm::Underlying(_) | EventForm::Reset => [0; 32],
    }
}

// An event's bytes from 40 on.
fn form_tail(form: EventForm) -> [u8; 4]
    ensures { result ≡ form_tail form }
{
    let (event, reset) = <(u8, u8)>::from(EventCode::from(form));
    [0, 0, event, reset]
}

// Fields that a message with TAIL bytes from 40 on is written from.
trait Written<const TAIL: usize> {
    ghost content: { Self → Content };

    // Whether some bytes can carry them.
    fn is_writable(&self) -> bool
        ensures { result ≡ writable (content self.now) };

    // Their bytes, part by part.
    fn parts(&self, subscription: u8) -> Parts<TAIL>
        ensures bytes { result.header ++ result.named ++ result.tail ≡ encoded subscription (content self.now) }
        ensures typed { Typed (content self.now) };
}

impl Written<12> for QuoteFields {
    ghost content = { quote };

    #[tactic(auto, unfolding(crate::specs::Encode::writable))]
    fn is_writable(&self) -> bool {
        is_nameable(self.number, &self.symbol)
    }

    #[tactic(auto, using(crate::proofs::Packings::same_parts), unfolding(crate::specs::Encode::encoded))]
    fn parts(&self, subscription: u8) -> Parts<12> {
        Parts {
            header: header_bytes(52, u8::from(MessageType::Quote), subscription, self.stamp),
            named: named_bytes(self.number, self.symbol),
            tail: quote_tail(*self),
        }
    }
}

impl Written<20> for ImbalanceFields {
    ghost content = { imbalance };

    #[tactic(auto, unfolding(crate::specs::Encode::writable))]
    fn is_writable(&self) -> bool {
        is_nameable(self.number, &self.symbol) && self.time <= LATEST_TIME
    }

    #[tactic(auto, using(crate::proofs::Packings::same_parts), unfolding(crate::specs::Encode::encoded))]
    fn parts(&self, subscription: u8) -> Parts<20> {
        Parts {
            header: header_bytes(
                60,
                u8::from(MessageType::Imbalance),
                subscription,
                self.stamp,
            ),
            named: named_bytes(self.number, self.symbol),
            tail: imbalance_tail(*self),
        }
    }
}

impl Written<4> for EventFields {
    ghost content = { event };

    #[tactic(auto, unfolding(crate::specs::Encode::writable))]
    fn is_writable(&self) -> bool {
        match &self.form {
            EventForm::Numbered { number, symbol, .. } => is_nameable(*number, symbol),
            EventForm::Underlying(_) | EventForm::Reset => true,
        }
    }

    #[tactic(auto, using(crate::proofs::Packings::same_parts), unfolding(crate::specs::Encode::encoded))]
    fn parts(&self, subscription: u8) -> Parts<4> {
        Parts {
            header: header_bytes(44, u8::from(MessageType::Event), subscription, self.stamp),
            named: form_named(self.form),
            tail: form_tail(self.form),
        }
    }
}

// Writes a message of any type. Refusals: 5 at 0 for fields that no bytes can carry, then 9. (Writers take subscription
// and buffer as they come: each call writes at the front of a buffer of its own, so a struct of the two would be made
// anew for each.)
fn write_fields<F: Written<TAIL>, const TAIL: usize>(
    fields: &F,
    subscription: u8,
    out: &mut [u8],
) -> Result<usize, Refusal>
    requires { TAIL ≤ 8152 }
    ensures { Wrote subscription (F.Written.content fields.now) out.old out.new (answered (λ n. n) result) }
{
    if !fields.is_writable() {
        return Err(Refusal::BrokenMessage(0));
    }
    let Parts {
        header,
        named,
        tail,
    } = fields.parts(subscription);
    put_parts(&header, &named, &tail, out)
}

// The public calls are a line each, since their contracts say which content is written, and must not rest on a ghost
// member.

// Writes a quote of 52 bytes. Refusals: 5 at 0 for a number or a symbol that cannot be, then 9.
pub fn write_quote(fields: &QuoteFields, subscription: u8, out: &mut [u8]) -> Result<usize, Refusal>
    ensures { Wrote subscription (quote fields.now) out.old out.new (answered (λ n. n) result) }
{
    write_fields(fields, subscription, out)
}

// Writes an imbalance of 60 bytes. Refusals: 5 at 0 for a number, a symbol or a time that cannot be, then 9.
pub fn write_imbalance(
    fields: &ImbalanceFields,
    subscription: u8,
    out: &mut [u8],
) -> Result<usize, Refusal>
    ensures { Wrote subscription (imbalance fields.now) out.old out.new (answered (λ n. n) result) }
{
    write_fields(fields, subscription, out)
}

// Writes an event of 44 bytes. Refusals: 5 at 0 for a number or a symbol of a series that cannot be, then 9.
pub fn write_event(fields: &EventFields, subscription: u8, out: &mut [u8]) -> Result<usize, Refusal>
    ensures { Wrote subscription (event fields.now) out.old out.new (answered (λ n. n) result) }
{
    write_fields(fields, subscription, out)
}
