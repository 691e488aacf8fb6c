// Reads the first message of some bytes.
ghost use Rattle.std.specs.Prelude.{◌≡◌, ◌≤◌, ◌&&◌, ◌↔◌, length, take, if◌then◌else◌, IfOk, IfSome, Some, None, Ok, nat_eq, nat_le};
ghost use Rattle.std.specs.Option.{option_map};
ghost use Rattle.messages.specs.Content.{Content, size};
ghost use Rattle.messages.specs.Layout.{Begins};
ghost use Rattle.messages.specs.Messages.{content, own_bytes};
ghost use Rattle.codes.specs.Refusals.{answered};
ghost use Rattle.messages.specs.Verdict.{named, good_quote, good_imbalance, good_event, message, verdict};

use crate::fields::LATEST_TIME;
use crate::header::RawHeader;
use crate::message::{Event, Imbalance, Message, Own, Quote};
use crate::numbers::{part, u32_at};
use crate::symbol::is_nameable;
use codes::auction::Auction;
use codes::event::EventCode;
use codes::message::MessageType;
use codes::quote::{Level, Side};
use codes::refusal::Refusal;

// Whether the number is in its range and the symbol well formed.
fn is_named(own: &[u8]) -> bool
    requires { 40 ≤ length own.now }
    ensures { result ≡ named own.now }
{
    is_nameable(u32_at(own, 8), &part(own, 32))
}

fn is_good_quote(own: &[u8; 52]) -> bool
    ensures { result ≡ good_quote own.now }
{
    is_named(own)
        && Side::try_from(own[41]).is_ok()
        && Level::try_from(own[42]).is_ok()
        && Level::try_from(own[43]).is_ok()
}

fn is_good_imbalance(own: &[u8; 60]) -> bool
    ensures { result ≡ good_imbalance own.now }
{
    is_named(own)
        && Auction::try_from(own[41]).is_ok()
        && u16::from_be_bytes([own[42], own[43]]) <= LATEST_TIME
}

fn is_good_event(own: &[u8; 44]) -> bool
    ensures { result ≡ good_event own.now }
{
    match EventCode::try_from((own[42], own[43])) {
        Ok(EventCode::Series(_)) => is_named(own),
        Ok(_) => true,
        Err(_) => false,
    }
}

// The own bytes of a message of LEN bytes, where its header says so and all of them are there.
fn cut<const LEN: usize>(bytes: &[u8], said: u16) -> Option<Own<'_, LEN>>
    ensures { option_map (λ o. o.bytes.now) result ≡ (if nat_eq said LEN && nat_le LEN (length bytes.now) then Some (take LEN bytes.now) else None) }
{
    if said as usize != LEN {
        return None;
    }
    let own = bytes.first_chunk()?;
    Some(Own { bytes: own })
}

fn first_message(bytes: &[u8], subscription: u8) -> Option<Message<'_>>
    ensures content { option_map content result ≡ message subscription bytes.now }
    ensures own { IfSome result (λ m. own_bytes m ≡ take (size (content m)) bytes.now) }
{
    let header = RawHeader::read(bytes)?;
    if header.subscription != subscription {
        return None;
    }
    // Three arms of two lines: one generic call would take the test and the case as functions, and its contract say of
    // them what the arms do.
    match MessageType::try_from(header.code).ok()? {
        MessageType::Quote => {
            let quote: Quote = cut(bytes, header.length)?;
            is_good_quote(quote.bytes).then_some(Message::Quote(quote))
        }
        MessageType::Imbalance => {
            let imbalance: Imbalance = cut(bytes, header.length)?;
            is_good_imbalance(imbalance.bytes).then_some(Message::Imbalance(imbalance))
        }
        MessageType::Event => {
            let event: Event = cut(bytes, header.length)?;
            is_good_event(event.bytes).then_some(Message::Event(event))
        }
    }
}

// The first message of `bytes`, which stand at `offset` of a packet with this subscription.
pub fn read_message(bytes: &[u8], subscription: u8, offset: usize) -> Result<Message<'_>, Refusal>
    ensures verdict { answered content result ≡ verdict subscription offset bytes.now }
    ensures own { IfOk result (λ m. own_bytes m ≡ take (size (content m)) bytes.now) }
    ensures laid { (c : Content) → (answered content result ≡ Ok c) ↔ Begins subscription bytes.now c }
{
    first_message(bytes, subscription).ok_or(Refusal::BrokenMessage(offset))
}
