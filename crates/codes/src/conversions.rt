// What the conversions and the printed text mean, stated of the members that generic callers see.
ghost use Rattle.std.specs.Prelude.{◌≡◌, ℕ, Some, Result};
ghost use Rattle.std.specs.Result.{result_ok};
ghost use Rattle.codes.specs.Codes.{IsRead, side_code, sides, level_number, levels, auction_code, auctions, series_code, series_events, underlying_code, underlying_events, event_code, event_codes, packet_code, packet_types, message_code, message_types, kind_code, kinds};
ghost use Rattle.codes.specs.Refusals.{returned, text_of};

use crate::auction::Auction;
use crate::event::{EventCode, SeriesEvent, UnderlyingEvent};
use crate::kind::KindCode;
use crate::message::MessageType;
use crate::packet::PacketType;
use crate::quote::{Level, Side};
use crate::refusal::Refusal;
use std::fmt;

// A byte, or an event's two, is read as the case that has it as its code, and as nothing else.
pub fn codes_are_read()
    ensures side { (byte : ℕ) (answer : _) → ⟦<Side as TryFrom<u8>>⟧.try_from_gives byte answer → IsRead side_code sides byte answer }
    ensures level { (byte : ℕ) (answer : _) → ⟦<Level as TryFrom<u8>>⟧.try_from_gives byte answer → IsRead level_number levels byte answer }
    ensures auction { (byte : ℕ) (answer : _) → ⟦<Auction as TryFrom<u8>>⟧.try_from_gives byte answer → IsRead auction_code auctions byte answer }
    ensures series { (byte : ℕ) (answer : _) → ⟦<SeriesEvent as TryFrom<u8>>⟧.try_from_gives byte answer → IsRead series_code series_events byte answer }
    ensures underlying { (byte : ℕ) (answer : _) → ⟦<UnderlyingEvent as TryFrom<u8>>⟧.try_from_gives byte answer → IsRead underlying_code underlying_events byte answer }
    ensures packet { (byte : ℕ) (answer : _) → ⟦<PacketType as TryFrom<u8>>⟧.try_from_gives byte answer → IsRead packet_code packet_types byte answer }
    ensures message { (byte : ℕ) (answer : _) → ⟦<MessageType as TryFrom<u8>>⟧.try_from_gives byte answer → IsRead message_code message_types byte answer }
    ensures kind { (byte : ℕ) (answer : _) → ⟦<KindCode as TryFrom<u8>>⟧.try_from_gives byte answer → IsRead kind_code kinds byte answer }
    ensures event { (codes : ℕ × ℕ) (answer : _) → ⟦<EventCode as TryFrom<(u8, u8)>>⟧.try_from_gives codes answer → result_ok answer ≡ event_code codes.0 codes.1 }
{}

// A case is written as its code.
pub fn codes_are_written()
    ensures side { (side : _) (byte : ℕ) → ⟦<u8 as From<Side>>⟧.from_gives side byte → byte ≡ side_code side }
    ensures level { (level : _) (byte : ℕ) → ⟦<u8 as From<Level>>⟧.from_gives level byte → byte ≡ level_number level }
    ensures auction { (auction : _) (byte : ℕ) → ⟦<u8 as From<Auction>>⟧.from_gives auction byte → byte ≡ auction_code auction }
    ensures series { (event : _) (byte : ℕ) → ⟦<u8 as From<SeriesEvent>>⟧.from_gives event byte → byte ≡ series_code event }
    ensures underlying { (event : _) (byte : ℕ) → ⟦<u8 as From<UnderlyingEvent>>⟧.from_gives event byte → byte ≡ underlying_code event }
    ensures packet { (kind : _) (byte : ℕ) → ⟦<u8 as From<PacketType>>⟧.from_gives kind byte → byte ≡ packet_code kind }
    ensures message { (kind : _) (byte : ℕ) → ⟦<u8 as From<MessageType>>⟧.from_gives kind byte → byte ≡ message_code kind }
    ensures kind { (kind : _) (byte : ℕ) → ⟦<u8 as From<KindCode>>⟧.from_gives kind byte → byte ≡ kind_code kind }
    ensures event { (event : _) (codes : ℕ × ℕ) → ⟦<(u8, u8) as From<EventCode>>⟧.from_gives event codes → codes ≡ event_codes event }
{}

// A refusal prints its number, and its place where it has one.
pub fn refusals_are_printed()
    ensures { (refusal : _) → ⟦<Refusal as fmt::Display>⟧.output refusal ≡ Some (text_of (returned refusal)) }
{}
