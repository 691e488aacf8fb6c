// The codes of an event: its event code and its reset code.
ghost use Rattle.std.specs.Prelude.{◌≡◌};
ghost use Rattle.std.specs.Result.{result_ok};
ghost use Rattle.codes.specs.Codes.{IsRead, series_events, series_code, underlying_events, underlying_code, event_code, event_codes};

use crate::unknown::UnknownCode;

// An event of one series, which carries a number and a symbol.
#[derive(Clone, Copy, Debug, PartialEq, Eq)]
pub enum SeriesEvent {
    ClearOffer,
    ClearBid,
    ClearSeries,
    LightUp,
    DarkOpen,
    Open,
    Halt,
    DarkUnhalt,
    Unhalt,
    Close,
}

// The event that a code stands for: one of `A B C L N O S T U X`.
impl TryFrom<u8> for SeriesEvent {
    type Error = UnknownCode;

    ghost try_from_gives = { IsRead series_code series_events };

    fn try_from(code: u8) -> Result<SeriesEvent, UnknownCode> {
        match code {
            b'A' => Ok(SeriesEvent::ClearOffer),
            b'B' => Ok(SeriesEvent::ClearBid),
            b'C' => Ok(SeriesEvent::ClearSeries),
            b'L' => Ok(SeriesEvent::LightUp),
            b'N' => Ok(SeriesEvent::DarkOpen),
            b'O' => Ok(SeriesEvent::Open),
            b'S' => Ok(SeriesEvent::Halt),
            b'T' => Ok(SeriesEvent::DarkUnhalt),
            b'U' => Ok(SeriesEvent::Unhalt),
            b'X' => Ok(SeriesEvent::Close),
            _ => Err(UnknownCode),
        }
    }
}

// The byte that stands for it.
impl From<SeriesEvent> for u8 {
    ghost from_gives = { λ case byte. byte ≡ series_code case };

    fn from(event: SeriesEvent) -> u8 {
        match event {
            SeriesEvent::ClearOffer => b'A',
            SeriesEvent::ClearBid => b'B',
            SeriesEvent::ClearSeries => b'C',
            SeriesEvent::LightUp => b'L',
            SeriesEvent::DarkOpen => b'N',
            SeriesEvent::Open => b'O',
            SeriesEvent::Halt => b'S',
            SeriesEvent::DarkUnhalt => b'T',
            SeriesEvent::Unhalt => b'U',
            SeriesEvent::Close => b'X',
        }
    }
}

// An event of an underlying, whose number and symbol are not read.
#[derive(Clone, Copy, Debug, PartialEq, Eq)]
pub enum UnderlyingEvent {
    Open,
    Halt,
    Unhalt,
    Close,
}

// The event that a code stands for: `o`, `s`, `u` or `x`.
impl TryFrom<u8> for UnderlyingEvent {
    type Error = UnknownCode;

    ghost try_from_gives = { IsRead underlying_code underlying_events };

    fn try_from(code: u8) -> Result<UnderlyingEvent, UnknownCode> {
        match code {
            b'o' => Ok(UnderlyingEvent::Open),
            b's' => Ok(UnderlyingEvent::Halt),
            b'u' => Ok(UnderlyingEvent::Unhalt),
            b'x' => Ok(UnderlyingEvent::Close),
            _ => Err(UnknownCode),
        }
    }
}

// The byte that stands for it.
impl From<UnderlyingEvent> for u8 {
    ghost from_gives = { λ case byte. byte ≡ underlying_code case };

    fn from(event: UnderlyingEvent) -> u8 {
        match event {
            UnderlyingEvent::Open => b'o',
            UnderlyingEvent::Halt => b's',
            UnderlyingEvent::Unhalt => b'u',
            UnderlyingEvent::Close => b'x',
        }
    }
}

// What an event's two code bytes say together.
#[derive(Clone, Copy, Debug, PartialEq, Eq)]
pub enum EventCode {
    Series(SeriesEvent),
    Underlying(UnderlyingEvent),
    Reset,
}

// The event of an event code and a reset code: `I` with `R` is the reset, every other event has `C`.
impl TryFrom<(u8, u8)> for EventCode {
    type Error = UnknownCode;

    ghost try_from_gives = { λ codes answer. result_ok answer ≡ event_code codes.0 codes.1 };

    fn try_from(codes: (u8, u8)) -> Result<EventCode, UnknownCode> {
        let (event, reset) = codes;
        if event == b'I' && reset == b'R' {
            return Ok(EventCode::Reset);
        }
        if reset != b'C' {
            return Err(UnknownCode);
        }
        match SeriesEvent::try_from(event) {
            Ok(code) => Ok(EventCode::Series(code)),
            Err(_) => Ok(EventCode::Underlying(UnderlyingEvent::try_from(event)?)),
        }
    }
}

// The bytes at 42 and 43 of the event: its code, and `C`, or `R` for the reset.
impl From<EventCode> for (u8, u8) {
    ghost from_gives = { λ event codes. codes ≡ event_codes event };

    fn from(event: EventCode) -> (u8, u8) {
        match event {
            EventCode::Series(code) => (u8::from(code), b'C'),
            EventCode::Underlying(code) => (u8::from(code), b'C'),
            EventCode::Reset => (b'I', b'R'),
        }
    }
}
