// Option symbols: 1 to 8 bytes from 33 to 126, and then nulls to the end of the field.
ghost use Rattle.std.specs.Prelude.{◌≡◌, true, ◌↔◌, [], length, ◌==◌};
ghost use Rattle.std.specs.List.{list_all, list_any, take_while};
ghost use Rattle.std.specs.Int.{to_le_bytes, w64};
ghost use Rattle.std.specs.Str.{bytes_eq};
ghost use Rattle.messages.specs.Layout.{Symbol as SymbolField};
ghost use Rattle.messages.specs.Symbols.{printable, padded, well_formed, among, bad_from};
ghost use Rattle.messages.specs.Verdict.{nameable};

use crate::numbers::in_range;

pub type Symbol = [u8; 8];

// The most symbols that a list may have.
pub const MOST_SYMBOLS: usize = 1_024;

fn is_printable(byte: u8) -> bool
    ensures { result ≡ printable byte }
{
    byte >= 33 && byte <= 126
}

// How many bytes stand before the first that is not printable.
fn name_length(field: &[u8]) -> usize
    ensures { result ≡ length (take_while printable field.now) }
{
    field.iter().take_while(|byte| is_printable(**byte)).count()
}

fn are_null(bytes: &[u8]) -> bool
    ensures { result ≡ list_all (λ byte. byte == 0) bytes.now }
{
    bytes.iter().all(|byte| *byte == 0)
}

// Printable bytes, and then nulls only.
#[tactic(auto, using(crate::proofs::Symbols::name_inside))]
fn is_padded(field: &[u8]) -> bool
    ensures { result ≡ padded field.now }
{
    are_null(&field[name_length(field)..])
}

// A field of printable bytes, at least one, and then nulls only.
fn is_symbol(field: &[u8]) -> bool
    ensures { result ≡ well_formed field.now }
{
    match field {
        [first, rest @ ..] => is_printable(*first) && is_padded(rest),
        [] => false,
    }
}

// Whether a symbol's field holds a symbol.
pub fn is_well_formed(symbol: &Symbol) -> bool
    ensures test { result ≡ well_formed symbol.now }
    ensures law { (result ≡ true) ↔ SymbolField symbol.now }
{
    is_symbol(symbol)
}

// Whether a message can carry a number and a symbol: the number in its range, the symbol well formed.
pub fn is_nameable(number: u32, symbol: &Symbol) -> bool
    ensures { result ≡ nameable number symbol.now }
{
    in_range(number) && is_symbol(symbol)
}

// The bytes of a symbol as one number.
#[tactic(auto, using(crate::proofs::Symbols::back))]
fn number_of(symbol: &Symbol) -> u64
    ensures { to_le_bytes w64 result ≡ symbol.now }
{
    u64::from_le_bytes(*symbol)
}

// Whether a symbol has this number.
#[tactic(auto, using(crate::proofs::Symbols::of_number))]
fn has_number(symbol: &Symbol, number: u64) -> bool
    ensures { result ≡ bytes_eq symbol.now (to_le_bytes w64 number) }
{
    u64::from_le_bytes(*symbol) == number
}

// Whether one of these symbols has this number.
fn has_any(symbols: &[Symbol], number: u64) -> bool
    ensures { result ≡ list_any (λ symbol. bytes_eq symbol (to_le_bytes w64 number)) symbols.now }
{
    symbols.iter().any(|symbol| has_number(symbol, number))
}

// The same of symbols in fours.
fn has_any_of(fours: &[[Symbol; 4]], number: u64) -> bool
    ensures { result ≡ list_any (λ four. list_any (λ symbol. bytes_eq symbol (to_le_bytes w64 number)) four) fours.now }
{
    fours.iter().any(|four| has_any(four, number))
}

// Whether a symbol is among some: by its number, since `==` of arrays goes byte by byte, and four at a time.
fn is_among(symbol: &Symbol, symbols: &[Symbol]) -> bool
    ensures { result ≡ among symbol.now symbols.now }
{
    let number = number_of(symbol);
    let (fours, rest) = symbols.as_chunks::<4>();
    has_any_of(fours, number) | has_any(rest, number)
}

// The index of the first symbol that is malformed, or stands before it too.
pub fn first_bad(symbols: &[Symbol]) -> Option<usize>
    ensures { result ≡ bad_from [] 0 symbols.now }
{
    symbols.iter().enumerate().position(|(i, symbol)| !is_well_formed(symbol)
        || is_among(symbol, &symbols[..i]))
}
