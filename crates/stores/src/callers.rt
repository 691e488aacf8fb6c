// Callers that prove what they got from a store.
ghost use Rattle.std.specs.Prelude.{◌≡◌, length};
ghost use Rattle.std.specs.Option.{option_or};
ghost use Rattle.codes.specs.Refusals.{answered};
ghost use Rattle.replay.specs.Stores.{fetch_verdict, fetched_into};
ghost use Rattle.stores.specs.Callers.{kept_two, answer_if, buffer_if};
ghost use Rattle.window.specs.Windows.{area_verdict};

use codes::refusal::Refusal;
use replay::first_else::FirstElse;
use replay::store::ReplayStore;
use window::window::Window;

// Lends an area to a window, keeps two packets, fetches one and lets the window go.
pub fn keep_two(
    area: &mut [u8],
    subscription: u8,
    earlier: &[u8],
    later: &[u8],
    number: u32,
    buffer: &mut [u8],
) -> Result<Option<usize>, Refusal>
    ensures answers { answered (λ found. found) result ≡ answer_if (area_verdict (length area.old)) subscription number (length buffer.old) (kept_two (length area.old) subscription earlier.now later.now) }
    ensures leaves { buffer.new ≡ buffer_if (area_verdict (length area.old)) subscription number (kept_two (length area.old) subscription earlier.now later.now) buffer.old }
    ensures area { length area.new ≡ length area.old }
{
    Window::check(area)?;
    let mut window = Window::over(area, subscription);
    let _ = window.keep(earlier);
    let _ = window.keep(later);
    window.fetch(number, buffer)
}

// Piles three stores, each behind a reference, and fetches.
pub fn fetch_of_three<A: ReplayStore, B: ReplayStore, C: ReplayStore>(
    first: &A,
    second: &B,
    third: &C,
    number: u32,
    buffer: &mut [u8],
) -> Result<Option<usize>, Refusal>
    ensures answers { answered (λ found. found) result ≡ fetch_verdict (option_or (A.ReplayStore.held first.now number) (option_or (B.ReplayStore.held second.now number) (C.ReplayStore.held third.now number))) number (length buffer.old) }
    ensures leaves { buffer.new ≡ fetched_into (option_or (A.ReplayStore.held first.now number) (option_or (B.ReplayStore.held second.now number) (C.ReplayStore.held third.now number))) number buffer.old }
{
    let pile = FirstElse::new(first, FirstElse::new(second, third));
    pile.fetch(number, buffer)
}
