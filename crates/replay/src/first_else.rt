// One store before another.
ghost use Rattle.std.specs.Prelude.{◌≡◌, ℕ};
ghost use Rattle.std.specs.Option.{option_or};
ghost use Rattle.replay.specs.Shapes.{shaped_else};

use crate::store::ReplayStore;
use codes::refusal::Refusal;

// The first store's packet where it holds one, else the second's. A pile of stores is made of such pairs.
#[derive(Drop)]
pub struct FirstElse<A, B> {
    first: A,
    second: B,
}

impl<A: ReplayStore, B: ReplayStore> FirstElse<A, B> {
    // The pair holds what the first holds, and under each other number what the second does.
    pub fn new(first: A, second: B) -> FirstElse<A, B>
        ensures first { result.first ≡ first }
        ensures second { result.second ≡ second }
        ensures holds { (number : ℕ) → ⟦<FirstElse<A, B> as ReplayStore>⟧.held result number ≡ option_or (A.ReplayStore.held first number) (B.ReplayStore.held second number) }
    {
        FirstElse { first, second }
    }
}

impl<A: ReplayStore, B: ReplayStore> ReplayStore for FirstElse<A, B> {
    ghost held = { λ s n. option_or (A.ReplayStore.held s.first n) (B.ReplayStore.held s.second n) };

    ghost shaped = { λ s n. shaped_else n (A.ReplayStore.held s.first n) (B.ReplayStore.held s.second n) (A.ReplayStore.shaped s.first n) (B.ReplayStore.shaped s.second n) };

    fn fetch(&self, number: u32, buffer: &mut [u8]) -> Result<Option<usize>, Refusal> {
        match self.first.fetch(number, buffer)? {
            Some(length) => Ok(Some(length)),
            None => self.second.fetch(number, buffer),
        }
    }
}
