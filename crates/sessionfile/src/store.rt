// The session file as a replay store.
ghost use Rattle.replay.specs.Shapes.{shaped_holding};
ghost use Rattle.replay.specs.Stores.{holding};
ghost use Rattle.sessionfile.specs.Entries.{given};

use crate::file::SessionFile;
use codes::refusal::Refusal;
use replay::lending::LendingStore;
use replay::store::ReplayStore;

impl<'a> LendingStore for SessionFile<'a> {
    ghost held = { λ s n. holding s.header.subscription (given s) n };

    ghost shaped = { λ s n. shaped_holding s.header.subscription (given s) n };

    fn lend(&self, number: u32) -> Option<&[u8]> {
        self.packet(number)
    }
}

impl<'a> ReplayStore for SessionFile<'a> {
    ghost held = { ⟦<SessionFile<'a> as LendingStore>⟧.held };

    ghost shaped = { ⟦<SessionFile<'a> as LendingStore>⟧.shaped };

    fn fetch(&self, number: u32, buffer: &mut [u8]) -> Result<Option<usize>, Refusal> {
        self.fetch_lent(number, buffer)
    }
}
