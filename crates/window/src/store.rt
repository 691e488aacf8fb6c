// The window as a replay store.
ghost use Rattle.replay.specs.Shapes.{shaped_holding};
ghost use Rattle.replay.specs.Stores.{holding};
ghost use Rattle.window.specs.Windows.{packets};

use crate::window::Window;
use codes::refusal::Refusal;
use replay::lending::LendingStore;
use replay::store::ReplayStore;

impl<'a> LendingStore for Window<'a> {
    ghost held = { λ s n. holding s.subscription (packets s) n };

    ghost shaped = { λ s n. shaped_holding s.subscription (packets s) n };

    fn lend(&self, number: u32) -> Option<&[u8]> {
        self.packet(number)
    }
}

impl<'a> ReplayStore for Window<'a> {
    ghost held = { ⟦<Window<'a> as LendingStore>⟧.held };

    ghost shaped = { ⟦<Window<'a> as LendingStore>⟧.shaped };

    fn fetch(&self, number: u32, buffer: &mut [u8]) -> Result<Option<usize>, Refusal> {
        self.fetch_lent(number, buffer)
    }
}
