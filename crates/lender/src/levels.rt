// A side's levels are a plain field: a caller writes to them, and lends them on, and owes nothing for it.
use kinds::book::{FiveLevels, PriceLevel};

fn lend(side: &mut FiveLevels) -> &mut [PriceLevel; 5] {
    &mut side.levels
}

#[test]
fn written_and_lent(rt: HostRuntime) {
    let mut side = FiveLevels::default();
    for level in side.levels.iter_mut() {
        level.contracts = 3;
    }
    let levels = lend(&mut side);
    levels[4].price = 135_000;
    let untouched = PriceLevel {
        price: 0,
        contracts: 3,
    };
    let written = PriceLevel {
        price: 135_000,
        contracts: 3,
    };
    assert_eq!(rt;
        side.levels,
        [untouched, untouched, untouched, untouched, written]
    );
}
