// What each kind means, stated of the meaning that its `impl` has.
ghost use Rattle.std.specs.Prelude.{◌≡◌, [], ◌∷◌, ◌++◌, Some, None};
ghost use Rattle.codes.specs.Codes.{auction_code};
ghost use Rattle.codes.specs.declared.auction.Auction.{Auction};
ghost use Rattle.kinds.specs.declared.book.Book.{Book};
ghost use Rattle.kinds.specs.declared.book.FiveLevels.{FiveLevels};
ghost use Rattle.kinds.specs.declared.book.PriceLevel.{PriceLevel};
ghost use Rattle.kinds.specs.declared.imbalance.ImbalanceRecord.{ImbalanceRecord};
ghost use Rattle.kinds.specs.Levels.{numbers};
ghost use Rattle.kinds.specs.Rules.{DepthRules, LevelRules, TopRules, ImbalanceRules};

use crate::depth::Depth;
use crate::imbalance::Imbalance;
use crate::kind::Kind;
use crate::top::Top;

// The rules of `Depth`.
pub fn depth_rules()
    ensures meaning { DepthRules ⟦<Depth as Kind>⟧.meaning }
    ensures levels { LevelRules }
    ensures shows { (b : Book FiveLevels) → ⟦<Depth as Kind>⟧.shows b ≡ numbers b.bid.levels ++ numbers b.offer.levels }
{}

// The rules of `Top`.
pub fn top_rules()
    ensures meaning { TopRules ⟦<Top as Kind>⟧.meaning }
    ensures shows { (b : Book PriceLevel) → ⟦<Top as Kind>⟧.shows b ≡ b.bid.price ∷ b.bid.contracts ∷ b.offer.price ∷ b.offer.contracts ∷ [] }
{}

// The rules of `Imbalance`.
pub fn imbalance_rules()
    ensures meaning { ImbalanceRules ⟦<Imbalance as Kind>⟧.meaning }
    ensures none { (r : ImbalanceRecord) → r.auction ≡ None → ⟦<Imbalance as Kind>⟧.shows r ≡ 0 ∷ r.time ∷ r.contracts ∷ r.price ∷ r.total ∷ r.market ∷ [] }
    ensures shows { (r : ImbalanceRecord) (a : Auction) → r.auction ≡ Some a → ⟦<Imbalance as Kind>⟧.shows r ≡ auction_code a ∷ r.time ∷ r.contracts ∷ r.price ∷ r.total ∷ r.market ∷ [] }
{}
