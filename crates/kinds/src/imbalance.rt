// Imbalance: what the last imbalance message said.
ghost use Rattle.std.specs.Prelude.{◌≡◌};
ghost use Rattle.kinds.specs.Imbalance.{record_of, imbalance_meaning, imbalance_shown};

use crate::kind::Kind;
use codes::auction::Auction;
use messages::fields::ImbalanceFields;
use messages::message::Message;

// The numbers of the last message; all are 0, and there is no auction, before the first.
#[derive(Clone, Copy, Debug, Default, PartialEq, Eq)]
pub struct ImbalanceRecord {
    pub auction: Option<Auction>,
    // Hours times 100, plus minutes.
    pub time: u16,
    pub contracts: u32,
    pub price: u32,
    pub total: u32,
    pub market: u32,
}

// What a message says.
impl From<ImbalanceFields> for ImbalanceRecord {
    ghost from_gives = { λ fields held. held ≡ record_of fields };

    fn from(fields: ImbalanceFields) -> ImbalanceRecord {
        ImbalanceRecord {
            auction: Some(fields.auction),
            time: fields.time,
            contracts: fields.contracts,
            price: fields.price,
            total: fields.total,
            market: fields.market,
        }
    }
}

// The kind.
pub struct Imbalance;

impl Kind for Imbalance {
    type Record = ImbalanceRecord;

    ghost meaning = { imbalance_meaning };

    ghost shows = { imbalance_shown };

    fn empty() -> ImbalanceRecord {
        ImbalanceRecord::default()
    }

    fn belongs(message: &Message) -> bool {
        matches!(message, Message::Imbalance(_))
    }

    fn settles(message: &Message) -> bool {
        Self::belongs(message)
    }

    fn step(held: &mut ImbalanceRecord, message: &Message) {
        if let Message::Imbalance(imbalance) = message {
            *held = imbalance.fields().into();
        }
    }
}
