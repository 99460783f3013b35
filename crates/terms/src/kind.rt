// The kinds of order, and three questions about each.
ghost use Rattle.std.specs.Prelude.{◌≡◌};
ghost use Rattle.terms.specs.Codes.{kind_code, kind_coded};
ghost use Rattle.terms.specs.Kinds.{moves_of, opens_of, buys_of};

use crate::unlisted::Unlisted;

// Its code stands beside each.
#[derive(Clone, Copy, PartialEq, Eq)]
pub enum OrderKind {
    BuyOpen = 1,
    SellClose = 2,
    SellOpen = 3,
    BuyClose = 4,
    CoveredOpen = 5,
    CoveredClose = 6,
}

// The three counts of a position.
#[derive(Clone, Copy, PartialEq, Eq)]
pub enum Side {
    Long,
    Short,
    Covered,
}

impl From<OrderKind> for u16 {
    ghost from_gives = { λ kind code. code ≡ kind_code kind };

    fn from(kind: OrderKind) -> u16 {
        kind as u16
    }
}

// An impl for this list of words alone: what the four lists share is std's trait.
impl TryFrom<u16> for OrderKind {
    type Error = Unlisted;

    ghost try_from_gives = { λ code kind. kind ≡ kind_coded code };

    fn try_from(code: u16) -> Result<OrderKind, Unlisted> {
        match code {
            1 => Ok(OrderKind::BuyOpen),
            2 => Ok(OrderKind::SellClose),
            3 => Ok(OrderKind::SellOpen),
            4 => Ok(OrderKind::BuyClose),
            5 => Ok(OrderKind::CoveredOpen),
            6 => Ok(OrderKind::CoveredClose),
            _ => Err(Unlisted),
        }
    }
}

impl OrderKind {
    // Which count of the position a fill of such an order moves.
    pub fn moves(self) -> Side
        ensures { result ≡ moves_of self }
    {
        match self {
            OrderKind::BuyOpen | OrderKind::SellClose => Side::Long,
            OrderKind::SellOpen | OrderKind::BuyClose => Side::Short,
            OrderKind::CoveredOpen | OrderKind::CoveredClose => Side::Covered,
        }
    }

    // An open adds to that count, a close takes off it.
    pub fn opens(self) -> bool
        ensures { result ≡ opens_of self }
    {
        matches!(
            self,
            OrderKind::BuyOpen | OrderKind::SellOpen | OrderKind::CoveredOpen
        )
    }

    // A buy pays the premium, a sell is paid it.
    pub fn buys(self) -> bool
        ensures { result ≡ buys_of self }
    {
        matches!(
            self,
            OrderKind::BuyOpen | OrderKind::BuyClose | OrderKind::CoveredClose
        )
    }
}
