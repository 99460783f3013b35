// The entries that records carry, as wide as their fields.
ghost use Rattle.std.specs.Prelude.{◌≡◌};
ghost use Rattle.entries.specs.Entries.{kind_of};
ghost use Rattle.entries.specs.Names.{contract_named, order_named, underlying_named};

use crate::kind::Kind;
use terms::{Class, OrderKind, Right};

// An entry carries its case. A withdrawal is asked for, and then paid or dropped. A day end's figures stand beside it, in `Figures`.
#[derive(Clone, Copy)]
pub enum Entry {
    Deposit(u64),
    Withdraw(u64),
    Lock { underlying: u16, units: u32 },
    Unlock { underlying: u16, units: u32 },
    Order(Order),
    Fill(Fill),
    Cancel { number: u32 },
    DayEnd { n: u16, m: u16 },
    Pay,
    Drop,
    Underlying(Underlying),
    Contract(Contract),
    Opening(u64),
}

impl Entry {
    pub fn kind(self) -> Kind
        ensures { result ≡ kind_of self }
    {
        match self {
            Entry::Deposit(_) => Kind::Deposit,
            Entry::Withdraw(_) => Kind::Withdraw,
            Entry::Lock { .. } => Kind::Lock,
            Entry::Unlock { .. } => Kind::Unlock,
            Entry::Order(_) => Kind::Order,
            Entry::Fill(_) => Kind::Fill,
            Entry::Cancel { .. } => Kind::Cancel,
            Entry::DayEnd { .. } => Kind::DayEnd,
            Entry::Pay => Kind::Pay,
            Entry::Drop => Kind::Drop,
            Entry::Underlying(_) => Kind::Underlying,
            Entry::Contract(_) => Kind::Contract,
            Entry::Opening(_) => Kind::Opening,
        }
    }

    // The resting order that it names, by its number; 0 is no order's. No Option: a fill's record may carry the 0 itself.
    pub fn order_named(self) -> u32
        ensures { result ≡ order_named self }
    {
        match self {
            Entry::Fill(fill) => fill.number,
            Entry::Cancel { number } => number,
            _ => 0,
        }
    }

    // The contract that it goes by: an order's own, and of any other entry that of the order it names.
    pub fn contract_named(self, rests: u16) -> u16
        ensures { result ≡ contract_named self rests }
    {
        match self {
            Entry::Order(order) => order.contract,
            _ => rests,
        }
    }

    // The underlying that it goes by: that of a lock or an unlock, and of any other entry its contract's.
    pub fn underlying_named(self, of: u16) -> u16
        ensures { result ≡ underlying_named self of }
    {
        match self {
            Entry::Lock { underlying, .. } | Entry::Unlock { underlying, .. } => underlying,
            _ => of,
        }
    }
}

#[derive(Clone, Copy)]
pub struct Order {
    pub number: u32,
    pub contract: u16,
    pub kind: OrderKind,
    pub quantity: u32,
    pub price: u32,
}

#[derive(Clone, Copy)]
pub struct Fill {
    pub number: u32,
    pub quantity: u32,
    pub price: u32,
}

#[derive(Clone, Copy, Default)]
pub struct Underlying {
    pub class: Class,
    pub close: u32,
    pub rights: u16,
    pub total: u16,
    pub daily: u16,
}

#[derive(Clone, Copy, Default)]
pub struct Contract {
    pub underlying: u16,
    pub right: Right,
    pub strike: u32,
    pub unit: u32,
    pub settlement: u32,
}

// A day end's n settlements and m closes; what stands past n and m is no part of the entry.
// Document 01 names this form, arrays beside the entry, and a library has no heap for a `Vec`.
#[derive(Clone, Copy)]
pub struct Figures {
    pub settlements: [u32; terms::CONTRACTS],
    pub closes: [u32; terms::UNDERLYINGS],
}
