// The entry that a line spells, field by field of its record.
use crate::codes;
use crate::input::{field, hex};
use crate::width::Width;
use entries::{Contract, Entry, Figures, Fill, Kind, Order, Underlying};

#[derive(Clone, Copy)]
enum Base {
    Decimal,
    Hexadecimal,
}

// A record's fields in a line. The line's field `from` is the first of them.
#[derive(Clone, Copy)]
pub struct Fields<'a> {
    line: &'a [u8],
    from: u8,
    base: Base,
}

impl<'a> Fields<'a> {
    // Two names and no const parameter: the base is one word of a call.
    pub fn decimal(line: &'a [u8], from: u8) -> Fields<'a> {
        Fields {
            line,
            from,
            base: Base::Decimal,
        }
    }

    pub fn hexadecimal(line: &'a [u8], from: u8) -> Fields<'a> {
        Fields {
            line,
            from,
            base: Base::Hexadecimal,
        }
    }

    // The record's k-th field, counted from 0.
    fn at<N: Width>(self, k: u32) -> N {
        let k = usize::from(self.from) + k as usize;
        match self.base {
            Base::Decimal => field(self.line, k),
            Base::Hexadecimal => hex(self.line, k),
        }
    }

    pub fn entry(self, kind: Kind) -> Entry {
        match kind {
            Kind::Deposit => Entry::Deposit(self.at(0)),
            Kind::Withdraw => Entry::Withdraw(self.at(0)),
            Kind::Lock => Entry::Lock {
                underlying: self.at(0),
                units: self.at(1),
            },
            Kind::Unlock => Entry::Unlock {
                underlying: self.at(0),
                units: self.at(1),
            },
            Kind::Order => Entry::Order(self.order()),
            Kind::Fill => Entry::Fill(self.fill()),
            Kind::Cancel => Entry::Cancel { number: self.at(0) },
            Kind::DayEnd => Entry::DayEnd {
                n: self.at(0),
                m: self.at(1),
            },
            Kind::Pay => Entry::Pay,
            Kind::Drop => Entry::Drop,
            Kind::Underlying => Entry::Underlying(self.underlying()),
            Kind::Contract => Entry::Contract(self.contract()),
            Kind::Opening => Entry::Opening(self.at(0)),
        }
    }

    fn order(self) -> Order {
        Order {
            number: self.at(0),
            contract: self.at(1),
            kind: codes::order_kind(self.at(2)),
            quantity: self.at(3),
            price: self.at(4),
        }
    }

    fn fill(self) -> Fill {
        Fill {
            number: self.at(0),
            quantity: self.at(1),
            price: self.at(2),
        }
    }

    fn underlying(self) -> Underlying {
        Underlying {
            class: codes::class(self.at(0)),
            close: self.at(1),
            rights: self.at(2),
            total: self.at(3),
            daily: self.at(4),
        }
    }

    fn contract(self) -> Contract {
        Contract {
            underlying: self.at(0),
            right: codes::right(self.at(1)),
            strike: self.at(2),
            unit: self.at(3),
            settlement: self.at(4),
        }
    }

    // A day end's settlements stand behind its counts, and its closes behind those. Every place is filled from the line, those past the
    // counts too.
    pub fn figures(self) -> Figures {
        let closes_from = 2 + u32::from(self.at::<u16>(0));
        Figures {
            settlements: std::array::from_fn(|i| self.at(2 + i as u32)),
            closes: std::array::from_fn(|i| self.at(closes_from + i as u32)),
        }
    }
}
