// Reading a record at a place of lent bytes.
#![tactic(auto)]

mod numbers;

ghost use Rattle.std.specs.Prelude.{◌≡◌, ℕ, ◌+◌, ◌*◌, ◌≤◌, length, drop};
ghost use Rattle.entries.specs.Entries.{entry_of, figures_from, no_figures};
ghost use Rattle.entries.specs.Numbers.{numbers_at};
ghost use Rattle.entries.specs.Table.{figures_of, length_of};
ghost use Rattle.reading.specs.Reading.{fields_at, refused, answered, whole_at, counted, read_from, read_at};

use entries::{Contract, Counts, Entry, Figures, Fill, Kind, Order, Underlying};
use numbers::{Number, numbers4};
use terms::{Class, OrderKind, Refusal, Right, Unlisted};

// What stands at a place: an entry and how long its record is, or why there is none.
// Document 01 names this form, an answer enum with the longer arrays beside it, in place of a `Result`.
#[derive(Clone, Copy)]
pub enum Answer {
    Found { entry: Entry, length: usize },
    Refused { why: Refusal, place: usize },
}

#[derive(Clone, Copy)]
pub struct Reading {
    pub answer: Answer,
    pub figures: Figures,
}

// The record at a place, which may be any number.
#[tactic(auto, unfolding(crate::specs::Reading::read_at))]
pub fn read(s: &[u8], place: usize) -> Reading
    ensures { result ≡ read_at s.now place }
{
    record(rest(s, place)).unwrap_or_else(|why| refused(why, place))
}

fn rest(s: &[u8], place: usize) -> &[u8]
    ensures { result.now ≡ drop place s.now }
{
    s.get(place..).unwrap_or_default()
}

fn refused(why: Refusal, place: usize) -> Reading
    ensures { result ≡ refused why place }
{
    Reading {
        answer: Answer::Refused { why, place },
        figures: no_figures(),
    }
}

// The record that bytes begin with, or why they begin with none.
#[tactic(auto, unfolding(crate::specs::Reading::read_from, crate::specs::Reading::of_kind, entries::specs::Table::length_fits))]
fn record(r: &[u8]) -> Result<Reading, Refusal>
    ensures { (place : ℕ) → answered place result ≡ read_from place r.now }
{
    if r.len() < 4 {
        return Err(Refusal::CutShort);
    }
    let size = u16::at(r, 0);
    let kind = Kind::try_from(u16::at(r, 2)).map_err(|_| Refusal::UnknownKind)?;
    if !kind.fits(size) {
        return Err(Refusal::Misshapen);
    }
    if kind.is_day_end() {
        day_end(r, size)
    } else {
        whole(r, usize::from(size), kind)
    }
}

// The counts are judged as soon as they are there, before the figures are.
#[tactic(auto, using(entries::proofs::Limits::counts_inside, entries::proofs::Runs::total_fours), unfolding(crate::specs::Reading::counted, crate::specs::Reading::whole_at, entries::specs::Table::counts_fit))]
fn day_end(r: &[u8], size: u16) -> Result<Reading, Refusal>
    ensures { (place : ℕ) → answered place result ≡ counted place r.now size }
{
    if r.len() < 8 {
        return Err(Refusal::CutShort);
    }
    let counts = Counts {
        n: u16::at(r, 4),
        m: u16::at(r, 6),
    };
    if !counts.fit(size) {
        return Err(Refusal::Misshapen);
    }
    let length = usize::from(size);
    if r.len() < length {
        return Err(Refusal::CutShort);
    }
    let entry = Entry::DayEnd {
        n: counts.n,
        m: counts.m,
    };
    Ok(Reading {
        answer: Answer::Found { entry, length },
        figures: figures_at(r, counts),
    })
}

#[tactic(auto, unfolding(crate::specs::Reading::whole_at))]
fn whole(r: &[u8], size: usize, kind: Kind) -> Result<Reading, Refusal>
    requires { length_of kind 0 0 ≤ size }
    ensures { (place : ℕ) → answered place result ≡ whole_at place r.now size kind no_figures }
{
    if r.len() < size {
        return Err(Refusal::CutShort);
    }
    let entry = fields(r, kind).map_err(|_| Refusal::Misshapen)?;
    Ok(Reading {
        answer: Answer::Found {
            entry,
            length: size,
        },
        figures: no_figures(),
    })
}

// The fields of a record that is all there. Of a day end, which `day_end` reads, they are the counts alone.
// This function and those below ask for the length of their own kinds, which one type over all kinds would say in no fewer words.
fn fields(r: &[u8], kind: Kind) -> Result<Entry, Unlisted>
    requires { length_of kind 0 0 ≤ length r.now }
    ensures { result ≡ entry_of kind (fields_at kind r.now) }
{
    Ok(match kind {
        Kind::Deposit => Entry::Deposit(u64::at(r, 4)),
        Kind::Withdraw => Entry::Withdraw(u64::at(r, 4)),
        Kind::Lock => Entry::Lock {
            underlying: u16::at(r, 4),
            units: u32::at(r, 6),
        },
        Kind::Unlock => Entry::Unlock {
            underlying: u16::at(r, 4),
            units: u32::at(r, 6),
        },
        Kind::Order => order(r)?,
        Kind::Fill => Entry::Fill(Fill {
            number: u32::at(r, 4),
            quantity: u32::at(r, 8),
            price: u32::at(r, 12),
        }),
        Kind::Cancel => Entry::Cancel {
            number: u32::at(r, 4),
        },
        Kind::DayEnd => Entry::DayEnd {
            n: u16::at(r, 4),
            m: u16::at(r, 6),
        },
        Kind::Pay => Entry::Pay,
        Kind::Drop => Entry::Drop,
        Kind::Underlying => underlying(r)?,
        Kind::Contract => contract(r)?,
        Kind::Opening => Entry::Opening(u64::at(r, 4)),
    })
}

fn order(r: &[u8]) -> Result<Entry, Unlisted>
    requires { length_of Kind.Order 0 0 ≤ length r.now }
    ensures { result ≡ entry_of Kind.Order (fields_at Kind.Order r.now) }
{
    let kind = OrderKind::try_from(u16::at(r, 10))?;
    Ok(Entry::Order(Order {
        number: u32::at(r, 4),
        contract: u16::at(r, 8),
        kind,
        quantity: u32::at(r, 12),
        price: u32::at(r, 16),
    }))
}

// This and `contract` are alike in shape alone: each has its own fields and codes.
fn underlying(r: &[u8]) -> Result<Entry, Unlisted>
    requires { length_of Kind.Underlying 0 0 ≤ length r.now }
    ensures { result ≡ entry_of Kind.Underlying (fields_at Kind.Underlying r.now) }
{
    let class = Class::try_from(u16::at(r, 4))?;
    Ok(Entry::Underlying(Underlying {
        class,
        close: u32::at(r, 6),
        rights: u16::at(r, 10),
        total: u16::at(r, 12),
        daily: u16::at(r, 14),
    }))
}

fn contract(r: &[u8]) -> Result<Entry, Unlisted>
    requires { length_of Kind.Contract 0 0 ≤ length r.now }
    ensures { result ≡ entry_of Kind.Contract (fields_at Kind.Contract r.now) }
{
    let right = Right::try_from(u16::at(r, 6))?;
    Ok(Entry::Contract(Contract {
        underlying: u16::at(r, 4),
        right,
        strike: u32::at(r, 8),
        unit: u32::at(r, 12),
        settlement: u32::at(r, 16),
    }))
}

fn no_figures() -> Figures
    ensures { result ≡ no_figures }
{
    Figures {
        settlements: [0; terms::CONTRACTS],
        closes: [0; terms::UNDERLYINGS],
    }
}

fn figures_at(r: &[u8], counts: Counts) -> Figures
    requires { (counts.n ≤ 64) × (counts.m ≤ 8) × (8 + 4 * (counts.n + counts.m) ≤ length r.now) }
    ensures { result ≡ figures_from counts.n counts.m (numbers_at (figures_of counts.n counts.m) r.now 8) }
{
    let n = counts.n as usize;
    let m = counts.m as usize;
    let mut settlements = [0; terms::CONTRACTS];
    let mut closes = [0; terms::UNDERLYINGS];
    numbers4(r, 8, &mut settlements[..n]);
    numbers4(r, 8 + 4 * n, &mut closes[..m]);
    Figures {
        settlements,
        closes,
    }
}
