// The kinds of record.
ghost use Rattle.std.specs.Prelude.{◌≡◌};
ghost use Rattle.entries.specs.Table.{code_of, kind_coded, length_of, length_fits, is_day_end};

use terms::Unlisted;

// The code of each stands beside it.
#[derive(Clone, Copy, PartialEq, Eq)]
pub enum Kind {
    Deposit = 1,
    Withdraw = 2,
    Lock = 3,
    Unlock = 4,
    Order = 5,
    Fill = 6,
    Cancel = 7,
    DayEnd = 8,
    Pay = 9,
    Drop = 10,
    Underlying = 16,
    Contract = 17,
    Opening = 18,
}

impl From<Kind> for u16 {
    ghost from_gives = { λ kind code. code ≡ code_of kind };

    fn from(kind: Kind) -> u16 {
        kind as u16
    }
}

// An impl for this list of words alone: what the four lists share is std's trait.
impl TryFrom<u16> for Kind {
    type Error = Unlisted;

    ghost try_from_gives = { λ code kind. kind ≡ kind_coded code };

    fn try_from(code: u16) -> Result<Kind, Unlisted> {
        match code {
            1 => Ok(Kind::Deposit),
            2 => Ok(Kind::Withdraw),
            3 => Ok(Kind::Lock),
            4 => Ok(Kind::Unlock),
            5 => Ok(Kind::Order),
            6 => Ok(Kind::Fill),
            7 => Ok(Kind::Cancel),
            8 => Ok(Kind::DayEnd),
            9 => Ok(Kind::Pay),
            10 => Ok(Kind::Drop),
            16 => Ok(Kind::Underlying),
            17 => Ok(Kind::Contract),
            18 => Ok(Kind::Opening),
            _ => Err(Unlisted),
        }
    }
}

impl Kind {
    pub fn is_day_end(self) -> bool
        ensures { result ≡ is_day_end self }
    {
        self == Kind::DayEnd
    }

    // The length of the record without a day end's figures.
    pub fn length(self) -> u16
        ensures { result ≡ length_of self 0 0 }
    {
        match self {
            Kind::Pay | Kind::Drop => 4,
            Kind::Cancel => 8,
            Kind::DayEnd => 8,
            Kind::Lock | Kind::Unlock => 10,
            Kind::Deposit | Kind::Withdraw | Kind::Opening => 12,
            Kind::Fill | Kind::Underlying => 16,
            Kind::Order | Kind::Contract => 20,
        }
    }

    // Whether a record of the kind can be this long.
    #[tactic(auto, unfolding(crate::specs::Table::length_fits))]
    pub fn fits(self, length: u16) -> bool
        ensures { result ≡ length_fits self length }
    {
        if self.is_day_end() {
            (16..=296).contains(&length) & (length % 4 == 0)
        } else {
            length == self.length()
        }
    }
}
