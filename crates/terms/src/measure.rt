// What numbers measure, and the range of each.
ghost use Rattle.std.specs.Prelude.{◌≡◌};
ghost use Rattle.terms.specs.Ranges.{range_of, unit_allowed, ◌∈◌};

// The sizes of the tables, of the account's places for orders and of an assignment: constants, since arrays have these lengths.
pub const UNDERLYINGS: usize = 8;

pub const CONTRACTS: usize = 64;

pub const PLACES: usize = 32;

pub const ACCOUNTS: usize = 256;

const UNIT_STEP: u64 = 100;

#[derive(Clone, Copy)]
pub enum Measure {
    Underlyings,
    Contracts,
    Resting,
    Price,
    Settlement,
    Unit,
    Quantity,
    Limit,
    Transfer,
    OpeningCash,
    UnitsAtOnce,
    Money,
    LockedUnits,
    Exercise,
    Accounts,
    NetTotal,
}

// From the first number to the second, both counted.
#[derive(Clone, Copy)]
pub struct Range(pub u64, pub u64);

impl Measure {
    pub fn range(self) -> Range
        ensures { result ≡ range_of self }
    {
        match self {
            Measure::Underlyings => Range(1, UNDERLYINGS as u64),
            Measure::Contracts => Range(1, CONTRACTS as u64),
            Measure::Resting => Range(0, PLACES as u64),
            Measure::Price => Range(1, 10_000_000),
            Measure::Settlement => Range(0, 10_000_000),
            Measure::Unit => Range(100, 100_000),
            Measure::Quantity => Range(1, 100),
            Measure::Limit => Range(0, 10_000),
            Measure::Transfer => Range(1, 10_000_000_000_000),
            Measure::OpeningCash => Range(0, 1_000_000_000_000_000),
            Measure::UnitsAtOnce => Range(1, 1_000_000_000),
            Measure::Money => Range(0, 1_000_000_000_000_000),
            Measure::LockedUnits => Range(0, 2_000_000_000),
            Measure::Exercise => Range(1, 10_000),
            Measure::Accounts => Range(0, ACCOUNTS as u64),
            Measure::NetTotal => Range(0, 10_000),
        }
    }

    pub fn allows(self, x: u64) -> bool
        ensures { result ≡ (x ∈ range_of self) }
    {
        let range = self.range();
        (range.0..=range.1).contains(&x)
    }
}

// A contract unit is in its range and a multiple of 100, so that a premium is exact.
pub fn unit_allowed(unit: u64) -> bool
    ensures { result ≡ unit_allowed unit }
{
    Measure::Unit.allows(unit) & (unit % UNIT_STEP == 0)
}
