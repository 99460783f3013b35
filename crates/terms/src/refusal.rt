// The reasons for a refusal.
ghost use Rattle.std.specs.Prelude.{◌≡◌};
ghost use Rattle.terms.specs.Refusals.{number_of};

// Why an entry or a record is refused.
#[derive(Clone, Copy, PartialEq, Eq)]
pub enum Refusal {
    CutShort = 1,
    UnknownKind = 2,
    Misshapen = 3,
    OutOfRange = 4,
    OutOfPlace = 5,
    StaleNumber = 6,
    NoSuchOrder = 7,
    OrdersFull = 8,
    PositionTooSmall = 9,
    RightsPassed = 10,
    TotalPassed = 11,
    DailyPassed = 12,
    SpareTooFew = 13,
    AvailablePassed = 14,
    CeilingPassed = 15,
    FillBarred = 16,
    BufferTooShort = 17,
    // Unused: no fill can bring cash below zero. The number is kept, so that it never means anything else.
    CashBelowZero = 18,
    NothingWaiting = 19,
    AlreadyWaiting = 20,
    LongTooSmall = 22,
    MeansTooSmall = 23,
}

impl Refusal {
    pub fn number(self) -> u8
        ensures { result ≡ number_of self }
    {
        self as u8
    }
}
