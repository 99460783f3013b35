// Contracts and units of the underlying, counted apart.
ghost use Rattle.std.specs.Prelude.{◌≡◌};
ghost use Rattle.terms.specs.Counts.{units_for};

// A number of contracts.
#[derive(Clone, Copy, Default)]
pub struct Contracts(pub u32);

// A number of units of an underlying.
#[derive(Clone, Copy, Default)]
pub struct Units(pub u64);

impl Contracts {
    // The one way from contracts to units.
    pub fn units(self, unit: u32) -> Units
        ensures { result ≡ units_for self unit }
    {
        Units((self.0 as u64) * (unit as u64))
    }
}

// What one account holds of one contract. Short is uncovered; covered is for calls only.
#[derive(Clone, Copy, Default)]
pub struct Position {
    pub long: Contracts,
    pub short: Contracts,
    pub covered: Contracts,
}
