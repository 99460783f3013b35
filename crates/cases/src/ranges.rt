// The ranges: a measure by its number, a value, and 1 where the value is allowed.
use lines::input::field;
use lines::output::number;
use terms::Measure;

// No `TryFrom`: the numbers are this program's own, and neither the trait nor `Measure` is.
fn measure(n: u64) -> Measure {
    match n {
        1 => Measure::Underlyings,
        2 => Measure::Contracts,
        3 => Measure::Resting,
        4 => Measure::Price,
        5 => Measure::Settlement,
        6 => Measure::Quantity,
        7 => Measure::Limit,
        8 => Measure::Transfer,
        9 => Measure::OpeningCash,
        10 => Measure::UnitsAtOnce,
        11 => Measure::Money,
        _ => Measure::LockedUnits,
    }
}

// Measure, value; measure 13 is the contract unit: the lines' own numbers.
pub fn allowed(l: &[u8]) {
    let of = field::<u64>(l, 1);
    let value = field(l, 2);
    if of == 13 {
        number(terms::unit_allowed(value) as u64);
    } else {
        number(measure(of).allows(value) as u64);
    }
}
