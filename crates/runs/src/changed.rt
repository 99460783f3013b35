// Tables in which one value is another.
use account::Tables;
use lines::input::{field, hex};

// What is changed, by the lines' own numbers, the row, the value. The two counts are hexadecimal, so that the largest of all can be asked for.
pub fn changed(before: Tables, l: &[u8]) -> Tables {
    let mut tables = before;
    let row = field::<u64>(l, 2) as usize;
    match field::<u64>(l, 1) {
        1 => tables.m = hex::<u64>(l, 3) as usize,
        2 => tables.n = hex::<u64>(l, 3) as usize,
        3 => change(&mut tables.underlyings, row, |u| u.close = field(l, 3)),
        4 => change(&mut tables.underlyings, row, |u| u.rights = field(l, 3)),
        5 => change(&mut tables.underlyings, row, |u| u.total = field(l, 3)),
        0 | 6 => change(&mut tables.underlyings, row, |u| u.daily = field(l, 3)),
        7 => change(&mut tables.contracts, row, |c| c.underlying = field(l, 3)),
        8 => change(&mut tables.contracts, row, |c| c.strike = field(l, 3)),
        9 => change(&mut tables.contracts, row, |c| c.unit = field(l, 3)),
        _ => change(&mut tables.contracts, row, |c| c.settlement = field(l, 3)),
    }
    tables
}

// A row that is not there is not changed.
fn change<T, F: FnOnce(&mut T)>(rows: &mut [T], i: usize, set: F)
    requires { F.IsAlwaysCallable set }
{
    if let Some(row) = rows.get_mut(i) {
        set(row);
    }
}
