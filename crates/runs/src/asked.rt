// The run that a line asks for.
use crate::changed::changed;
use account::Tables;
use desk::{Run, run_book, run_list};
use lines::input::{LENT, bytes, field, letter};

// A book; a list on tables that are named; a list on such tables with one value changed.
pub fn run_of(l: &[u8], numbers: &mut [u8], sums: &mut [i64]) -> Run {
    let mut lent = [0; LENT];
    let lent = bytes(l, &mut lent);
    match letter(l, 0) {
        b'l' => run_list(named(field(l, 1)), field(l, 2), lent, numbers, sums),
        b'c' => {
            let tables = changed(named(field(l, 4)), l);
            run_list(tables, field(l, 5), lent, numbers, sums)
        }
        _ => run_book(lent, numbers, sums),
    }
}

// 0 the small tables, 1 the full ones, 2 the small ones with no contract counted: the lines' own numbers.
fn named(which: u64) -> Tables {
    let mut tables = fixed::tables(which == 1);
    if which == 2 {
        tables.n = 0;
    }
    tables
}
