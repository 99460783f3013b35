// Runs books and lists from lines of text into lent places, as many as a line says: each line of standard input is written again with
// '=' and what came out.
#![tactic(auto)]

mod asked;
mod changed;
mod shown;

ghost use Rattle.std.specs.Prelude.{◌≤◌};

use asked::run_of;
use lines::input::{each_line_read, field, letter};
use lines::output::{number, signed, text};
use shown::{each, told};

// Places of the arrays that a line's places are the first of.
const PLACES: usize = 16;

// No answer of the examples has these.
const NUMBER_MARK: u8 = 255;

const SUM_MARK: i64 = 7;

fn main() {
    each_line_read(line);
}

// Which fields say how many places are lent, for numbers and for sums. A line that asks nothing is a remark.
fn line(l: &[u8]) {
    text(l);
    match letter(l, 0) {
        b'b' => answer(l, field(l, 1), field(l, 2)),
        b'l' => answer(l, field(l, 3), field(l, 4)),
        b'c' => answer(l, field(l, 6), field(l, 7)),
        _ => (),
    }
    text(b"\n");
}

// All of both arrays is marked before and shown after, so that a place that was to be left alone shows.
// Two arrays beside each other, as the C interface lends them (`ravundesk_run_book`).
fn answer(l: &[u8], for_numbers: u64, for_sums: u64) {
    let mut numbered = [NUMBER_MARK; PLACES];
    let mut summed = [SUM_MARK; PLACES];
    let k = places(for_numbers);
    let j = places(for_sums);
    told(&run_of(l, &mut numbered[..k], &mut summed[..j]));
    each(b" n", &numbered, |n| number(u64::from(n)));
    each(b" s", &summed, signed);
}

// As many as are asked for, of those there are.
fn places(asked: u64) -> usize
    ensures { result ≤ 16 }
{
    PLACES.min(asked as usize)
}
