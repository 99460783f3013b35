// The lines that the book program prints, put on a page.
ghost use Rattle.std.specs.Prelude.{◌≡◌, ◌++◌, suc, ◌+◌, ◌≤◌, ◌<◌, length};
ghost use Rattle.arrayvec.specs.ArrayString.{array_string_len};
ghost use Rattle.book.specs.Lines.{line_of, lines_from};
ghost use Rattle.book.specs.Lines.{signed as Lines·signed};

use crate::PAGE;
use arrayvec::ArrayString;

// A page of the lines of records after the first `first` ones. A line whose number has at most six digits is at most 32 bytes long.
pub(crate) fn lines(page: &mut ArrayString<PAGE>, first: usize, refusals: &[u8], sums: &[i64])
    requires { (length refusals.now ≡ length sums.now) × (first + length refusals.now < 1_000_000) × (length refusals.now ≤ 128) }
    ensures { page.new.bytes ≡ lines_from (suc first) refusals.now sums.now }
{
    page.clear();
    // By the number, which the line has too, and which both slices go by.
    for (i, refusal) in refusals.iter().enumerate() {
        line(page, first + i + 1, *refusal, sums[i]);
    }
}

// One line more.
fn line(page: &mut ArrayString<PAGE>, number: usize, refusal: u8, available: i64)
    requires { array_string_len page.old + length (line_of number refusal available) ≤ 4_096 }
    ensures { page.new.bytes ≡ page.old.bytes ++ line_of number refusal available }
{
    let mut digits = itoa::Buffer::new();
    page.push_str(digits.format(number));
    page.push(' ');
    page.push_str(digits.format(refusal));
    page.push(' ');
    signed(page, available);
    page.push('\n');
}

// A sum, with a minus before its digits where it lies below zero.
#[tactic(auto, using(crate::proofs::Decimal::signed_is))]
fn signed(page: &mut ArrayString<PAGE>, available: i64)
    requires { array_string_len page.old + length (Lines·signed available) ≤ 4_096 }
    ensures { page.new.bytes ≡ page.old.bytes ++ Lines·signed available }
{
    page.push_str(itoa::Buffer::new().format(available));
}
