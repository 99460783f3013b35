// What is written to standard output.
use crate::width::Width;
use terms::Refusal;

// The descriptor of standard output.
pub const STANDARD_OUTPUT: i32 = 1;

pub fn text(bytes: &[u8]) {
    io::write_all(STANDARD_OUTPUT, bytes);
}

pub fn number(n: u64) {
    text(b" ");
    io::print_decimal(STANDARD_OUTPUT, n);
}

// A number that may lie below zero, with a minus before its digits.
pub fn signed(n: i64) {
    text(if n < 0 { b" -" } else { b" " });
    io::print_decimal(STANDARD_OUTPUT, n.unsigned_abs());
}

pub fn refused(why: Refusal) {
    text(b" refused");
    number(why.number() as u64);
}

// A number at the whole width of its type, as a record has it.
pub fn hex<N: Width>(n: N) {
    text(b" ");
    io::print_hex(STANDARD_OUTPUT, n.into(), N::DIGITS);
}

// Bytes, two digits each; a dash where there is none.
pub fn bytes(s: &[u8]) {
    text(if s.is_empty() { b" -" } else { b" " });
    for b in s {
        io::print_hex(STANDARD_OUTPUT, *b as u64, 2);
    }
}
