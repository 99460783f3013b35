// Records read from the bytes of a line.
use crate::found;
use lines::input::{LENT, bytes};
use lines::output::number;
use lines::{input, output};
use reading::{Answer, Reading};
use terms::Refusal;

// Place, bytes.
pub fn read(l: &[u8]) {
    let mut lent = [0; LENT];
    let record = bytes(l, &mut lent);
    show(reading::read(record, input::hex::<u64>(l, 1) as usize));
}

fn show(reading: Reading) {
    match reading.answer {
        Answer::Found { entry, length } => found::show(entry, length, reading.figures),
        Answer::Refused { why, place } => refused(why, place),
    }
}

fn refused(why: Refusal, place: usize) {
    output::refused(why);
    output::hex(place as u64);
}

// A record, read from each of its beginnings: the refusal's number, or 0 where an entry is found.
pub fn cuts(l: &[u8]) {
    let mut lent = [0; LENT];
    beginnings(bytes(l, &mut lent));
}

fn beginnings(s: &[u8]) {
    for size in 0..=s.len() {
        outcome(reading::read(&s[..size], 0));
    }
}

fn outcome(reading: Reading) {
    number(match reading.answer {
        Answer::Found { .. } => 0,
        Answer::Refused { why, .. } => u64::from(why.number()),
    });
}
