// Margins, premiums and netting: the numbers of a line, and what the functions make of them.
use lines::codes;
use lines::input::field;
use lines::output::{number, refused};
use terms::{Contracts, Position, Refusal};

fn charge(c: Result<u64, Refusal>) {
    match c {
        Ok(fen) => number(fen),
        Err(why) => refused(why),
    }
}

// Class, right, settlement, close, strike, unit.
pub fn margin(l: &[u8]) {
    let class = codes::class(field(l, 1));
    let right = codes::right(field(l, 2));
    charge(rules::margin(
        class,
        right,
        field(l, 3),
        field(l, 4),
        field(l, 5),
        field(l, 6),
    ));
}

// Price, unit.
pub fn premium(l: &[u8]) {
    charge(rules::premium(field(l, 1), field(l, 2)));
}

// Long, short, covered.
pub fn net(l: &[u8]) {
    let netted = rules::net(Position {
        long: Contracts(field(l, 1)),
        short: Contracts(field(l, 2)),
        covered: Contracts(field(l, 3)),
    });
    number(netted.long.0 as u64);
    number(netted.short.0 as u64);
    number(netted.covered.0 as u64);
}
