// What a line asks: an entry, and a day end's figures beside it. The fields are those of the record.
use entries::{Entry, Figures, Kind};
use lines::input::{field, letter};
use lines::records::Fields;

pub fn entry(l: &[u8]) -> Entry {
    Fields::decimal(l, 1).entry(kind(l))
}

// A line's first letter says what it asks; two words have the same one.
fn kind(l: &[u8]) -> Kind {
    match letter(l, 0) {
        b'd' if letter(l, 1) == b'r' => Kind::Drop,
        b'd' => Kind::Deposit,
        b'w' => Kind::Withdraw,
        b'l' => Kind::Lock,
        b'u' => Kind::Unlock,
        b'o' => Kind::Order,
        b'f' => Kind::Fill,
        b'c' => Kind::Cancel,
        b'e' => Kind::DayEnd,
        b'p' => Kind::Pay,
        _ => set_up(field(l, 1)),
    }
}

// A record of set-up by its kind, in the lines' own numbers. On an open account it is refused whatever its values are.
fn set_up(code: u64) -> Kind {
    match code {
        16 => Kind::Underlying,
        17 => Kind::Contract,
        _ => Kind::Opening,
    }
}

pub fn figures(l: &[u8]) -> Figures {
    Fields::decimal(l, 1).figures()
}
