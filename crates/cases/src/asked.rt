// The entry that a line asks to be written: its kind stands second, its fields from the third on.
use entries::{Entry, Figures, Kind};
use lines::input::field;
use lines::records::Fields;

pub fn entry(l: &[u8]) -> Entry {
    Fields::hexadecimal(l, 3).entry(kind(field(l, 2)))
}

// A number that is no kind's stands for the opening.
fn kind(code: u64) -> Kind {
    Kind::try_from(u16::try_from(code).unwrap_or(0)).unwrap_or(Kind::Opening)
}

pub fn figures(l: &[u8]) -> Figures {
    Fields::hexadecimal(l, 3).figures()
}
