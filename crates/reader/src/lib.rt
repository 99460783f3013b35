// A reader: the lent bytes, and the place of the next record in them.
#![tactic(auto)]

ghost use Rattle.std.specs.Prelude.{◌≡◌};
ghost use Rattle.reading.specs.Reading.{read_at};
ghost use Rattle.reader.specs.Reader.{found_at, moved_on};

use reading::{Answer, Reading, read};

// Document 01 names this form: a byte slice and an offset into it.
#[derive(Drop)]
pub struct Reader<'a> {
    pub bytes: &'a [u8],
    pub place: usize,
}

// What stands at a place, and the place of the next record.
#[derive(Drop)]
pub struct Read {
    pub reading: Reading,
    pub next: usize,
}

impl<'a> Reader<'a> {
    // A reader stands at the first record.
    pub fn new(bytes: &'a [u8]) -> Reader<'a>
        ensures { (result.bytes ≡ bytes.entry) × (result.place ≡ 0) }
    {
        Reader { bytes, place: 0 }
    }

    // The next record's answer. The reader stands behind the record afterwards, or where it stood if it was refused.
    #[tactic(auto, using(reading::proofs::Within::found_within))]
    pub fn next(&mut self) -> Reading
        ensures answer { result ≡ read_at self.old.bytes.now self.old.place }
        ensures moved { self.new ≡ moved_on self.old }
    {
        let reading = read(self.bytes, self.place);
        match reading.answer {
            Answer::Found { length, .. } => self.place += length,
            Answer::Refused { .. } => {}
        }
        reading
    }
}

// Bytes and a place in, a reader lent to `next`, the answer and the next place out: the one function that makes a reader of its own.
pub fn read_next(bytes: &[u8], place: usize) -> Read
    ensures { result ≡ found_at bytes.now place }
{
    let mut reader = Reader { bytes, place };
    let reading = reader.next();
    Read {
        reading,
        next: reader.place,
    }
}
