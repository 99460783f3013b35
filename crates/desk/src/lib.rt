// The desk: a list and a book, run from their bytes, the answers written into places that the caller lends.
#![tactic(auto)]

mod available;

ghost use Rattle.std.specs.Prelude.{◌≡◌};
ghost use Rattle.terms.specs.Verdicts.{accept};
ghost use Rattle.set_up.specs.Sound.{SoundBook};
ghost use Rattle.rows.specs.Given.{list_verdict};
ghost use Rattle.desk.specs.Ruled.{ruling_by};
ghost use Rattle.desk.specs.Runs.{book_run, list_run, numbers_left, places_in, run_from, sums_left, told};

use account::Tables;
use available::available_in;
use gathering::see;
use reader::read_next;
use reading::{Answer, Reading};
use rows::list_verdict;
use set_up::{Book, Ruling, rule};
use terms::{Refusal, Verdict, number};

// What a run leads to. The verdict is that on what it starts from: a list's tables or cash may be refused, and then no record is
// answered. `place` is that of the next record, or of the one that could not be read, with which the run `stopped`; one that only ran
// out of places goes on from there with `run_on`. The place is told either way, so that `stopped` is a flag and no Option.
#[derive(Clone, Copy)]
pub struct Run {
    pub verdict: Verdict,
    pub answered: usize,
    pub place: usize,
    pub stopped: bool,
    pub book: Book,
}

// A list, on its tables and its opening cash. Numbers and sums are two slices, as C lends them (`ravundesk_run_book`).
pub fn run_list(
    tables: Tables,
    cash: u64,
    bytes: &[u8],
    numbers: &mut [u8],
    sums: &mut [i64],
) -> Run
    ensures run { result ≡ told (list_verdict tables cash) (list_run tables cash (places_in numbers.old sums.old) bytes.now) }
    ensures numbers { numbers.new ≡ numbers_left (list_run tables cash (places_in numbers.old sums.old) bytes.now) numbers.old }
    ensures sums { sums.new ≡ sums_left (list_run tables cash (places_in numbers.old sums.old) bytes.now) sums.old }
{
    let verdict = list_verdict(tables, cash);
    match verdict {
        Ok(()) => run_on(Book::opened(tables, cash), bytes, 0, numbers, sums),
        Err(_) => Run {
            verdict,
            answered: 0,
            place: 0,
            stopped: false,
            book: Book::waiting(tables),
        },
    }
}

// A book, from its first record on.
pub fn run_book(bytes: &[u8], numbers: &mut [u8], sums: &mut [i64]) -> Run
    ensures run { result ≡ told accept (book_run (places_in numbers.old sums.old) bytes.now) }
    ensures numbers { numbers.new ≡ numbers_left (book_run (places_in numbers.old sums.old) bytes.now) numbers.old }
    ensures sums { sums.new ≡ sums_left (book_run (places_in numbers.old sums.old) bytes.now) sums.old }
{
    run_on(Book::new(), bytes, 0, numbers, sums)
}

// A book in hand goes on from a place of the bytes, record after record, as long as both slices have a place for its answer.
pub fn run_on(book: Book, bytes: &[u8], place: usize, numbers: &mut [u8], sums: &mut [i64]) -> Run
    requires { SoundBook book }
    ensures run { result ≡ told accept (run_from (places_in numbers.old sums.old) bytes.now place book) }
    ensures numbers { numbers.new ≡ numbers_left (run_from (places_in numbers.old sums.old) bytes.now place book) numbers.old }
    ensures sums { sums.new ≡ sums_left (run_from (places_in numbers.old sums.old) bytes.now place book) sums.old }
{
    let mut book = book;
    let mut place = place;
    let mut k = 0;
    // No iterator: any of three lengths ends it, and where the next record starts each record says.
    while (k < numbers.len()) & (k < sums.len()) & (place < bytes.len()) {
        let read = read_next(bytes, place);
        let ruling = judged(&book, &read.reading);
        numbers[k] = number(&ruling);
        book.enter(&read.reading.figures, ruling);
        sums[k] = available_in(book.stage, book.account.sheet);
        k += 1;
        // A reader that stays has met a record that can't be read, and the run ends with it.
        if read.next == place {
            return Run {
                verdict: Ok(()),
                answered: k,
                place,
                stopped: true,
                book,
            };
        }
        place = read.next;
    }
    Run {
        verdict: Ok(()),
        answered: k,
        place,
        stopped: false,
        book,
    }
}

// What a record that was read comes to; one that can't be read is refused for what the reader says.
fn judged(book: &Book, reading: &Reading) -> Result<Ruling, Refusal>
    requires { SoundBook book.now }
    ensures { result ≡ ruling_by book.now reading.now.figures reading.now.answer }
{
    match reading.answer {
        Answer::Found { entry, .. } => {
            let seen = see(&book.tables, &book.account, entry);
            rule(book.stage, seen, entry, &reading.figures)
        }
        Answer::Refused { why, .. } => Err(why),
    }
}
