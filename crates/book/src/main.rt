// The book program: a book from standard input, a line for each of its records to standard output.
#![tactic(auto)]

mod text;

ghost use Rattle.std.specs.Prelude.{◌≡◌, ◌≤◌, length, take, drop};
ghost use Rattle.book.specs.Lines.{printed_for};

use arrayvec::ArrayString;
use desk::run_on;
use lines::input::STANDARD_INPUT;
use lines::output::STANDARD_OUTPUT;
use set_up::Book;
use std::alloc::AllocError;
use text::lines;

// The records that are answered before their lines are written: the stack has no room for a whole book's.
const LINES: usize = 128;

// A line takes 32 bytes at most.
const PAGE: usize = 32 * LINES;

// So many bytes of a book are read, and no more.
const MOST: usize = 65_536;

fn main(rt: HostRuntime) -> Result<(), AllocError> {
    // On the heap: it would be most of the stack.
    let mut buffer = vec![in rt.alloc(); 0; MOST]?;
    let n = io::read_full(STANDARD_INPUT, buffer.as_mut_slice());
    print(&buffer.as_slice()[..n]);
    Ok(())
}

// The lines of a book, written page after page; how many bytes they are.
fn print(bytes: &[u8]) -> usize
    requires { length bytes.now ≤ 65_536 }
    ensures { result ≡ length (printed_for bytes.now) }
{
    // Two arrays beside each other, as the C interface lends them (`ravundesk_run_book`, and `run_on` with it).
    let mut numbers = [0u8; LINES];
    let mut sums = [0i64; LINES];
    let mut page = ArrayString::new();
    let mut book = Book::new();
    let mut place = 0;
    let mut first = 0;
    let mut written = 0;
    // No iterator: a page's run says where the next one starts.
    while place < bytes.len() {
        let run = run_on(book, bytes, place, &mut numbers, &mut sums);
        // Handed on at once, so that no third copy of the book lies in the stack while the page is written.
        book = run.book;
        place = run.place;
        let answered = run.answered;
        lines(&mut page, first, &numbers[..answered], &sums[..answered]);
        put(bytes, written, page.as_str());
        written += page.len();
        first += answered;
        if run.stopped {
            return written;
        }
    }
    written
}

// Nothing is written but what is printed for the book, from behind the bytes that were written before.
fn put(bytes: &[u8], written: usize, page: &str)
    requires { page.now ≡ take (length page.now) (drop written (printed_for bytes.now)) }
{
    io::write_all(STANDARD_OUTPUT, page.as_bytes());
}
