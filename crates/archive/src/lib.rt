// The desk for programs in other languages: running a book. The crate `archive_c` exports it from a static library.
#![tactic(auto)]

ghost use Rattle.std.specs.Prelude.{◌≡◌, length};
ghost use Rattle.desk.specs.Runs.{book_run, numbers_left, places_in, sums_left};

use desk::run_book;

// How many records were answered. The book itself is not handed out: its layout is no caller's business.
pub fn ravundesk_run_book(bytes: &[u8], numbers: &mut [u8], sums: &mut [i64]) -> usize
    ensures answered { result ≡ length (book_run (places_in numbers.old sums.old) bytes.now).answers }
    ensures numbers { numbers.new ≡ numbers_left (book_run (places_in numbers.old sums.old) bytes.now) numbers.old }
    ensures sums { sums.new ≡ sums_left (book_run (places_in numbers.old sums.old) bytes.now) sums.old }
{
    let run = run_book(bytes, numbers, sums);
    run.answered
}
