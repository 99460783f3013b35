// What programs in C and Rust link: the functions of `archive`, under the names that the static library gives them. The C interface needs
// the function a second time: no crate can stand on a static library.
#![tactic(auto)]

ghost use Rattle.std.specs.Prelude.{◌≡◌, length};
ghost use Rattle.desk.specs.Runs.{book_run, numbers_left, places_in, sums_left};

// How many records were answered. The book itself is not handed out: its layout is no caller's business.
#[unsafe(no_mangle)]
pub extern "C" fn ravundesk_run_book(bytes: &[u8], numbers: &mut [u8], sums: &mut [i64]) -> usize
    ensures answered { result ≡ length (book_run (places_in numbers.old sums.old) bytes.now).answers }
    ensures numbers { numbers.new ≡ numbers_left (book_run (places_in numbers.old sums.old) bytes.now) numbers.old }
    ensures sums { sums.new ≡ sums_left (book_run (places_in numbers.old sums.old) bytes.now) sums.old }
{
    archive::ravundesk_run_book(bytes, numbers, sums)
}
