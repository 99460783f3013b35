// What came out: the verdict, how many records were answered, the place, the stage, how many underlyings and contracts there are, then
// all places of both arrays.
use desk::Run;
use lines::output::{number, text};

pub fn told(run: &Run) {
    text(b" =");
    number(u64::from(terms::number(&run.verdict)));
    number(run.answered as u64);
    number(run.place as u64);
    number(run.book.stage as u64);
    number(run.book.tables.m as u64);
    number(run.book.tables.n as u64);
}

// All places that were lent, behind a word of their own.
pub(crate) fn each<T: Copy, F: Fn(T)>(word: &[u8], lent: &[T], show: F)
    requires { F.IsAlwaysCallable show }
{
    text(word);
    for place in lent {
        show(*place);
    }
}
