// Rows by their numbers. A number past the last names none: nothing stands there, and what is put there is lost.
ghost use Rattle.std.specs.Prelude.{◌≡◌, get_or, set};

pub(crate) fn row<T: Copy>(rows: &[T], number: usize, none: T) -> T
    ensures { result ≡ get_or rows.now number none }
{
    rows.get(number).copied().unwrap_or(none)
}

#[tactic(auto, using(crate::proofs::PastLast::none_set))]
pub(crate) fn put<T: Copy>(rows: &mut [T], number: usize, row: T)
    ensures { rows.new ≡ set rows.old number row }
{
    if number < rows.len() {
        rows[number] = row;
    }
}
