// Little-endian numbers, read from lent bytes.
ghost use Rattle.std.specs.Prelude.{◌≡◌, ℕ, ◌+◌, ◌*◌, ◌≤◌, length, replicate, take, drop};
ghost use Rattle.entries.specs.Numbers.{number_at, numbers_at};

// A number as wide as its type. `writing` has a trait of its own: one for both would be public, and a public function asks nothing.
pub(crate) trait Number: Sized {
    ghost width: { ℕ };

    ghost value: { Self → ℕ };

    fn at(r: &[u8], at: usize) -> Self
        requires { at + width ≤ length r.now }
        ensures { value result ≡ number_at width r.now at };
}

impl Number for u16 {
    ghost width = { 2 };

    ghost value = { λ x. x };

    fn at(r: &[u8], at: usize) -> u16 {
        u16::from_le_bytes(bytes_at(r, at))
    }
}

impl Number for u32 {
    ghost width = { 4 };

    ghost value = { λ x. x };

    fn at(r: &[u8], at: usize) -> u32 {
        u32::from_le_bytes(bytes_at(r, at))
    }
}

impl Number for u64 {
    ghost width = { 8 };

    ghost value = { λ x. x };

    fn at(r: &[u8], at: usize) -> u64 {
        u64::from_le_bytes(bytes_at(r, at))
    }
}

fn bytes_at<const N: usize>(r: &[u8], at: usize) -> [u8; N]
    requires { at + N ≤ length r.now }
    ensures { result ≡ take N (drop at r.now) }
{
    r[at..at + N].try_into().unwrap()
}

// As many numbers of 4 bytes as there are places for.
#[tactic(auto, using(entries::proofs::Runs::read_one_more))]
pub(crate) fn numbers4(r: &[u8], at: usize, into: &mut [u32])
    requires { at + 4 * length into.old ≤ length r.now }
    ensures { into.new ≡ numbers_at (replicate (length into.old) 4) r.now at }
{
    for (i, x) in into.iter_mut().enumerate() {
        *x = u32::at(r, at + 4 * i);
    }
}
