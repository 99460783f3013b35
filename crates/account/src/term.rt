// A term of a sum, which counts only where a test holds.
ghost use Rattle.std.specs.Prelude.{◌≡◌, ℕ};
ghost use Rattle.terms.specs.Sums.{◌when◌};

// A number that sums are made of, at any width.
pub trait Term: Copy {
    ghost value: { Self → ℕ };

    fn nothing() -> Self
        ensures { value result ≡ 0 };
}

impl Term for u32 {
    ghost value = { λ x. x };

    fn nothing() -> u32 {
        0
    }
}

impl Term for u64 {
    ghost value = { λ x. x };

    fn nothing() -> u64 {
        0
    }
}

pub fn counted<N: Term>(x: N, test: bool) -> N
    ensures { N.value result ≡ (N.value x when test) }
{
    if test { x } else { N::nothing() }
}
