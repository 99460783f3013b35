// The widths of the numbers that records have.

pub trait Width: Into<u64> {
    // How many hexadecimal digits show a number whole.
    const DIGITS: usize;

    // What this width has room for of a longer number.
    fn cut(n: u64) -> Self;
}

impl Width for u16 {
    const DIGITS: usize = 4;

    fn cut(n: u64) -> u16 {
        (n & 0xffff) as u16
    }
}

impl Width for u32 {
    const DIGITS: usize = 8;

    fn cut(n: u64) -> u32 {
        (n & 0xffff_ffff) as u32
    }
}

impl Width for u64 {
    const DIGITS: usize = 16;

    fn cut(n: u64) -> u64 {
        n
    }
}
