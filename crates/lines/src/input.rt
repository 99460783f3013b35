// Lines, and what stands in them: a line is a word and then its fields, a space before each.
ghost use Rattle.std.specs.Prelude.{◌≤◌, max, length, not, ◌≡◌, ◌==◌};
ghost use Rattle.std.specs.List.{take_while};
ghost use Rattle.lines.specs.Ends.{line_end};

use crate::width::Width;

// The descriptor of standard input.
pub const STANDARD_INPUT: i32 = 0;

// How many bytes an example can lend: more than the 296 of the longest record, so that something can stand around one.
pub const LENT: usize = 320;

// Below it a number has room for one more digit of either kind.
const ROOM: u64 = 1 << 60;

// Where the line that starts at `from` ends.
pub fn line_end(s: &[u8], from: usize) -> usize
    ensures { (from ≤ result) × (result ≤ max from (length s.now)) × (result ≡ line_end s.now from) }
{
    from + line_length(s.get(from..).unwrap_or(&[]))
}

// How many bytes stand before the first end of line, or in all.
fn line_length(s: &[u8]) -> usize
    ensures { result ≡ length (take_while (λ b. not (b == 10)) s.now) }
{
    s.iter().take_while(|b| **b != b'\n').count()
}

// Visits each line, without its end; the last may lack one.
pub fn each_line<F: FnMut(&[u8])>(s: &[u8], mut visit: F)
    requires { F.IsAlwaysCallable visit }
{
    let mut start = 0;
    // No iterator: `split_inclusive` looks for the ends by itself, and where a line ends is promised of `line_end`.
    while start < s.len() {
        let stop = line_end(s, start);
        visit(&s[start..stop]);
        start = stop + 1;
    }
}

// Visits each line of standard input.
pub fn each_line_read<F: FnMut(&[u8])>(visit: F)
    requires { F.IsAlwaysCallable visit }
{
    let mut buffer = io::large_buffer();
    let n = io::read_full(STANDARD_INPUT, &mut buffer);
    each_line(&buffer[..n], visit);
}

// A line's letter at a place. Past its end stands the mark of a remark, so that an empty line asks nothing.
pub fn letter(l: &[u8], at: usize) -> u8 {
    l.get(at).copied().unwrap_or(b'#')
}

// The k-th field of a line, counted from 1, as a decimal number.
pub fn field<N: Width>(l: &[u8], k: usize) -> N {
    N::cut(spelled(l, k, 10))
}

// The k-th field as a hexadecimal number: these show each byte of a record by itself. From `field` it differs by the base, one word of a call.
pub fn hex<N: Width>(l: &[u8], k: usize) -> N {
    N::cut(spelled(l, k, 16))
}

// The bytes that a line's last field spells, two digits each; no more of them than are lent.
pub fn bytes<'a>(l: &[u8], into: &'a mut [u8; LENT]) -> &'a [u8]
    ensures { length result.now ≤ 320 }
{
    let digits = l.rsplit(|b| *b == b' ').next().unwrap_or(&[]);
    let (pairs, _) = digits.as_chunks::<2>();
    let spelled = &mut into[..LENT.min(pairs.len())];
    for (byte, [high, low]) in spelled.iter_mut().zip(pairs) {
        *byte = digit(*high) * 16 + digit(*low);
    }
    spelled
}

// What the digits of the k-th field come to: 0 where there are fewer fields.
fn spelled(l: &[u8], k: usize, base: u64) -> u64
    requires { base ≤ 16 }
{
    let digits = l.split(|b| *b == b' ').nth(k).unwrap_or(&[]);
    digits
        .iter()
        .fold(0, |value, b| digit_after(value, *b, base))
}

// A number that has room for no more digits stays as it is.
fn digit_after(value: u64, b: u8, base: u64) -> u64
    requires { base ≤ 16 }
{
    if value >= ROOM {
        value
    } else {
        value * base + digit(b) as u64
    }
}

// Any byte stands for some digit, and not only those that `to_digit` takes: what the programs make of a line that asks amiss may not change.
fn digit(b: u8) -> u8
    ensures { result ≤ 15 }
{
    if b < b'a' { b % 16 } else { (b % 16 + 9) % 16 }
}
