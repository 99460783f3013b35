// Little-endian numbers, put into lent bytes.
ghost use Rattle.std.specs.Prelude.{◌≡◌, ℕ, ◌+◌, ◌*◌, ◌≤◌, length, replicate};
ghost use Rattle.std.proofs.lemmas.List.Edits.{sets};
ghost use Rattle.entries.specs.Numbers.{bytes, packed};

// A number as wide as its type. `reading` has a trait of its own: one for both would be public, and a public function asks nothing.
pub(crate) trait Number {
    ghost width: { ℕ };

    ghost value: { Self → ℕ };

    fn put(self, buffer: &mut [u8], at: usize)
        requires { at + width ≤ length buffer.old }
        ensures { buffer.new ≡ sets buffer.old at (bytes width (value self)) };
}

impl Number for u16 {
    ghost width = { 2 };

    ghost value = { λ x. x };

    fn put(self, buffer: &mut [u8], at: usize) {
        put_bytes(buffer, at, u16::to_le_bytes(self));
    }
}

impl Number for u32 {
    ghost width = { 4 };

    ghost value = { λ x. x };

    fn put(self, buffer: &mut [u8], at: usize) {
        put_bytes(buffer, at, u32::to_le_bytes(self));
    }
}

impl Number for u64 {
    ghost width = { 8 };

    ghost value = { λ x. x };

    fn put(self, buffer: &mut [u8], at: usize) {
        put_bytes(buffer, at, u64::to_le_bytes(self));
    }
}

fn put_bytes<const N: usize>(buffer: &mut [u8], at: usize, bytes: [u8; N])
    requires { at + N ≤ length buffer.old }
    ensures { buffer.new ≡ sets buffer.old at bytes.entry }
{
    buffer[at..at + N].copy_from_slice(&bytes);
}

// Numbers of 4 bytes, one after the other.
#[tactic(auto, using(entries::proofs::Runs::put_one_more))]
pub(crate) fn puts4(buffer: &mut [u8], at: usize, xs: &[u32])
    requires { at + 4 * length xs.now ≤ length buffer.old }
    ensures { buffer.new ≡ sets buffer.old at (packed (replicate (length xs.now) 4) xs.now) }
{
    for (i, x) in xs.iter().enumerate() {
        x.put(buffer, at + 4 * i);
    }
}
