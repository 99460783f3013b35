// Records written into lent bytes.
use crate::asked;
use lines::input::{LENT, field};
use lines::output::{bytes, number, refused, text};
use terms::Refusal;

// The buffer's size, the kind, the fields.
pub fn write(l: &[u8]) {
    let mut lent = [0; LENT];
    let size = LENT.min((field::<u64>(l, 1) % 1_000) as usize);
    in_buffer(&mut lent[..size], l);
}

// All of the buffer is shown, since what stands behind a record must be left alone.
fn in_buffer(buffer: &mut [u8], l: &[u8]) {
    mark(buffer);
    outcome(put(buffer, l));
    bytes(buffer);
}

fn put(buffer: &mut [u8], l: &[u8]) -> Result<usize, Refusal> {
    writing::write(asked::entry(l), asked::figures(l), buffer)
}

// Each byte is told from those near it, so that one that moved shows.
fn mark(buffer: &mut [u8]) {
    for (i, byte) in buffer.iter_mut().enumerate() {
        *byte = ((165 + 37 * (i % 251)) % 251) as u8;
    }
}

fn outcome(written: Result<usize, Refusal>) {
    match written {
        Ok(n) => {
            text(b" bytes");
            number(n as u64);
        }
        Err(why) => refused(why),
    }
}
