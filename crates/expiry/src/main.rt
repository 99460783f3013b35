// Questions about the expiry evening from standard input, a line each. As soon as a line is whole its answer is written, a line to standard output.
#![tactic(auto)]

mod numbers;
mod questions;
mod words;

ghost use Rattle.std.specs.Prelude.{◌≡◌, ◌+◌, ◌<◌, ◌≤◌, length};

use lines::input::line_end;
use questions::{answer, unreadable};
use std::io::{Read, Stdin};

// A loop must end: no more reads than these are made, of up to 65,536 bytes each.
const READS: u32 = u32::MAX;

// How far the input is read.
#[derive(Drop)]
struct Input {
    // An array and no vector: there is no heap, and a read needs the places behind what is held.
    buffer: [u8; 65_536],
    // So many bytes of line number `line` stand at the buffer's start, its end not among them.
    held: usize,
    line: u64,
    // The line had no room in the buffer and is answered: what comes of it is passed over. A flag and no Option: `line` counts on beside it.
    skips: bool,
    ghost room: { held < 65_536 },
}

fn main(rt: HostRuntime) {
    let mut stdin = rt.stdin();
    let mut input = Input {
        buffer: [0; 65_536],
        held: 0,
        line: 1,
        skips: false,
    };
    for _ in 0..READS {
        let n = input.read(&mut stdin);
        if n == 0 {
            input.last();
            return;
        }
        input.onward(n);
    }
}

impl Input {
    // One read, which waits for no more than there is, into the places behind what is held; how many bytes came. A read that fails ends the
    // input.
    fn read(&mut self, stdin: &mut Stdin) -> usize
        ensures { (self.new.held ≡ self.old.held) × (self.old.held + result ≤ 65_536) }
    {
        stdin.read(&mut self.buffer[self.held..]).unwrap_or(0)
    }

    // Answers the lines that are whole, now that `n` bytes more came, and moves what is there of the next to the buffer's start.
    fn onward(&mut self, n: usize)
        requires { self.old.held + n ≤ 65_536 }
    {
        let end = self.held + n;
        let start = self.whole_lines(end);
        let held = end - start;
        if self.buffer.len() <= held && !self.skips {
            unreadable(self.line);
            self.skips = true;
        }
        if self.skips {
            self.held = 0;
        } else {
            self.buffer.copy_within(start..end, 0);
            self.held = held;
        }
    }

    // Answers each line that ends before `end`; where the next one starts. No line ends in the bytes that were held.
    // By ends and not by `split_inclusive`, which would look through what was held again at every read.
    fn whole_lines(&mut self, end: usize) -> usize
        requires { end ≤ 65_536 }
        ensures { result ≤ end }
    {
        let mut start = 0;
        let mut stop = line_end(&self.buffer[..end], self.held);
        while stop < end {
            if self.skips {
                self.skips = false;
            } else {
                answer(&self.buffer[start..stop], self.line);
            }
            // The reads end long before this wraps.
            self.line = self.line.wrapping_add(1);
            start = stop + 1;
            stop = line_end(&self.buffer[..end], start);
        }
        start
    }

    // The last line may lack its end.
    fn last(&self) {
        if !self.skips {
            answer(&self.buffer[..self.held], self.line);
        }
    }
}
