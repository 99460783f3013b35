// Runs the examples of standard input, a line each, through the compiled functions, and writes each line again with '=' and what came out.
#![tactic(auto)]

mod asked;
mod charges;
mod found;
mod ranges;
mod reads;
mod writes;

use lines::input::{each_line_read, letter};
use lines::output::text;

fn main() {
    each_line_read(line);
}

// A line that begins with '#' is a remark.
fn line(l: &[u8]) {
    text(l);
    let asks = letter(l, 0);
    if asks != b'#' {
        text(b" =");
        answer(l, asks);
    }
    text(b"\n");
}

// A line's first letter says what it asks.
fn answer(l: &[u8], letter: u8) {
    match letter {
        b'm' => charges::margin(l),
        b'p' => charges::premium(l),
        b'n' => charges::net(l),
        b'a' => ranges::allowed(l),
        b'r' => reads::read(l),
        b'c' => reads::cuts(l),
        b'w' => writes::write(l),
        _ => (),
    }
}
