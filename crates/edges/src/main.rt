// Books every kind of entry from lines of text: each line of standard input is written again with '=' and the account after it.
#![tactic(auto)]

mod asked;
mod day;
mod shown;

use day::Day;
use lines::input::each_line_read;

fn main() {
    let mut day = Day::opened(false, 0);
    each_line_read(|l| day.line(l));
}
