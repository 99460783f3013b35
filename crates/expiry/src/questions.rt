// The two questions, as lines ask them, and their answers.
use crate::numbers::number;
use crate::words::{Words, behind_blanks};
use arrayvec::ArrayVec;
use lines::output;
use lines::output::{STANDARD_OUTPUT, text};
use terms::{ACCOUNTS, Contracts, Position, Right, Verdict};

// One account more than can be assigned to: that is enough for a refusal, however many a line has.
const KEPT: usize = ACCOUNTS + 1;

// A line of blanks asks nothing, nor does a remark.
pub fn answer(l: &[u8], line: u64) {
    // A remark is told by its first byte: its first word may be long, and nobody asks where it ends.
    let l = behind_blanks(l);
    if l.starts_with(b"#") {
        return;
    }
    let mut words = Words(l);
    let Some(word) = words.next() else {
        return;
    };
    let answered = match word {
        b"exercise" => exercise_asked(words),
        b"assign" => assign_asked(words),
        _ => None,
    };
    if answered.is_none() {
        unreadable(line);
    }
}

pub fn unreadable(line: u64) {
    text(b"unreadable");
    output::number(line);
    text(b"\n");
}

// None where the line can't be read.
fn exercise_asked(words: Words) -> Option<()> {
    begin(request(words)?);
    text(b"\n");
    Some(())
}

// A verdict's number starts its line, so that no space stands before it.
fn begin(verdict: Verdict) {
    io::print_decimal(STANDARD_OUTPUT, u64::from(terms::number(&verdict)));
}

fn request(mut words: Words) -> Option<Verdict> {
    let right = right(words.next()?)?;
    let strike = number(words.next()?)?;
    let unit = number(words.next()?)?;
    let position = Position {
        long: Contracts(number(words.next()?)?),
        short: Contracts(number(words.next()?)?),
        covered: Contracts(number(words.next()?)?),
    };
    let count = Contracts(number(words.next()?)?);
    let offered = number(words.next()?)?;
    if words.next().is_some() {
        return None;
    }
    Some(exercise::exercise(right, strike, unit, position, count, offered))
}

fn right(word: &[u8]) -> Option<Right> {
    match word {
        b"call" => Some(Right::Call),
        b"put" => Some(Right::Put),
        _ => None,
    }
}

fn assign_asked(mut words: Words) -> Option<()> {
    let exercised = number(words.next()?)?;
    let mut short = ArrayVec::<u32, KEPT>::new();
    let mut covered = ArrayVec::<u32, KEPT>::new();
    // No `for`: two words are taken in a turn.
    while let Some(word) = words.next() {
        // Those past the ones that are kept must be numbers too.
        let _ = short.try_push(number(word)?);
        let _ = covered.try_push(number(words.next()?)?);
    }
    assigned(Contracts(exercised), &short, &covered);
    Some(())
}

fn assigned(exercised: Contracts, short: &[u32], covered: &[u32]) {
    let mut cover = [0; KEPT];
    let mut naked = [0; KEPT];
    let verdict = assignment::assign(exercised, short, covered, &mut cover, &mut naked);
    begin(verdict);
    if verdict.is_ok() {
        for (c, n) in cover.iter().zip(&naked).take(short.len()) {
            output::number(u64::from(*c));
            output::number(u64::from(*n));
        }
    }
    text(b"\n");
}
