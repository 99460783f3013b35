// The words of a line: what stands between blanks.
ghost use Rattle.std.specs.Prelude.{◌≡◌, ◌<◌, ◌≤◌, length, OnSome};
ghost use Rattle.std.specs.Iterator.{at_most};
ghost use Rattle.std.specs.List.{take_while};
ghost use Rattle.expiry.specs.Blanks.{blank, behind_blanks};

// What is left of the line.
#[derive(Drop)]
pub struct Words<'a>(pub &'a [u8]);

impl<'a> Iterator for Words<'a> {
    type Item = &'a [u8];

    ghost next_gives = { λ before word after. OnSome word (length after.0.now < length before.0.now) };

    ghost remaining = { λ words. at_most (length words.0.now) };

    fn next(&mut self) -> Option<&'a [u8]> {
        let line = behind_blanks(self.0);
        let (_, behind) = line.split_first()?;
        let end = 1 + behind.iter().take_while(|b| !blank(**b)).count();
        let (word, rest) = line.split_at(end);
        self.0 = rest;
        Some(word)
    }
}

// A line, or what is left of one, without the blanks that it begins with.
pub fn behind_blanks(line: &[u8]) -> &[u8]
    ensures { (result.now ≡ behind_blanks line.now) × (length result.now ≤ length line.now) }
{
    &line[blanks(line)..]
}

// How many blanks a line begins with.
fn blanks(line: &[u8]) -> usize
    ensures { result ≡ length (take_while blank line.now) }
{
    line.iter().take_while(|b| blank(**b)).count()
}

fn blank(b: u8) -> bool
    ensures { result ≡ blank b }
{
    matches!(b, b' ' | b'\t' | b'\r')
}
