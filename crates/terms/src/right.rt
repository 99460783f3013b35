// Calls and puts.
ghost use Rattle.std.specs.Prelude.{◌≡◌};
ghost use Rattle.terms.specs.Codes.{right_code, right_coded};

use crate::unlisted::Unlisted;

// What the contract gives its holder: to buy the underlying, or to sell it. Its code stands beside each.
#[derive(Clone, Copy, Default, PartialEq, Eq)]
pub enum Right {
    #[default]
    Call = 1,
    Put = 2,
}

impl From<Right> for u16 {
    ghost from_gives = { λ right code. code ≡ right_code right };

    fn from(right: Right) -> u16 {
        right as u16
    }
}

// An impl for this list of words alone: what the four lists share is std's trait.
impl TryFrom<u16> for Right {
    type Error = Unlisted;

    ghost try_from_gives = { λ code right. right ≡ right_coded code };

    fn try_from(code: u16) -> Result<Right, Unlisted> {
        match code {
            1 => Ok(Right::Call),
            2 => Ok(Right::Put),
            _ => Err(Unlisted),
        }
    }
}
