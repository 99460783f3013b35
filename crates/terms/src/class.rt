// Stocks and funds.
ghost use Rattle.std.specs.Prelude.{◌≡◌};
ghost use Rattle.terms.specs.Codes.{class_code, class_coded};

use crate::unlisted::Unlisted;

// What an underlying is. Its code stands beside each.
#[derive(Clone, Copy, Default, PartialEq, Eq)]
pub enum Class {
    #[default]
    Stock = 1,
    Fund = 2,
}

impl From<Class> for u16 {
    ghost from_gives = { λ class code. code ≡ class_code class };

    fn from(class: Class) -> u16 {
        class as u16
    }
}

// An impl for this list of words alone: what the four lists share is std's trait.
impl TryFrom<u16> for Class {
    type Error = Unlisted;

    ghost try_from_gives = { λ code class. class ≡ class_coded code };

    fn try_from(code: u16) -> Result<Class, Unlisted> {
        match code {
            1 => Ok(Class::Stock),
            2 => Ok(Class::Fund),
            _ => Err(Unlisted),
        }
    }
}
