// Available, the one signed number, and what is within it.
ghost use Rattle.std.specs.Prelude.{◌≡◌, pos};
ghost use Rattle.std.specs.Int.Signed.{le_z};
ghost use Rattle.account.specs.Money.{available_of};
ghost use Rattle.account.specs.Sound.{SoundSheet};

use account::Sheet;

// It may be below zero after a day end.
pub fn available(sheet: Sheet) -> i64
    requires { SoundSheet sheet }
    ensures { result ≡ available_of sheet }
{
    sheet.cash as i64 - sheet.holds as i64 - sheet.margin as i64
}

// Below zero nothing is within reach, not even a sum of 0.
pub fn within(sum: u64, available: i64) -> bool
    ensures { result ≡ le_z (pos sum) available }
{
    if available < 0 {
        return false;
    }
    sum <= available as u64
}
