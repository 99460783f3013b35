// What a book has available.
ghost use Rattle.std.specs.Prelude.{◌≡◌};
ghost use Rattle.account.specs.Sound.{SoundSheet};
ghost use Rattle.desk.specs.Runs.{available_at};

use account::Sheet;
use money::available;
use set_up::Stage;

// 0 before the opening.
pub(crate) fn available_in(stage: Stage, sheet: Sheet) -> i64
    requires { stage ≡ Stage.Entries → SoundSheet sheet }
    ensures { result ≡ available_at stage sheet }
{
    if stage == Stage::Entries {
        available(sheet)
    } else {
        0
    }
}
