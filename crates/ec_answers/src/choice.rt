// Which brick is asked next.
ghost use Rattle.std.specs.Prelude.{◌<◌};
ghost use Rattle.ec_attr.specs.Bricks.{is_in};
ghost use Rattle.ec_answers.specs.Choice.{IsFirstFrom, left_of};

use ec_attr::BrickSet;

/// The first brick of `among` that isn't in `tried`, walking up from brick `start` and on from 0 past the last; None
/// where each of `among` was tried.
pub fn choose(start: u32, among: &BrickSet, tried: &BrickSet) -> Option<u8>
    requires { start < 31 }
    ensures { IsFirstFrom start (left_of (is_in among.now) (is_in tried.now)) result }
{
    for i in 0..31u32 {
        let b = ((start + i) % 31) as u8;
        if among.has(b) && !tried.has(b) {
            return Some(b);
        }
    }
    None
}
