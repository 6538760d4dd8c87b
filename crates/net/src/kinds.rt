// The kinds of a net's places: 1s (entries), then 2s (internals), then 3s (exits), with a 1 and a 3.
ghost use Rattle.std.specs.Prelude.{◌≡◌};
ghost use Rattle.net.specs.Check.{kinds_ordered};

use crate::lists::each_next;

// The first is 1, the last is 3, and none is below the one before it: so all between are 1 to 3.
pub fn in_order(kinds: &[u8]) -> bool
    ensures { result ≡ kinds_ordered kinds.now }
{
    match kinds {
        [1, .., 3] => each_next(kinds, |one, next| one <= next),
        _ => false,
    }
}
