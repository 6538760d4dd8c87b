// Whether lent bytes are a marking (check 35). What lies behind a net's places is not looked at.
ghost use Rattle.std.specs.Prelude.{◌≡◌, leb};
ghost use Rattle.field.specs.Lists.{all};
ghost use Rattle.field.specs.Answer.{check};
ghost use Rattle.field.specs.Refusals.{no_marking};
ghost use Rattle.net.specs.Marking.{check_room, check_marking};

// No place holds more than one token. All are looked at, with no way out before the end, so that the machine can look at many at once.
fn at_most_one(marking: &[u8]) -> bool
    ensures { result ≡ all (λ x. leb x 1) marking.now }
{
    let mut fine = true;
    for tokens in marking {
        fine &= *tokens <= 1;
    }
    fine
}

/// There is a byte for each place: all that replay asks of a buffer that it fills itself.
pub fn has_room(marking: &[u8], places: usize) -> bool
    ensures { check_room places marking.now ≡ check result no_marking 0 }
{
    places <= marking.len()
}

/// There is a byte for each place, and none of these is above 1: what firing and the enabled list ask.
pub fn is_marking(marking: &[u8], places: usize) -> bool
    ensures { check_marking places marking.now ≡ check result no_marking 0 }
{
    has_room(marking, places) && at_most_one(&marking[..places])
}
