// The tokens at the places of a list.
ghost use Rattle.std.specs.Prelude.{◌≡◌, ◌<◌, All, true, ℕ, length, get_or};
ghost use Rattle.algebra.specs.Firing.{count};
ghost use Rattle.moving.specs.inner.Moving.{hold, filled, shifts};

// Every place of a list holds so many tokens.
pub fn all_hold(marking: &[u8], places: &[u16], tokens: u8) -> bool
    requires { All (λ p. p < length marking.now) places.now }
    ensures { result ≡ hold tokens marking.now places.now }
{
    places.iter().all(|&p| marking[usize::from(p)] == tokens)
}

// So many tokens at each place of a list. A loop, here and below: of a closure that writes what it captures nothing would be known behind it.
pub fn fill(marking: &mut [u8], places: &[u16], tokens: u8)
    requires { All (λ p. p < length marking.old) places.now }
    ensures { marking.new ≡ filled tokens marking.old places.now }
{
    for &p in places {
        marking[usize::from(p)] = tokens;
    }
}

// From so many tokens to so many at each place of a list, or false at the first that holds another number.
pub fn shift(marking: &mut [u8], places: &[u16], from: u8, to: u8) -> bool
    requires { All (λ p. p < length marking.old) places.now }
    ensures value { result ≡ shifts from to marking.old places.now }
    ensures marking_after { result ≡ true → marking.new ≡ filled to marking.old places.now }
    ensures by_index { (q : ℕ) → count q places.now ≡ 0 → get_or marking.new q 0 ≡ get_or marking.old q 0 }
{
    for &place in places {
        let p = usize::from(place);
        if marking[p] != from {
            return false;
        }
        marking[p] = to;
    }
    true
}
