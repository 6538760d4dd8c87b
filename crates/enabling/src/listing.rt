// The enabled transitions of a net at a marking, counted and listed.
ghost use Rattle.std.specs.Prelude.{◌≡◌, ◌==◌, ◌||◌, true, not, ◌<◌, ◌≤◌, [], length, leb, count_by};
ghost use Rattle.std.specs.List.{list_all, zip, range_with_len};
ghost use Rattle.std.proofs.lemmas.List.Edits.{sets};
ghost use Rattle.field.specs.Lists.{all};
ghost use Rattle.enabling.specs.Enabled.{exits_hold, how_many};
ghost use Rattle.enabling.specs.Says.{enabling_told};

use crate::Enabling;
use moving::Net;
use net::Side;

// 01, "Net tables", "3 exit": a byte of a lent table, which C reads as a number.
const EXIT: u8 = 3;

/// A net that is in order, and its part of a marking.
#[derive(Clone, Copy)]
pub struct Marked<'a> {
    pub net: Net<'a>,
    pub tokens: &'a [u8],
    ghost long: { length tokens.now ≡ net.places },
    ghost safe: { all (λ x. leb x 1) tokens.now ≡ true },
}

impl<'a> Marked<'a> {
    ghost use Rattle.algebra.specs.Firing.{marked, enabled_from};
    ghost use Rattle.moving.specs.inner.InOrder.{transition_in};
    ghost use Rattle.moving.specs.Net.{transitions_of};

    // All input places of transition t are marked.
    fn is_enabled(self, t: usize) -> bool
        requires { t < self.net.transitions }
        ensures { result ≡ marked self.entry.tokens.now (transition_in self.entry.net.rows.now self.entry.net.arcs.now t) }
    {
        self.net.holds(self.tokens, t, Side::Inputs, 1)
    }

    fn count(self) -> usize
        ensures { result ≡ count_by (λ t. marked self.entry.tokens.now (transition_in self.entry.net.rows.now self.entry.net.arcs.now t)) (range_with_len 0 self.entry.net.transitions) }
    {
        (0..self.net.transitions)
            .filter(|&t| self.is_enabled(t))
            .count()
    }

    /// Whether so much room is enough for the enabled transitions. They are counted only where it is not enough for all transitions.
    pub fn fits(self, room: usize) -> bool
        ensures { result ≡ leb (length (enabled_from 0 self.entry.tokens.now (transitions_of self.entry.net))) room }
    {
        self.net.transitions <= room || self.count() <= room
    }

    /// Their numbers, from the front of `out` on, which has room for them; and how many they are.
    pub fn write(self, out: &mut [u16]) -> usize
        requires { length (enabled_from 0 self.tokens.now (transitions_of self.net)) ≤ length out.old }
        ensures many { result ≡ length (enabled_from 0 self.entry.tokens.now (transitions_of self.entry.net)) }
        ensures list { out.new ≡ sets out.old 0 (enabled_from 0 self.entry.tokens.now (transitions_of self.entry.net)) }
    {
        let mut many = 0;
        for t in 0..self.net.transitions {
            if self.is_enabled(t) {
                // A net has at most 1,024 transitions.
                out[many] = t as u16;
                many += 1;
            }
        }
        many
    }
}

/// Every exit place is marked.
pub fn exits_hold(kinds: &[u8], marking: &[u8]) -> bool
    ensures { result ≡ list_all (λ p. not (p.0 == 3) || not (p.1 == 0)) (zip kinds.now marking.now) }
{
    kinds
        .iter()
        .zip(marking)
        .all(|(&kind, &tokens)| kind != EXIT || tokens != 0)
}

/// What is answered where nothing is enabled: a run that is over is not stuck.
pub fn when_none(kinds: &[u8], marking: &[u8]) -> Enabling
    requires { length kinds.now ≡ length marking.now }
    ensures { enabling_told result ≡ how_many (exits_hold kinds.now marking.now) [] }
{
    if exits_hold(kinds, marking) {
        return Enabling::Many(0);
    }
    Enabling::Stuck
}
