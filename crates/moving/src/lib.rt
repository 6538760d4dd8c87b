// Takes and puts the tokens of a step's items, in place. Each pass goes over the items' own arcs only, so that the work grows with the step
// and not with the net. A refusal comes after tokens were moved, but every place that may have been touched then is known to have held
// the same number before, so that a pass which puts that number there leaves the marking as it was.
#![tactic(auto)]

ghost use Rattle.std.specs.Prelude.{◌≡◌, true, ℕ, ◌<◌, ◌≤◌, length, get_or, not, position, All, MatchResult, OnOk};
ghost use Rattle.algebra.specs.Firing.{count};
ghost use Rattle.net.specs.declared.Side.TheVariants.{Inputs, Outputs};
ghost use Rattle.moving.specs.inner.InOrder.{InOrder};
ghost use Rattle.moving.specs.inner.Moving.{hold, filled, shifts_each, in_one, moves};

use field::{Fault, Refusal};
use net::{Lent, Row, Side};

mod places;

/// The rows and arcs of a net that is in order: check 30 was passed, or the net was made from a plan.
#[derive(Clone, Copy)]
pub struct Net<'a> {
    pub rows: &'a [u16],
    pub arcs: &'a [u16],
    pub places: usize,
    pub transitions: usize,
    ghost in_order: { InOrder rows.now arcs.now transitions places },
}

impl<'a> Net<'a> {
    ghost use Rattle.net.specs.Check.{is_net};
    ghost use Rattle.net.specs.Tables.{transitions_in};
    ghost use Rattle.net.specs.Lent.{tables_lent};
    ghost use Rattle.moving.specs.inner.Moves.{Moves};
    ghost use Rattle.moving.specs.Net.{transitions_of, places_of, item_places};

    /// The net that lent tables are which passed check 30.
    pub fn lent(lent: &Lent<'a>) -> Self
        requires { is_net (tables_lent lent.now) ≡ true }
        ensures tables { (result.rows ≡ lent.now.rows) × (result.arcs ≡ lent.now.arcs) }
        ensures counts { (result.places ≡ lent.now.places) × (result.transitions ≡ lent.now.transitions) }
        ensures transitions { transitions_of result ≡ transitions_in (tables_lent lent.now) }
    {
        Net {
            rows: lent.rows,
            arcs: lent.arcs,
            places: lent.places,
            transitions: lent.transitions,
        }
    }

    /// The places on one side of transition t.
    pub fn side(self, t: usize, side: Side) -> &'a [u16]
        requires { t < self.transitions }
        ensures value { result.now ≡ places_of self.entry side t }
        ensures below { All (λ p. p < self.entry.places) result.now }
    {
        let row = Row::at(self.rows, t);
        let start = usize::from(row.start);
        let middle = start + usize::from(row.inputs);
        match side {
            Side::Inputs => &self.arcs[start..middle],
            Side::Outputs => &self.arcs[middle..middle + usize::from(row.outputs)],
        }
    }

    /// Every place on one side of transition t holds so many tokens.
    pub fn holds(self, marking: &[u8], t: usize, side: Side, tokens: u8) -> bool
        requires t_below { t < self.transitions }
        requires marking_length { length marking.now ≡ self.places }
        ensures { result ≡ hold tokens marking.now (places_of self.entry side t) }
    {
        places::all_hold(marking, self.side(t, side), tokens)
    }

    // The first item that has, on one side, a place with another number of tokens.
    fn first_unlike(self, marking: &[u8], ts: &[u16], side: Side, tokens: u8) -> Option<usize>
        requires marking_length { length marking.now ≡ self.places }
        requires ts_below { All (λ t. t < self.transitions) ts.now }
        ensures { result ≡ position (λ t. not (hold tokens marking.now (places_of self.entry side t))) ts.now }
    {
        ts.iter()
            .position(|&t| !self.holds(marking, usize::from(t), side, tokens))
    }

    // So many tokens at each place on one side of the items.
    fn fill(self, marking: &mut [u8], ts: &[u16], side: Side, tokens: u8)
        requires marking_length { length marking.old ≡ self.places }
        requires ts_below { All (λ t. t < self.transitions) ts.now }
        ensures { marking.new ≡ filled tokens marking.old (in_one (item_places self.entry side ts.now)) }
    {
        for &t in ts {
            places::fill(marking, self.side(usize::from(t), side), tokens);
        }
    }

    // From so many tokens to so many at each place on one side of the items, or the first item of which that is not so.
    fn shift(
        self,
        marking: &mut [u8],
        ts: &[u16],
        side: Side,
        from: u8,
        to: u8,
    ) -> Result<(), usize>
        requires marking_length { length marking.old ≡ self.places }
        requires ts_below { All (λ t. t < self.transitions) ts.now }
        ensures value { MatchResult result (λ u. length ts.now ≤ shifts_each from to marking.old (item_places self.entry side ts.now)) (λ i. (i ≡ shifts_each from to marking.old (item_places self.entry side ts.now)) × (i < length ts.now)) }
        ensures marking_after { OnOk result (marking.new ≡ filled to marking.old (in_one (item_places self.entry side ts.now))) }
        ensures by_index { (q : ℕ) → count q (in_one (item_places self.entry side ts.now)) ≡ 0 → get_or marking.new q 0 ≡ get_or marking.old q 0 }
    {
        for (i, &t) in ts.iter().enumerate() {
            if !places::shift(marking, self.side(usize::from(t), side), from, to) {
                return Err(i);
            }
        }
        Ok(())
    }

    /// The tokens of a step's items at the net's part of a marking: 32, 33, 36.
    pub fn move_tokens(self, marking: &mut [u8], ts: &[u16]) -> Result<(), Refusal>
        requires marking_length { length marking.old ≡ self.places }
        requires ts_below { All (λ t. t < self.transitions) ts.now }
        ensures { Moves result marking.old marking.new (moves marking.old (item_places self.entry Inputs ts.now) (item_places self.entry Outputs ts.now)) }
    {
        if let Some(item) = self.first_unlike(marking, ts, Side::Inputs, 1) {
            return Err(Fault::InputEmpty.at(item));
        }
        // From here on every input is known to have held one token.
        if let Err(item) = self.shift(marking, ts, Side::Inputs, 1, 0) {
            self.fill(marking, ts, Side::Inputs, 1);
            return Err(Fault::InputShared.at(item));
        }
        if self.first_unlike(marking, ts, Side::Outputs, 0).is_some() {
            self.fill(marking, ts, Side::Inputs, 1);
            return Err(Fault::TwoTokens.at(0));
        }
        // And every output to have held none once the inputs were taken.
        if self.shift(marking, ts, Side::Outputs, 0, 1).is_err() {
            self.fill(marking, ts, Side::Outputs, 0);
            self.fill(marking, ts, Side::Inputs, 1);
            return Err(Fault::TwoTokens.at(0));
        }
        Ok(())
    }
}
