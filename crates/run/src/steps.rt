// 01, "Refusal numbers": "each step in turn; form is judged as a step is reached. A refusal leaves the marking after the accepted steps and
// tells their number."
ghost use Rattle.std.specs.Prelude.{◌≡◌, true, ◌≤◌, length, drop, leb, MatchResult};
ghost use Rattle.field.specs.Lists.{all};
ghost use Rattle.form.specs.Form.{read_steps};
ghost use Rattle.moving.specs.Net.{transitions_of};
ghost use Rattle.run.specs.inner.Steps.{take_step};
ghost use Rattle.run.specs.inner.Ends.{StepFired, StepRefused, Ends};

use crate::{Ran, Stopped, exits};
use field::Refusal;
use form::{Item, MOST_ITEMS, no_items};
use record::step_at;
use step::firing::Indexed;

// How far a run has come: the offset of the next step, and the steps that fired.
#[derive(Clone, Copy)]
struct Place {
    at: usize,
    steps: usize,
}

// Reads the step at an offset and fires it; the bytes that it takes. The two lists of 256 are room for its items, whatever they hold; they
// are two parameters, since the borrow checker refuses a call that lends both out of one struct.
fn take_step(
    indexed: Indexed,
    record: &[u8],
    at: usize,
    items: &mut [Item; MOST_ITEMS],
    ts: &mut [u16; MOST_ITEMS],
    marking: &mut [u8],
) -> Result<usize, Refusal>
    requires marking_length { length marking.old ≡ indexed.net.places }
    requires marking_value { all (λ x. leb x 1) marking.old ≡ true }
    requires at_in_bounds { at ≤ length «record».now }
    ensures { MatchResult result (StepFired (length (drop at «record».now)) (take_step (transitions_of indexed.entry.net) marking.old at (drop at «record».now)) marking.new) (StepRefused (take_step (transitions_of indexed.entry.net) marking.old at (drop at «record».now)) marking.old marking.new) }
{
    match step_at(record, at, items) {
        Err(fault) => Err(fault.at(at)),
        Ok(step) => {
            indexed.fire_items(&items[..step.items], &mut ts[..step.items], marking)?;
            Ok(step.bytes)
        }
    }
}

/// The steps of a record, up to its end or to the first refusal. The room for a step's items is made here, once. That no place holds more than
/// one token is a clause of each function that moves tokens: no type can state it beside a marking that is lent to be written.
pub fn run_steps(
    indexed: Indexed,
    exits_from: usize,
    record: &[u8],
    marking: &mut [u8],
) -> Result<Ran, Stopped>
    requires marking_length { length marking.old ≡ indexed.net.places }
    requires marking_value { all (λ x. leb x 1) marking.old ≡ true }
    requires exits_from_in_bounds { exits_from ≤ length marking.old }
    ensures { Ends result marking.new indexed.entry.net.rows.now indexed.entry.net.arcs.now indexed.entry.net.transitions exits_from 0 marking.old (read_steps 0 0 «record».now) }
{
    let mut items = no_items();
    let mut ts = [0; MOST_ITEMS];
    let mut place = Place { at: 0, steps: 0 };
    // A step takes as many bytes as it says, so the loop goes by the place.
    while place.at < record.len() {
        let at = place.at;
        match take_step(indexed, record, at, &mut items, &mut ts, marking) {
            Err(refusal) => {
                return Err(Stopped {
                    refusal,
                    steps: place.steps,
                });
            }
            Ok(bytes) => {
                place = Place {
                    at: at + bytes,
                    steps: place.steps + 1,
                };
            }
        }
    }
    // The exits are the last places.
    if exits::all_marked(&marking[exits_from..]) {
        Ok(Ran::Finished(place.steps))
    } else {
        Ok(Ran::Unfinished(place.steps))
    }
}
