// Finds the transitions that a step's items name, and fires them: 31, and then 32, 33, 36; for a lent step, behind its form.
ghost use Rattle.std.specs.Prelude.{◌≡◌, true, ◌<◌, length, map, leb, All, MatchResult, OnOk};
ghost use Rattle.field.specs.Lists.{all};
ghost use Rattle.net.specs.Tables.{item_of};
ghost use Rattle.net.specs.inner.Chains.{Chains};
ghost use Rattle.step.specs.inner.Walks.{Chains-prop};
ghost use Rattle.form.specs.inner.FormSays.{code_item};

use field::{Fault, Refusal};
use form::{Item, MOST_ITEMS, no_items, read_lent_step};
use moving::Net;
use net::{Index, Row};

// 01, "Net tables": "second action or 65,535".
fn second_number(item: Item) -> usize
    ensures { code_item item ≡ item_of item.first result }
{
    match item.second {
        Some(second) => usize::from(second),
        None => field::NO_SECOND,
    }
}

/// A net that is in order, with the index of its transitions by their first action.
#[derive(Clone, Copy)]
pub struct Indexed<'a> {
    pub net: Net<'a>,
    pub index: &'a Index,
    ghost chains: { Chains net.rows.now net.transitions index.now.heads index.now.nexts } by { Chains-prop net.rows.now net.transitions index.now.heads index.now.nexts },
}

impl<'a> Indexed<'a> {
    ghost use Rattle.algebra.specs.Firing.{fire_items};
    ghost use Rattle.moving.specs.Net.{transitions_of};
    ghost use Rattle.moving.specs.inner.Moves.{Moves};
    ghost use Rattle.step.specs.inner.Naming.{Found, ItemFound, ItemMissed};
    ghost use Rattle.step.specs.inner.Reads.{read_and_fire};

    // The transition that an item names, if there is one. Only the chain of the first action is walked, from link to link.
    fn find(self, item: Item) -> Option<usize>
        ensures { Found self.entry.net.rows.now self.entry.net.arcs.now self.entry.net.transitions (code_item item) result }
    {
        let second = second_number(item);
        let mut t = usize::from(self.index.heads[usize::from(item.first)]);
        // The chain says itself where it goes on, so the walk has no range to go over.
        while t < self.net.transitions {
            if usize::from(Row::at(self.net.rows, t).second) == second {
                return Some(t);
            }
            t = usize::from(self.index.nexts[t]);
        }
        None
    }

    // The transitions that the items name, or the first item that names none.
    fn find_items(self, items: &[Item], ts: &mut [u16]) -> Result<(), usize>
        requires { length items.now ≡ length ts.old }
        ensures says { MatchResult result (λ u. ItemFound self.entry.net.rows.now self.entry.net.arcs.now self.entry.net.transitions (map code_item items.now) ts.new) (ItemMissed self.entry.net.rows.now self.entry.net.arcs.now self.entry.net.transitions (map code_item items.now)) }
        ensures fits { OnOk result (All (λ t. t < self.entry.net.transitions) ts.new) }
    {
        for (i, &item) in items.iter().enumerate() {
            let Some(t) = self.find(item) else {
                return Err(i);
            };
            // A net has at most 1,024 transitions.
            ts[i] = t as u16;
        }
        Ok(())
    }

    /// A step's items, at the net's part of a marking, with room for as many transitions. That no place holds more than one token is a
    /// clause: no type can state it beside a marking that is lent to be written.
    pub fn fire_items(
        self,
        items: &[Item],
        ts: &mut [u16],
        marking: &mut [u8],
    ) -> Result<(), Refusal>
        requires room { length items.now ≡ length ts.old }
        requires marking_length { length marking.old ≡ self.net.places }
        requires marking_value { all (λ x. leb x 1) marking.old ≡ true }
        ensures { Moves result marking.old marking.new (fire_items (transitions_of self.entry.net) marking.old (map code_item items.now)) }
    {
        if let Err(item) = self.find_items(items, ts) {
            return Err(Fault::NoTransition.at(item));
        }
        self.net.move_tokens(marking, ts)
    }

    /// The one step field that is lent is read, and its items are fired.
    pub fn read_and_fire(self, step: &[u8], marking: &mut [u8]) -> Result<(), Refusal>
        requires marking_length { length marking.old ≡ self.net.places }
        requires marking_value { all (λ x. leb x 1) marking.old ≡ true }
        ensures { Moves result marking.old marking.new (read_and_fire (transitions_of self.entry.net) marking.old step.now) }
    {
        let mut items = no_items();
        let mut ts = [0; MOST_ITEMS];
        let count = read_lent_step(step, &mut items).map_err(|fault| fault.at(0))?;
        self.fire_items(&items[..count], &mut ts[..count], marking)
    }
}
