// Fires a step at a marking: the call that is lent tables which may be no net, and a marking which may be none.
#![tactic(auto)]

ghost use Rattle.std.specs.Prelude.{◌≡◌};
ghost use Rattle.net.specs.Lent.{tables_lent};
ghost use Rattle.moving.specs.Says.{fired_says};
ghost use Rattle.step.specs.Fire;

use field::{Fault, Refusal};
use firing::Indexed;
use moving::Net;
use net::tokens::is_marking;
use net::{CHAIN_END, Index, Lent};

pub mod firing;

/// Fires the one step field that is lent. On refusal the marking is as it was, and what lies past the net's part is never touched.
pub fn fire(lent: &Lent, marking: &mut [u8], step: &[u8]) -> Result<(), Refusal>
    ensures answer { fired_says result ≡ (Fire.fire (tables_lent lent.now) marking.old step.now).answer }
    ensures marking { marking.new ≡ (Fire.fire (tables_lent lent.now) marking.old step.now).marking }
{
    // `Index::new`, written out: what a function answers would be copied here, a quarter of a small fire's instructions.
    let mut index = Index {
        heads: [CHAIN_END; field::ACTION_LIMIT],
        nexts: [0; field::TRANSITION_LIMIT],
    };
    if !net::is_net_with_index(lent, &mut index) {
        return Err(Fault::NoNet.at(0));
    }
    if !is_marking(marking, lent.places) {
        return Err(Fault::NoMarking.at(0));
    }
    let indexed = Indexed {
        net: Net::lent(lent),
        index: &index,
    };
    indexed.read_and_fire(step, &mut marking[..lent.places])
}
