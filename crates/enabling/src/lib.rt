// Lists the enabled transitions at a marking: the call that is lent tables which may be no net, and a marking which may be none.
#![tactic(auto)]

ghost use Rattle.std.specs.Prelude.{◌≡◌};
ghost use Rattle.net.specs.Lent.{tables_lent};
ghost use Rattle.enabling.specs.Enabled;
ghost use Rattle.enabling.specs.Says.{enabling_says};

use field::{Fault, Refusal};
use listing::{Marked, when_none};
use moving::Net;
use net::Lent;
use net::tokens::is_marking;

pub mod listing;

/// How many transitions are enabled; or that none is, with some exit place unmarked.
#[derive(Clone, Copy, Debug, PartialEq, Eq)]
pub enum Enabling {
    Many(usize),
    Stuck,
}

/// Lists the enabled transitions. On refusal nothing is written, and what lies behind the list is never touched.
pub fn enabled(lent: &Lent, marking: &[u8], out: &mut [u16]) -> Result<Enabling, Refusal>
    ensures answer { enabling_says result ≡ (Enabled.enabled (tables_lent lent.now) marking.now out.old).answer }
    ensures list { out.new ≡ (Enabled.enabled (tables_lent lent.now) marking.now out.old).list }
{
    if !net::is_net(lent) {
        return Err(Fault::NoNet.at(0));
    }
    if !is_marking(marking, lent.places) {
        return Err(Fault::NoMarking.at(0));
    }
    let tokens = &marking[..lent.places];
    let marked = Marked {
        net: Net::lent(lent),
        tokens,
    };
    if !marked.fits(out.len()) {
        return Err(Fault::TableTooShort.at(0));
    }
    let many = marked.write(out);
    if many == 0 {
        return Ok(when_none(&lent.kinds[..lent.places], tokens));
    }
    Ok(Enabling::Many(many))
}
