// The tables of a net as they are lent: whether they are a net (check 30), whether a marking is one (check 35),
// and an index of the transitions by their first action.
#![tactic(auto)]

ghost use Rattle.std.specs.Prelude.{◌≡◌, true, replicate};
ghost use Rattle.net.specs.Check.{is_net};
ghost use Rattle.net.specs.Lent.{tables_lent};
ghost use Rattle.net.specs.inner.Chains.{Chains};

mod chains;
mod kinds;
mod lists;
mod pairs;
mod rows;
mod tables;
pub mod tokens;

pub use chains::{CHAIN_END, Index, index_by_first};
use tables::Rows;
pub use tables::{Lent, Row};

/// 01, "Box construction": a transition consumes from its input places and produces into its output places.
#[derive(Clone, Copy, Debug, PartialEq, Eq)]
pub enum Side {
    Inputs,
    Outputs,
}

/// Whether three lent tables with three counts are a net; and where they are, the index of the transitions by their first action is left
/// in `index`, which is new. Each test stands behind those that make it safe to look at the tables.
pub fn is_net_with_index(lent: &Lent, index: &mut Index) -> bool
    requires { index.old.heads ≡ replicate 256 65535 }
    ensures value { result ≡ is_net (tables_lent lent.now) }
    ensures chains { result ≡ true → Chains lent.now.rows.now lent.now.transitions index.new.heads index.new.nexts }
{
    if !lent.counts_fit()
        || !lent.tables_reach()
        || !kinds::in_order(&lent.kinds[..lent.places])
        || !rows::all_fit(lent)
    {
        return false;
    }
    let rows = Rows {
        numbers: lent.rows,
        transitions: lent.transitions,
    };
    pairs::differ(&rows, index)
}

/// The same for who needs no index.
pub fn is_net(lent: &Lent) -> bool
    ensures { result ≡ is_net (tables_lent lent.now) }
{
    is_net_with_index(lent, &mut Index::new())
}
