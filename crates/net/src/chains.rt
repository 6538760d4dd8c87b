// An index of the transitions by their first action, as a chain for each action. Who looks for an action's transitions meets these only.
ghost use Rattle.std.specs.Prelude.{◌≡◌, true, ◌+◌, ◌*◌, ◌<◌, ◌≤◌, length, replicate};
ghost use Rattle.net.specs.inner.Chains.{Chains, Kept};
ghost use Rattle.net.specs.inner.Passes.{second_or_256, pairs_pass};

use crate::tables::Rows;

/// What stands behind the last transition of a chain: no transition has this number.
pub const CHAIN_END: u16 = 65535;

/// `heads` has for each action the first transition of its chain, and `nexts` for each transition the one after it on the same chain;
/// 65,535 ends a chain.
#[derive(Drop)]
pub struct Index {
    pub heads: [u16; field::ACTION_LIMIT],
    pub nexts: [u16; field::TRANSITION_LIMIT],
}

impl Index {
    /// A chain for each action, with nothing on it.
    pub fn new() -> Self
        ensures heads { result.heads ≡ replicate 256 65535 }
        ensures nexts { result.nexts ≡ replicate 1024 0 }
    {
        Index {
            heads: [CHAIN_END; field::ACTION_LIMIT],
            nexts: [0; field::TRANSITION_LIMIT],
        }
    }

    // From the last transition down to the first, each goes to the front of its chain: so the numbers on a chain rise. Where the second
    // actions rise too, no two transitions have the same pair, and nobody has to look for one.
    pub(crate) fn link(&mut self, rows: &Rows) -> bool
        requires { self.old.heads ≡ replicate 256 65535 }
        ensures chains { Chains rows.now.numbers.now rows.now.transitions self.new.heads self.new.nexts }
        ensures kept { Kept rows.now.numbers.now rows.now.transitions self.old.nexts self.new.nexts }
        ensures pairs { result ≡ true → pairs_pass rows.now.numbers.now rows.now.transitions ≡ true }
    {
        let mut rise = true;
        for t in (0..rows.transitions).rev() {
            let first = usize::from(rows.row(t).first);
            if first < field::ACTION_LIMIT {
                let behind = self.heads[first];
                rise &= goes_before(rows, t, usize::from(behind));
                self.nexts[t] = behind;
                self.heads[first] = t as u16;
            }
        }
        rise
    }
}

// Transition t has a lower second action than the one behind it on its chain, if there is one.
fn goes_before(rows: &Rows, t: usize, behind: usize) -> bool
    requires { t < rows.now.transitions }
    ensures { result ≡ true → behind < rows.now.transitions → second_or_256 rows.now.numbers.now t < second_or_256 rows.now.numbers.now behind }
{
    if behind < rows.transitions {
        let second = rows.row(t).second;
        (second < rows.row(behind).second) & (usize::from(second) < field::ACTION_LIMIT)
    } else {
        true
    }
}

/// For each action up to 255, the chain of the transitions that have it as their first action, by rising number.
pub fn index_by_first(rows: &[u16], transitions: usize, index: &mut Index)
    requires { (transitions ≤ 1024) × (6 * transitions ≤ length rows.now) }
    ensures chains { Chains rows.now transitions index.new.heads index.new.nexts }
    ensures kept { Kept rows.now transitions index.old.nexts index.new.nexts }
{
    index.heads = [CHAIN_END; field::ACTION_LIMIT];
    index.link(&Rows {
        numbers: rows,
        transitions,
    });
}
