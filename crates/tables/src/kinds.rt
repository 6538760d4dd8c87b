// 01, "Net tables": "a byte per place (1 entry, 2 internal, 3 exit)", and "entries from 0, then internals, then exits".
ghost use Rattle.std.specs.Prelude.{◌≡◌, ◌++◌, ◌+◌, ◌≤◌, length, drop, replicate};
ghost use Rattle.std.proofs.lemmas.List.Edits.{sets};

// Bytes of a lent table, which C reads as numbers.
const ENTRY: u8 = 1;

const INTERNAL: u8 = 2;

const EXIT: u8 = 3;

/// So many places from a number on are of one kind.
pub fn write_run(kinds: &mut [u8], start: usize, count: usize, kind: u8)
    requires { start + count ≤ length kinds.old }
    ensures { kinds.new ≡ sets kinds.old start (replicate count kind) }
{
    kinds[start..start + count].fill(kind);
}

/// The kinds of all places; what lies behind them is not written.
pub fn write_kinds(kinds: &mut [u8], entries: usize, internals: usize, exits: usize)
    requires { (entries + internals + exits ≤ length kinds.old) × (entries + internals + exits ≤ 2048) }
    ensures { kinds.new ≡ replicate entries 1 ++ (replicate internals 2 ++ replicate exits 3) ++ drop (entries + internals + exits) kinds.old }
{
    write_run(kinds, 0, entries, ENTRY);
    write_run(kinds, entries, internals, INTERNAL);
    write_run(kinds, entries + internals, exits, EXIT);
}
