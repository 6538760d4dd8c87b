// Two rising lists made one: the numbers of both, in order, and a number of both once.
ghost use Rattle.std.specs.Prelude.{◌≡◌, ◌+◌, ◌≤◌, ◌<◌, IfSome, IfNone, length, get_or};
ghost use Rattle.std.proofs.lemmas.List.Edits.{sets};
ghost use Rattle.arcs.specs.inner.Merge.{union, Run, Merged};

// What is left of one list, written from `at` on. Answers where it ends, if there is room for all of it.
fn copy_rest(rest: &[u16], out: &mut [u16], at: usize) -> Option<usize>
    requires { at ≤ length out.old }
    ensures some { IfSome result (λ end. (end ≡ at + length rest.now) × (end ≤ length out.old) × (out.new ≡ sets out.old at rest.now)) }
    ensures none { IfNone result (length out.old < at + length rest.now) }
{
    if out.len() - at < rest.len() {
        return None;
    }
    // A loop: `copy_from_slice` would have the archive ask for C's memmove, and the rest is mostly short.
    for (n, &place) in rest.iter().enumerate() {
        out[at + n] = place;
    }
    Some(at + rest.len())
}

// The numbers at the head of the list that are below a bound, written as far as there is room. Answers how many.
fn copy_below(list: &[u16], bound: u16, out: &mut [u16]) -> usize
    ensures run { Run list.now bound out.old result out.new }
    ensures some { 0 < length list.now → 0 < length out.old → get_or list.now 0 0 < bound → 0 < result }
{
    let most = list.len().min(out.len());
    for (n, &x) in list[..most].iter().enumerate() {
        if bound <= x {
            return n;
        }
        out[n] = x;
    }
    most
}

/// Two rising lists made one, in front of `out`. Answers how many numbers that are, if `out` has room for them all.
pub fn merge(first: &[u16], second: &[u16], out: &mut [u16]) -> Option<usize>
    ensures { Merged (length out.old) result (union first.now second.now) out.old out.new }
{
    let mut i = 0;
    let mut j = 0;
    let mut n = 0;
    // A turn takes a run of numbers from either list, so no iterator over the two goes along with it.
    while i < first.len() && j < second.len() {
        if out.len() <= n {
            return None;
        }
        let x = first[i];
        let y = second[j];
        if x < y {
            let run = copy_below(&first[i..], y, &mut out[n..]);
            i += run;
            n += run;
        } else if y < x {
            let run = copy_below(&second[j..], x, &mut out[n..]);
            j += run;
            n += run;
        } else {
            out[n] = x;
            i += 1;
            j += 1;
            n += 1;
        }
    }
    let rest = if i < first.len() {
        &first[i..]
    } else {
        &second[j..]
    };
    copy_rest(rest, out, n)
}
