// Lists in which each number is compared with the one before it.
ghost use Rattle.std.specs.Prelude.{◌≡◌, Bool};
ghost use Rattle.net.specs.inner.Passes.{each_next};

// Each passes a test with the one before it. All are compared, with no way out before the end, so that the machine can compare many at once.
pub fn each_next<T: Copy, F: Fn(T, T) -> bool>(list: &[T], passes: F) -> bool
    requires { F.IsAlwaysCallable passes }
    ensures { (test : T → T → Bool) → ((x y : T) (r : Bool) → F.post passes x y r → r ≡ test x y) → result ≡ each_next test list.now }
{
    let mut all = true;
    for i in 1..list.len() {
        all &= passes(list[i - 1], list[i]);
    }
    all
}
