// 01, "Refusal numbers": "An accepted record is finished if all exit places are marked, else unfinished".
ghost use Rattle.std.specs.Prelude.{◌≡◌, nat_le};
ghost use Rattle.std.specs.List.{list_all};

/// Each exit place holds a token.
pub fn all_marked(exits: &[u8]) -> bool
    ensures { result ≡ list_all (λ x. nat_le 1 x) exits.now }
{
    exits.iter().all(|&tokens| 1 <= tokens)
}
