// Figures in range.
ghost use Rattle.std.specs.Prelude.{◌≡◌, nat_le};
ghost use Rattle.std.specs.List.{list_all};

// Each figure is at most `most`.
pub(crate) fn each_at_most(figures: &[u64], most: u64) -> bool
    ensures { result ≡ list_all (λ n. nat_le n most) figures.now }
{
    figures.iter().all(|figure| *figure <= most)
}
