// Amounts of crowns, as Revenue, BestThree and Tied read and add them.
ghost use Rattle.std.specs.Prelude.{◌≡◌, ◌+◌, min};
ghost use Rattle.std.specs.Option.{option_map};
ghost use Rattle.scales.specs.Adjoined.{mul_both};
ghost use Rattle.scales.specs.Cut.{top_amount};

// The greatest amount.
pub const TOP_AMOUNT: u64 = 1_000_000_000_000_000;

// Two amounts added, cut at the greatest amount.
pub(crate) fn cut_sum(a: u64, b: u64) -> u64
    ensures { result ≡ min top_amount (a + b) }
{
    a.saturating_add(b).min(TOP_AMOUNT)
}

// The amount that is read, if there is one.
pub(crate) fn cut(amount: Option<u64>) -> Option<u64>
    ensures { result ≡ option_map (min top_amount) amount }
{
    amount.min(Some(TOP_AMOUNT))
}

// Both added, if both are there.
pub(crate) fn together(a: Option<u64>, b: Option<u64>) -> Option<u64>
    ensures { result ≡ mul_both (λ x y. min top_amount (x + y)) a b }
{
    Some(cut_sum(a?, b?))
}
