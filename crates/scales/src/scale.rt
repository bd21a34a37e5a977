// What a scale is, and what a priced scale is.
ghost use Rattle.std.specs.Prelude.{◌≡◌, ℕ, min};
ghost use Rattle.scales.specs.Cut.{top_amount};
ghost use Rattle.scales.specs.Semiring.{Semiring, Laws};

// A scale, by what its values mean. Two values are equal if they mean the same, and no operation refuses any value.
pub trait Scale: Copy {
    ghost Meaning: { Type 0 };

    ghost meaning: { Self → Meaning };

    // Nought, unit, sum and product of meanings.
    ghost ring: { Semiring Meaning };

    // A value for the places that a list does not have.
    ghost zero: { Self };

    fn nought() -> Self
        ensures { meaning result ≡ ring.nought };

    fn unit() -> Self
        ensures { meaning result ≡ ring.unit };

    fn sum(self, other: Self) -> Self
        ensures { meaning result ≡ ring.add (meaning self) (meaning other) };

    fn product(self, other: Self) -> Self
        ensures { meaning result ≡ ring.mul (meaning self) (meaning other) };

    // A law, which each scale proves: nought, unit, sum and product are those of a commutative semiring.
    ghost laws: { Laws ring };
}

// A scale that turns a price into a worth.
pub trait PricedScale: Scale {
    // A value that means what the price is worth.
    ghost worth: { ℕ → Self };

    fn worth(price: u64) -> Self
        ensures { Self.Scale.meaning result ≡ Self.Scale.meaning (worth price) };

    // A law: a price above the greatest amount is read as the greatest amount.
    ghost cuts: { (price : ℕ) → Self.Scale.meaning (worth price) ≡ Self.Scale.meaning (worth (min top_amount price)) };
}
