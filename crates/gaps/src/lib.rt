// A knot at an end of a gap: what the arithmetic of one gap and that of two gaps share. Document 01, "The curve and its card".
#![tactic(auto)]

ghost use Rattle.std.specs.Prelude.{◌≡◌, ◌<◌, ◌^◌, nat_abs};
ghost use Rattle.gaps.specs.Knots.{mirror};

// What a knot has besides its minute: its ordinate in hundredths, its slope and curvature in card units.
#[derive(Clone, Copy)]
pub struct Knot {
    pub ordinate: i64,
    pub slope: i64,
    pub curvature: i64,
}

impl Knot {
    // As it is seen with the minutes running the other way.
    #[tactic(auto, using(std::proofs::lemmas::Int::ints), unfolding(crate::specs::Knots::mirror))]
    pub fn mirrored(self) -> Knot
        requires { nat_abs self.slope < 2 ^ 63 }
        ensures { result ≡ mirror self }
    {
        Knot {
            slope: -self.slope,
            ..self
        }
    }
}
