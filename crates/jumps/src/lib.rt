// The jump of the third or fourth derivative at a knot between two gaps, and its allowance, both as numerators over the product of the gaps' powers. Document 01,
// "The jump test". Each function asks that the numbers keep within limits for which a computed test shows that nothing passes 64 bits; none names a limit.
#![tactic(auto)]

ghost use Rattle.std.specs.Prelude.{◌≡◌, ◌+◌, ◌*◌, ◌≤◌, ◌<◌, ◌^◌, pos, nat_abs, ◌+ℤ◌, ◌*ℤ◌};
ghost use Rattle.curve.specs.Curve.{degree};
ghost use Rattle.curve.specs.Jump.{clear};
ghost use Rattle.gaps.specs.Limits.{Gap};
ghost use Rattle.jumps.specs.Sides.{order_of, side, opposed, jump_of, leeways, past};
ghost use Rattle.jumps.specs.Spans.{no_span, spans, no_spans, met_jump, met_leeways};
ghost use Rattle.jumps.specs.Limits.{Held, Beside, Allowed, Meeting};

// The derivatives whose jumps are tested at a knot.
#[derive(Clone, Copy)]
pub enum Order {
    Third = 3,
    Fourth = 4,
}

impl Order {
    #[tactic(auto, unfolding(curve::specs::Curve::degree))]
    pub fn number(self) -> u32
        ensures { result ≡ degree (order_of self) }
    {
        self as u32
    }
}

// How many g3 the fourth's allowance has.
pub const CUBES: i64 = 20;

// A third of the third derivative at a knot, times h^3, or a twelfth of the fourth, times h^4, towards the neighbour on its right.
fn side(order: Order, h: i64, here: gaps::Knot, next: gaps::Knot) -> i64
    requires { Held h here next }
    ensures { result ≡ side order h here next }
{
    let rise = 4096 * (next.ordinate - here.ordinate);
    match order {
        Order::Third => {
            20 * rise
                - (12 * here.slope + 8 * next.slope) * h
                - (3 * here.curvature - next.curvature) * h * h
        }
        Order::Fourth => {
            (16 * here.slope + 14 * next.slope) * h
                + (3 * here.curvature - 2 * next.curvature) * h * h
                - 30 * rise
        }
    }
}

// Minus the side towards the left, of the side that the mirror shows: there the third changes its sign, and the fourth does not.
#[tactic(auto, using(std::proofs::lemmas::Int::ints), unfolding(crate::specs::Sides::opposed))]
fn opposed(order: Order, mirrored: i64) -> i64
    requires { nat_abs mirrored < 2 ^ 63 }
    ensures { result ≡ opposed order mirrored }
{
    match order {
        Order::Third => mirrored,
        Order::Fourth => -mirrored,
    }
}

// What clears a side of its fraction: h^3 or h^4, and 1 where there is no gap.
fn cleared(order: Order, h: i64) -> i64
    requires { Gap h }
    ensures { result ≡ pos (clear (nat_abs h) (degree (order_of order))) }
{
    if h < 1 {
        return 1;
    }
    match order {
        Order::Third => h * h * h,
        Order::Fourth => h * h * h * h,
    }
}

// Two fractions brought over each other's denominators, and added.
fn crossed(a: i64, p: i64, b: i64, q: i64) -> i64
    requires { nat_abs a * nat_abs p + nat_abs b * nat_abs q < 2 ^ 63 }
    ensures { result ≡ a *ℤ p +ℤ b *ℤ q }
{
    a * p + b * q
}

// Right less left at a knot, with a gap of q before it and one of h after it.
// At an end the knot stands for the neighbour that it lacks, and the gap there is 0.
pub fn jump(
    order: Order,
    q: i64,
    h: i64,
    before: gaps::Knot,
    here: gaps::Knot,
    after: gaps::Knot,
) -> i64
    requires { Beside q h before here after }
    ensures { result ≡ jump_of order q h before here after }
{
    let right = side(order, h, here, after);
    let left = opposed(order, side(order, q, here.mirrored(), before.mirrored()));
    crossed(right, cleared(order, q), left, cleared(order, h))
}

// What both sides allow; a side's is (square + 4 h) h when cleared.
pub fn allowance(order: Order, square: i64, q: i64, h: i64) -> i64
    requires { Allowed square q h }
    ensures { result ≡ leeways order square q h }
{
    crossed(
        (square + 4 * h) * h,
        cleared(order, q),
        (square + 4 * q) * q,
        cleared(order, h),
    )
}

// What a gap gives to the tests of one derivative at its two knots: the side that the left knot sees, minus
// the one that the right knot sees, what clears both, and what they allow.
#[derive(Clone, Copy)]
pub struct Span {
    pub ahead: i64,
    pub behind: i64,
    pub clears: i64,
    pub leeway: i64,
}

impl Span {
    // Of no gap, or of a derivative that is not asked.
    fn none() -> Span
        ensures { result ≡ no_span }
    {
        Span {
            ahead: 0,
            behind: 0,
            clears: 1,
            leeway: 0,
        }
    }
}

// For both derivatives, with the gap's products worked out once.
#[derive(Clone, Copy)]
pub struct Spans {
    pub third: Span,
    pub fourth: Span,
}

impl Spans {
    // From knot a to knot b, with the fourth where it is asked; `square` is the first number of the third's
    // allowance.
    pub fn of(asked: bool, square: i64, h: i64, a: gaps::Knot, b: gaps::Knot) -> Spans
        requires held { Held h a b }
        requires square_bound { nat_abs square ≤ 2 ^ 8 }
        ensures { result ≡ spans asked square h a b }
    {
        let rise = 4096 * (b.ordinate - a.ordinate);
        let s = a.slope * h;
        let s1 = b.slope * h;
        let area = h * h;
        let v = a.curvature * area;
        let v1 = b.curvature * area;
        let ahead = 20 * rise - (12 * s + 8 * s1) - (3 * v - v1);
        let behind = 12 * s1 + 8 * s - 20 * rise - (3 * v1 - v);
        let leeway = (square + 4 * h) * h;
        let cube = cleared(Order::Third, h);
        let third = Span {
            ahead,
            behind,
            clears: cube,
            leeway,
        };
        if !asked {
            return Spans {
                third,
                fourth: Span::none(),
            };
        }
        let ahead4 = 16 * s + 14 * s1 + (3 * v - 2 * v1) - 30 * rise;
        let behind4 = 16 * s1 + 14 * s - (3 * v1 - 2 * v) - 30 * rise;
        let leeway4 = (CUBES + 4 * h) * h;
        let fourth = cleared(Order::Fourth, h);
        Spans {
            third,
            fourth: Span {
                ahead: ahead4,
                behind: behind4,
                clears: fourth,
                leeway: leeway4,
            },
        }
    }

    // Of no gap, before the first knot.
    pub fn none() -> Spans
        ensures { result ≡ no_spans }
    {
        let span = Span::none();
        Spans {
            third: span,
            fourth: span,
        }
    }
}

// Whether a jump, of either sign, is over what is allowed.
#[tactic(auto, using(std::proofs::lemmas::Int::ints), unfolding(crate::specs::Sides::past))]
fn over(jump: i64, allowed: i64) -> bool
    requires { nat_abs jump < 2 ^ 63 }
    ensures { result ≡ past jump allowed }
{
    allowed < jump.abs()
}

// Whether a derivative jumps by more than its allowance where two gaps meet.
pub fn meet(left: Span, right: Span) -> bool
    requires { Meeting left right }
    ensures { result ≡ past (met_jump left right) (met_leeways left right) }
{
    over(
        crossed(right.ahead, left.clears, left.behind, right.clears),
        crossed(right.leeway, left.clears, left.leeway, right.clears),
    )
}
