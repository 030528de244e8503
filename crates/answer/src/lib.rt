// What a check answers: that it accepts, or which of document 01's refusals it meets, and where.
#![tactic(auto)]

ghost use Rattle.std.specs.Prelude.{◌≡◌, ◌<◌, ◌^◌, ℕ};
ghost use Rattle.answer.specs.Answer.{Verdict, ◌then◌, each, refuse};
ghost use Rattle.answer.specs.Judge.{number_of, verdict_of, AnswersAs};

// Why something is refused: document 01's table and document 02's, in the order of their numbers, from 1 on.
#[derive(Clone, Copy, PartialEq, Eq)]
pub enum Reason {
    FewKnots = 1,
    ManyKnots = 2,
    OddLengths = 3,
    NotRising = 4,
    WideGap = 5,
    FarOrdinate = 6,
    UnfitEnd = 7,
    Stuck = 8,
    OutOfRange = 9,
    Jump = 10,
    Outside = 11,
    Meaningless = 12,
    NoGoodByte = 13,
    BadRecord = 14,
    UnknownCode = 15,
    LogLength = 16,
    Stranded = 17,
    FewPlaces = 18,
    LateMiddle = 19,
    NoRoom = 20,
    FullBook = 21,
    UnsortedRoom = 22,
    FewGoodBytes = 23,
    ManyValues = 24,
    UnfitParts = 25,
    ShortBuffer = 26,
}

impl Reason {
    // Its number in the table.
    pub fn number(self) -> u32
        ensures { result ≡ number_of self }
    {
        self as u32
    }
}

// A refusal: why, and at which place.
#[derive(Clone, Copy, PartialEq, Eq)]
pub struct Refusal {
    pub reason: Reason,
    pub place: u32,
}

impl Refusal {
    pub fn number(self) -> u32
        ensures { result ≡ number_of self.reason }
    {
        self.reason.number()
    }
}

// What a check answers.
pub type Judged = Result<(), Refusal>;

// "given exactly when".
#[tactic(auto, unfolding(crate::specs::Answer::refuse))]
pub fn refuse(reason: Reason, place: u32, test: bool) -> Judged
    ensures { verdict_of result ≡ refuse (number_of reason) place test }
{
    if test {
        return Err(Refusal { reason, place });
    }
    Ok(())
}

// "The orders go before places": the first that refuses counts.
pub fn first(step: Judged, next: Judged) -> Judged
    ensures { verdict_of result ≡ (verdict_of step then verdict_of next) }
{
    step.and(next)
}

// "Within one step of an order the lowest place wins": a check at the places before n, one after the other.
pub fn each<F: Fn(usize) -> Judged>(n: usize, check: F) -> Judged
    requires { (i : ℕ) → i < n → F.pre check i }
    ensures { (step : ℕ → Verdict) → AnswersAs (F.post check) n step → verdict_of result ≡ each step 0 n }
{
    for i in 0..n {
        check(i)?;
    }
    Ok(())
}
