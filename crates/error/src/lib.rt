// What is refused, and why (source: error.rs).
//
// Every refusal of the library is a LyapunovError. specs/Refusal.antt gives each variant the number and the place that
// document 01 gives it, and every contract that speaks of a refusal goes through that definition: start reading there.
// specs/Tests.antt says what a list of tests refuses; `test` makes one.
#![tactic(auto)]

ghost use Rattle.std.specs.Prelude.{◌≡◌, [], ◌∷◌};
ghost use Rattle.error.specs.Refusal as Spec;
ghost use Rattle.error.specs.Tests as Tests;

// A variant holds its place where document 01 or 02 gives it one: a number, as document 01 counts places, of an entry, a
// direction, an output or a count. The source's names are kept where it has the variant.
#[derive(Clone, Copy)]
pub enum LyapunovError {
    ZeroTopK,
    InvalidStepSize,
    ZeroStepsPerWindow,
    ZeroWindows,
    CountAboveLimit(usize),
    InvalidInitialTime,
    ZeroDimension,
    DimensionAboveLimit,
    MatrixMismatch,
    StateMismatch,
    NonFiniteInitialState(usize),
    InvalidExponentCount,
    OutputTooShort(usize),
    DegenerateTangent(usize),
    InvalidWindowDuration,
    NonFiniteState(usize),
    NonFiniteTangent(usize),
    InvalidTime,
    TangentMismatch,
    NoExponents,
    TooManyExponents,
    NonFiniteExponent(usize),
    IncompleteBytes,
    LogarithmDomain,
    TooFewCells,
    NoSuchNumber,
    StoreFull,
    DispatcherFull,
    ZeroStepsPerTransientWindow,
}

// A refusal's number and its place. `place` is document 01's own term: the index, direction or output that the refusal
// points at, and 0 where none is stated.
#[derive(Clone, Copy)]
pub struct Refusal {
    pub number: u64,
    pub place: usize,
}

impl Refusal {
    fn new(number: u64, place: usize) -> Refusal
        ensures { result ≡ Spec.refuse number place }
    {
        Refusal { number, place }
    }
}

// Document 01's number of an error, and its place.
impl From<LyapunovError> for Refusal {
    ghost from_gives = { λ error refusal. refusal ≡ Spec.refusal error };

    fn from(error: LyapunovError) -> Refusal {
        match error {
            LyapunovError::ZeroTopK => Refusal::new(1, 0),
            LyapunovError::InvalidStepSize => Refusal::new(2, 0),
            LyapunovError::ZeroStepsPerWindow => Refusal::new(3, 0),
            LyapunovError::ZeroWindows => Refusal::new(4, 0),
            LyapunovError::CountAboveLimit(p) => Refusal::new(5, p),
            LyapunovError::InvalidInitialTime => Refusal::new(6, 0),
            LyapunovError::ZeroDimension => Refusal::new(7, 0),
            LyapunovError::DimensionAboveLimit => Refusal::new(8, 0),
            LyapunovError::MatrixMismatch => Refusal::new(9, 0),
            LyapunovError::StateMismatch => Refusal::new(10, 0),
            LyapunovError::NonFiniteInitialState(p) => Refusal::new(11, p),
            LyapunovError::InvalidExponentCount => Refusal::new(12, 0),
            LyapunovError::OutputTooShort(p) => Refusal::new(13, p),
            LyapunovError::DegenerateTangent(p) => Refusal::new(14, p),
            LyapunovError::InvalidWindowDuration => Refusal::new(15, 0),
            LyapunovError::NonFiniteState(p) => Refusal::new(16, p),
            LyapunovError::NonFiniteTangent(p) => Refusal::new(17, p),
            LyapunovError::InvalidTime => Refusal::new(18, 0),
            LyapunovError::TangentMismatch => Refusal::new(19, 0),
            LyapunovError::NoExponents => Refusal::new(20, 0),
            LyapunovError::TooManyExponents => Refusal::new(21, 0),
            LyapunovError::NonFiniteExponent(p) => Refusal::new(22, p),
            LyapunovError::IncompleteBytes => Refusal::new(23, 0),
            LyapunovError::LogarithmDomain => Refusal::new(24, 0),
            LyapunovError::TooFewCells => Refusal::new(25, 0),
            LyapunovError::NoSuchNumber => Refusal::new(26, 0),
            LyapunovError::StoreFull => Refusal::new(27, 0),
            LyapunovError::DispatcherFull => Refusal::new(28, 0),
            LyapunovError::ZeroStepsPerTransientWindow => Refusal::new(29, 0),
        }
    }
}

// One test, and what is refused where it fails.
pub fn test(passes: bool, error: LyapunovError) -> Result<(), LyapunovError>
    ensures { Spec.reported result ≡ Tests.first_failing (record { passes = passes; refusal = Spec.refusal error } ∷ []) }
{
    if passes { Ok(()) } else { Err(error) }
}
