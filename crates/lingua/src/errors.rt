// Errors and refusals of document 01, and their numbers, as specs/Errors.antt and specs/Faults.antt define them.
ghost use Rattle.std.specs.Prelude.{◌≡◌};
ghost use Rattle.lingua.specs.Faults.{error_number, refusal_number};

// What stops a run or a type check: run errors first, then the errors of bodies, and again a run error, one call more than may be open.
#[derive(Clone, Copy, Debug, PartialEq, Eq)]
pub enum Error {
    Overflow = 1,
    DivisionByZero = 2,
    YokeNotSatisfied = 3,
    ListEmpty = 4,
    ListFull = 5,
    WordTooLong = 6,
    NotFilled = 7,
    NumberExpected = 8,
    BooleanExpected = 9,
    WordExpected = 10,
    ListExpected = 11,
    RecordExpected = 12,
    NoSuchAttribute = 13,
    AttributePresent = 14,
    NoCoherence = 15,
    YokeExpected = 16,
    NotComparable = 17,
    BodyTooLarge = 18,
    LastAttribute = 19,
    TooDeep = 20,
}

impl Error {
    pub fn number(self) -> u8
        ensures { result ≡ error_number self }
    {
        self as u8
    }
}

// An error with the row where it arose, as a run records it and as the type check finds it (document 01: fault).
#[derive(Clone, Copy, Debug, PartialEq, Eq)]
pub struct ErrorAt {
    pub error: Error,
    pub place: u16,
}

// Why files, readings or buffers are refused.
#[derive(Clone, Copy, Debug, PartialEq, Eq)]
pub enum Refusal {
    BadBuffer = 1,
    BadLength = 2,
    BadMarker = 3,
    BadHeader = 4,
    BadCheck = 5,
    BadForm = 6,
    BadCount = 7,
    BadName = 8,
    BadConstant = 9,
    BadReference = 10,
    BadUse = 11,
    Misplaced = 12,
    BadType = 13,
    ModelsDiffer = 14,
    BadLimit = 15,
    BadReading = 16,
    TypeErrorFound = 17,
    BadParameters = 18,
    RepeatedReference = 19,
}

impl Refusal {
    pub fn number(self) -> u8
        ensures { result ≡ refusal_number self }
    {
        self as u8
    }
}

// What a status holds while there is no error.
pub const NO_ERROR: u8 = 0;
// errors are numbered from 1, below this; a handler may name each of them
pub const ERROR_NUMBERS: usize = 21;
