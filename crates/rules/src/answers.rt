// The types that answers are made of, each with the number that document 01 gives its cases.
ghost use Rattle.std.specs.Prelude.{◌≡◌};
ghost use Rattle.rules.specs.Answers.{group_number, refusal_number, refusal_of, failure_number, failure_of, end_number, end_of};

// What a run or a program is for.
#[derive(Clone, Copy)]
pub enum Group {
    Install,
    Boot,
}

impl Group {
    pub fn number(self) -> u8
        ensures { result ≡ group_number self }
    {
        match self {
            Group::Install => 0,
            Group::Boot => 1,
        }
    }
}

// Why a job refuses, in the order of the table. Each number of document 01 stands here once.
#[derive(Clone, Copy)]
pub enum Refusal {
    EnvelopeTooLong,
    NotCbor,
    Malformed,
    WrongVersion,
    RepeatedIdentifier,
    UnknownCommand,
    UnknownParameter,
    NotAllowed,
    NoSuchComponent,
    TooDeep,
    TooManyCommands,
    NotVerified,
    EventOpen,
    WrongNumber,
    BadSlots,
    NoSlot,
    BadAnswers,
    ShortTrace,
    ShortRoom,
    BadProgram,
}

impl Refusal {
    pub const ENVELOPE_TOO_LONG: usize = 64;

    pub const NOT_CBOR: usize = 65;

    pub const MALFORMED: usize = 66;

    pub const WRONG_VERSION: usize = 67;

    pub const REPEATED_IDENTIFIER: usize = 68;

    pub const UNKNOWN_COMMAND: usize = 69;

    pub const UNKNOWN_PARAMETER: usize = 70;

    pub const NOT_ALLOWED: usize = 71;

    pub const NO_SUCH_COMPONENT: usize = 72;

    pub const TOO_DEEP: usize = 73;

    pub const TOO_MANY_COMMANDS: usize = 74;

    pub const NOT_VERIFIED: usize = 80;

    pub const EVENT_OPEN: usize = 81;

    pub const WRONG_NUMBER: usize = 82;

    pub const BAD_SLOTS: usize = 85;

    pub const NO_SLOT: usize = 83;

    pub const BAD_ANSWERS: usize = 86;

    pub const SHORT_TRACE: usize = 84;

    pub const SHORT_ROOM: usize = 96;

    pub const BAD_PROGRAM: usize = 97;

    pub fn number(self) -> usize
        ensures { result ≡ refusal_number self }
    {
        match self {
            Refusal::EnvelopeTooLong => Refusal::ENVELOPE_TOO_LONG,
            Refusal::NotCbor => Refusal::NOT_CBOR,
            Refusal::Malformed => Refusal::MALFORMED,
            Refusal::WrongVersion => Refusal::WRONG_VERSION,
            Refusal::RepeatedIdentifier => Refusal::REPEATED_IDENTIFIER,
            Refusal::UnknownCommand => Refusal::UNKNOWN_COMMAND,
            Refusal::UnknownParameter => Refusal::UNKNOWN_PARAMETER,
            Refusal::NotAllowed => Refusal::NOT_ALLOWED,
            Refusal::NoSuchComponent => Refusal::NO_SUCH_COMPONENT,
            Refusal::TooDeep => Refusal::TOO_DEEP,
            Refusal::TooManyCommands => Refusal::TOO_MANY_COMMANDS,
            Refusal::NotVerified => Refusal::NOT_VERIFIED,
            Refusal::EventOpen => Refusal::EVENT_OPEN,
            Refusal::WrongNumber => Refusal::WRONG_NUMBER,
            Refusal::BadSlots => Refusal::BAD_SLOTS,
            Refusal::NoSlot => Refusal::NO_SLOT,
            Refusal::BadAnswers => Refusal::BAD_ANSWERS,
            Refusal::ShortTrace => Refusal::SHORT_TRACE,
            Refusal::ShortRoom => Refusal::SHORT_ROOM,
            Refusal::BadProgram => Refusal::BAD_PROGRAM,
        }
    }

    // The refusal of a number that some refusal has.
    pub fn of(number: usize) -> Refusal
        ensures { result ≡ refusal_of number }
    {
        match number {
            Refusal::ENVELOPE_TOO_LONG => Refusal::EnvelopeTooLong,
            Refusal::NOT_CBOR => Refusal::NotCbor,
            Refusal::MALFORMED => Refusal::Malformed,
            Refusal::WRONG_VERSION => Refusal::WrongVersion,
            Refusal::REPEATED_IDENTIFIER => Refusal::RepeatedIdentifier,
            Refusal::UNKNOWN_COMMAND => Refusal::UnknownCommand,
            Refusal::UNKNOWN_PARAMETER => Refusal::UnknownParameter,
            Refusal::NOT_ALLOWED => Refusal::NotAllowed,
            Refusal::NO_SUCH_COMPONENT => Refusal::NoSuchComponent,
            Refusal::TOO_DEEP => Refusal::TooDeep,
            Refusal::TOO_MANY_COMMANDS => Refusal::TooManyCommands,
            Refusal::NOT_VERIFIED => Refusal::NotVerified,
            Refusal::EVENT_OPEN => Refusal::EventOpen,
            Refusal::WRONG_NUMBER => Refusal::WrongNumber,
            Refusal::NO_SLOT => Refusal::NoSlot,
            Refusal::SHORT_TRACE => Refusal::ShortTrace,
            Refusal::BAD_SLOTS => Refusal::BadSlots,
            Refusal::BAD_ANSWERS => Refusal::BadAnswers,
            Refusal::SHORT_ROOM => Refusal::ShortRoom,
            _ => Refusal::BadProgram,
        }
    }
}

// Why an input is refused, and the place of the refusal.
#[derive(Clone, Copy)]
pub struct Fault {
    pub refusal: Refusal,
    pub at: usize,
}

// Why a command fails in a way that nothing catches.
#[derive(Clone, Copy)]
pub enum Failure {
    ParameterUnset,
    Aborted,
    NoAnswer,
    BadStatus,
    TooLarge,
    NothingToCopy,
    NothingToRun,
}

impl Failure {
    pub const PARAMETER_UNSET: usize = 32;

    pub const ABORTED: usize = 33;

    pub const NO_ANSWER: usize = 34;

    pub const BAD_STATUS: usize = 35;

    pub const TOO_LARGE: usize = 36;

    pub const NOTHING_TO_COPY: usize = 37;

    pub const NOTHING_TO_RUN: usize = 38;

    pub fn number(self) -> usize
        ensures { result ≡ failure_number self }
    {
        match self {
            Failure::ParameterUnset => Failure::PARAMETER_UNSET,
            Failure::Aborted => Failure::ABORTED,
            Failure::NoAnswer => Failure::NO_ANSWER,
            Failure::BadStatus => Failure::BAD_STATUS,
            Failure::TooLarge => Failure::TOO_LARGE,
            Failure::NothingToCopy => Failure::NOTHING_TO_COPY,
            Failure::NothingToRun => Failure::NOTHING_TO_RUN,
        }
    }

    // The failure of a number that some failure has.
    pub fn of(number: usize) -> Failure
        ensures { result ≡ failure_of number }
    {
        match number {
            Failure::PARAMETER_UNSET => Failure::ParameterUnset,
            Failure::ABORTED => Failure::Aborted,
            Failure::NO_ANSWER => Failure::NoAnswer,
            Failure::BAD_STATUS => Failure::BadStatus,
            Failure::TOO_LARGE => Failure::TooLarge,
            Failure::NOTHING_TO_COPY => Failure::NothingToCopy,
            _ => Failure::NothingToRun,
        }
    }
}

// How a command, a sequence or a run ended.
#[derive(Clone, Copy)]
pub enum End {
    Finished,
    ConditionFailed,
    Started,
    Failed(Failure),
}

impl End {
    pub const FINISHED: usize = 0;

    pub const CONDITION_FAILED: usize = 1;

    pub const STARTED: usize = 2;

    pub fn number(self) -> usize
        ensures { result ≡ end_number self }
    {
        match self {
            End::Finished => End::FINISHED,
            End::ConditionFailed => End::CONDITION_FAILED,
            End::Started => End::STARTED,
            End::Failed(failure) => failure.number(),
        }
    }

    // The end of a number that some end has.
    pub fn of(number: usize) -> End
        ensures { result ≡ end_of number }
    {
        match number {
            End::FINISHED => End::Finished,
            End::CONDITION_FAILED => End::ConditionFailed,
            End::STARTED => End::Started,
            _ => End::Failed(Failure::of(number)),
        }
    }
}
