// Why a file or a call is refused, each reason with its number. Relies on nothing below it.

#![tactic(auto)]

ghost use Rattle.std.specs.Prelude.{◌≡◌};
ghost use Rattle.refusals.specs.Reasons.{reason_number};

#[derive(Clone, Copy, PartialEq, Eq)]
pub enum Reason {
    // The file ends before the header or a record is complete.
    Incomplete,
    // The file does not begin with the mark.
    Mark,
    // The version is none.
    Version,
    // A count is out of range.
    Count,
    // A field other than a count is out of range.
    Field,
    // A certificate that stands already, or a run number not above the one before.
    Repeated,
    // The seconds of a run's points are too many, or those of its segments differ from them.
    Seconds,
    // Bytes are left over behind the last run.
    LeftOver,
    // A lent output is too short.
    ShortOutput,
    // The job has no run of that number.
    UnknownRun,
    // A traverse layout is outside its ranges.
    OutsideRanges,
    // Whatever is wrong with a figure.
    Figure,
    // The run does not have that finding.
    UnknownFinding,
}

impl Reason {
    pub fn number(self) -> u32
        ensures { result ≡ reason_number self }
    {
        match self {
            Reason::Incomplete => 1,
            Reason::Mark => 2,
            Reason::Version => 3,
            Reason::Count => 4,
            Reason::Field => 5,
            Reason::Repeated => 6,
            Reason::Seconds => 7,
            Reason::LeftOver => 8,
            Reason::ShortOutput => 9,
            Reason::UnknownRun => 10,
            Reason::OutsideRanges => 11,
            Reason::Figure => 14,
            Reason::UnknownFinding => 15,
        }
    }
}
