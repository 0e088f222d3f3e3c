// Why a call is refused. How it is refused, and what it writes into lent memory, are defined in specs/; proofs/ has the laws of it.
#![tactic(auto)]

ghost use Rattle.std.specs.Prelude.{◌≡◌};
ghost use Rattle.refusal.specs.Refusal.{number_of, row_of};

use std::error::Error;
use std::fmt;

/// The rows of the table of refusals, in their order.
#[derive(Clone, Copy, Debug, PartialEq, Eq, Hash)]
pub enum Refusal {
    /// the mode is STREAMING_IMPUTE, which is not there
    StreamingImpute,
    /// the number of channels (d) is 0
    NoChannels,
    /// the shingle size (k) is 0
    NoShingle,
    /// more than 16 channels, or a shingle of more than 64 readings
    TooLarge,
    /// not one weight, or not one code, for each channel
    WeightsOrCodes,
    /// the decay is not 0, nor between 0 and 1
    Decay,
    /// start_normalization is above stop_normalization
    StartAboveStop,
    /// start_normalization is above 1999
    StartTooLarge,
    /// a weight other than 1 with the method NONE
    WeightWithoutMethod,
    /// not one number for each channel
    InputLength,
    /// a number is infinite or not a number
    NotFinite,
    /// the time is below the newest
    TimeFalls,
    /// the forest's point, or the one expected, has not the length of a point
    PointLength,
    /// relative_index is outside 1 - k to 0
    RelativeIndex,
    /// nothing is there to drain
    NothingToDrain,
    /// a forecast of unequal lists, or without a whole block, or with a broken one
    ForecastShape,
    /// a range whose bounds are crossed (no call of this library)
    BoundsCrossed,
    /// a counter would pass its limit
    CounterLimit,
    /// not of the form: a text, a state that no text has, or a number of no mode, method, rule or code
    Form,
    /// a lent part is too short, or the counters of the head are not of its settings
    TooShort,
    /// a mark other than 0 or 1, or more than 2000 readings to fill
    ImputeMarks,
    /// the role lacks the right, or the role is above 3, or the table is not of the form
    Withheld,
    /// not a signal, or not one to eight settings of one channel (the settling program alone)
    Signal,
    /// times that fall, or a list of more than 4096 readings
    AlignTimes,
    /// start or calls outside 1 to 20
    StrandingsRange,
    /// not a statistic, or not readings, of which one can be put right
    NotCorrectable,
    /// the codes of the text are not those expected, in number or value
    OtherCodes,
    /// the time is below the newest, and the mode is GAP_AUGMENTED
    GapFalls,
}

/// The number that stands for it outside: in C, and in the texts of the programs.
impl From<Refusal> for u64 {
    ghost from_gives = { λ refusal n. n ≡ number_of refusal };

    fn from(refusal: Refusal) -> u64 {
        match refusal {
            Refusal::StreamingImpute => 1,
            Refusal::NoChannels => 2,
            Refusal::NoShingle => 3,
            Refusal::TooLarge => 4,
            Refusal::WeightsOrCodes => 5,
            Refusal::Decay => 6,
            Refusal::StartAboveStop => 7,
            Refusal::StartTooLarge => 8,
            Refusal::WeightWithoutMethod => 9,
            Refusal::InputLength => 10,
            Refusal::NotFinite => 11,
            Refusal::TimeFalls => 12,
            Refusal::PointLength => 13,
            Refusal::RelativeIndex => 14,
            Refusal::NothingToDrain => 15,
            Refusal::ForecastShape => 16,
            Refusal::BoundsCrossed => 17,
            Refusal::CounterLimit => 18,
            Refusal::Form => 19,
            Refusal::TooShort => 20,
            Refusal::ImputeMarks => 21,
            Refusal::Withheld => 22,
            Refusal::Signal => 23,
            Refusal::AlignTimes => 24,
            Refusal::StrandingsRange => 25,
            Refusal::NotCorrectable => 26,
            Refusal::OtherCodes => 27,
            Refusal::GapFalls => 28,
        }
    }
}

/// The number of a call's row, 0 where it is not refused.
pub fn row_of(answer: Result<(), Refusal>) -> u64
    ensures { result ≡ row_of answer }
{
    match answer {
        Ok(()) => 0,
        Err(refusal) => u64::from(refusal),
    }
}

impl fmt::Display for Refusal {
    fn fmt<W: fmt::Write>(&self, f: &mut fmt::Formatter<W>) -> fmt::Result {
        f.write_str(match self {
            Refusal::StreamingImpute => "the mode is STREAMING_IMPUTE, which is not there",
            Refusal::NoChannels => "the number of channels (d) is 0",
            Refusal::NoShingle => "the shingle size (k) is 0",
            Refusal::TooLarge => "more than 16 channels, or a shingle of more than 64 readings",
            Refusal::WeightsOrCodes => "not one weight, or not one code, for each channel",
            Refusal::Decay => "the decay is not 0, nor between 0 and 1",
            Refusal::StartAboveStop => "start_normalization is above stop_normalization",
            Refusal::StartTooLarge => "start_normalization is above 1999",
            Refusal::WeightWithoutMethod => "a weight other than 1 with the method NONE",
            Refusal::InputLength => "not one number for each channel",
            Refusal::NotFinite => "a number is infinite or not a number",
            Refusal::TimeFalls => "the time is below the newest",
            Refusal::PointLength =>
                "the forest's point, or the one expected, has not the length of a point",
            Refusal::RelativeIndex => "relative_index is outside 1 - k to 0",
            Refusal::NothingToDrain => "nothing is there to drain",
            Refusal::ForecastShape =>
                "a forecast of unequal lists, or without a whole block, or with a broken one",
            Refusal::BoundsCrossed => "a range whose bounds are crossed (no call of this library)",
            Refusal::CounterLimit => "a counter would pass its limit",
            Refusal::Form =>
                "not of the form: a text, a state that no text has, or a number of no mode, method, rule or code",
            Refusal::TooShort =>
                "a lent part is too short, or the counters of the head are not of its settings",
            Refusal::ImputeMarks => "a mark other than 0 or 1, or more than 2000 readings to fill",
            Refusal::Withheld =>
                "the role lacks the right, or the role is above 3, or the table is not of the form",
            Refusal::Signal =>
                "not a signal, or not one to eight settings of one channel (the settling program alone)",
            Refusal::AlignTimes => "times that fall, or a list of more than 4096 readings",
            Refusal::StrandingsRange => "start or calls outside 1 to 20",
            Refusal::NotCorrectable =>
                "not a statistic, or not readings, of which one can be put right",
            Refusal::OtherCodes =>
                "the codes of the text are not those expected, in number or value",
            Refusal::GapFalls => "the time is below the newest, and the mode is GAP_AUGMENTED",
        })
    }
}

impl Error for Refusal {}
