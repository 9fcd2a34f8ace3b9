//! The options of `mfwrite`, as a refusal names them.

ghost use Rattle.std.specs.Prelude.{◌≡◌, ◌≤◌, length};
ghost use Rattle.job_words.specs.OptionTable.{name_of};

/// What a refusal of the words names: the words, or the first option that breaks its rule.
#[derive(Clone, Copy, Debug, PartialEq, Eq)]
pub enum UsageWord {
    /// The words are no list of options.
    Words,
    Mapping,
    Poi,
    Intervals,
    Box,
    Rows,
    Workers,
    Date,
    Start,
    StartZoom,
    Language,
    Comment,
    CreatedBy,
    Spill,
    Make,
}

impl UsageWord {
    /// The name of the option, without `--`.
    pub fn name(self) -> &'static str
        ensures name { result.now ≡ name_of self }
        ensures short { length result.now ≤ 10 }
    {
        match self {
            UsageWord::Words => "words",
            UsageWord::Mapping => "mapping",
            UsageWord::Poi => "poi",
            UsageWord::Intervals => "intervals",
            UsageWord::Box => "box",
            UsageWord::Rows => "rows",
            UsageWord::Workers => "workers",
            UsageWord::Date => "date",
            UsageWord::Start => "start",
            UsageWord::StartZoom => "start-zoom",
            UsageWord::Language => "language",
            UsageWord::Comment => "comment",
            UsageWord::CreatedBy => "created-by",
            UsageWord::Spill => "spill",
            UsageWord::Make => "make",
        }
    }
}
