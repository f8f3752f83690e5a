//! The names of the commands and of their options.

ghost use Rattle.std.specs.Prelude.{◌≡◌, option_map};
ghost use Rattle.ss_words.specs.Names.{name_of, option_of, name_text, option_text, takes, has_value};

/// The name of a command: the first word.
#[derive(Clone, Copy, Debug, PartialEq, Eq)]
pub enum Name {
    Answer,
    Edit,
    Merge,
    Rehearse,
    Sync,
    Serve,
}

/// An option, which may stand anywhere behind the command's name.
#[derive(Clone, Copy, Debug, PartialEq, Eq)]
pub enum OptionName {
    /// `--at N`: the first reading of the clock, in hundredths of a second.
    At,

    /// `--newer`, without a value: only what is newer is fetched.
    Newer,

    /// `--workers N`
    Workers,

    /// `--connections N`: of one term.
    Connections,

    /// `--terms N`; 0 means without end.
    Terms,

    /// `--firefox`, without a value: conditions are read as Firefox means them.
    Firefox,

    /// `--journal FOLDER`: the logs of terms are kept there.
    Journal,

    /// `--from N`: the number of the first term whose logs are kept.
    From,
}

impl Name {
    /// The command of this name.
    #[tactic(auto, unfolding(crate::specs::Names::name_of))]
    pub fn read(text: &str) -> Option<Name>
        ensures { result ≡ name_of text.now }
    {
        match text {
            "answer" => Some(Name::Answer),
            "edit" => Some(Name::Edit),
            "merge" => Some(Name::Merge),
            "rehearse" => Some(Name::Rehearse),
            "sync" => Some(Name::Sync),
            "serve" => Some(Name::Serve),
            _ => None,
        }
    }

    /// The name itself.
    pub fn text(self) -> &'static str
        ensures { result.now ≡ name_text self }
    {
        match self {
            Name::Answer => "answer",
            Name::Edit => "edit",
            Name::Merge => "merge",
            Name::Rehearse => "rehearse",
            Name::Sync => "sync",
            Name::Serve => "serve",
        }
    }

    /// Whether the command has this option.
    pub(crate) fn takes(self, option: OptionName) -> bool
        ensures { result ≡ takes self option }
    {
        match self {
            Name::Answer | Name::Edit => matches!(option, OptionName::At),
            Name::Sync => matches!(option, OptionName::Newer),
            Name::Serve => matches!(
                option,
                OptionName::Workers
                    | OptionName::Connections
                    | OptionName::Terms
                    | OptionName::Firefox
                    | OptionName::Journal
                    | OptionName::From
            ),
            Name::Merge | Name::Rehearse => false,
        }
    }
}

impl OptionName {
    /// The option that this text writes, its dashes with it.
    #[tactic(auto, unfolding(crate::specs::Names::option_of))]
    pub fn read(text: &str) -> Option<OptionName>
        ensures { result ≡ option_of text.now }
    {
        match text {
            "--at" => Some(OptionName::At),
            "--newer" => Some(OptionName::Newer),
            "--workers" => Some(OptionName::Workers),
            "--connections" => Some(OptionName::Connections),
            "--terms" => Some(OptionName::Terms),
            "--firefox" => Some(OptionName::Firefox),
            "--journal" => Some(OptionName::Journal),
            "--from" => Some(OptionName::From),
            _ => None,
        }
    }

    /// The option as it is written, its dashes with it.
    pub fn text(self) -> &'static str
        ensures { result.now ≡ option_text self }
    {
        match self {
            OptionName::At => "--at",
            OptionName::Newer => "--newer",
            OptionName::Workers => "--workers",
            OptionName::Connections => "--connections",
            OptionName::Terms => "--terms",
            OptionName::Firefox => "--firefox",
            OptionName::Journal => "--journal",
            OptionName::From => "--from",
        }
    }

    /// Whether a value belongs to it.
    pub(crate) fn has_value(self) -> bool
        ensures { result ≡ has_value self }
    {
        !matches!(self, OptionName::Newer | OptionName::Firefox)
    }
}
