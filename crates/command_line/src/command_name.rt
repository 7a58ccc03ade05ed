//! The commands, and what each takes.

ghost use Rattle.std.specs.Prelude.{◌≡◌, map};
ghost use Rattle.command_line.specs.Table.{row_of, takes_names};

/// How many files a command takes.
#[derive(Clone, Copy, Debug, PartialEq, Eq)]
pub enum Count {
    NoName,
    OneName,
    SomeNames,
}

/// The commands.
#[derive(Clone, Copy, Debug, PartialEq, Eq)]
pub enum CommandName {
    Check,
    Convert,
    Run,
    Query,
    Correlate,
    Generate,
}

static NO_OPTIONS: [&str; 0] = [];

static BACKEND: [&str; 1] = ["backend"];

static SCHEMA: [&str; 1] = ["schema"];

static PIPELINE: [&str; 1] = ["pipeline"];

static SCHEMA_AND_PIPELINE: [&str; 2] = ["schema", "pipeline"];

static BACKEND_AND_SCHEMA: [&str; 2] = ["backend", "schema"];

static SEED_AND_EVENTS: [&str; 2] = ["seed", "events"];

impl CommandName {
    /// The word that stands for the command.
    pub fn name(self) -> &'static str
        ensures { result.now ≡ (row_of self).name }
    {
        match self {
            CommandName::Check => "check",
            CommandName::Convert => "convert",
            CommandName::Run => "run",
            CommandName::Query => "query",
            CommandName::Correlate => "correlate",
            CommandName::Generate => "generate",
        }
    }

    /// The options that it asks for, without their hyphens.
    pub(crate) fn required(self) -> &'static [&'static str]
        ensures { map (λ s. s.now) result.now ≡ (row_of self).required }
    {
        match self {
            CommandName::Check | CommandName::Run => NO_OPTIONS.as_slice(),
            CommandName::Convert => BACKEND.as_slice(),
            CommandName::Query => BACKEND_AND_SCHEMA.as_slice(),
            CommandName::Correlate => SCHEMA.as_slice(),
            CommandName::Generate => SEED_AND_EVENTS.as_slice(),
        }
    }

    /// The options that it may have, without their hyphens.
    pub(crate) fn optional(self) -> &'static [&'static str]
        ensures { map (λ s. s.now) result.now ≡ (row_of self).optional }
    {
        match self {
            CommandName::Check | CommandName::Query | CommandName::Generate => {
                NO_OPTIONS.as_slice()
            }
            CommandName::Convert | CommandName::Run => SCHEMA_AND_PIPELINE.as_slice(),
            CommandName::Correlate => PIPELINE.as_slice(),
        }
    }

    /// How many files it takes.
    pub(crate) fn count(self) -> Count
        ensures { result ≡ (row_of self).files }
    {
        match self {
            CommandName::Check | CommandName::Convert | CommandName::Correlate => {
                Count::SomeNames
            }
            CommandName::Run | CommandName::Query => Count::OneName,
            CommandName::Generate => Count::NoName,
        }
    }

    pub(crate) fn takes_names(self) -> bool
        ensures { result ≡ takes_names (row_of self).files }
    {
        match self.count() {
            Count::NoName => false,
            Count::OneName | Count::SomeNames => true,
        }
    }
}
