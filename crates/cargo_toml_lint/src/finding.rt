//! What is found of a manifest.
ghost use Rattle.std.specs.Prelude.{◌≡◌};
ghost use Rattle.cargo_toml_lint.specs.Findings.{code_level};

/// How much a finding weighs.
#[derive(Debug, Copy, Clone, PartialEq, Eq)]
pub enum Level {
    /// Cargo refuses such a manifest.
    Error,
    /// It works as it stands, but may not be meant so.
    Hint,
    /// Cargo takes it, but it is hardly meant so.
    Warning,
}

/// What is found, in byte order of level and name.
#[derive(Debug, Copy, Clone, PartialEq, Eq, PartialOrd, Ord)]
pub enum Code {
    /// The feature's name isn't one that Cargo takes.
    BadName,
    /// A dependency is asked for a feature whose name can't be one.
    BadRequest,
    /// A target requires `dep:d` or `d?/f`.
    BadRequired,
    /// The text is of no form that Cargo knows.
    BadText,
    /// The feature is written as a table, which says something beside what it enables.
    FeatureTable,
    /// The list of the feature has its own name.
    NamesItself,
    /// The text is `dep:d`, `d?/f` or a `d` that isn't listed, of a dependency that isn't optional.
    NotOptional,
    /// A dev-dependency is optional.
    OptionalDev,
    /// The text names an optional dependency whose key is no feature, since some text has its
    /// `dep:`.
    Reserved,
    /// The feature is listed, and has the name of an optional dependency on which no text acts.
    SameName,
    /// The text names or acts on what the manifest doesn't have.
    Unknown,
    /// An optional dependency that isn't listed and no text names by `dep:`: its key is a feature.
    Implied,
    /// `default` enables the feature, which is hidden or private, and nothing else does.
    PrivateDefault,
    /// The feature enables itself through others.
    Cycle,
    /// A target requires what the manifest doesn't have. Cargo warns of it.
    Missing,
    /// A feature, some of its texts, or the key of a dependency is beyond the limit of what counts.
    OverLimit,
    /// The feature is hidden, and no feature that isn't hidden leads to it.
    Unreachable,
}

impl Level {
    /// The level's name.
    pub fn name(self) -> &'static str {
        match self {
            Level::Error => "error",
            Level::Hint => "hint",
            Level::Warning => "warning",
        }
    }
}

impl Code {
    /// The code's name.
    pub fn name(self) -> &'static str {
        match self {
            Code::BadName => "bad-name",
            Code::BadRequest => "bad-request",
            Code::BadRequired => "bad-required",
            Code::BadText => "bad-text",
            Code::FeatureTable => "feature-table",
            Code::NamesItself => "names-itself",
            Code::NotOptional => "not-optional",
            Code::OptionalDev => "optional-dev",
            Code::Reserved => "reserved",
            Code::SameName => "same-name",
            Code::Unknown => "unknown",
            Code::Implied => "implied",
            Code::PrivateDefault => "private-default",
            Code::Cycle => "cycle",
            Code::Missing => "missing",
            Code::OverLimit => "over-limit",
            Code::Unreachable => "unreachable",
        }
    }

    /// How much a finding of this code weighs.
    pub fn level(self) -> Level
        ensures { result ≡ code_level self }
    {
        match self {
            Code::Implied | Code::PrivateDefault => Level::Hint,
            Code::Cycle | Code::Missing | Code::OverLimit | Code::Unreachable => Level::Warning,
            _ => Level::Error,
        }
    }

    /// What a finding of this code says.
    pub fn words(self) -> &'static str {
        match self {
            Code::BadName => "is no name that Cargo takes for a feature",
            Code::BadRequest => "a dependency is asked for what is no feature's name",
            Code::BadRequired => "a target can't require by `dep:` or `?`",
            Code::BadText => "is no text that Cargo takes in a feature's list",
            Code::FeatureTable => "is written as a table, which Cargo doesn't read",
            Code::NamesItself => "names itself",
            Code::NotOptional => "takes a dependency for optional that isn't",
            Code::OptionalDev => "a dev-dependency can't be optional",
            Code::Reserved => "names an optional dependency that is no feature, by some `dep:`",
            Code::SameName => "has the name of an optional dependency that no feature acts on",
            Code::Unknown => "names or acts on what the manifest doesn't have",
            Code::Implied => {
                "an optional dependency that no feature names by `dep:` is a feature for users"
            }
            Code::PrivateDefault => "only `default` enables this hidden or private feature",
            Code::Cycle => "enables itself through others",
            Code::Missing => "a target requires what the manifest doesn't have",
            Code::OverLimit => "is beyond the limit, or some of its texts are",
            Code::Unreachable => "no feature for users leads to this hidden one",
        }
    }
}

/// One finding: a code holds for a feature, and for one of its texts where the code is of texts.
/// Findings stand in byte order of their code's level and name, then of feature and text.
#[derive(Debug, Clone, Copy, PartialEq, Eq, PartialOrd, Ord)]
pub struct Finding<'m> {
    /// What is found.
    pub code: Code,
    /// The feature, the key of the dependency or the name of the target, as the manifest writes it.
    pub feature: &'m str,
    /// The text at fault; empty where the code is of no text.
    pub text: &'m str,
}
