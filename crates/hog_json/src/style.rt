//! The two ways in which a value is written.

ghost use Rattle.std.specs.Prelude.{◌≡◌};
ghost use Rattle.hog_json.specs.Building.{spelling_of};

/// How a value is written.
#[derive(Clone, Copy)]
pub(crate) enum Style {
    /// As it is printed.
    Shown,
    /// As compact JSON, with null for what JSON doesn't have.
    Json,
}

impl Style {
    /// What stands between two items.
    pub(crate) fn comma(self) -> &'static str
        ensures { result.now ≡ (spelling_of self).comma }
    {
        match self {
            Style::Shown => ", ",
            Style::Json => ",",
        }
    }

    /// What stands between a key and its value.
    pub(crate) fn colon(self) -> &'static str
        ensures { result.now ≡ (spelling_of self).colon }
    {
        match self {
            Style::Shown => ": ",
            Style::Json => ":",
        }
    }

    /// What stands for a function.
    pub(crate) fn function(self) -> &'static str
        ensures { result.now ≡ (spelling_of self).function }
    {
        match self {
            Style::Shown => "<function>",
            Style::Json => "null",
        }
    }

    /// What stands for a cell that is open already.
    pub(crate) fn cycle(self) -> &'static str
        ensures { result.now ≡ (spelling_of self).cycle }
    {
        match self {
            Style::Shown => "<cycle>",
            Style::Json => "null",
        }
    }

    /// What stands for an array or a dictionary inside as many open cells as there may be.
    pub(crate) fn deep(self) -> &'static str
        ensures { result.now ≡ (spelling_of self).deep }
    {
        match self {
            Style::Shown => "<deep>",
            Style::Json => "null",
        }
    }
}
