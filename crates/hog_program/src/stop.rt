//! Why a source is no program.

use hog_parser::ParseStop;
use hog_scope::ScopeStop;
use hog_tokens::LexStop;
use std::alloc::AllocError;

/// Why a source is no program; `at` is the place of a byte in the source, counted from 0.
#[derive(Clone, Copy, Debug, PartialEq, Eq)]
pub enum BuildStop {
    /// It has more than 16,384 bytes.
    TooLong,
    /// It isn't UTF-8; its longest prefix that is has `at` bytes.
    NotUtf8 { at: usize },
    /// A byte that begins no token, or a backslash that begins no escape.
    BadByte { at: usize },
    /// A text, a template or a comment without its end, at its start.
    Unclosed { at: usize },
    /// A number past 9223372036854775807, at its start.
    TooLarge { at: usize },
    /// Its tokens spell no tree; `at` is the first of them that can't go on, or the end.
    Syntax { at: usize },
    /// Its tokens spell no tree of a height of at most 100, which is passed at `at`.
    TooNested { at: usize },
    /// The scope of a name declares it already.
    AlreadyDeclared { at: usize },
    /// A word is assigned, and no declaration of it is in sight.
    AssignsUnknown { at: usize },
    /// A word is called, no declaration of it is in sight, and it names no native.
    UnknownFunction { at: usize },
    /// A native doesn't take so many arguments.
    WrongCount { at: usize },
    OutOfMemory,
}

impl From<AllocError> for BuildStop {
    ghost use Rattle.std.specs.Prelude.{◌≡◌};
    ghost use Rattle.hog_program.specs.declared.stop.BuildStop.TheVariants.{OutOfMemory};

    ghost from_gives = { λ _ e. e ≡ OutOfMemory };

    fn from(_error: AllocError) -> BuildStop {
        BuildStop::OutOfMemory
    }
}

impl From<LexStop> for BuildStop {
    ghost use Rattle.std.specs.Prelude.{◌≡◌};
    ghost use Rattle.hog_program.specs.Stops.{of_lex};

    ghost from_gives = { λ stop e. e ≡ of_lex stop };

    fn from(stop: LexStop) -> BuildStop {
        match stop {
            LexStop::NotUtf8 { at } => BuildStop::NotUtf8 { at },
            LexStop::BadByte { at } => BuildStop::BadByte { at },
            LexStop::Unclosed { at } => BuildStop::Unclosed { at },
            LexStop::TooLarge { at } => BuildStop::TooLarge { at },
            LexStop::OutOfMemory => BuildStop::OutOfMemory,
        }
    }
}

impl From<ParseStop> for BuildStop {
    ghost use Rattle.std.specs.Prelude.{◌≡◌};
    ghost use Rattle.hog_program.specs.Stops.{of_parse};

    ghost from_gives = { λ stop e. e ≡ of_parse stop };

    fn from(stop: ParseStop) -> BuildStop {
        match stop {
            ParseStop::Syntax { at } => BuildStop::Syntax { at },
            ParseStop::TooNested { at } => BuildStop::TooNested { at },
            ParseStop::OutOfMemory => BuildStop::OutOfMemory,
        }
    }
}

impl From<ScopeStop> for BuildStop {
    ghost use Rattle.std.specs.Prelude.{◌≡◌};
    ghost use Rattle.hog_program.specs.Stops.{of_scope};

    ghost from_gives = { λ stop e. e ≡ of_scope stop };

    fn from(stop: ScopeStop) -> BuildStop {
        match stop {
            ScopeStop::AlreadyDeclared { at } => BuildStop::AlreadyDeclared { at },
            ScopeStop::AssignsUnknown { at } => BuildStop::AssignsUnknown { at },
            ScopeStop::UnknownFunction { at } => BuildStop::UnknownFunction { at },
            ScopeStop::WrongCount { at } => BuildStop::WrongCount { at },
            ScopeStop::OutOfMemory => BuildStop::OutOfMemory,
        }
    }
}
