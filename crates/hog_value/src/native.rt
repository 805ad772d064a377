//! The functions that are there without a declaration.

ghost use Rattle.std.specs.Prelude.{◌≡◌, IfSome};
ghost use Rattle.hog_value.specs.Natives.{name_of, native_named};

/// A native function.
#[derive(Clone, Copy, Debug, PartialEq, Eq)]
pub enum Native {
    Print,
    Length,
    Concat,
    ToString,
    ToInt,
    Upper,
    Lower,
    Trim,
    StartsWith,
    ReplaceAll,
    SplitByString,
    Keys,
    Values,
    Has,
    ArrayPushBack,
    Empty,
    JsonParse,
    JsonStringify,
    Error,
    Fetch,
    DateAdd,
    DateDiff,
    Weekday,
}

const NATIVES: [Native; 23] = [
    Native::Print,
    Native::Length,
    Native::Concat,
    Native::ToString,
    Native::ToInt,
    Native::Upper,
    Native::Lower,
    Native::Trim,
    Native::StartsWith,
    Native::ReplaceAll,
    Native::SplitByString,
    Native::Keys,
    Native::Values,
    Native::Has,
    Native::ArrayPushBack,
    Native::Empty,
    Native::JsonParse,
    Native::JsonStringify,
    Native::Error,
    Native::Fetch,
    Native::DateAdd,
    Native::DateDiff,
    Native::Weekday,
];

#[tactic(auto, unfolding(crate::specs::Natives::native_named))]
fn find_native(word: &[u8]) -> Option<Native>
    ensures value { result ≡ native_named word.now }
    ensures some { IfSome result (λ n. name_of n ≡ word.now) }
{
    NATIVES
        .iter()
        .copied()
        .find(|native| native.name().as_bytes() == word)
}

impl Native {
    ghost use Rattle.std.specs.Prelude.{◌≡◌, ◌≢◌, IfNone, IfSome};
    ghost use Rattle.hog_value.specs.declared.native.Native.{Native as ANative};
    ghost use Rattle.hog_value.specs.Natives.{name_of, native_named, takes_of};

    /// The native that a word names. Takes no memory.
    pub fn named(word: &[u8]) -> Option<Native>
        ensures value { result ≡ native_named word.now }
        ensures some { IfSome result (λ n. name_of n ≡ word.now) }
        ensures none { IfNone result ((n : ANative) → name_of n ≢ word.now) }
    {
        find_native(word)
    }

    /// The word that names it. Takes no memory.
    pub fn name(&self) -> &'static str
        ensures { result.now ≡ name_of self.now }
    {
        match self {
            Native::Print => "print",
            Native::Length => "length",
            Native::Concat => "concat",
            Native::ToString => "toString",
            Native::ToInt => "toInt",
            Native::Upper => "upper",
            Native::Lower => "lower",
            Native::Trim => "trim",
            Native::StartsWith => "startsWith",
            Native::ReplaceAll => "replaceAll",
            Native::SplitByString => "splitByString",
            Native::Keys => "keys",
            Native::Values => "values",
            Native::Has => "has",
            Native::ArrayPushBack => "arrayPushBack",
            Native::Empty => "empty",
            Native::JsonParse => "jsonParse",
            Native::JsonStringify => "jsonStringify",
            Native::Error => "Error",
            Native::Fetch => "fetch",
            Native::DateAdd => "dateAdd",
            Native::DateDiff => "dateDiff",
            Native::Weekday => "weekday",
        }
    }

    /// Whether it takes n arguments. Takes no memory.
    pub fn takes(&self, n: u32) -> bool
        ensures { result ≡ takes_of self.now n }
    {
        match self {
            Native::Print | Native::Concat => true,
            Native::Length
            | Native::ToString
            | Native::ToInt
            | Native::Upper
            | Native::Lower
            | Native::Trim
            | Native::Keys
            | Native::Values
            | Native::Empty
            | Native::JsonParse
            | Native::JsonStringify
            | Native::Weekday => n == 1,
            Native::Error | Native::Fetch => n == 1 || n == 2,
            Native::StartsWith
            | Native::SplitByString
            | Native::Has
            | Native::ArrayPushBack
            | Native::DateAdd
            | Native::DateDiff => n == 2,
            Native::ReplaceAll => n == 3,
        }
    }
}
