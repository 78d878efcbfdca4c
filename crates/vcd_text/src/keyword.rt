//! The keyword commands of a text.

/// What a token that begins with `$` is (IEEE 1364-2005, 18.2.3).
#[derive(Clone, Copy, Debug, PartialEq, Eq)]
pub enum Keyword {
    /// `$scope`
    Scope,
    /// `$upscope`
    Upscope,
    /// `$var`
    Var,
    /// `$enddefinitions`
    EndDefinitions,
    /// `$end`
    End,
    /// One of the four that begin a dump of values: `$dumpvars`, `$dumpall`, `$dumpon`, `$dumpoff`.
    Dump,
    /// Any other.
    Other,
}
