/// The language of a text.
#[derive(Clone, Copy, PartialEq, Eq, Debug)]
pub enum Language {
    /// The analysed language.
    Core,
    /// The surface language: the keywords `and`, `or` and `not` and the symbols `[` and `]` are tokens of it, and a name
    /// that begins with two underscores is a bad token.
    Surface,
}
