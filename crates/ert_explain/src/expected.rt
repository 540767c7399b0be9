/// What could stand where a text stops being JSON.
#[derive(Clone, Copy)]
pub enum Expected {
    /// A value.
    Value,
    /// A value, or the bracket that closes the array.
    ValueOrBracket,
    /// The name of a member.
    Name,
    /// The name of a member, or the brace that closes the object.
    NameOrBrace,
    /// The colon behind a name.
    Colon,
    /// A comma, or the bracket that closes the array.
    CommaOrBracket,
    /// A comma, or the brace that closes the object.
    CommaOrBrace,
    /// Nothing more.
    End,
    /// The quote that closes a string.
    Quote,
    /// A character that isn't a control character.
    Character,
    /// A letter or a mark that makes an escape with the backslash before it.
    Escape,
    /// A hexadecimal digit.
    HexDigit,
    /// A decimal digit.
    Digit,
    /// No array or object, since 127 are open.
    LessNesting,
    /// A character in UTF-8.
    Utf8,
    /// A string without half a pair of surrogates.
    WholePairs,
    /// A number that a float of 64 bits can hold.
    SmallerNumber,
}
