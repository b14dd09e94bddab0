//! The forms in which keys and values, the lines of a listing, and figures are printed.
ghost use Rattle.std.specs.Prelude.{◌≡◌};
ghost use Rattle.bolt_text.specs.Forms.{is_json};

/// How a key or a value is printed (docs/COMMANDS.md, "What is printed").
#[derive(Clone, Copy, Debug, PartialEq, Eq)]
pub enum Form {
    /// As it is if all its bytes are printable ASCII characters, otherwise in hexadecimal.
    Printable,
    /// In lower-case hexadecimal, two digits a byte.
    Hex,
    /// As it is.
    Bytes,
    /// As it is if it is UTF-8 without control characters, otherwise in hexadecimal.
    Text,
    /// As it is if all its bytes are printable ASCII characters and it doesn't begin with `0x`,
    /// otherwise `0x` and its hexadecimal.
    Mixed,
    /// As a JSON string if it is UTF-8, otherwise as the object `{"hex":"00ff"}`.
    Json,
    /// As a JSON string of its hexadecimal.
    JsonHex,
}

impl Form {
    /// Whether a key or a value is a JSON value.
    pub fn is_json(self) -> bool
        ensures { result ≡ is_json self }
    {
        matches!(self, Form::Json | Form::JsonHex)
    }
}

/// How the line of a member of a listing is printed (docs/COMMANDS.md, "What is printed").
#[derive(Clone, Copy, Debug, PartialEq, Eq)]
pub enum ListForm {
    /// The parts of the path in hexadecimal, and then the value in hexadecimal or the sequence.
    Hex,
    /// A JSON object with the path, and the value or the sequence.
    Json,
    /// As `Json`, but each part and the value is a string of its hexadecimal.
    JsonHex,
}

/// How figures are printed (docs/COMMANDS.md, "What is printed").
#[derive(Clone, Copy, Debug, PartialEq, Eq)]
pub enum FigureForm {
    /// A line for each, with its name.
    Lines,
    /// A JSON object.
    Json,
}
