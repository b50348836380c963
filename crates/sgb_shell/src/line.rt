//! A line of a script, as it is handed to its unit.
ghost use Rattle.std.specs.Prelude.{◌≡◌, true, false, List, ℕ, MatchOption};
ghost use Rattle.sgb_shell.specs.Unit.{takes_text, takes_lines, is_dot, is_end};
ghost use Rattle.sgb_shell.specs.Private.Holding.{is_above};
ghost use Rattle.sgb_shell.specs.Private.Line.{IsLine};

use crate::first::FirstBytes;

/// A line without its newline.
#[derive(Drop)]
pub(crate) enum ScriptLine<'a> {
    /// The bytes of a line of at most 8,192 bytes.
    Whole(&'a [u8]),
    /// How a longer line begins. It is refused, but may open or close a unit.
    Long(&'a FirstBytes),
}

impl<'a> ScriptLine<'a> {
    pub(crate) fn takes_text(&self) -> bool
        ensures { (line : List ℕ) → IsLine line self.now → result ≡ takes_text line }
    {
        match self {
            ScriptLine::Whole(bytes) => FirstBytes::of(bytes).takes_text(),
            ScriptLine::Long(first) => first.takes_text(),
        }
    }

    /// Whether other lines belong to the unit of the line.
    pub(crate) fn takes_lines(&self) -> bool
        ensures { (line : List ℕ) → IsLine line self.now → result ≡ takes_lines line }
    {
        match self {
            ScriptLine::Whole(bytes) => FirstBytes::of(bytes).takes_lines(),
            ScriptLine::Long(first) => first.takes_lines(),
        }
    }

    pub(crate) fn is_end(&self) -> bool
        ensures { (line : List ℕ) → IsLine line self.now → result ≡ is_end line }
    {
        match self {
            ScriptLine::Whole(bytes) => FirstBytes::of(bytes).is_end(),
            ScriptLine::Long(first) => first.is_end(),
        }
    }

    pub(crate) fn is_dot(&self) -> bool
        ensures { (line : List ℕ) → IsLine line self.now → result ≡ is_dot line }
    {
        match self {
            ScriptLine::Whole(bytes) => is_dot(bytes),
            ScriptLine::Long(_) => false,
        }
    }

    /// The bytes of the line, if there are at most 8,192.
    pub(crate) fn whole(&self) -> Option<&[u8]>
        ensures { (line : List ℕ) → IsLine line self.now → MatchOption result (is_above line ≡ true) (λ bytes. (is_above line ≡ false) × (bytes.now ≡ line)) }
    {
        match self {
            ScriptLine::Whole(bytes) => Some(bytes),
            ScriptLine::Long(_) => None,
        }
    }
}

fn is_dot(bytes: &[u8]) -> bool
    ensures { result ≡ is_dot bytes.now }
{
    bytes == b".".as_slice()
}
