//! The letters that say which values the utility fields of a graph hold.
ghost use Rattle.std.specs.Prelude.{◌≡◌, IfSome, IfNone, replicate};
ghost use Rattle.std.specs.List.{list_all};
ghost use Rattle.sgb_graph.specs.Types.{IsTypes, is_letter};

use std::marker::Model;

/// Fourteen letters of `ZIVSA`: six for a vertex's fields, two for an arc's and six for the graph's.
///
/// `Z` allows Zero alone, `I` a number, `V` a vertex or the number 1, `A` an arc or the number 1, and `S` a text;
/// Zero is allowed everywhere.
#[derive(Clone, Copy, Debug, PartialEq, Eq)]
pub struct Types {
    letters: [u8; 14],
}

impl Model for Types {
    ghost use Rattle.std.specs.Prelude.{List, ℕ};
    ghost use Rattle.sgb_graph.specs.Types.{IsTypes};

    ghost Value = { List ℕ };

    ghost view = { λ t. t.letters };

    ghost invariant = { λ t. IsTypes t.letters };

    ghost inverse = { λ letters. record { letters = letters } };
}

impl Types {
    /// The types of these letters, where they are fourteen of `ZIVSA`.
    pub fn new(letters: &[u8]) -> Option<Types>
        ensures some { IfSome result (λ t. (t ≡ letters.now) × IsTypes letters.now) }
        ensures none { IfNone result (¬ IsTypes letters.now) }
    {
        if letters.len() != 14 || !are_letters(letters) {
            return None;
        }
        let mut copy = [b'Z'; 14];
        copy.copy_from_slice(letters);
        Some(Types { letters: copy })
    }

    /// Fourteen times `Z`.
    pub fn none() -> Types
        ensures value { result ≡ replicate 14 90 }
        ensures types { IsTypes result }
    {
        Types {
            letters: [b'Z'; 14],
        }
    }

    /// The letters.
    pub fn letters(&self) -> &[u8; 14]
        ensures value { result.now ≡ self.now }
        ensures types { IsTypes self.now }
    {
        &self.letters
    }
}

fn is_letter(letter: u8) -> bool
    ensures { result ≡ is_letter letter }
{
    matches!(letter, b'Z' | b'I' | b'V' | b'S' | b'A')
}

fn are_letters(letters: &[u8]) -> bool
    ensures { result ≡ list_all is_letter letters.now }
{
    letters.iter().all(|letter| is_letter(*letter))
}
