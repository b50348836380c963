//! The words of a line.
ghost use Rattle.std.specs.Prelude.{◌≡◌, ◌<◌, ◌≤◌, ◌==◌, ◌∷◌, ◌&&◌, ◌||◌, not, length, slice_index, IfOk, IfSome};
ghost use Rattle.std.specs.List.{prefix_len, list_any};
ghost use Rattle.sgb_script.specs.Words.{words_of, is_quotable};
ghost use Rattle.sgb_script.specs.Private.Texts.{IsPrintable, IsTextIfQuoted};
ghost use Rattle.sgb_script.specs.Private.Words.{seen, Splits, TakesWord, Ends, Finishes, is_nothing};

use crate::command::Line;
use crate::refusal::ShellRefusal;
use std::marker::Model;

const SPACE: u8 = b' ';

const QUOTE: u8 = b'"';

const BACKSLASH: u8 = b'\\';

/// The most bytes of a text.
const TEXT_LIMIT: usize = 4095;

/// A word of a line.
#[derive(Clone, Copy)]
pub(crate) enum Word<'a> {
    /// A run of bytes other than spaces and quotes.
    Plain(&'a [u8]),
    /// The bytes between two quotes.
    Quoted(&'a [u8]),
}

/// A cursor over the words of a line: those that are still to be read.
#[derive(Drop)]
pub(crate) struct Words<'a> {
    rest: &'a [u8],
}

impl<'a> Model for Words<'a> {
    ghost use Rattle.std.specs.Prelude.{List, Option};
    ghost use Rattle.sgb_script.specs.Words.{Word, words_of};
    ghost use Rattle.sgb_script.specs.Private.Texts.{IsPrintable};

    ghost Value = { Option (List Word) };

    ghost view = { λ w. words_of w.rest.now };

    ghost invariant = { λ w. IsPrintable w.rest.now };
}

impl<'a> Words<'a> {
    pub(crate) fn new(line: &'a [u8]) -> Words<'a>
        requires { IsPrintable line.now }
        ensures { result ≡ words_of line.now }
    {
        Words { rest: line }
    }

    /// Takes the next word off. Refused `ScriptSyntax` if there is none, or if it is not well formed.
    pub(crate) fn next(&mut self) -> Result<Word<'a>, ShellRefusal>
        ensures word { TakesWord self.old result self.new }
        ensures text { IfOk result (λ w. IsTextIfQuoted (seen w)) }
    {
        let (word, rest) = split_word(self.rest).ok_or(ShellRefusal::ScriptSyntax)?;
        self.rest = rest;
        Ok(word)
    }

    /// Whether no word is left.
    pub(crate) fn is_empty(&self) -> bool
        ensures { result ≡ is_nothing self.now }
    {
        count_spaces(self.rest) == self.rest.len()
    }

    /// This line, or refused `ScriptSyntax` if a word is left.
    pub(crate) fn finish(&self, line: Line) -> Result<Line, ShellRefusal>
        ensures { Finishes self.now line result }
    {
        self.end()?;
        Ok(line)
    }

    /// Refused `ScriptSyntax` if a word is left.
    pub(crate) fn end(&self) -> Result<(), ShellRefusal>
        ensures { Ends self.now result }
    {
        if self.is_empty() {
            Ok(())
        } else {
            Err(ShellRefusal::ScriptSyntax)
        }
    }
}

// The first word and the bytes behind it, if the line begins with one.
fn split_word(line: &[u8]) -> Option<(Word<'_>, &[u8])>
    requires { IsPrintable line.now }
    ensures words { Splits (words_of line.now) result }
    ensures texts { IfSome result (λ r. IsTextIfQuoted (seen r.0) × IsPrintable r.1.now) }
{
    let (_, text) = line.split_at(count_spaces(line));
    if text.is_empty() {
        return None;
    }
    if text[0] == QUOTE {
        return split_quoted(&text[1..]);
    }
    split_plain(text)
}

// The text between two quotes, the first of which stands before `inside`, and the bytes behind the second.
fn split_quoted(inside: &[u8]) -> Option<(Word<'_>, &[u8])>
    requires { IsPrintable inside.now }
    ensures words { Splits (words_of (34 ∷ inside.now)) result }
    ensures texts { IfSome result (λ r. IsTextIfQuoted (seen r.0) × IsPrintable r.1.now) }
{
    let (text, behind) = inside.split_at(count_inside(inside));
    if behind.is_empty() {
        return None;
    }
    let rest = &behind[1..];
    if !is_quotable(text) {
        return None;
    }
    if !ends_word(rest) {
        return None;
    }
    Some((Word::Quoted(text), rest))
}

// The first word and the bytes behind it, where the text begins with a byte of a plain word.
fn split_plain(text: &[u8]) -> Option<(Word<'_>, &[u8])>
    requires letter { 0 < prefix_len (λ b. not (b == 32 || b == 34)) text.now }
    requires printable { IsPrintable text.now }
    ensures words { Splits (words_of text.now) result }
    ensures texts { IfSome result (λ r. IsTextIfQuoted (seen r.0) × IsPrintable r.1.now) }
{
    let (word, rest) = text.split_at(count_letters(text));
    if !ends_word(rest) {
        return None;
    }
    Some((Word::Plain(word), rest))
}

// Whether a word can end before these bytes.
fn ends_word(rest: &[u8]) -> bool
    ensures { result ≡ (slice_index rest.now 0 == 32 || length rest.now == 0) }
{
    rest.is_empty() || rest[0] == SPACE
}

fn is_quotable(text: &[u8]) -> bool
    ensures { result ≡ is_quotable text.now }
{
    text.len() <= TEXT_LIMIT && !has_backslash(text)
}

fn has_backslash(text: &[u8]) -> bool
    ensures { result ≡ list_any (λ b. b == 92) text.now }
{
    text.iter().any(|b| *b == BACKSLASH)
}

fn count_spaces(line: &[u8]) -> usize
    ensures count { result ≡ prefix_len (λ b. b == 32) line.now }
    ensures within { result ≤ length line.now }
{
    line.iter().take_while(|b| **b == SPACE).count()
}

fn count_letters(text: &[u8]) -> usize
    ensures count { result ≡ prefix_len (λ b. not (b == 32 || b == 34)) text.now }
    ensures within { result ≤ length text.now }
{
    text.iter()
        .take_while(|b| **b != SPACE && **b != QUOTE)
        .count()
}

fn count_inside(inside: &[u8]) -> usize
    ensures count { result ≡ prefix_len (λ b. not (b == 34)) inside.now }
    ensures within { result ≤ length inside.now }
{
    inside.iter().take_while(|b| **b != QUOTE).count()
}
