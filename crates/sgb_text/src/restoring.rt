//! Restores a graph from its saved text.
ghost use Rattle.std.specs.Prelude.{◌≡◌, ◌⊎◌, List, ℕ, Ok, Err, true, IfOk, IfErr, IsErrOf};
ghost use Rattle.sgb_graph.specs.Graph.{GraphOf};
ghost use Rattle.sgb_text.specs.Restore.{Accepted, Refused, is_within_limits, passes, IsReadAsOne, IsRefusedForRoom};
ghost use Rattle.sgb_text.specs.Read.{begins_well, read_as};

use sgb_grammar::{Fault, Header, check_number, read_header, read_saved};
use sgb_graph::{Graph, Refusal};
use std::alloc::Global;

/// Whether the check number of a text is compared.
#[derive(Clone, Copy, Debug, PartialEq, Eq)]
pub enum CheckRule {
    /// It must be right, or negative.
    Match,
    /// It may be any number.
    Any,
}

/// Returns the graph that a text spells.
///
/// Fails with `Syntax` if the first line is bad or the text spells no graph; with `TooLarge` if a count in a good first
/// line is above the limits; and last, with `CheckWrong` if the rule asks for a check number and the text names another.
/// Allocates the records, their texts and the graph; `NoRoom` if that fails.
pub fn restore(alloc: Global, text: &[u8], rule: CheckRule) -> Result<Graph, Refusal>
    ensures ok { IfOk result (λ g. Accepted rule text.now g) }
    ensures err { IfErr result (λ e. Refused rule text.now e) }
    ensures graph { IfOk result (λ g. read_as rule text.now ≡ Ok g) }
    ensures refusal { IfErr result (λ e. (e ≡ Refusal.NoRoom) ⊎ (read_as rule text.now ≡ Err e)) }
    ensures room { IsErrOf result Refusal.NoRoom → begins_well text.now ≡ true }
{
    restored(alloc, text, rule)
}

fn restored(alloc: Global, text: &[u8], rule: CheckRule) -> Result<Graph, Refusal>
    ensures ok { IfOk result (λ g. Accepted rule text.now g) }
    ensures err { IfErr result (λ e. Refused rule text.now e) }
{
    let Ok((header, lines)) = read_header(text) else {
        return Err(Refusal::Syntax);
    };
    if !is_within_limits(&header) {
        return Err(Refusal::TooLarge);
    }
    match read_saved(alloc, &header, lines) {
        Ok(saved) => {
            let agrees = passes(rule, saved.number, saved.body);
            match Graph::build(alloc, saved.parts) {
                Ok(graph) => {
                    if agrees {
                        Ok(graph)
                    } else {
                        Err(Refusal::CheckWrong)
                    }
                }
                Err(Refusal::NoRoom) => Err(Refusal::NoRoom),
                Err(_) => Err(Refusal::Syntax),
            }
        }
        Err(Fault::NoRoom) => Err(Refusal::NoRoom),
        Err(Fault::Syntax) => Err(Refusal::Syntax),
    }
}

fn is_within_limits(header: &Header) -> bool
    ensures { result ≡ is_within_limits header.now }
{
    header.vertices <= 65_535 && header.arcs <= 1_000_000
}

// Whether the rule allows this number under this body.
fn passes(rule: CheckRule, number: i64, body: &[u8]) -> bool
    ensures { result ≡ passes rule number body.now }
{
    match rule {
        CheckRule::Any => true,
        CheckRule::Match => number < 0 || number as u64 == check_number(body),
    }
}

/// The law of restoring: a text that is accepted spells one graph, and only a failed allocation refuses it.
pub fn answers_are_exact()
    ensures graph { IsReadAsOne }
    ensures refusals { IsRefusedForRoom }
{
    sgb_graph::build_law();
    sgb_grammar::spelling_law();
}

/// The law of reading: the function that says what a text is read as agrees with the relations that accept and refuse
/// texts, in both directions.
pub fn reading_law()
    ensures read { (rule : CheckRule) (t : List ℕ) (g : GraphOf) → Accepted rule t g → read_as rule t ≡ Ok g }
    ensures accepted { (rule : CheckRule) (t : List ℕ) (g : GraphOf) → read_as rule t ≡ Ok g → Accepted rule t g }
    ensures refusal { (rule : CheckRule) (t : List ℕ) (e : Refusal) → Refused rule t e → (e ≡ Refusal.NoRoom) ⊎ (read_as rule t ≡ Err e) }
    ensures refused { (rule : CheckRule) (t : List ℕ) (e : Refusal) → read_as rule t ≡ Err e → Refused rule t e }
{}
