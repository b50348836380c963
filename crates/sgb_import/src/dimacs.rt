//! Texts in the formats of DIMACS.
ghost use Rattle.std.specs.Prelude.{◌≡◌, ◌<◌, ◌⊎◌, IfOk, IfErr, OnOk, Some, None, length, map, option_map};
ghost use Rattle.sgb_import.specs.Lines.{lines};
ghost use Rattle.sgb_import.specs.Dimacs.{first_line_fault, id_fault, id_line, id_of, last_fault, links_in, outline_of_dimacs, outline_with, refusal_of_dimacs};
ghost use Rattle.sgb_import.specs.Outline.{IsOutline};
ghost use Rattle.sgb_import.specs.Private.Cursors.{seen};
ghost use Rattle.sgb_import.specs.Private.Dimacs.{IsFew, HasRead, Takes, read_in};
ghost use Rattle.sgb_import.specs.Private.Outlined.{insertion_of, outline_of};

use crate::dimacs_line::Problem;
use crate::dimacs_step::{Step, next_step};
use crate::ids::is_id;
use crate::lines::{Line, Lines, behind};
use crate::outline::{Link, Names, Outline};
use crate::refusal::{ImportRefusal, TextFault};
use std::alloc::Global;

/// The id of a graph whose text says none.
const ID: &[u8] = b"import(dimacs)";

/// What the lines said so far, and the number of the last of them.
#[derive(Drop)]
pub(crate) struct Reader {
    problem: Option<Problem>,
    links: Vec<Link>,
    last: usize,
}

/// What a text in one of the formats of DIMACS says, or its first fault. `NoRoom` only where a line has an arc or an edge.
pub(crate) fn read_dimacs<'a>(alloc: Global, text: &'a [u8]) -> Result<Outline<'a>, ImportRefusal>
    ensures none { OnOk result (refusal_of_dimacs text.now ≡ None) }
    ensures value { IfOk result (λ o. outline_of o ≡ outline_of_dimacs text.now) }
    ensures outline { IfOk result (λ o. IsOutline (outline_of o)) }
    ensures err { IfErr result (λ e.
        ((e ≡ ImportRefusal.NoRoom) × (0 < length (links_in (lines text.now)))) ⊎ (refusal_of_dimacs text.now ≡ Some e)) }
{
    let id = read_id(text)?;
    let reader = read_lines(alloc, text)?;
    reader.finish(id)
}

// The id that the text says, or the one of texts without.
fn read_id(text: &[u8]) -> Result<&[u8], ImportRefusal>
    ensures id { IfOk result (λ id.
        (id_fault (id_line (lines text.now)) ≡ None) × (id.now ≡ id_of (id_line (lines text.now)))) }
    ensures err { IfErr result (λ e. id_fault (id_line (lines text.now)) ≡ Some e) }
{
    match find_id(text) {
        Some(line) if is_id(line.bytes) => Ok(line.bytes),
        Some(line) => Err(ImportRefusal::At {
            line: line.number,
            fault: TextFault::BadId,
        }),
        None => Ok(ID),
    }
}

// The first line that says an id, with the id in place of its bytes.
fn find_id(text: &[u8]) -> Option<Line<'_>>
    ensures { option_map seen result ≡ id_line (lines text.now) }
{
    for line in Lines::new(text) {
        if let Some(bytes) = behind(b"c ", line.bytes) {
            return Some(Line {
                number: line.number,
                bytes,
            });
        }
    }
    None
}

// What the lines say, or the first of them that is at fault.
fn read_lines(alloc: Global, text: &[u8]) -> Result<Reader, ImportRefusal>
    ensures read { IfOk result (λ r. (first_line_fault (lines text.now) ≡ None) × HasRead (lines text.now) r) }
    ensures err { IfErr result (λ e.
        ((e ≡ ImportRefusal.NoRoom) × (0 < length (links_in (lines text.now)))) ⊎ (first_line_fault (lines text.now) ≡ Some e)) }
{
    let mut reader = Reader {
        problem: None,
        links: Vec::new(alloc),
        last: 0,
    };
    for line in Lines::new(text) {
        reader.take(line)?;
    }
    Ok(reader)
}

impl Reader {
    // Reads the next line.
    fn take(&mut self, line: Line<'_>) -> Result<(), ImportRefusal>
        requires { IsFew self.old.problem }
        ensures line { Takes (read_in self.old) (seen line.entry) result (read_in self.new) }
        ensures few { OnOk result (IsFew self.new.problem) }
        ensures last { OnOk result (self.new.last ≡ line.entry.number) }
    {
        self.last = line.number;
        match next_step(self.problem, self.links.len(), line) {
            Ok(Step::Nothing) => Ok(()),
            Ok(Step::Begin(problem)) => {
                self.problem = Some(problem);
                Ok(())
            }
            Ok(Step::Add(link)) => match self.links.push(link) {
                Ok(()) => Ok(()),
                Err(_) => Err(ImportRefusal::NoRoom),
            },
            Err(fault) => Err(ImportRefusal::At {
                line: line.number,
                fault,
            }),
        }
    }

    // What all lines said, under this id.
    fn finish<'a>(self, id: &'a [u8]) -> Result<Outline<'a>, ImportRefusal>
        requires { IsFew self.problem }
        ensures outline { IfOk result (λ o.
            (last_fault self.last self.problem (length self.links.items) ≡ None)
            × (outline_of o ≡ outline_with id.now self.problem (map insertion_of self.links.items))) }
        ensures err { IfErr result (λ e. last_fault self.last self.problem (length self.links.items) ≡ Some e) }
    {
        let Some(problem) = self.problem else {
            return Err(ImportRefusal::At {
                line: self.last,
                fault: TextFault::NoProblem,
            });
        };
        if self.links.len() as u64 != problem.links {
            return Err(ImportRefusal::At {
                line: problem.line,
                fault: TextFault::WrongEdges,
            });
        }
        Ok(Outline {
            id,
            names: Names::Numbers(1, problem.vertices as u32),
            directed: problem.directed,
            links: self.links,
        })
    }
}
