//! What is read: files and standard input.

use crate::complaint::Complaint;
use crate::task::{Input, Inputs};
use sgb_graph::Items;
use sgb_programs::{INPUT_LIMIT, Operands, read_file};
use sgb_shell::{MeteredReader, RunFault};
use std::fs::File;
use std::io::Read;

/// Reads all of an input, of at most so many bytes.
pub fn read_input<'a>(
    rt: &HostRuntime,
    input: Input<'a>,
    limit: u32,
) -> Result<Vec<u8>, Complaint<'a>> {
    match input {
        Input::Standard => Ok(read_all(rt, rt.reader(), limit)?),
        Input::File(name) => Ok(read_all(rt, open(rt, name)?, limit)?),
    }
}

/// Reads the saved graphs that a command takes, one after another.
pub fn read_operands<'a>(rt: &HostRuntime, inputs: Inputs<'a>) -> Result<Operands, Complaint<'a>> {
    match inputs {
        Inputs::Absent => Ok(Operands::Absent),
        Inputs::One(input) => Ok(Operands::One(read_text(rt, input)?)),
        Inputs::Two(first, second) => {
            let first = read_text(rt, first)?;
            Ok(Operands::Two(first, read_text(rt, second)?))
        }
        Inputs::Described(input, word) => {
            let mut description = Vec::new(rt.alloc());
            description.extend_from_slice(word.as_bytes())?;
            Ok(Operands::Described(read_text(rt, input)?, Items::from_vec(description)))
        }
        Inputs::Changed(input) => Ok(Operands::Changed(read_text(rt, input)?)),
    }
}

/// Opens a file.
pub fn open<'a>(rt: &HostRuntime, name: &'a str) -> Result<File, Complaint<'a>> {
    match File::open(rt, name) {
        Ok(file) => Ok(file),
        Err(_) => Err(Complaint::CannotOpen(name)),
    }
}

fn read_text<'a>(rt: &HostRuntime, input: Input<'a>) -> Result<Items<u8>, Complaint<'a>> {
    Ok(Items::from_vec(read_input(rt, input, INPUT_LIMIT)?))
}

fn read_all<R: Read + Drop>(rt: &HostRuntime, reader: R, limit: u32) -> Result<Vec<u8>, RunFault> {
    let mut reader = MeteredReader::new(reader);
    read_file(rt.alloc(), &mut reader, limit)
}
