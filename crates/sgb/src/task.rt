//! What the command line asks for.

use crate::command_line::command;
use crate::complaint::Complaint;
use clap::ArgMatches;
use sgb_export::Format;
use sgb_import::{EdgeList, Source};
use sgb_shell::RunFault;
use sgb_text::CheckRule;
use std::alloc::Global;

/// What the command line asks for.
#[derive(Drop)]
pub enum Task<'a> {
    /// The help or the version, which is printed already.
    Explained,
    /// `sgb run [FILE]`: to run a script.
    Run(Input<'a>),
    /// `sgb queen`: to write the queen's moves.
    Queen,
    /// `sgb check [--any] FILE`: to check a saved graph by this rule.
    Check(Input<'a>, CheckRule),
    /// `sgb export --as FORMAT [--names] [--pos] [--any] [FILE]`: to write a saved graph in this form, by this rule.
    Export(Input<'a>, CheckRule, Format),
    /// `sgb import --from FORMAT [--names] [--directed] [FILE]`: to write a graph that is read in this form.
    Import(Input<'a>, Source),
    /// `sgb info [--any] [FILE]`: to tell the facts of a saved graph, by this rule.
    Info(Input<'a>, CheckRule),
    /// `sgb make [--any] COMMAND WORDS..`: to write the graph that a command makes.
    Make(Making<'a>),
}

/// What is read.
#[derive(Clone, Copy, PartialEq, Eq)]
pub enum Input<'a> {
    /// Standard input.
    Standard,
    /// The file of this name.
    File(&'a str),
}

/// How a graph is made.
#[derive(Drop)]
pub struct Making<'a> {
    /// By which rule saved graphs are read.
    pub rule: CheckRule,
    /// The saved graphs of which it is made.
    pub inputs: Inputs<'a>,
    /// The command of a script.
    pub command: &'a str,
    /// The other words behind the command.
    pub words: Vec<&'a [u8]>,
}

/// The saved graphs that a command takes, and the description of an induced graph.
#[derive(Clone, Copy)]
pub enum Inputs<'a> {
    Absent,
    One(Input<'a>),
    Two(Input<'a>, Input<'a>),
    Described(Input<'a>, &'a str),
    Changed(Input<'a>),
}

impl<'a> Input<'a> {
    // The file that a word names, or standard input for `-`.
    fn of_word(word: &'a str) -> Input<'a> {
        if word == "-" {
            Input::Standard
        } else {
            Input::File(word)
        }
    }

    // What is read where a file may be left out.
    fn of_matches(matches: &ArgMatches<'a>) -> Input<'a> {
        match matches.get_str("FILE") {
            Some(word) => Input::of_word(word),
            None => Input::Standard,
        }
    }
}

/// Reads the command line. Help and the version are printed at once.
pub fn read_task<'a>(rt: &HostRuntime, words: &'a [String]) -> Result<Task<'a>, Complaint<'a>> {
    match command(rt.alloc())?.try_get_matches_from(words) {
        Ok(matches) => task_of(rt.alloc(), &matches),
        Err(error) if error.use_stderr() => Err(Complaint::from(error)),
        Err(error) => match error.print(rt) {
            Ok(()) => Ok(Task::Explained),
            Err(_) => Err(Complaint::Fault(RunFault::Write)),
        },
    }
}

fn task_of<'a>(alloc: Global, matches: &ArgMatches<'a>) -> Result<Task<'a>, Complaint<'a>> {
    if let Some(run) = matches.subcommand_matches("run") {
        return Ok(Task::Run(Input::of_matches(run)));
    }
    if let Some(check) = matches.subcommand_matches("check") {
        return Ok(Task::Check(Input::of_matches(check), rule_of(check)));
    }
    if let Some(export) = matches.subcommand_matches("export") {
        return Ok(Task::Export(
            Input::of_matches(export),
            rule_of(export),
            format_of(export)?,
        ));
    }
    if let Some(import) = matches.subcommand_matches("import") {
        return Ok(Task::Import(Input::of_matches(import), source_of(import)?));
    }
    if let Some(info) = matches.subcommand_matches("info") {
        return Ok(Task::Info(Input::of_matches(info), rule_of(info)));
    }
    if let Some(make) = matches.subcommand_matches("make") {
        return Ok(Task::Make(making_of(alloc, make)?));
    }
    match matches.subcommand_matches("queen") {
        Some(_) => Ok(Task::Queen),
        None => Err(Complaint::CommandLine),
    }
}

fn rule_of(matches: &ArgMatches<'_>) -> CheckRule {
    if matches.get_flag("any") {
        CheckRule::Any
    } else {
        CheckRule::Match
    }
}

// The format of an export. Only lists of edges have names in place of numbers, and only Graphviz has positions.
fn format_of<'a>(matches: &ArgMatches<'a>) -> Result<Format, Complaint<'a>> {
    let format = matches.get_str("as").unwrap_or("");
    match (format, matches.get_flag("names"), matches.get_flag("pos")) {
        ("dot", false, false) => Ok(Format::Dot),
        ("dot", false, true) => Ok(Format::PlacedDot),
        ("dimacs", false, false) => Ok(Format::Dimacs),
        ("col", false, false) => Ok(Format::Col),
        ("edges", false, false) => Ok(Format::Edges),
        ("edges", true, false) => Ok(Format::NamedEdges),
        ("graph6", false, false) => Ok(Format::Graph6),
        ("graphml", false, false) => Ok(Format::Graphml),
        _ => Err(Complaint::CommandLine),
    }
}

// The form of an import. Only a list of edges may have names, or be one of arcs.
fn source_of<'a>(matches: &ArgMatches<'a>) -> Result<Source, Complaint<'a>> {
    let form = matches.get_str("from").unwrap_or("");
    let list = EdgeList {
        directed: matches.get_flag("directed"),
        names: matches.get_flag("names"),
    };
    match (form, list.directed || list.names) {
        ("edges", _) => Ok(Source::Edges(list)),
        ("dimacs", false) => Ok(Source::Dimacs),
        ("graph6", false) => Ok(Source::Graph6),
        _ => Err(Complaint::CommandLine),
    }
}

fn making_of<'a>(alloc: Global, matches: &ArgMatches<'a>) -> Result<Making<'a>, Complaint<'a>> {
    let Some(command) = matches.get_str("COMMAND") else {
        return Err(Complaint::CommandLine);
    };
    let given = matches.get_strs("WORD").unwrap_or(&[]);
    let (inputs, rest) = inputs_of(command, given)?;
    let rule = rule_of(matches);
    if rule == CheckRule::Any && matches!(inputs, Inputs::Absent) {
        return Err(Complaint::CommandLine);
    }
    let mut words = Vec::new(alloc);
    for word in rest {
        words.push(word.as_bytes())?;
    }
    Ok(Making {
        rule,
        inputs,
        command,
        words,
    })
}

// The files that a command takes, and the words behind them. Standard input is read once at most.
fn inputs_of<'a, 'w>(
    command: &str,
    words: &'w [&'a str],
) -> Result<(Inputs<'a>, &'w [&'a str]), Complaint<'a>> {
    match (command, words) {
        ("complement", [file, rest @ ..]) => Ok((Inputs::One(Input::of_word(file)), rest)),
        ("lengths", [file, rest @ ..]) => Ok((Inputs::Changed(Input::of_word(file)), rest)),
        ("induced", [file, description, rest @ ..]) => Ok((
            Inputs::Described(Input::of_word(file), description),
            rest,
        )),
        ("gunion" | "intersection" | "product", [first, second, rest @ ..])
            if *first != "-" || *second != "-" => Ok((
            Inputs::Two(Input::of_word(first), Input::of_word(second)),
            rest,
        )),
        ("complement" | "lengths" | "induced" | "gunion" | "intersection" | "product", _) => Err(
            Complaint::CommandLine,
        ),
        _ => Ok((Inputs::Absent, words)),
    }
}
