//! The command line, as `clap` reads it.

use clap::{Arg, ArgAction, Command};
use std::alloc::{AllocError, Global};

// What stands below the help.
const MORE_HELP: &str = "\
Status:
  0  every line, the graph that was read, or the words of a graph were accepted
  1  a line, a graph that was read, its export or its facts, or the words of a graph were refused
  2  a fault: a bad command line, a file that cannot be opened, a failed read or write, a script or file that
     is too long, or no room; a line on standard error tells which

Example:
  printf 'graph g 2\\nedge g 0 1 5\\nshow g\\n' | sgb run

The file docs/language.md, which comes with the source, describes what a script may say.";

const RUN_HELP: &str = "\
Example:
  printf 'seed 7\\nnext\\n' | sgb run

What a script may say, and the status: sgb --help";

const QUEEN_HELP: &str = "\
Example:
  sgb queen

The status: sgb --help";

const CHECK_HELP: &str = "\
Example:
  sgb make board 8 8 0 0 5 0 0 | sgb check -

The status: sgb --help";

const EXPORT_HELP: &str = "\
Example:
  sgb make subsets 2 1 -4 0 0 0 1 0 | sgb export --as dot | neato -Tsvg > petersen.svg

The status: sgb --help";

const IMPORT_HELP: &str = "\
Example:
  printf '0 1\\n1 2 5\\n' | sgb import --from edges > path.gb

The status: sgb --help";

const INFO_HELP: &str = "\
Example:
  sgb make board 8 8 0 0 5 0 0 | sgb info

The status: sgb --help";

const MAKE_HELP: &str = "\
The words are those of the command in a script, without the name of the new graph, and with files of saved graphs
where it has graphs. The description of an induced graph is one word, without quotes.

Example:
  sgb make board 8 8 0 0 -1 0 0 > rook.gb
  sgb make board 8 8 0 0 -2 0 0 | sgb make gunion rook.gb - 0 0 > queen.gb

The status: sgb --help";

// The commands that make a graph.
static MAKERS: [&str; 13] = [
    "graph",
    "board",
    "simplex",
    "subsets",
    "perms",
    "binary",
    "random",
    "lengths",
    "complement",
    "gunion",
    "intersection",
    "product",
    "induced",
];

// The formats of an export.
static FORMATS: [&str; 6] = ["dot", "dimacs", "col", "edges", "graph6", "graphml"];

// The formats of an import.
static SOURCES: [&str; 3] = ["edges", "dimacs", "graph6"];

/// The command line that the program takes.
pub fn command<'a>(alloc: Global) -> Result<Command<'a>, AllocError> {
    Command::new(alloc, "sgb")
        .version("0.1.0")
        .about("Reproducible test graphs after the Stanford GraphBase")
        .after_help(MORE_HELP)
        .subcommand_required(true)
        .subcommand(run_command(alloc)?)?
        .subcommand(queen_command(alloc))?
        .subcommand(check_command(alloc)?)?
        .subcommand(export_command(alloc)?)?
        .subcommand(import_command(alloc)?)?
        .subcommand(info_command(alloc)?)?
        .subcommand(make_command(alloc)?)
}

fn run_command<'a>(alloc: Global) -> Result<Command<'a>, AllocError> {
    Command::new(alloc, "run")
        .about("Runs a script and writes its transcript")
        .after_help(RUN_HELP)
        .arg(Arg::new(alloc, "FILE").help("the script; without it or for -, standard input"))
}

fn queen_command<'a>(alloc: Global) -> Command<'a> {
    Command::new(alloc, "queen")
        .about("Writes the queen's moves on a board of 3 by 4")
        .after_help(QUEEN_HELP)
}

fn check_command<'a>(alloc: Global) -> Result<Command<'a>, AllocError> {
    Command::new(alloc, "check")
        .about("Tells the id and the counts of a saved graph, or why it is refused")
        .after_help(CHECK_HELP)
        .arg(any_flag(alloc))?
        .arg(
            saved_graph(alloc)
                .required(true)
                .help("the saved graph; for -, standard input"),
        )
}

fn any_flag<'a>(alloc: Global) -> Arg<'a> {
    Arg::new(alloc, "any")
        .long("any")
        .action(ArgAction::SetTrue)
        .help("accepts any check number, as a file of the original GraphBase needs")
}

fn saved_graph<'a>(alloc: Global) -> Arg<'a> {
    Arg::new(alloc, "FILE").help("the saved graph; without it or for -, standard input")
}

fn export_command<'a>(alloc: Global) -> Result<Command<'a>, AllocError> {
    Command::new(alloc, "export")
        .about("Writes a saved graph in the form of another tool")
        .after_help(EXPORT_HELP)
        .arg(format_option(alloc))?
        .arg(any_flag(alloc))?
        .arg(names_flag(alloc))?
        .arg(positions_flag(alloc))?
        .arg(saved_graph(alloc))
}

fn format_option<'a>(alloc: Global) -> Arg<'a> {
    Arg::new(alloc, "as")
        .long("as")
        .value_name("FORMAT")
        .required(true)
        .value_parser(FORMATS.as_slice())
        .help("the form that is written")
}

fn names_flag<'a>(alloc: Global) -> Arg<'a> {
    Arg::new(alloc, "names")
        .long("names")
        .action(ArgAction::SetTrue)
        .help("in a list of edges, names in place of numbers")
}

fn positions_flag<'a>(alloc: Global) -> Arg<'a> {
    Arg::new(alloc, "pos")
        .long("pos")
        .action(ArgAction::SetTrue)
        .help("in dot, positions by the fields x and y of the vertices")
}

fn import_command<'a>(alloc: Global) -> Result<Command<'a>, AllocError> {
    Command::new(alloc, "import")
        .about("Reads a graph in the form of another tool and writes it as a saved graph")
        .after_help(IMPORT_HELP)
        .arg(source_option(alloc))?
        .arg(names_flag(alloc))?
        .arg(directed_flag(alloc))?
        .arg(Arg::new(alloc, "FILE").help("the graph; without it or for -, standard input"))
}

fn source_option<'a>(alloc: Global) -> Arg<'a> {
    Arg::new(alloc, "from")
        .long("from")
        .value_name("FORMAT")
        .required(true)
        .value_parser(SOURCES.as_slice())
        .help("the form that is read")
}

fn directed_flag<'a>(alloc: Global) -> Arg<'a> {
    Arg::new(alloc, "directed")
        .long("directed")
        .action(ArgAction::SetTrue)
        .help("a list of edges is one of arcs")
}

fn info_command<'a>(alloc: Global) -> Result<Command<'a>, AllocError> {
    Command::new(alloc, "info")
        .about("Tells facts of a saved graph, one a line")
        .after_help(INFO_HELP)
        .arg(any_flag(alloc))?
        .arg(saved_graph(alloc))
}

fn make_command<'a>(alloc: Global) -> Result<Command<'a>, AllocError> {
    Command::new(alloc, "make")
        .about("Makes a graph of words, or of saved graphs, and writes it as a saved graph")
        .after_help(MAKE_HELP)
        .arg(any_flag(alloc))?
        .arg(maker(alloc))?
        .arg(maker_words(alloc))
}

fn maker<'a>(alloc: Global) -> Arg<'a> {
    Arg::new(alloc, "COMMAND")
        .required(true)
        .value_parser(MAKERS.as_slice())
        .help("how the graph is made")
}

fn maker_words<'a>(alloc: Global) -> Arg<'a> {
    Arg::new(alloc, "WORD")
        .num_args(0..)
        .allow_negative_numbers(true)
        .help("the words of a script, with files for graphs; for -, standard input")
}
