//! What a unit of a script is answered, and how that is printed.
ghost use Rattle.sgb_print.specs.Print.{Prints};
ghost use Rattle.std.specs.Prelude.{◌+◌, ◌<◌, ◌≤◌, ◌++◌, codes, length};
ghost use Rattle.std.specs.Fmt.{decimal};
ghost use Rattle.std.specs.List.{flat_map};
ghost use Rattle.sgb_shell.specs.Answer.{answer_text, single_text, grouped_count_text, generator_text, refusal_text, list_text, entry_text, shown_text};
ghost use Rattle.sgb_session.specs.Table.{entry_in};

use itoa::Buffer;
use sgb_graph::ArcNo;
use sgb_print::{Failed, MeteredWriter, Page, print_graph, print_made, put, put_all};
use sgb_script::ShellRefusal;
use sgb_session::{Reply, Session, SingleReply};
use sgb_text::Saved;
use std::io::Write;

/// The answer to a unit.
#[derive(Debug, Drop)]
pub(crate) enum Answer {
    /// Nothing is said.
    Silent,
    /// The last command was taken back.
    Undone,
    /// A command was accepted.
    Replied(Reply),
    /// The generator was asked for.
    Generator,
    /// The graphs were asked for.
    Graphs,
    /// The graph at a place of the table was asked for.
    Graph(usize),
    /// A graph was saved.
    Saved(Saved),
    /// The unit was refused.
    Refused(ShellRefusal),
}

/// Prints the answer to the unit of a number, at the session after it.
pub(crate) fn print_answer<W: Write>(
    writer: &mut MeteredWriter<W>,
    number: u64,
    session: &Session,
    answer: &Answer,
) -> Result<(), Failed>
    ensures { Prints writer.old writer.new result (answer_text number session.now answer.now) }
{
    match answer {
        Answer::Silent => Ok(()),
        Answer::Undone => put(writer, b"undone\n"),
        Answer::Replied(Reply::One(reply)) => print_single(writer, reply),
        Answer::Replied(Reply::Group(members)) => print_group(writer, members.as_slice()),
        Answer::Generator => print_generator(writer, session),
        Answer::Graphs => print_list(writer, session),
        Answer::Graph(place) => print_graph_at(writer, session, *place),
        Answer::Saved(saved) => print_saved(writer, saved),
        Answer::Refused(refusal) => print_refusal(writer, number, *refusal),
    }
}

fn print_single<W: Write>(writer: &mut MeteredWriter<W>, reply: &SingleReply) -> Result<(), Failed>
    ensures { Prints writer.old writer.new result (single_text reply.now) }
{
    match reply {
        SingleReply::Done => put(writer, b"ok\n"),
        SingleReply::Number(number) => print_counted(writer, b"", u64::from(*number), b"\n"),
        SingleReply::Made(name, vertices, arcs) => print_made(
            writer,
            name.bytes(),
            *vertices,
            *arcs,
        ),
        SingleReply::Arc(number) => print_counted(writer, b"A", u64::from(number.0), b"\n"),
        SingleReply::Edge(first, second) => print_edge(writer, *first, *second),
    }
}

// A number between two texts.
fn print_counted<W: Write>(
    writer: &mut MeteredWriter<W>,
    before: &[u8],
    number: u64,
    behind: &[u8],
) -> Result<(), Failed>
    requires { length before.now + length behind.now ≤ 76 }
    ensures { Prints writer.old writer.new result (before.now ++ decimal number ++ behind.now) }
{
    let mut page = Page::new();
    page.prepend(behind);
    page.prepend_number(number);
    page.prepend(before);
    page.print(writer)
}

fn print_edge<W: Write>(
    writer: &mut MeteredWriter<W>,
    first: ArcNo,
    second: ArcNo,
) -> Result<(), Failed>
    ensures { Prints writer.old writer.new result (codes "A" ++ decimal first.0 ++ codes " A" ++ decimal second.0 ++ codes "\n") }
{
    let mut page = Page::new();
    page.prepend(b"\n");
    page.prepend_number(second.0 as u64);
    page.prepend(b" A");
    page.prepend_number(first.0 as u64);
    page.prepend(b"A");
    page.print(writer)
}

fn print_group<W: Write>(
    writer: &mut MeteredWriter<W>,
    members: &[SingleReply],
) -> Result<(), Failed>
    ensures { Prints writer.old writer.new result (flat_map single_text members.now ++ grouped_count_text (length members.now)) }
{
    print_replies(writer, members)?;
    print_counted(writer, b"grouped ", members.len() as u64, b"\n")
}

fn print_replies<W: Write>(
    writer: &mut MeteredWriter<W>,
    members: &[SingleReply],
) -> Result<(), Failed>
    ensures { Prints writer.old writer.new result (flat_map single_text members.now) }
{
    for reply in members {
        print_single(writer, reply)?;
    }
    Ok(())
}

fn print_generator<W: Write>(writer: &mut MeteredWriter<W>, session: &Session) -> Result<(), Failed>
    ensures { Prints writer.old writer.new result (generator_text session.now) }
{
    let (seed, draws, unread) = session.generator();
    let mut page = Page::new();
    page.prepend(b"\n");
    page.prepend_number(unread as u64);
    page.prepend(b", unread ");
    page.prepend_number(draws);
    page.prepend(b", draws ");
    page.prepend_number(seed as u64);
    page.prepend(b"seed ");
    page.print(writer)
}

fn print_saved<W: Write>(writer: &mut MeteredWriter<W>, saved: &Saved) -> Result<(), Failed>
    ensures { Prints writer.old writer.new result (saved.now.text ++ codes "cleaned " ++ decimal saved.now.cleaned ++ codes "\n") }
{
    let mut digits = Buffer::new();
    put_all(
        writer,
        &[
            saved.text.as_slice(),
            b"cleaned ",
            digits.format(saved.cleaned).as_bytes(),
            b"\n",
        ],
    )
}

fn print_refusal<W: Write>(
    writer: &mut MeteredWriter<W>,
    number: u64,
    refusal: ShellRefusal,
) -> Result<(), Failed>
    ensures { Prints writer.old writer.new result (refusal_text number refusal) }
{
    let mut line_digits = Buffer::new();
    let mut digits = Buffer::new();
    put_all(
        writer,
        &[
            b"line ",
            line_digits.format(number).as_bytes(),
            b": refused ",
            digits.format(refusal.number()).as_bytes(),
            b" ",
            refusal.text().as_bytes(),
            b"\n",
        ],
    )
}

fn print_list<W: Write>(writer: &mut MeteredWriter<W>, session: &Session) -> Result<(), Failed>
    ensures { Prints writer.old writer.new result (list_text session.now) }
{
    print_counted(writer, b"", session.len() as u64, b" graphs\n")?;
    print_entries(writer, session)
}

fn print_entries<W: Write>(writer: &mut MeteredWriter<W>, session: &Session) -> Result<(), Failed>
    ensures { Prints writer.old writer.new result (flat_map entry_text session.now.table) }
{
    for place in 0..session.len() {
        print_entry(writer, session, place)?;
    }
    Ok(())
}

fn print_entry<W: Write>(
    writer: &mut MeteredWriter<W>,
    session: &Session,
    place: usize,
) -> Result<(), Failed>
    requires { place < length session.now.table }
    ensures { Prints writer.old writer.new result (entry_text (entry_in session.now.table place)) }
{
    let graph = session.graph_at(place);
    print_made(writer, session.name_at(place).bytes(), graph.n(), graph.m())
}

// A place that the table has not prints nothing; no answer names one.
fn print_graph_at<W: Write>(
    writer: &mut MeteredWriter<W>,
    session: &Session,
    place: usize,
) -> Result<(), Failed>
    ensures { Prints writer.old writer.new result (shown_text session.now place) }
{
    if place < session.len() {
        print_graph(writer, session.graph_at(place))
    } else {
        Ok(())
    }
}
