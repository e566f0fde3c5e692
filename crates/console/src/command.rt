// What a line asks for, read from its bytes alone.
use crate::line::Words;
use memory::state_of;
use session::{Revision, Session};
use words::Literal;

// The states are 0, 1 and 2.
const STATE_MOST: u32 = 2;

// What a run is asked for, counted or not.
#[derive(Clone, Copy)]
pub(crate) struct Run<'a> {
    pub(crate) seen: Revision,
    pub(crate) budget: u32,
    pub(crate) preferred: Words<'a>,
}

#[derive(Clone, Copy)]
pub(crate) struct Page<'a> {
    pub(crate) start: u32,
    pub(crate) budget: u32,
    pub(crate) preferred: Words<'a>,
}

// Words for a buffer are left as they are: the buffer knows what fits.
#[derive(Clone, Copy)]
pub(crate) enum Command<'a> {
    Block(Words<'a>),
    Literals(Words<'a>),
    Kinds(Words<'a>),
    Reasons(Words<'a>),
    Output(Words<'a>),
    Session(Session),
    Open(Revision),
    Step(Revision, Literal),
    Run(Run<'a>),
    Page(Page<'a>),
    Show,
    Text(Words<'a>),
    Read,
    // The lengths are left too.
    Pieces(Words<'a>),
    Words,
    Write,
    Bytes,
    Trues(Words<'a>),
    Opens(Words<'a>),
    Index(Words<'a>),
    Counted(Run<'a>),
    Numbers,
    Plain,
    Shown,
    Help,
}

// A command, if no word is left.
fn alone<'a>(mut words: Words<'a>, command: Command<'a>) -> Option<Command<'a>> {
    match words.next() {
        None => Some(command),
        Some(_) => None,
    }
}

// `session LENGTH REVISION STATE`
fn session(mut words: Words<'_>) -> Option<Command<'_>> {
    let length: u64 = words.number()?;
    let revision = Revision(words.number()?);
    let state: u32 = words.number()?;
    if STATE_MOST < state {
        return None;
    }
    let session = Session {
        length: length as usize,
        revision,
        state: state_of(state),
    };
    alone(words, Command::Session(session))
}

// `open REVISION`
fn open(mut words: Words<'_>) -> Option<Command<'_>> {
    let first = Revision(words.number()?);
    alone(words, Command::Open(first))
}

// `step SEEN PROPOSAL`
fn step(mut words: Words<'_>) -> Option<Command<'_>> {
    let seen = Revision(words.number()?);
    let proposal = Literal(words.number()?);
    alone(words, Command::Step(seen, proposal))
}

// `run SEEN BUDGET P..`, `counted SEEN BUDGET P..`
fn run_of(mut words: Words<'_>) -> Option<Run<'_>> {
    Some(Run {
        seen: Revision(words.number()?),
        budget: words.number()?,
        preferred: words,
    })
}

// `page START BUDGET P..`
fn page_of(mut words: Words<'_>) -> Option<Page<'_>> {
    Some(Page {
        start: words.number()?,
        budget: words.number()?,
        preferred: words,
    })
}

// The command of a name, from the words behind it.
fn behind<'a>(name: &[u8], words: Words<'a>) -> Option<Command<'a>> {
    match name {
        b"block" => Some(Command::Block(words)),
        b"lits" => Some(Command::Literals(words)),
        b"kinds" => Some(Command::Kinds(words)),
        b"reasons" => Some(Command::Reasons(words)),
        b"out" => Some(Command::Output(words)),
        b"session" => session(words),
        b"open" => open(words),
        b"step" => step(words),
        b"run" => Some(Command::Run(run_of(words)?)),
        b"page" => Some(Command::Page(page_of(words)?)),
        b"show" => alone(words, Command::Show),
        b"text" => Some(Command::Text(words)),
        b"read" => alone(words, Command::Read),
        b"pieces" => Some(Command::Pieces(words)),
        b"words" => alone(words, Command::Words),
        b"write" => alone(words, Command::Write),
        b"bytes" => alone(words, Command::Bytes),
        b"trues" => Some(Command::Trues(words)),
        b"opens" => Some(Command::Opens(words)),
        b"index" => Some(Command::Index(words)),
        b"counted" => Some(Command::Counted(run_of(words)?)),
        b"numbers" => alone(words, Command::Numbers),
        b"plain" => alone(words, Command::Plain),
        b"shown" => alone(words, Command::Shown),
        b"help" => alone(words, Command::Help),
        _ => None,
    }
}

// "A line that is no such command" asks for none.
pub(crate) fn asked(line: &[u8]) -> Option<Command<'_>> {
    let mut words = Words(line);
    let name = words.next()?;
    behind(name, words)
}
