// The desk: what it holds between two lines, and what a command does with it. The library is lent each buffer as far as its words are in use.
use crate::buffer::Buffer;
use crate::command;
use crate::command::{Command, asked};
use crate::line::Words;
use crate::numbers::{all_fit, read};
use crate::reply::{Held, Reply};
use crate::room::{
    BLOCK_WORDS, INDEX_WORDS, NUMBER_WORDS, OUTPUT_WORDS, PIECES_MOST, PREFERRED_WORDS,
    RECORD_PLACES, TEXT_BYTES,
};
use memory::number_of;
use record::State;
use session::{Ran, Revision, Session};
use text::Unread;
use words::{Literal, Refusal};

#[derive(Drop)]
pub(crate) struct Desk<'a> {
    pub(crate) session: Session,
    pub(crate) block: Buffer<'a, i32, BLOCK_WORDS>,
    pub(crate) literals: Buffer<'a, i32, RECORD_PLACES>,
    pub(crate) kinds: Buffer<'a, u8, RECORD_PLACES>,
    pub(crate) reasons: Buffer<'a, u32, RECORD_PLACES>,
    pub(crate) output: Buffer<'a, u32, OUTPUT_WORDS>,
    pub(crate) preferred: Buffer<'a, i32, PREFERRED_WORDS>,
    pub(crate) text: Buffer<'a, u8, TEXT_BYTES>,
    pub(crate) trues: Buffer<'a, u32, NUMBER_WORDS>,
    pub(crate) opens: Buffer<'a, u32, NUMBER_WORDS>,
    pub(crate) index: Buffer<'a, u32, INDEX_WORDS>,
}

// "At the start everything is empty and the session is 0 0 0."
pub(crate) const FIRST: Session = Session {
    length: 0,
    revision: Revision(0),
    state: State::Open,
};

// The refusals of a text that tell more than their number.
const MISFIT: u64 = 27;

const ROW: u64 = 31;

// `NAME N`
fn refused(name: &'static str, Refusal(row): Refusal) -> Reply<'static> {
    Reply::Number(name, u64::from(row))
}

// `NAME 0 LENGTH`, `NAME 27 PLACE`, `NAME N`, or `NAME 31 ROW`
fn told(name: &'static str, answer: Result<usize, Unread>) -> Reply<'static> {
    match answer {
        Ok(length) => Reply::Pair(name, 0, length as u64),
        Err(Unread::Misfit(place)) => Reply::Pair(name, MISFIT, place),
        Err(Unread::Refused(refusal)) => refused(name, refusal),
        Err(Unread::Row(Refusal(row))) => Reply::Pair(name, ROW, u64::from(row)),
    }
}

// `NAME COUNT`
fn number(name: &'static str, count: Option<usize>) -> Option<Reply<'static>> {
    Some(Reply::Number(name, count? as u64))
}

// "The text being cut into pieces of these lengths and the rest." A piece ends no further than the text.
fn read_pieces(lengths: Words<'_>, bytes: &[u8], output: &mut [i32]) -> Result<usize, Unread> {
    let mut reader = text::begin();
    let mut rest = bytes;
    for length in lengths.map_while(|word| read::<u64>(word)) {
        let (piece, behind) = rest.split_at(rest.len().min(length as usize));
        reader = text::piece(reader, piece, output);
        rest = behind;
    }
    text::end(text::piece(reader, rest, output), output)
}

impl Desk<'_> {
    // `block N`
    fn check(&mut self, words: Words<'_>) -> Option<Reply<'_>> {
        self.block.set(words)?;
        Some(match formula::check(self.block.words()) {
            Ok(()) => Reply::Number("block", 0),
            Err(refusal) => refused("block", refusal),
        })
    }

    fn put(&mut self, session: Session) -> Reply<'_> {
        self.session = session;
        Reply::Done("session")
    }

    fn open(&mut self, first: Revision) -> Reply<'_> {
        match session::open(
            self.block.words(),
            self.literals.words_mut(),
            self.kinds.words_mut(),
            self.reasons.words_mut(),
            first,
        ) {
            Ok(session) => {
                self.session = session;
                Reply::Opened(session)
            }
            Err(refusal) => refused("open", refusal),
        }
    }

    fn step(&mut self, seen: Revision, proposal: Literal) -> Reply<'_> {
        match self.session.step(
            self.block.words(),
            self.literals.words_mut(),
            self.kinds.words_mut(),
            self.reasons.words_mut(),
            seen,
            proposal,
        ) {
            Ok(stepped) => {
                self.session = stepped.session;
                Reply::Stepped(stepped)
            }
            Err(refusal) => refused("step", refusal),
        }
    }

    // What a run, counted or not, leaves.
    fn ran(&mut self, name: &'static str, answer: Result<Ran, Refusal>) -> Reply<'static> {
        match answer {
            Ok(ran) => {
                self.session = ran.session;
                Reply::Ran(name, ran)
            }
            Err(refusal) => refused(name, refusal),
        }
    }

    fn run(&mut self, run: command::Run<'_>) -> Option<Reply<'_>> {
        self.preferred.set(run.preferred)?;
        let answer = self.session.run(
            self.block.words(),
            self.literals.words_mut(),
            self.kinds.words_mut(),
            self.reasons.words_mut(),
            run.seen,
            run.budget,
            self.preferred.words(),
        );
        Some(self.ran("run", answer))
    }

    fn counted(&mut self, run: command::Run<'_>) -> Option<Reply<'_>> {
        self.preferred.set(run.preferred)?;
        let answer = counted::run(
            self.session,
            self.block.words(),
            self.literals.words_mut(),
            self.kinds.words_mut(),
            self.reasons.words_mut(),
            self.trues.words_mut(),
            self.opens.words_mut(),
            self.index.words_mut(),
            run.seen,
            run.budget,
            self.preferred.words(),
        );
        Some(self.ran("counted", answer))
    }

    // An entry fills two words of the output.
    fn page(&mut self, page: command::Page<'_>) -> Option<Reply<'_>> {
        self.preferred.set(page.preferred)?;
        let answer = listing::page(
            self.block.words(),
            self.literals.words_mut(),
            self.kinds.words_mut(),
            page.start,
            self.preferred.words(),
            page.budget,
            self.output.words_mut(),
        );
        Some(match answer {
            Ok(page) => Reply::Page(page, self.output.first(2 * page.entries as usize)),
            Err(refusal) => refused("page", refusal),
        })
    }

    fn read(&mut self) -> Reply<'_> {
        told(
            "read",
            text::read(self.text.words(), self.block.words_mut()),
        )
    }

    fn pieces(&mut self, lengths: Words<'_>) -> Option<Reply<'_>> {
        if !all_fit::<u64>(lengths, PIECES_MOST) {
            return None;
        }
        let answer = read_pieces(lengths, self.text.words(), self.block.words_mut());
        Some(told("pieces", answer))
    }

    // `write 0 LENGTH`, or `write N`
    fn write(&mut self) -> Reply<'_> {
        match writer::write(self.block.words(), self.text.words_mut()) {
            Ok(length) => Reply::Pair("write", 0, length as u64),
            Err(refusal) => refused("write", refusal),
        }
    }

    // `plain 0 STATE`, or `plain N`
    fn plain(&self) -> Reply<'_> {
        let state = match plain::solve(self.block.words()) {
            Ok(true) => State::Valid,
            Ok(false) => State::Unsat,
            Err(refusal) => return refused("plain", refusal),
        };
        Reply::Pair("plain", 0, u64::from(number_of(state)))
    }

    // The values are written over the preferred words, which no other line finds there. There are as many as a record has places, which is room
    // enough for every block's.
    fn shown(&mut self) -> Reply<'_> {
        let values = self.preferred.use_first(RECORD_PLACES);
        match shown::shown(
            self.session,
            self.block.words(),
            self.literals.words(),
            self.kinds.words(),
            values,
        ) {
            Ok(count) => Reply::Shown(self.preferred.first(count)),
            Err(refusal) => refused("shown", refusal),
        }
    }

    fn show(&self) -> Reply<'_> {
        Reply::Show(Held {
            session: self.session,
            literals: self.literals.words(),
            kinds: self.kinds.words(),
            reasons: self.reasons.words(),
            output: self.output.words(),
        })
    }

    fn numbers(&self) -> Reply<'_> {
        Reply::Numbers {
            trues: self.trues.words(),
            opens: self.opens.words(),
        }
    }

    // What a command is answered. Where its words don't fit there is no answer, and nothing is changed.
    fn act(&mut self, command: Command<'_>) -> Option<Reply<'_>> {
        match command {
            Command::Block(words) => self.check(words),
            Command::Literals(words) => number("lits", self.literals.set(words)),
            Command::Kinds(words) => number("kinds", self.kinds.set(words)),
            Command::Reasons(words) => number("reasons", self.reasons.set(words)),
            Command::Output(words) => number("out", self.output.set(words)),
            Command::Session(session) => Some(self.put(session)),
            Command::Open(first) => Some(self.open(first)),
            Command::Step(seen, proposal) => Some(self.step(seen, proposal)),
            Command::Run(run) => self.run(run),
            Command::Page(page) => self.page(page),
            Command::Show => Some(self.show()),
            Command::Text(words) => number("text", self.text.set(words)),
            Command::Read => Some(self.read()),
            Command::Pieces(lengths) => self.pieces(lengths),
            Command::Words => Some(Reply::Words(self.block.words())),
            Command::Write => Some(self.write()),
            Command::Bytes => Some(Reply::Bytes(self.text.words())),
            Command::Trues(words) => number("trues", self.trues.set(words)),
            Command::Opens(words) => number("opens", self.opens.set(words)),
            Command::Index(words) => number("index", self.index.set(words)),
            Command::Counted(run) => self.counted(run),
            Command::Numbers => Some(self.numbers()),
            Command::Plain => Some(self.plain()),
            Command::Shown => Some(self.shown()),
            Command::Help => Some(Reply::Help),
        }
    }

    // "Answered with `?`": a line that is no command, one that doesn't fit, and one that there is no room for.
    pub(crate) fn answer(&mut self, line: Option<&[u8]>) -> Reply<'_> {
        match line.and_then(|bytes| asked(bytes)) {
            Some(command) => self.act(command).unwrap_or(Reply::Unknown),
            None => Reply::Unknown,
        }
    }
}
