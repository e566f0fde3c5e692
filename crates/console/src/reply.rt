// What a line is answered, and its text.
use listing::Page;
use memory::number_of;
use session::{Ran, Session, Stepped};
use std::fmt;
use std::fmt::{Display, Formatter};

// The desk, without what no line shows.
#[derive(Clone, Copy)]
pub(crate) struct Held<'a> {
    pub(crate) session: Session,
    pub(crate) literals: &'a [i32],
    pub(crate) kinds: &'a [u8],
    pub(crate) reasons: &'a [u32],
    pub(crate) output: &'a [u32],
}

#[derive(Clone, Copy)]
pub(crate) enum Reply<'a> {
    // `?`
    Unknown,
    // `NAME`
    Done(&'static str),
    // `NAME N`
    Number(&'static str, u64),
    // `NAME N M`
    Pair(&'static str, u64, u64),
    // `open 0 LENGTH REVISION STATE`
    Opened(Session),
    // The same of a step, and its reason.
    Stepped(Stepped),
    // The same of a run, counted or not; its count of steps, and the reason of the last one.
    Ran(&'static str, Ran),
    // `page 0 NEXT ENTRIES PAUSED W..`
    Page(Page, &'a [u32]),
    // `words W..`
    Words(&'a [i32]),
    // `bytes B..`
    Bytes(&'a [u8]),
    // `numbers trues W.. opens W..`
    Numbers { trues: &'a [u32], opens: &'a [u32] },
    // `shown 0 L..`
    Shown(&'a [i32]),
    // `show LENGTH REVISION STATE lits W.. kinds B.. reasons W.. out W..`
    Show(Held<'a>),
    // `help NAME..`
    Help,
}

// The names that command.rt knows.
const NAMES: &str =
    "block lits kinds reasons out session open step run page show text read pieces words write bytes trues opens index counted numbers plain shown help";

// `LENGTH REVISION STATE`
#[derive(Drop)]
struct Reached(Session);

impl Display for Reached {
    fn fmt<W: fmt::Write>(&self, f: &mut Formatter<W>) -> fmt::Result {
        let Session {
            length,
            revision,
            state,
        } = self.0;
        write!(f, "{length} {} {}", revision.0, number_of(state))
    }
}

// Numbers, with a space before each.
#[derive(Drop)]
struct Listed<'a, T>(&'a [T]);

impl<T: Display> Display for Listed<'_, T> {
    fn fmt<W: fmt::Write>(&self, f: &mut Formatter<W>) -> fmt::Result {
        for number in self.0 {
            f.write_str(" ")?;
            number.fmt(f)?;
        }
        Ok(())
    }
}

impl Display for Held<'_> {
    fn fmt<W: fmt::Write>(&self, f: &mut Formatter<W>) -> fmt::Result {
        write!(f, "{}", Reached(self.session))?;
        write!(f, " lits{}", Listed(self.literals))?;
        write!(f, " kinds{}", Listed(self.kinds))?;
        write!(f, " reasons{}", Listed(self.reasons))?;
        write!(f, " out{}", Listed(self.output))
    }
}

impl Display for Reply<'_> {
    fn fmt<W: fmt::Write>(&self, f: &mut Formatter<W>) -> fmt::Result {
        match *self {
            Reply::Unknown => write!(f, "?"),
            Reply::Done(name) => write!(f, "{name}"),
            Reply::Number(name, n) => write!(f, "{name} {n}"),
            Reply::Pair(name, n, m) => write!(f, "{name} {n} {m}"),
            Reply::Opened(session) => write!(f, "open 0 {}", Reached(session)),
            Reply::Stepped(Stepped { session, reason }) => {
                write!(f, "step 0 {} {reason}", Reached(session))
            }
            Reply::Ran(name, ran) => {
                let reached = Reached(ran.session);
                write!(f, "{name} 0 {reached} {} {}", ran.steps, ran.reason)
            }
            Reply::Page(page, output) => {
                let paused = u8::from(page.paused);
                write!(f, "page 0 {} {} {paused}", page.next, page.entries)?;
                write!(f, "{}", Listed(output))
            }
            Reply::Words(words) => write!(f, "words{}", Listed(words)),
            Reply::Bytes(bytes) => write!(f, "bytes{}", Listed(bytes)),
            Reply::Numbers { trues, opens } => {
                write!(f, "numbers trues{} opens{}", Listed(trues), Listed(opens))
            }
            Reply::Shown(values) => write!(f, "shown 0{}", Listed(values)),
            Reply::Show(held) => write!(f, "show {held}"),
            Reply::Help => write!(f, "help {NAMES}"),
        }
    }
}
