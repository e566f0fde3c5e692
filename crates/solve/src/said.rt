// The lines of an answer. What can't be written is left out, and the program goes on.
use crate::opening::Opening;
use record::State;
use words::Refusal;

// `s cnf 1 V C` for true, `s cnf 0 V C` for false, `s cnf -1 V C` where the budget is used.
pub(crate) fn verdict(rt: &impl Print, block: &[i32], state: State) {
    let result = match state {
        State::Valid => "1",
        State::Unsat => "0",
        State::Open => "-1",
    };
    let variables = words::size_at(block, 0);
    let clauses = words::size_at(block, 1);
    let _ = println!(rt; "s cnf {result} {variables} {clauses}");
}

// `V LITERAL 0`
pub(crate) fn value(rt: &impl Print, literal: i32) {
    let _ = println!(rt; "V {literal} 0");
}

pub(crate) fn opinion(rt: &impl Print, block: &[i32], opinion: Result<bool, Refusal>) {
    match opinion {
        Ok(true) => verdict(rt, block, State::Valid),
        Ok(false) => verdict(rt, block, State::Unsat),
        Err(refusal) => refused(rt, refusal),
    }
}

// `refused N`
pub(crate) fn refused(rt: &impl Print, refusal: Refusal) {
    let Refusal(row) = refusal;
    let _ = println!(rt; "refused {row}");
}

// `refused 27 PLACE`, `refused 31 ROW`
pub(crate) fn refused_at(rt: &impl Print, row: u32, place: u64) {
    let _ = println!(rt; "refused {row} {place}");
}

// The literals of an opening that wins.
pub(crate) fn winner(rt: &impl Print, opening: Opening<'_>) {
    let _ = println!(rt; "{opening}");
}

// `all COUNT`
pub(crate) fn all(rt: &impl Print, count: u64) {
    let _ = println!(rt; "all {count}");
}

// `paused COUNT NUMBER LITERALS`: the opening whose search has paused.
pub(crate) fn paused(rt: &impl Print, count: u64, opening: Opening<'_>) {
    let _ = println!(rt; "paused {count} {} {opening}", opening.number);
}

pub(crate) fn usage(rt: &impl Print) {
    let _ = rt.println("usage: solve|plain|list|count BUDGET [progress]");
}

// How far it is, on standard error, if that was asked for.
pub(crate) fn progress(rt: &impl Eprint, n: u64, asked: bool) {
    if asked {
        let _ = rt.eprintln(n);
    }
}
