// What an ended session shows, a line for each value.
use crate::room::PLACES;
use crate::said;
use session::Session;

// Where there is nothing to show, no line is written.
pub(crate) fn write(
    rt: &impl Print,
    session: Session,
    block: &[i32],
    literals: &[i32; PLACES],
    kinds: &[u8; PLACES],
) {
    let mut values = [0; PLACES];
    if let Ok(count) = shown::shown(session, block, literals, kinds, &mut values) {
        for literal in values.iter().take(count) {
            said::value(rt, *literal);
        }
    }
}
