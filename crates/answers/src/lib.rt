// What the calls answer, for programs in other languages: a status, and numbers in the first places of a lent array.
#![tactic(auto)]

mod sessions; // sessions, and what is answered with one
mod pages; // pages of a listing
mod witnesses; // what ended sessions show
mod opinions; // second opinions
mod texts; // texts read and written

pub use opinions::solved;
pub use pages::paged;
pub use sessions::{opened, ran, session_of, stepped};
pub use texts::{told, wrote};
pub use witnesses::showed;
