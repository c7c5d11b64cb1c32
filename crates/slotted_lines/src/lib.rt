//! The lines of the program, over any language. A line is answered over a session: a graph with the rules of the lines
//! before.
#![tactic(auto)]

pub mod answering;
pub mod request;
pub(crate) mod rules;
pub(crate) mod runs;
pub mod session;
pub mod still;
mod stream;
pub mod told;

pub use answering::answer_in;
pub use request::Request;
pub use session::Session;
pub use still::StillClock;
pub use stream::{answer_last_session, answer_line, answer_session};
pub use told::{Run, Told};
