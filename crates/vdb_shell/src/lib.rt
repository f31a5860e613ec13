//! A session: a scene is loaded, a script is played on it, its answers are written, and the scene is saved.
#![tactic(auto)]

mod command_line;
mod fault;
mod files;
mod laws;
mod named;
mod playing;
mod sessions;

pub use command_line::words;
pub use fault::{Fault, status};
pub use files::{finish, start};
pub use laws::session_laws;
pub use named::Words;
pub use playing::{Played, play};
pub use sessions::{Outcome, session};
