//! Saves and loads scenes as files. Each scene has exactly one encoding.
#![tactic(auto)]

mod fault;
mod laws;
mod loading;
mod saving;

pub use fault::{LoadFault, SaveFault};
pub use laws::spelling_laws;
pub use loading::{load, load_bytes};
pub use saving::{FILE_LIMIT, length, save};
