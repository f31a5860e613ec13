//! The script language: lines, commands, and answers as text.
#![tactic(auto)]

mod iterations;
mod laws;
mod line_text;
mod lines;
mod lists;
mod metas;
mod numbers;
mod output;
mod pairs;
mod parsing;
mod printing;
mod reports;
mod slices;
mod source;
mod tokens;
mod two_grids;

pub use laws::run_laws;
pub use line_text::LINE_LIMIT;
pub use lines::{Line, Lines, read_line};
pub use output::WriteFault;
pub use parsing::parse;
pub use printing::print;
pub use source::{SCRIPT_LIMIT, ScriptFault};
