//! The faults that end a session early, and the exit status.
ghost use Rattle.std.specs.Prelude.{◌≡◌};
ghost use Rattle.std.specs.Option.{option_copied};
ghost use Rattle.vdb_shell.specs.Session.{status as status_of};

use thiserror::Error;
use vdb_file::{LoadFault, SaveFault};
use vdb_script::ScriptFault;

/// The fault that ends a session early. Its text is the line that the program writes to standard error.
#[derive(Clone, Copy, Debug, PartialEq, Eq, Error)]
pub enum Fault {
    /// The scene file can't be read, or encodes no scene.
    #[error("vdb: load: {0}")]
    Load(LoadFault),
    /// The rest of the script can't be read, or is too long.
    #[error("vdb: script: {0}")]
    Script(ScriptFault),
    /// The answers can't be written.
    #[error("vdb: answers: write")]
    Answers,
    /// The scene can't be written, or its file would be too long.
    #[error("vdb: save: {0}")]
    Save(SaveFault),
}

/// Returns the exit status of a session: 3 if nothing was loaded, 4 after another fault, otherwise 1 if a line failed, otherwise
/// 0.
pub fn status(refused: bool, fault: Option<&Fault>) -> u8
    ensures { result ≡ status_of refused (option_copied fault.entry) }
{
    match fault {
        Some(Fault::Load(_)) => 3,
        Some(_) => 4,
        None => u8::from(refused),
    }
}
