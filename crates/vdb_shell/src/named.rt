//! The files that a command line names.

/// The files that a command line names: a path each, if given.
#[derive(Clone, Copy, Debug, PartialEq, Eq)]
pub struct Words<'a> {
    /// The scene file to begin with. Without one the scene is empty.
    pub load: Option<&'a str>,
    /// The scene file to write at the end. Without one nothing is saved.
    pub save: Option<&'a str>,
    /// The script. Without one it is standard input.
    pub script: Option<&'a str>,
}
