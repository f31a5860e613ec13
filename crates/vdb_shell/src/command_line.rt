//! The command line of the program.
ghost use Rattle.std.specs.Prelude.{◌≡◌, IfOk, codes, false, map, option_map};
ghost use Rattle.clap.specs.Words.{FailsBy, app_of, fault_of, rule_of};
ghost use Rattle.vdb_shell.specs.CommandLine.{file_rule, given, program, script_rule};

use crate::Words;
use clap::{Arg, ArgAction, Command, Error};
use std::alloc::{AllocError, Global};

/// The end of the text of `--help`: commands, arguments, limits, an example and the exit statuses.
const COMMANDS: &str = "\
A script has one command per line. Each command is answered before the next line is read.

Grids:
  grid NAME KIND BACKGROUND [ROOTS]  create a grid; KIND is bool, i32 or i64
  drop NAME                          delete a grid
  copy FROM TO                       copy grid FROM to the new grid TO
Voxels:
  get NAME ACCESSOR X Y Z            print the value and the state of a voxel
  set NAME ACCESSOR X Y Z VALUE      set the value and activate the voxel
  unset NAME ACCESSOR X Y Z VALUE    set the value and deactivate the voxel
  only NAME ACCESSOR X Y Z VALUE     set the value and keep the state
  state NAME ACCESSOR X Y Z STATE    set the state and keep the value
Boxes and nodes:
  fill NAME BOX VALUE STATE          set the value and the state of every voxel in a box
  clip NAME BOX                      reset every voxel outside a box to the background, inactive
  prune NAME                         collapse nodes of equal cells into tiles; no cell changes
  voxelise NAME BOX                  store the active voxels of a box in leaves; no cell changes
Reports:
  count NAME BOX                     count the active voxels of a box
  count NAME all                     count all active voxels of the grid
  bounds NAME                        print the bounding box of the active voxels
  list NAME BOX LIMIT                list the first LIMIT active voxels of a box
  slice NAME Z X0 Y0 X1 Y1           print the cells of a rectangle in the plane Z
  census NAME                        count the nodes of the smallest tree with these cells
Two grids (OTHER keeps its cells):
  union NAME OTHER                   activate every voxel that is active in OTHER
  difference NAME OTHER              deactivate every voxel that is active in OTHER
  intersect NAME OTHER               deactivate every voxel that is inactive in OTHER
  max NAME OTHER                     keep the greater value, active if either voxel is
  min NAME OTHER                     keep the lesser value, active if either voxel is
  sum NAME OTHER                     add the values, active if either voxel is
  replace NAME OTHER                 copy every active voxel of OTHER
Morphology:
  dilate NAME ITERATIONS             activate the face neighbours of active voxels
  erode NAME ITERATIONS              deactivate the voxels with an inactive face neighbour
Metadata:
  meta NAME KEY TEXT                 store a text under a key
  unmeta NAME KEY                    delete a key and its text
  metas NAME                         list all keys with their texts

  NAME, FROM, TO, OTHER, KEY  a letter a to z, then up to 15 of a to z, 0 to 9 and _
  BACKGROUND, VALUE           true or false in a bool grid, else a decimal number
  X, Y, Z                     voxel coordinates, -2147483648 to 2147483647
  BOX                         X0 Y0 Z0 X1 Y1 Z1, in voxels; the box includes both corners
  STATE                       on or off
  ACCESSOR                    - for none, or 0 to 7
  ROOTS                       root limit: how many 4096-voxel cubes may hold data, 1 to 65536
                              (default 4096)
  LIMIT                       1 to 4096 voxels
  ITERATIONS                  1 to 16
  TEXT                        1 to 64 printable ASCII characters, no space

A slice has at most 64 by 64 cells, a voxelised box 2097152 voxels, a line 256 bytes, a script
16 MiB, a scene 64 grids, a scene file 256 MiB. A line that begins with # is a comment.
A command that fails is answered 'error WORD' and changes no cell.

Example:
  printf 'grid a i32 0\\nfill a 0 0 0 9 9 9 5 on\\ncount a all\\n' | vdb --save a.vdbs
prints 'ok', 'ok' and 'count 1000', and saves the grid in a.vdbs.

Exit status: 0 success; 1 some command failed; 2 wrong command line; 3 the scene file was not
loaded; 4 another fault. The scene is saved only with status 0 or 1.
docs/LANGUAGE.md describes every command and error, docs/FORMAT.md the scene file.";

/// Returns an option that takes a file.
fn file_option<'a>(alloc: Global, name: &'a str, help: &'a str) -> Arg<'a>
    ensures rule { rule_of result ≡ file_rule name.entry.now }
    ensures global { result.global ≡ false }
{
    Arg::new(alloc, name)
        .long(name)
        .action(ArgAction::Set)
        .value_name("FILE")
        .help(help)
}

/// Returns the argument for the script, a word without an option before it.
fn script_word<'a>(alloc: Global) -> Arg<'a>
    ensures rule { rule_of result ≡ script_rule }
    ensures global { result.global ≡ false }
{
    Arg::new(alloc, "script")
        .action(ArgAction::Set)
        .value_name("SCRIPT")
        .help("Script to run (default: standard input)")
}

/// Returns the command line, as `clap` reads it.
fn command<'a>(alloc: Global) -> Result<Command<'a>, AllocError>
    ensures { IfOk result (λ command. app_of command ≡ program) }
{
    let load = file_option(
        alloc,
        "load",
        "Scene file to load first (default: an empty scene)",
    );
    let save = file_option(
        alloc,
        "save",
        "Scene file to write at the end; an existing file is overwritten",
    );
    let command = Command::new(alloc, "vdb")
        .version("1.2.0")
        .about("Runs a script on sparse voxel grids and prints one answer per command.")
        .after_help(COMMANDS);
    let command = command.arg(load)?.arg(save)?.arg(script_word(alloc))?;
    Ok(command)
}

/// Reads the command line `vdb [--load FILE] [--save FILE] [SCRIPT]`, whose first word is the program's name. `--load=FILE` is
/// the same as `--load FILE`, and after `--` every word is a SCRIPT.
///
/// Fails if a word begins with `-` and names no option, if an option has no FILE or occurs twice, or if a second SCRIPT follows.
/// Also fails if help or the version is asked for (`--help`, `-h`, `--version`, `-V`): the error then has its text. Also fails if
/// an allocation fails.
pub fn words<'a>(alloc: Global, words: &'a [&'a str]) -> Result<Words<'a>, Error>
    ensures load { IfOk result (λ found. option_map (λ path. path.now) found.load ≡ given (codes "load") (map (λ word. word.now) words.entry.now)) }
    ensures save { IfOk result (λ found. option_map (λ path. path.now) found.save ≡ given (codes "save") (map (λ word. word.now) words.entry.now)) }
    ensures script { IfOk result (λ found. option_map (λ path. path.now) found.script ≡ given (codes "script") (map (λ word. word.now) words.entry.now)) }
    // Words with a fault fail by it or by an allocation failure, and words without one only by an allocation failure.
    ensures fault { FailsBy (fault_of program (map (λ word. word.now) words.entry.now)) result }
{
    let matches = command(alloc)?.try_get_matches_from(words)?;
    Ok(Words {
        load: matches.get_str("load"),
        save: matches.get_str("save"),
        script: matches.get_str("script"),
    })
}
