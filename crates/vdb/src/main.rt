//! `vdb` plays a script on sparse voxel grids.
//!
//! It loads a scene file, if one is named, and reads the script from a file or from standard input. It writes the answer to each
//! command to standard output before it reads the next one. At the end it saves the scene, if a file for it is named.
#![tactic(auto)]

ghost use Rattle.std.specs.Prelude.{◌≡◌, IfOk, false};
ghost use Rattle.vdb_shell.specs.Files.{any_failed};

use std::alloc::Global;
use std::fs::File;
use std::process::ExitCode;
use std::{env, fs, io};
use vdb_file::{LoadFault, SaveFault};
use vdb_pool::Steps;
use vdb_scene::{Scene, Watched};
use vdb_script::ScriptFault;
use vdb_shell::{Fault, Played, Words, finish, play, start, status, words};

/// The exit status of a faulty command line.
const USAGE: u8 = 2;

/// The number of bytes of each block whose memory is kept: just under 32 MiB, the largest that glibc takes from its heap.
const KEPT: usize = 33_488_896;

/// The number of blocks whose memory is kept: 511 MiB in all.
const BLOCKS: usize = 16;

/// The number of bytes of the block behind them, more than any gap in the heap of a program that has just started.
const LAST: usize = 65_536;

fn main(rt: HostRuntime) -> ExitCode {
    let last = keep_freed_memory(rt.alloc());
    let code = match run(&rt) {
        Ok(code) => code,
        Err(_) => {
            let _ = eprintln!(rt; "error: out of memory");
            ExitCode::from(USAGE)
        }
    };
    drop(last);
    code
}

/// Lets the C library keep freed memory for later allocations; else the memory of freed nodes goes back to the system.
///
/// glibc gives back the end of its heap, and blocks larger than the largest that was freed so far. So this frees a block of `KEPT`
/// bytes, and then lays one more block, which it returns, behind the memory of `BLOCKS` such blocks. Memory that is never written
/// takes no page. An allocation failure here changes no answer.
fn keep_freed_memory(alloc: Global) -> Option<Vec<u8>> {
    let _ = block(alloc, KEPT);
    let mut blocks = Vec::with_capacity(alloc, BLOCKS).ok()?;
    for _ in 0..BLOCKS {
        blocks.push(block(alloc, KEPT)?).ok()?;
    }
    block(alloc, LAST)
}

/// Allocates a block of `bytes` bytes.
fn block(alloc: Global, bytes: usize) -> Option<Vec<u8>> {
    Vec::with_capacity(alloc, bytes).ok()
}

/// Reads the command line, and carries it out. Fails if an allocation for its words fails.
fn run(rt: &HostRuntime) -> io::Result<ExitCode> {
    let given: Vec<String> = env::args(rt)?.collect(rt.alloc())?;
    let texts: Vec<&str> = given.iter().map(|word| word.as_str()).collect(rt.alloc())?;
    match words(rt.alloc(), texts.as_slice()) {
        Ok(named) => Ok(report_end(rt, carry_out(rt, &named))),
        Err(fault) => Ok(report_usage(rt, &fault)),
    }
}

/// Prints why no session runs: help and the version to standard output, a fault of the command line to standard error.
fn report_usage(rt: &HostRuntime, fault: &clap::Error) -> ExitCode {
    let _ = fault.print(rt);
    ExitCode::from(if fault.use_stderr() { USAGE } else { 0 })
}

/// Reports the fault that ended the session early, if any.
fn report_end(rt: &HostRuntime, played: Played) -> ExitCode {
    if let Some(fault) = &played.fault {
        let _ = eprintln!(rt; "{fault}");
    }
    ExitCode::from(status(played.refused, played.fault.as_ref()))
}

/// Loads, plays and saves the named files. Each file is opened only when it is needed.
fn carry_out(rt: &HostRuntime, named: &Words<'_>) -> Played {
    let mut steps = Steps::new(rt);
    let mut scene = match load(rt, named.load, &mut steps) {
        Ok(scene) => scene,
        Err(fault) => {
            return Played {
                refused: false,
                fault: Some(Fault::Load(fault)),
            };
        }
    };
    let played = play_named(rt, named.script, &mut scene, &mut steps);
    if played.fault.is_some() {
        return played;
    }
    match save(rt, named.save, &scene, &mut steps) {
        Ok(()) => played,
        Err(fault) => Played {
            refused: played.refused,
            fault: Some(Fault::Save(fault)),
        },
    }
}

/// Returns the scene that the script begins with. A file that can't be opened counts as one that can't be read.
fn load(rt: &HostRuntime, path: Option<&str>, steps: &mut Steps) -> Result<Scene, LoadFault> {
    let mut file = opened(rt, path)?;
    start(rt.alloc(), &mut file, steps)
}

/// Opens the scene file, if one is named.
fn opened(rt: &HostRuntime, path: Option<&str>) -> Result<Option<Watched<File>>, LoadFault>
    ensures { IfOk result (λ file. any_failed file ≡ false) }
{
    let Some(path) = path else {
        return Ok(None);
    };
    match fs::open(rt, path) {
        Ok(file) => Ok(Some(Watched::new(file))),
        Err(_) => Err(LoadFault::Read),
    }
}

/// Plays the script, or standard input if no file is named. A file that can't be opened counts as one that can't be read.
fn play_named(
    rt: &HostRuntime,
    path: Option<&str>,
    scene: &mut Scene,
    steps: &mut Steps,
) -> Played {
    let mut answers = Watched::new(io::writer(rt));
    let Some(path) = path else {
        let mut script = Watched::new(rt.stdin());
        return play(rt.alloc(), scene, &mut script, &mut answers, steps);
    };
    match fs::open(rt, path) {
        Ok(file) => {
            let mut script = Watched::new(file);
            play(rt.alloc(), scene, &mut script, &mut answers, steps)
        }
        Err(_) => Played {
            refused: false,
            fault: Some(Fault::Script(ScriptFault::Read)),
        },
    }
}

/// Saves the scene, if a file for it is named. A file that can't be created counts as one that can't be written.
fn save(
    rt: &HostRuntime,
    path: Option<&str>,
    scene: &Scene,
    steps: &mut Steps,
) -> Result<(), SaveFault> {
    let mut file = created(rt, path)?;
    finish(scene, &mut file, steps)
}

/// Creates the file to save in, if one is named. An existing file is overwritten.
fn created(rt: &HostRuntime, path: Option<&str>) -> Result<Option<Watched<File>>, SaveFault>
    ensures { IfOk result (λ file. any_failed file ≡ false) }
{
    let Some(path) = path else {
        return Ok(None);
    };
    match fs::create(rt, path) {
        Ok(file) => Ok(Some(Watched::new(file))),
        Err(_) => Err(SaveFault::Write),
    }
}
