//! Playing a script on a scene, line by line.
ghost use Rattle.std.specs.Prelude.{◌≡◌, ◌+◌, ◌^◌, ◌<◌, ◌≤◌, ◌||◌, ◌↔◌, false, true, Some, None, Err, IfOk, IfSome, OnOk, OnErr, IsTrue, is_err, ℕ, List, length};
ghost use Rattle.std.specs.Io.KnownBytes.{Appends, Consumes};
ghost use Rattle.vdb_scene.specs.Grids.{scene_of};
ghost use Rattle.vdb_scene.specs.Shown.{Shows};
ghost use Rattle.vdb_scene.specs.Replies.{Reply};
ghost use Rattle.vdb_scene.specs.Watched.{bytes_given, empty_reads, has_failed, source};
ghost use Rattle.vdb_script.specs.Reading.{EndsWith, YieldsEnd, YieldsLine, YieldsPart, YieldsTooMuch, ahead, budget, end_count};
ghost use Rattle.vdb_script.specs.Text.{text};
ghost use Rattle.vdb_script.specs.Writing.{Writes};
ghost use Rattle.vdb_shell.specs.internal.Answering.{TakesTurn, excess_at_end, is_read_ending};
ghost use Rattle.vdb_shell.specs.Session.{IsOfScript, PlaysFrom, is_refused};

use crate::Fault;
use std::alloc::Global;
use std::io::{Read, Write};
use vdb_pool::Steps;
use vdb_scene::{Answer, Refusal, Scene, Watched};
use vdb_script::{Line, Lines, ScriptFault, WriteFault, parse, print, read_line};

/// The end of playing a script.
#[derive(Clone, Copy, Debug, PartialEq, Eq)]
pub struct Played {
    /// Whether a line failed.
    pub refused: bool,
    /// The fault that ended it early, if any.
    pub fault: Option<Fault>,
}

/// The result of a line.
#[derive(Clone, Copy)]
struct Turn {
    /// Whether the line failed.
    refused: bool,
    /// Whether its answer was written, if it has one.
    written: Result<(), WriteFault>,
}

/// Plays a script on a scene: reads a line, carries it out and writes its answer before it reads the next line.
///
/// It ends at the end of the script or at the first fault. If the script has more than 16,777,216 bytes, each whole line within
/// that limit is carried out. If a call of the reader fails, the unfinished line isn't carried out. If a call of the writer fails
/// or takes no byte, a prefix of the answers has been written.
pub fn play<R: Read, W: Write>(
    alloc: Global,
    scene: &mut Scene,
    script: &mut Watched<R>,
    answers: &mut Watched<W>,
    steps: &mut Steps,
) -> Played
    requires script_fresh { has_failed script.old ≡ false }
    requires answers_fresh { has_failed answers.old ≡ false }
    // If the reader's bytes are known, answers and scene are those of a run over the script's lines.
    ensures plays { (bytes : List ℕ) → R.remaining (source script.old) ≡ Some bytes →
        (given written : List ℕ)
        × Consumes (Some bytes) (R.remaining (source script.new)) given
        × Appends (W.contents (source answers.old)) (W.contents (source answers.new)) written
        × PlaysFrom (scene_of scene.old) bytes result.fault result.refused given written (scene_of scene.new) }
    // A fault is one of the script or of its answers. A fault of reading or writing occurs exactly if that reader or writer
    // failed.
    ensures faults { IfSome result.fault IsOfScript }
    ensures script { (result.fault ≡ Some (Fault.Script ScriptFault.Read)) ↔ IsTrue (has_failed script.new) }
    ensures answers { (result.fault ≡ Some Fault.Answers) ↔ IsTrue (has_failed answers.new) }
    // Any reader, also one that never ends, gives at most one byte past the limit, and reports its end at most once.
    ensures few { bytes_given script.new ≤ bytes_given script.old + (2 ^ 24 + 1) }
    ensures once { empty_reads script.new ≤ empty_reads script.old + 1 }
    // If any reader gives more bytes than the limit, the script is too long.
    ensures too_long { bytes_given script.old + 2 ^ 24 < bytes_given script.new → result.fault ≡ Some (Fault.Script ScriptFault.TooLong) }
{
    let mut lines = Lines::new();
    let mut refused = false;
    'lines: loop {
        match play_line(alloc, scene, &mut lines, script, answers, steps) {
            Err(None) => {
                return Played {
                    refused,
                    fault: None,
                };
            }
            Err(Some(fault)) => {
                return Played {
                    refused,
                    fault: Some(Fault::Script(fault)),
                };
            }
            Ok(turn) => {
                refused |= turn.refused;
                if turn.written.is_err() {
                    return Played {
                        refused,
                        fault: Some(Fault::Answers),
                    };
                }
            }
        }
    }
}

/// Reads the next line of a script that has neither ended nor failed, carries it out and writes its answer, if it has one.
/// Returns `Err(None)` at the script's end.
fn play_line<R: Read, W: Write>(
    alloc: Global,
    scene: &mut Scene,
    lines: &mut Lines,
    script: &mut Watched<R>,
    answers: &mut Watched<W>,
    steps: &mut Steps,
) -> Result<Turn, Option<ScriptFault>>
    requires unended { lines.old.ending ≡ None }
    requires ends { EndsWith lines.old.source (R.remaining (source script.old)) }
    ensures ends { EndsWith lines.new.source (R.remaining (source script.new)) }
    ensures line { IfOk result (λ turn. (line : List ℕ)
        × YieldsLine (ahead lines.old.source (R.remaining (source script.old))) (ahead lines.new.source (R.remaining (source script.new))) lines.old.source lines.new.source line
        × TakesTurn (scene_of scene.old) line turn (W.contents (source answers.old)) (W.contents (source answers.new)) (scene_of scene.new)) }
    ensures end { result ≡ Err None → YieldsEnd (ahead lines.old.source (R.remaining (source script.old))) (ahead lines.new.source (R.remaining (source script.new))) lines.new.source }
    ensures overflow { result ≡ Err (Some ScriptFault.TooLong) → YieldsTooMuch (ahead lines.old.source (R.remaining (source script.old))) (R.remaining (source script.new)) lines.old.source }
    ensures read { result ≡ Err (Some ScriptFault.Read) → YieldsPart (ahead lines.old.source (R.remaining (source script.old))) (R.remaining (source script.new)) lines.old.source }
    ensures failed { has_failed script.new ≡ (has_failed script.old || is_read_ending result) }
    ensures given { OnOk result (bytes_given script.new + lines.new.source.left ≤ bytes_given script.old + lines.old.source.left) }
    ensures few { bytes_given script.new + lines.new.source.left ≤ bytes_given script.old + lines.old.source.left + 1 }
    ensures over { bytes_given script.new + lines.new.source.left ≤ bytes_given script.old + lines.old.source.left + excess_at_end result }
    ensures once { empty_reads script.new + end_count lines.old.source ≤ empty_reads script.old + end_count lines.new.source }
    ensures answers_failed { IfOk result (λ turn. has_failed answers.new ≡ (has_failed answers.old || is_err turn.written)) }
    ensures quiet { lines.old.source.ended ≡ true → script.new ≡ script.old }
    ensures same { OnErr result (scene_of scene.new ≡ scene_of scene.old) }
    ensures silent { OnErr result (answers.new ≡ answers.old) }
    ensures unended { OnOk result (lines.new.ending ≡ None) }
    ensures progress { OnOk result (budget lines.new.source < budget lines.old.source) }
{
    match read_line(lines, script) {
        Ok(Line::Text) => Ok(answer_line(alloc, scene, lines.text(), answers, steps)),
        Ok(Line::TooLong) => Ok(tell(Answer::Refused(Refusal::LineTooLong), answers, steps)),
        Ok(Line::End) => Err(None),
        Err(fault) => Err(Some(fault)),
    }
}

/// Carries out a line of at most 256 bytes and writes its answer, if it has one.
fn answer_line<W: Write>(
    alloc: Global,
    scene: &mut Scene,
    line: &[u8],
    answers: &mut Watched<W>,
    steps: &mut Steps,
) -> Turn
    requires { length line.now < 257 }
    ensures turn { TakesTurn (scene_of scene.old) line.now result (W.contents (source answers.old)) (W.contents (source answers.new)) (scene_of scene.new) }
    ensures failed { has_failed answers.new ≡ (has_failed answers.old || is_err result.written) }
{
    match parse(alloc, line) {
        Ok(None) => Turn {
            refused: false,
            written: Ok(()),
        },
        Ok(Some(command)) => tell(scene.apply(&command, steps), answers, steps),
        Err(refusal) => tell(Answer::Refused(refusal), answers, steps),
    }
}

/// Writes an answer.
fn tell<W: Write>(answer: Answer, answers: &mut Watched<W>, steps: &mut Steps) -> Turn
    ensures refused { (reply : Reply) → Shows answer.entry reply → result.refused ≡ is_refused reply }
    ensures writes { (reply : Reply) → Shows answer.entry reply →
        Writes (W.contents (source answers.old)) (W.contents (source answers.new)) result.written (text reply) }
    ensures failed { has_failed answers.new ≡ (has_failed answers.old || is_err result.written) }
{
    let refused = is_refusal(&answer);
    let written = print(answer, answers, steps);
    Turn { refused, written }
}

/// Returns whether an answer is an error.
fn is_refusal(answer: &Answer) -> bool
    ensures { (reply : Reply) → Shows answer.now reply → result ≡ is_refused reply }
{
    matches!(answer, Answer::Refused(_))
}
