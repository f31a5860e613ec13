//! Plays a session whose readers and writers are memory.

use crate::{tell, tell_done, tell_refused};
use vdb_pool::Steps;
use vdb_scene::Watched;
use vdb_shell::session;

/// The file of a scene of one grid, in which voxel (1, 2, 3) has the value 5; SAVED is that with the value 7.
const LOADED: &[u8] =
    b"VDBS\x00\x02\x00\x01\x01a\x01\x00\x00\x00\x00\x00\x00\x10\x00\x00\x00\x00\x00\x01\x00\x00\x00\x00\x00\x00\x00\x00\x00\x00\x00\x00\x03\x00\x01\x00\x00\x03\x00\x01\x00\x00\x03\x00\x01\x00\x53\x02\x00\x00\x00\x05";

const SAVED: &[u8] =
    b"VDBS\x00\x02\x00\x01\x01a\x01\x00\x00\x00\x00\x00\x00\x10\x00\x00\x00\x00\x00\x01\x00\x00\x00\x00\x00\x00\x00\x00\x00\x00\x00\x00\x03\x00\x01\x00\x00\x03\x00\x01\x00\x00\x03\x00\x01\x00\x53\x02\x00\x00\x00\x07";

const SCRIPT: &[u8] = b"set a - 1 2 3 7\nget a - 1 2 3\n";

const ANSWERS: &[u8] = b"ok\nvalue 7 on\n";

/// Plays the script on the loaded scene. Returns whether it ended without a fault and wrote what it should.
fn plays(rt: &HostRuntime, steps: &mut Steps) -> bool {
    let mut load = Some(Watched::new(LOADED));
    let mut script = Watched::new(SCRIPT);
    let mut answers = Watched::new(Vec::new(rt.alloc()));
    let mut save = Some(Watched::new(Vec::new(rt.alloc())));
    let ended = session(
        rt.alloc(),
        &mut load,
        &mut script,
        &mut answers,
        &mut save,
        steps,
    );
    let Some(saved) = &save else {
        return false;
    };
    ended.fault.is_none()
        && ended.status == 0
        && answers.get_ref().as_slice() == ANSWERS
        && saved.get_ref().as_slice() == SAVED
}

/// Plays a session, and if it fails, plays it once more.
pub fn play(rt: &HostRuntime, steps: &mut Steps) {
    if !plays(rt, steps) {
        tell_refused(rt, "session", true);
        if !plays(rt, steps) {
            return tell(rt, "session", "refused again");
        }
    }
    tell_done(rt, "session", true);
}
