//! The room that a script's lines need.

ghost use Rattle.std.specs.Prelude.{◌≡◌, ◌+◌, IfSome, sum_by};
ghost use Rattle.un_frame.specs.Params.{AreInRange};
ghost use Rattle.un_journal.specs.Script.{frames_of};
ghost use Rattle.un_journal.specs.Bytes.{byte_bound, frame_room};
ghost use Rattle.un_journal.specs.Drain.{line_bound};

use un_frame::Lane;
use un_script::Script;

/// The bytes that are reserved for each frame beside twice its length.
const RESERVED_BYTES: u64 = 192;

/// How many lines a history of the script may have: 22 for each frame, nine of them for the three times that its transfer may be tried again; of each receive request one, and two for each control; 4 for each control.
pub(crate) fn lines_of(script: &Script) -> u64
    ensures { result ≡ line_bound script.now }
{
    script.prove_ready();
    let params = script.params();
    let frames = u64::from(script.frame_count());
    let controls = u64::from(script.control_count());
    22 * frames + (2 * controls + 1) * u64::from(params.rx_out + params.rx_in) + 4 * controls
}

/// How many bytes those lines may carry; none where no memory could hold them.
pub(crate) fn bytes_of(script: &Script) -> Option<u64>
    ensures { IfSome result (λ n. n ≡ byte_bound script.now) }
{
    lane_bytes(script, Lane::Inward, lane_bytes(script, Lane::Outward, 0)?)
}

/// The same of one lane, added to what was counted before.
fn lane_bytes(script: &Script, lane: Lane, before: u64) -> Option<u64>
    ensures { IfSome result (λ n. n ≡ before + sum_by frame_room (frames_of script.now lane 0) + sum_by frame_room (frames_of script.now lane 1) + sum_by frame_room (frames_of script.now lane 2) + sum_by frame_room (frames_of script.now lane 3)) }
{
    let first = feed_bytes(script, lane, 0, before)?;
    let second = feed_bytes(script, lane, 1, first)?;
    let third = feed_bytes(script, lane, 2, second)?;
    feed_bytes(script, lane, 3, third)
}

/// The same of one sender's feed.
fn feed_bytes(script: &Script, lane: Lane, sender: u32, before: u64) -> Option<u64>
    ensures { IfSome result (λ n. n ≡ before + sum_by frame_room (frames_of script.now lane sender)) }
{
    script.prove_ready();
    let mut bytes: u64 = before;
    for index in 0..u64::MAX {
        let Some(frame) = script.frame(lane, sender, index) else {
            break;
        };
        bytes = bytes
            .checked_add(RESERVED_BYTES)?
            .checked_add(2 * frame.len() as u64)?;
    }
    Some(bytes)
}
