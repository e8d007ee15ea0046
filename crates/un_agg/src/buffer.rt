//! Writes to a vector that has the room.

ghost use Rattle.std.specs.Prelude.{◌≡◌, ◌≤◌, length, vec_capacity};

/// Replaces what a vector holds by bytes for which it has the room, so no memory is taken.
pub fn refill(to: &mut Vec<u8>, bytes: &[u8])
    requires { length bytes.now ≤ vec_capacity to.old }
    ensures items { to.new.items ≡ bytes.now }
    ensures capacity { vec_capacity to.old ≤ vec_capacity to.new }
{
    to.clear();
    let Ok(()) = to.extend_from_slice(bytes) else {
        unreachable!();
    };
}
