//! Writes to a vector that has the room.

ghost use Rattle.std.specs.Prelude.{◌≡◌, ◌+◌, ◌++◌, ◌≤◌, length, replicate, vec_capacity, vec_len};
ghost use Rattle.un_req.specs.Request.{patched};

/// Appends bytes as one slice; the room is there, so no memory is taken.
pub fn append(to: &mut Vec<u8>, bytes: &[u8])
    requires { vec_len to.old + length bytes.now ≤ vec_capacity to.old }
    ensures items { to.new.items ≡ to.old.items ++ bytes.now }
    ensures capacity { vec_capacity to.old ≤ vec_capacity to.new }
{
    let Ok(()) = to.extend_from_slice(bytes) else {
        unreachable!();
    };
}

/// Appends zero bytes; the room is there, so no memory is taken.
pub fn append_zeros(to: &mut Vec<u8>, count: u32)
    requires { vec_len to.old + count ≤ vec_capacity to.old }
    ensures items { to.new.items ≡ to.old.items ++ replicate count 0 }
    ensures capacity { vec_capacity to.old ≤ vec_capacity to.new }
{
    let Ok(()) = to.resize(to.len() + count as usize, 0) else {
        unreachable!();
    };
}

/// Writes bytes over others.
pub fn overwrite(to: &mut [u8], at: usize, bytes: &[u8])
    requires { at + length bytes.now ≤ length to.old }
    ensures { to.new ≡ patched to.old at bytes.now }
{
    to[at..at + bytes.len()].copy_from_slice(bytes);
}
