ghost use Rattle.std.specs.Prelude.{◌≡◌, ◌≤◌, length, take, vec_len, IfOk};
ghost use Rattle.mb_outside.specs.Broadcast.{datagram_most};

use crate::{DATAGRAM_MAX, Memory};
use std::alloc::Global;
use std::marker::Model;

/// So many bytes, all of them zero. `Memory` where there is no room for them.
// The length is a parameter, since a proof would write a literal number of zeros out.
pub fn room(alloc: Global, len: usize) -> Result<Vec<u8>, Memory>
    ensures { IfOk result (λ bytes. vec_len bytes ≡ len) }
{
    Ok(vec![in alloc; 0; len]?)
}

/// Room for the largest datagram, which a contract sees as its list of 65,535 bytes.
#[derive(Drop)]
pub struct DatagramBuffer {
    bytes: Vec<u8>,
    ghost whole: { vec_len bytes ≡ datagram_most },
}

impl Model for DatagramBuffer {
    ghost use Rattle.std.specs.Prelude.{ℕ, List};

    ghost Value = { List ℕ };

    ghost view = { λ buf. buf.bytes.items };
}

impl DatagramBuffer {
    /// A buffer of zeros. `Memory` where there is no room for it.
    pub fn new(alloc: Global) -> Result<Self, Memory>
        ensures { IfOk result (λ buf. length buf ≡ datagram_most) }
    {
        let bytes = room(alloc, DATAGRAM_MAX)?;
        Ok(DatagramBuffer { bytes })
    }

    /// Moves the datagram into the front.
    pub fn put(&mut self, datagram: &[u8])
        requires { length datagram.now ≤ datagram_most }
        ensures { take (length datagram.now) self.new ≡ datagram.now }
    {
        copy_to_front(&mut self.bytes, datagram);
    }

    /// The first `len` bytes.
    pub fn front(&self, len: usize) -> &[u8]
        requires { len ≤ datagram_most }
        ensures { result.now ≡ take len self.now }
    {
        &self.bytes[..len]
    }
}

fn copy_to_front(bytes: &mut [u8], front: &[u8])
    requires { length front.now ≤ length bytes.old }
    ensures len { length bytes.new ≡ length bytes.old }
    ensures front { take (length front.now) bytes.new ≡ front.now }
{
    bytes[..front.len()].copy_from_slice(front);
}
