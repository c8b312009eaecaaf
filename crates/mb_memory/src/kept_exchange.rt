ghost use Rattle.std.specs.Prelude.{◌≡◌, ◌++◌, true, OnOk, OnErr};
ghost use Rattle.mb_outside.specs.Links.{Exchange};

use crate::Bytes;
use mb_outside::Memory;
use std::marker::Model;

/// An exchange with a server: what was sent, the whole answer, and whether it broke.
#[derive(Drop)]
pub(crate) struct KeptExchange {
    server: u32,
    sent: Vec<u8>,
    answered: Bytes,
    broke: bool,
}

impl Model for KeptExchange {
    ghost Value = { Exchange };

    ghost view = { λ n. record { server = n.server; sent = n.sent.items; answered = n.answered; broke = n.broke } };
}

impl KeptExchange {
    /// An exchange with nothing sent yet; `sent` is an empty list to append to.
    pub(crate) fn new(server: u32, sent: Vec<u8>, answered: Vec<u8>, broke: bool) -> Self
        ensures { result ≡ record { server = server; sent = sent.items; answered = answered.items; broke = broke } }
    {
        KeptExchange {
            server,
            sent,
            answered: Bytes::from_vec(answered),
            broke,
        }
    }

    pub(crate) fn server(&self) -> u32
        ensures { result ≡ self.now.server }
    {
        self.server
    }

    pub(crate) fn sent(&self) -> &[u8]
        ensures { result.now ≡ self.now.sent }
    {
        self.sent.as_slice()
    }

    pub(crate) fn answered(&self) -> &[u8]
        ensures { result.now ≡ self.now.answered }
    {
        self.answered.as_slice()
    }

    /// Appends to what was sent.
    pub(crate) fn send(&mut self, bytes: &[u8]) -> Result<(), Memory>
        ensures sent { OnOk result (self.new ≡ record self.old { sent = self.old.sent ++ bytes.now }) }
        ensures kept { OnErr result (self.new ≡ self.old) }
    {
        self.sent.extend_from_slice(bytes)?;
        Ok(())
    }

    pub(crate) fn break_off(&mut self)
        ensures { self.new ≡ record self.old { broke = true } }
    {
        self.broke = true;
    }
}
