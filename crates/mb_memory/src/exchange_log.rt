ghost use Rattle.std.specs.Prelude.{◌≡◌, ◌<◌, ◌≤◌, true, false, [], map, length, take, slice_index_or, is_some, OnOk, OnErr};
ghost use Rattle.mb_outside.specs.Links.{Exchange, Connects, FailsToConnect, Sends, Receives, Breaks};

use crate::kept_exchange::KeptExchange;
use mb_outside::Memory;
use std::alloc::Global;

/// The exchanges with servers up to now, and the answers to come.
#[derive(Drop)]
pub(crate) struct ExchangeLog {
    alloc: Global,
    earlier: Vec<KeptExchange>,
    last: Option<KeptExchange>,
    /// The answers to come, the next one at the end.
    answers: Vec<Vec<u8>>,
    /// How many bytes of the last answer were received, once receiving was tried.
    received: Option<usize>,
}

impl ExchangeLog {
    ghost use Rattle.mb_memory.specs.ExchangeLog.{traffic_of, exchanges_of, waiting_of, coming_of};

    pub(crate) fn new(alloc: Global, answers: Vec<Vec<u8>>) -> Self
        ensures exchanges { exchanges_of result ≡ [] }
        ensures coming { coming_of result ≡ map (λ a. a.items) answers.items }
        ensures waiting { waiting_of result ≡ [] }
        ensures begun { (traffic_of result).begun ≡ false }
    {
        let mut answers = answers;
        answers.reverse();
        ExchangeLog {
            alloc,
            earlier: Vec::new(alloc),
            last: None,
            answers,
            received: None,
        }
    }

    /// Adds an exchange that takes the next answer, or an empty one where none is left.
    pub(crate) fn connect(&mut self, server: u32) -> Result<(), Memory>
        ensures made { OnOk result (Connects server (traffic_of self.old) (traffic_of self.new)) }
        ensures stands { OnOk result (is_some self.new.last ≡ true) }
        ensures kept { OnErr result (traffic_of self.new ≡ traffic_of self.old) }
    {
        self.make_room()?;
        let answer = match self.answers.pop() {
            Some(answer) => answer,
            None => Vec::new(self.alloc),
        };
        self.last = Some(KeptExchange::new(server, Vec::new(self.alloc), answer, false));
        self.received = None;
        Ok(())
    }

    /// Adds an exchange that broke at once, and takes no answer.
    pub(crate) fn fail_to_connect(&mut self, server: u32) -> Result<(), Memory>
        ensures made { OnOk result (FailsToConnect server (traffic_of self.old) (traffic_of self.new)) }
        ensures kept { OnErr result (traffic_of self.new ≡ traffic_of self.old) }
    {
        self.make_room()?;
        let answer = Vec::new(self.alloc);
        self.last = Some(KeptExchange::new(server, Vec::new(self.alloc), answer, true));
        self.received = None;
        Ok(())
    }

    /// Makes room for the next exchange, by moving the last one to the earlier ones.
    fn make_room(&mut self) -> Result<(), Memory>
        ensures moved { OnOk result (self.new.earlier.items ≡ exchanges_of self.old) }
        ensures answers { self.new.answers ≡ self.old.answers }
        ensures kept { OnErr result (traffic_of self.new ≡ traffic_of self.old) }
    {
        self.earlier.reserve(1)?;
        if let Some(last) = self.last.take() {
            self.earlier.push_reserved(last);
        }
        Ok(())
    }

    /// Appends all of `bytes` to what the last exchange has sent.
    pub(crate) fn send(&mut self, bytes: &[u8]) -> Result<(), Memory>
        requires { is_some self.old.last ≡ true }
        ensures sent { OnOk result (Sends bytes.now (traffic_of self.old) (traffic_of self.new)) }
        ensures kept { OnErr result (traffic_of self.new ≡ traffic_of self.old) }
        ensures stands { is_some self.new.last ≡ true }
    {
        if let Some(last) = &mut self.last {
            last.send(bytes)?;
        }
        Ok(())
    }

    /// Moves the first bytes that wait into the front of `buf`, as many as there are room and bytes.
    pub(crate) fn receive(&mut self, buf: &mut [u8]) -> usize
        ensures within { result ≤ length buf.new }
        ensures received { Receives (length buf.new) (take result buf.new) (traffic_of self.old) (traffic_of self.new) }
        ensures stands { is_some self.new.last ≡ is_some self.old.last }
    {
        let answer = match &self.last {
            Some(last) => last.answered(),
            None => &[],
        };
        let place = self.received.unwrap_or(0).min(answer.len());
        let count = buf.len().min(answer.len() - place);
        buf[..count].copy_from_slice(&answer[place..place + count]);
        self.received = Some(place + count);
        count
    }

    /// Notes that the last exchange broke, at a call that received or at one that sent.
    pub(crate) fn break_off(&mut self, receiving: bool)
        requires { is_some self.old.last ≡ true }
        ensures broke { Breaks receiving (traffic_of self.old) (traffic_of self.new) }
        ensures stands { is_some self.new.last ≡ true }
    {
        if let Some(last) = &mut self.last {
            last.break_off();
        }
        if receiving {
            self.received = Some(self.received.unwrap_or(0));
        }
    }

    pub(crate) fn len(&self) -> usize
        ensures { result ≡ length (exchanges_of self.now) }
    {
        self.earlier.len() + usize::from(self.last.is_some())
    }

    /// The exchange that was added after `i` others.
    pub(crate) fn get(&self, i: usize) -> &KeptExchange
        requires { i < length (exchanges_of self.now) }
        ensures { (d : Exchange) → result.now ≡ slice_index_or (exchanges_of self.now) i d }
    {
        match &self.last {
            Some(last) if i == self.earlier.len() => last,
            _ => &self.earlier[i],
        }
    }
}
