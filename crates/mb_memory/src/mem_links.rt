ghost use Rattle.std.specs.Prelude.{◌≡◌, ◌↔◌, ◌⊎◌, ◌<◌, ◌≤◌, true, false, [], map, length, take, slice_index_or, is_some, IsTrue, IfOk, OnOk, OnErr, IsOk, IsErr, IsOkAnd};
ghost use Rattle.mb_outside.specs.Outside.{HasCause};
ghost use Rattle.mb_outside.specs.Links.{Exchange, Connects, FailsToConnect, Sends, Receives, Breaks};

use crate::Numbers;
use crate::exchange_log::ExchangeLog;
use crate::plan::Plan;
use mb_outside::{Failed, Links, Memory};
use std::alloc::Global;

/// Connections whose answers lie in memory. A call fails exactly where its number is a listed one, or
/// where there is no room for what it is to keep. `recv` keeps nothing.
///
/// A connection that fails takes no answer. Where there is no room to note one, made or not, the traffic
/// is told no more.
#[derive(Drop)]
pub struct MemLinks {
    log: ExchangeLog,
    connected: bool,
    /// Each exchange found room, so the log has them all.
    complete: bool,
    plan: Plan,
    ghost stands: { connected ≡ true → is_some log.last ≡ true },
}

impl MemLinks {
    ghost use Rattle.mb_memory.specs.Plan.{new_plan, refused_once};
    ghost use Rattle.mb_memory.specs.MemLinks.{exchanges_in, traffic_in};

    /// Connections that take `answers` in their order, and empty answers after them. The calls of
    /// `connect`, `send` and `recv` with the numbers `failing`, counted together from 1, fail. It is never
    /// refused.
    pub fn new(alloc: Global, answers: Vec<Vec<u8>>, failing: Vec<u64>) -> Result<Self, Memory>
        ensures traffic { IsOkAnd result (λ s. traffic_in s ≡ record { exchanges = []; coming = map (λ a. a.items) answers.items; waiting = []; begun = false }) }
        ensures told { IfOk result (λ s. s.complete ≡ true) }
        ensures connected { IfOk result (λ s. s.connected ≡ false) }
        ensures plan { IfOk result (λ s. s.plan ≡ new_plan failing.items) }
    {
        Ok(MemLinks {
            log: ExchangeLog::new(alloc, answers),
            connected: false,
            complete: true,
            plan: Plan::new(failing),
        })
    }

    /// How many exchanges were noted: one for each connection that was made or that failed.
    pub fn len(&self) -> usize
        ensures { result ≡ length (exchanges_in self.now) }
    {
        self.log.len()
    }

    pub fn is_empty(&self) -> bool
        ensures { IsTrue result ↔ (length (exchanges_in self.now) ≡ 0) }
    {
        self.log.len() == 0
    }

    /// The server of the exchange that was noted after `i` others.
    pub fn server(&self, i: usize) -> u32
        requires { i < length (exchanges_in self.now) }
        ensures { (d : Exchange) → result ≡ (slice_index_or (exchanges_in self.now) i d).server }
    {
        self.log.get(i).server()
    }

    /// What was sent in the exchange that was noted after `i` others.
    pub fn sent(&self, i: usize) -> &[u8]
        requires { i < length (exchanges_in self.now) }
        ensures { (d : Exchange) → result.now ≡ (slice_index_or (exchanges_in self.now) i d).sent }
    {
        self.log.get(i).sent()
    }

    /// Notes that an exchange found no room.
    fn stop_telling(&mut self)
        ensures complete { self.new.complete ≡ false }
        ensures plan { self.new.plan ≡ refused_once self.old.plan }
        ensures log { self.new.log ≡ self.old.log }
        ensures connected { self.new.connected ≡ self.old.connected }
    {
        self.complete = false;
        self.plan.refuse();
    }

    /// How many calls found no room.
    pub fn refused(&self) -> u64
        ensures { result ≡ self.now.plan.refused }
    {
        self.plan.refused()
    }
}

impl Links for MemLinks {
    ghost use Rattle.mb_memory.specs.Plan.{Calls, CallsForRoom, IsListed, faults_of};
    ghost use Rattle.mb_memory.specs.MemLinks.{traffic_in, told_in, KeepsTelling, StopsTelling};

    type Made = Numbers;

    ghost made = { λ s. s.plan.failing };

    ghost connected = { λ s. s.connected };

    ghost traffic = { told_in };

    ghost faults = { λ s. faults_of s.plan };

    fn connect(&mut self, server: u32) -> Result<(), Failed>
        ensures connected { IsTrue self.new.connected ↔ IsOk result }
        ensures made_one { OnOk result (Connects server (traffic_in self.old) (traffic_in self.new)) }
        ensures told { OnOk result (KeepsTelling self.old self.new) }
        ensures made_none { OnErr result ((KeepsTelling self.old self.new × FailsToConnect server (traffic_in self.old) (traffic_in self.new)) ⊎ StopsTelling self.old self.new) }
        ensures cause { HasCause (faults_of self.old.plan) (faults_of self.new.plan) result }
        ensures same { self.new.plan.failing ≡ self.old.plan.failing }
        ensures calls { CallsForRoom self.old.plan self.new.plan result }
    {
        self.connected = false;
        if self.plan.call() {
            if self.log.fail_to_connect(server).is_err() {
                self.stop_telling();
                return Err(Failed);
            }
            return Err(Failed);
        }
        if self.log.connect(server).is_err() {
            self.stop_telling();
            return Err(Failed);
        }
        self.connected = true;
        Ok(())
    }

    fn send(&mut self, buf: &[u8]) -> Result<usize, Failed>
        requires { IsTrue self.old.connected }
        ensures within { IfOk result (λ n. n ≤ length buf.now) }
        ensures some { IfOk result (λ n. 0 < length buf.now → 0 < n) }
        ensures all { IfOk result (λ n. n ≡ length buf.now) }
        ensures connected { self.new.connected ≡ self.old.connected }
        ensures sent { IfOk result (λ n. Sends (take n buf.now) (traffic_in self.old) (traffic_in self.new)) }
        ensures broke { OnErr result (Breaks false (traffic_in self.old) (traffic_in self.new)) }
        ensures told { self.new.complete ≡ self.old.complete }
        ensures cause { HasCause (faults_of self.old.plan) (faults_of self.new.plan) result }
        ensures same { self.new.plan.failing ≡ self.old.plan.failing }
        ensures calls { Calls self.old.plan self.new.plan result }
    {
        if self.plan.call() {
            self.log.break_off(false);
            return Err(Failed);
        }
        if self.log.send(buf).is_err() {
            self.plan.refuse();
            self.log.break_off(false);
            return Err(Failed);
        }
        Ok(buf.len())
    }

    fn recv(&mut self, buf: &mut [u8]) -> Result<usize, Failed>
        requires { IsTrue self.old.connected }
        ensures within { IfOk result (λ n. n ≤ length buf.new) }
        ensures connected { self.new.connected ≡ self.old.connected }
        ensures received { IfOk result (λ n. Receives (length buf.new) (take n buf.new) (traffic_in self.old) (traffic_in self.new)) }
        ensures broke { OnErr result (Breaks true (traffic_in self.old) (traffic_in self.new)) }
        ensures told { self.new.complete ≡ self.old.complete }
        ensures cause { HasCause (faults_of self.old.plan) (faults_of self.new.plan) result }
        ensures same { self.new.plan.failing ≡ self.old.plan.failing }
        ensures calls { Calls self.old.plan self.new.plan result }
        ensures listed { IsErr result ↔ IsListed self.new.plan }
    {
        if self.plan.call() {
            self.log.break_off(true);
            return Err(Failed);
        }
        Ok(self.log.receive(buf))
    }

    fn finish(&mut self)
        ensures connected { self.new.connected ≡ false }
        ensures kept { traffic_in self.new ≡ traffic_in self.old }
        ensures told { self.new.complete ≡ self.old.complete }
        ensures plan { self.new.plan ≡ self.old.plan }
    {
        self.connected = false;
    }
}
