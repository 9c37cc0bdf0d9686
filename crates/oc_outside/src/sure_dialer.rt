//! A dialer in memory that never fails.

ghost use Rattle.std.specs.Prelude.{◌≡◌, ◌+◌, ◌-◌, ◌^◌, [], ◌∷◌, ◌++◌, min};
ghost use Rattle.oc_outside.specs.Dialers.{IfLine, OnDialFailed, OnDialNoMemory};
ghost use Rattle.oc_outside.specs.Lines.{new_line};

use crate::dialers::{Asked, DialAnswer, Dialer};
use crate::sure_link::SureLink;
use oc_values::{Items, Name, NoMemory};
use std::alloc::Global;
use std::marker::Model;

/// A dialer in memory that never fails: on each line that it hands out the same bytes come.
#[derive(Drop)]
pub struct SureDialer {
    alloc: Global,
    coming: Items<u8>,
    asked: Items<Asked>,
    handed: u64,
    closed: u64,
    last: SureLink,
}

impl Model for SureDialer {
    ghost use Rattle.oc_outside.specs.Lines.{DialerState};

    ghost Value = { DialerState };

    ghost view = { λ d. record { coming = d.coming; asked = d.asked; handed = d.handed; closed = d.closed; last = d.last } };
}

impl SureDialer {
    /// A dialer on whose lines these bytes come. The last line is at first one on which nothing comes.
    pub fn new(alloc: Global, coming: Items<u8>) -> SureDialer
        ensures { result ≡ record { coming = coming; asked = []; handed = 0; closed = 0; last = new_line [] } }
    {
        SureDialer {
            alloc,
            coming,
            asked: Items::new(alloc),
            handed: 0,
            closed: 0,
            last: SureLink::new(alloc, Items::new(alloc)),
        }
    }

    /// What it was asked for, in order.
    pub fn asked(&self) -> &[Asked]
        ensures { result.now ≡ self.now.asked }
    {
        self.asked.as_slice()
    }

    /// The line that was closed last.
    pub fn last(&self) -> &SureLink
        ensures { result.now ≡ self.now.last }
    {
        &self.last
    }

    fn hand_out(&mut self, asked: Asked) -> DialAnswer<SureLink>
        ensures line { IfLine result (λ line. line ≡ new_line self.old.coming) }
        ensures asked { IfLine result (λ _. self.new ≡ record self.old {
          asked = self.old.asked ++ asked ∷ [];
          handed = min (self.old.handed + 1) (2 ^ 64 - 1);
        }) }
        ensures unchanged { OnDialNoMemory result (self.new ≡ self.old) }
        ensures never_failed { OnDialFailed result ⊥ }
    {
        let coming = match Items::from_slice(self.alloc, self.coming.as_slice()) {
            Ok(coming) => coming,
            Err(_) => return DialAnswer::NoMemory,
        };
        match self.asked.push(asked) {
            Ok(()) => {
                self.handed = self.handed.saturating_add(1);
                DialAnswer::Line(SureLink::new(self.alloc, coming))
            }
            Err(_) => DialAnswer::NoMemory,
        }
    }
}

impl Dialer for SureDialer {
    ghost use Rattle.std.specs.Prelude.{Some};

    type Line = SureLink;

    ghost faults = { λ _. 0 };

    ghost handed = { λ d. d.handed };

    ghost closed = { λ d. d.closed };

    ghost asked = { λ d. Some d.asked };

    ghost last_sent = { λ d. Some d.last.sent };

    ghost last_arrived = { λ d. Some d.last.arrived };

    ghost last_faults = { λ _. 0 };

    ghost last_ends = { λ d. d.last.ends };

    fn listen(&mut self, address: &str) -> DialAnswer<SureLink> {
        match Name::from_bytes(self.alloc, address.as_bytes()) {
            Ok(name) => self.hand_out(Asked::Listen(name)),
            Err(NoMemory) => DialAnswer::NoMemory,
        }
    }

    fn connect(&mut self, address: &str) -> DialAnswer<SureLink> {
        match Name::from_bytes(self.alloc, address.as_bytes()) {
            Ok(name) => self.hand_out(Asked::Connect(name)),
            Err(NoMemory) => DialAnswer::NoMemory,
        }
    }

    fn close(&mut self, line: SureLink) {
        self.closed = self.closed.saturating_add(1);
        self.last = line;
    }
}
