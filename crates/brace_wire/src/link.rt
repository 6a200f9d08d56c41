ghost use Rattle.std.specs.Prelude.{◌≡◌, ◌+◌, ◌^◌, ◌<◌, ◌==◌, nat_lt, length, slice_get, OnOk, OnErr, ◌++◌};
ghost use Rattle.brace_wire.specs.Links.{fate_of, fresh, received, taken_at, with_put, sent_again, sent_at_once, sent_late, after_round};
ghost use Rattle.brace_wire.specs.inner.Standing.{CanBeSent, CanCount, CanRound};

use crate::carrier::Carrier;
use crate::receiver::Receiver;
use crate::{Fate, Frame, Kept};
use brace_core::Name;
use brace_num::NoMemory;
use brace_pieces::Piece;
use std::alloc::Global;
use std::marker::Model;
use std::mem;

/// One lane over a link: how many pieces were put, the two that its sender keeps, the frames that
/// are handed over at the end of the next round, and its receiver.
#[derive(Drop)]
pub(crate) struct Link {
    put: u64,
    older: Option<Kept>,
    newer: Option<Kept>,
    late: Vec<Frame>,
    receiver: Receiver,
}

impl Model for Link {
    ghost use Rattle.brace_wire.specs.Links.{OnLink};

    ghost Value = { OnLink };

    ghost view = { λ it. record {
      put = it.put;
      older = it.older;
      newer = it.newer;
      late = it.late.items;
      receiver = it.receiver;
    } };
}

impl Link {
    /// One on which nothing was put.
    pub(crate) fn new(alloc: Global) -> Link
        ensures { result ≡ fresh }
    {
        Link {
            put: 0,
            older: None,
            newer: None,
            late: Vec::new(alloc),
            receiver: Receiver::new(),
        }
    }

    /// Whether all that was put was received.
    pub(crate) fn is_quiet(&self) -> bool
        requires { self.now.receiver.taken + 2 < 2 ^ 64 }
        ensures { result ≡ self.now.put == received self.now.receiver }
    {
        self.put == self.receiver.received()
    }

    /// Whether a piece was received that was not taken.
    pub(crate) fn holds(&self) -> bool
        ensures { result ≡ nat_lt self.now.receiver.taken (received self.now.receiver) }
    {
        self.receiver.holds()
    }

    /// The sender keeps one more piece, and of those before it the newest.
    pub(crate) fn put(&mut self, name: Name, piece: Piece)
        requires { self.old.put + 1 < 2 ^ 64 }
        ensures { self.new ≡ with_put self.old name piece }
    {
        let frame = Frame {
            from: name.from,
            to: name.to,
            ordinal: self.put,
            piece,
        };
        self.older = mem::replace(&mut self.newer, Some(Kept { frame, sent: 0 }));
        self.put += 1;
    }

    /// Takes the oldest piece that was received and not taken.
    pub(crate) fn take(&mut self) -> Option<Piece>
        requires { self.old.receiver.taken + 1 < 2 ^ 64 }
        ensures oldest { result ≡ slice_get self.old.receiver.waiting 0 }
        ensures taken { self.new ≡ record self.old {
          receiver = taken_at self.old.receiver.taken self.old.receiver.waiting;
        } }
    {
        self.receiver.take()
    }

    /// Sends both pieces that are kept, the older first, and has those frames handed over that came
    /// late in the round before. A refused call changes nothing.
    pub(crate) fn round(
        &mut self,
        alloc: Global,
        fates: &[Fate],
        carrier: &mut Carrier,
    ) -> Result<(), NoMemory>
        requires some { 0 < length fates.now }
        requires short { self.old.receiver.taken + 2 < 2 ^ 64 }
        requires can { CanRound carrier.old.decoder.types self.old }
        ensures made { OnOk result (self.new ≡ after_round fates.now self.old) }
        ensures kept { OnErr result (self.new ≡ self.old) }
        ensures types { carrier.new.decoder.types ≡ carrier.old.decoder.types }
    {
        let mut at_once = Vec::new(alloc);
        let mut late = Vec::new(alloc);
        send(&self.older, fates, carrier, &mut at_once, &mut late)?;
        send(&self.newer, fates, carrier, &mut at_once, &mut late)?;
        self.receiver.accept_all(at_once);
        self.receiver.accept_all(mem::replace(&mut self.late, late));
        count(&mut self.older);
        count(&mut self.newer);
        Ok(())
    }
}

/// Sends a piece that is kept, if there is one: appends the frames that its fate hands over at
/// once, and those that it hands over late.
fn send(
    kept: &Option<Kept>,
    fates: &[Fate],
    carrier: &mut Carrier,
    at_once: &mut Vec<Frame>,
    late: &mut Vec<Frame>,
) -> Result<(), NoMemory>
    requires some { 0 < length fates.now }
    requires can { CanBeSent carrier.old.decoder.types kept.now }
    ensures at_once { OnOk result (at_once.new.items
        ≡ at_once.old.items ++ sent_at_once fates.now kept.now) }
    ensures late { OnOk result (late.new.items ≡ late.old.items ++ sent_late fates.now kept.now) }
    ensures counts { OnOk result (CanCount kept.now) }
    ensures types { carrier.new.decoder.types ≡ carrier.old.decoder.types }
{
    let Some(kept) = kept else {
        return Ok(());
    };
    if kept.sent == u64::MAX {
        return Err(NoMemory);
    }
    match fate_of(fates, kept.sent) {
        Fate::Lose => Ok(()),
        Fate::Deliver => carrier.carry(&kept.frame, at_once),
        Fate::Twice => carrier.carry_twice(&kept.frame, at_once),
        Fate::After => carrier.carry(&kept.frame, late),
    }
}

/// What becomes of the n-th sending of a piece, from 0.
fn fate_of(fates: &[Fate], n: u64) -> Fate
    requires { 0 < length fates.now }
    ensures { result ≡ fate_of fates.now n }
{
    fates[(n % fates.len() as u64) as usize]
}

/// Counts one more sending of a piece that is kept, if there is one.
fn count(kept: &mut Option<Kept>)
    requires { CanCount kept.old }
    ensures { kept.new ≡ sent_again kept.old }
{
    if let Some(kept) = kept {
        kept.sent += 1;
    }
}
