//! A stream of frames that comes in pieces.
ghost use Rattle.std.specs.Prelude.{◌≡◌, ◌+◌, ◌≤◌, ◌++◌, ℕ, [], List, Err, IfOk, OnOk, OnErr, length, take, drop, map};
ghost use Rattle.brace_wire.specs.declared.fault.WireFault.TheVariants as fault;
ghost use Rattle.brace_wire.specs.declared.frame.Frame.{Frame};
ghost use Rattle.brace_wire.specs.Fitting.{layout};
ghost use Rattle.brace_wire.specs.Streams.{IsPartial, IsBroken, Reads, Advances, waits};
ghost use Rattle.brace_wire.specs.inner.Written.{LeavesOff};

use crate::fault::Unread;
use crate::pieces::{read_frame, split_frame};
use crate::{Frame, WireFault};
use brace_model::{Class, Program, Ty};
use brace_num::{List, NoMemory};
use std::alloc::Global;
use std::marker::Model;

/// Takes a stream of frames in pieces, and gives the frames that became whole.
#[derive(Drop)]
pub struct Decoder {
    alloc: Global,
    types: List<List<Ty>>,
    /// How many bytes of the stream were read.
    place: u64,
    /// What came of the stream behind these.
    rest: Vec<u8>,
    /// Whether a whole frame that is none stands there.
    is_broken: bool,
}

impl Model for Decoder {
    ghost use Rattle.brace_wire.specs.Streams.{Waiting, waits};
    ghost use Rattle.brace_wire.specs.inner.Written.{LeavesOff};

    ghost Value = { Waiting };

    ghost view = { λ d. waits d.types d.place d.rest.items };

    ghost invariant = { λ d. LeavesOff d.is_broken d.types d.rest.items };
}

impl Decoder {
    /// A decoder of the frames of a program's classes, to which nothing came.
    pub fn make(alloc: Global, program: &Program) -> Result<Decoder, NoMemory>
        ensures types { IfOk result (λ d. d.types ≡ layout program.now) }
        ensures place { IfOk result (λ d. d.place ≡ 0) }
        ensures rest { IfOk result (λ d. d.rest ≡ []) }
    {
        let types = layout_of(alloc, program.classes.as_slice())?;
        Ok(Decoder {
            alloc,
            types,
            place: 0,
            rest: Vec::new(alloc),
            is_broken: false,
        })
    }

    /// Begins another stream.
    pub(crate) fn begin(&mut self)
        ensures { self.new ≡ waits self.old.types 0 [] }
    {
        self.place = 0;
        self.rest.clear();
        self.is_broken = false;
    }

    /// Takes the next piece of the stream, and appends the frames that are whole now.
    ///
    /// `BadFrame` where a whole frame, by its length, is none: it tells its place in the stream.
    /// The frames before it are appended, and each later call answers the same and changes nothing.
    /// After `NoMemory` the decoder and `out` are as they were.
    pub fn feed(&mut self, piece: &[u8], out: &mut Vec<Frame>) -> Result<(), WireFault>
        ensures read { OnOk result (Advances self.old piece.now self.new
            out.old.items out.new.items) }
        ensures partial { OnOk result (IsPartial self.new.rest) }
        ensures bad { (p : ℕ) → result ≡ Err (fault.BadFrame p) → IsPartial self.old.rest
            → Advances self.old piece.now self.new out.old.items out.new.items }
        ensures broken { (p : ℕ) → result ≡ Err (fault.BadFrame p)
            → IsBroken self.new.types self.new.rest }
        ensures place { (p : ℕ) → result ≡ Err (fault.BadFrame p) → p ≡ self.new.place }
        ensures stays { IsBroken self.old.types self.old.rest
            → (result ≡ Err (fault.BadFrame self.old.place)) × (self.new ≡ self.old)
            × (out.new.items ≡ out.old.items) }
        ensures kept { result ≡ Err fault.NoMemory → self.new ≡ self.old }
        ensures none_appended { result ≡ Err fault.NoMemory → out.new.items ≡ out.old.items }
    {
        if !self.is_broken {
            let (place, is_broken) = go_on(
                self.alloc,
                self.types.as_slice(),
                self.place,
                &mut self.rest,
                piece,
                out,
            )?;
            self.place = place;
            self.is_broken = is_broken;
        }
        if self.is_broken {
            Err(WireFault::BadFrame(self.place))
        } else {
            Ok(())
        }
    }
}

/// The types of the states of each class.
fn layout_of(alloc: Global, classes: &[Class]) -> Result<List<List<Ty>>, NoMemory>
    ensures { IfOk result (λ types. types ≡ map (λ c. map (λ s. s.ty) c.states) classes.now) }
{
    let mut layout = Vec::with_capacity(alloc, classes.len())?;
    for class in classes {
        layout.push(types_of(alloc, class)?)?;
    }
    Ok(List::from_vec(layout))
}

fn types_of(alloc: Global, class: &Class) -> Result<List<Ty>, NoMemory>
    ensures { IfOk result (λ types. types ≡ map (λ s. s.ty) class.now.states) }
{
    let states = class.states.as_slice();
    let mut types = Vec::with_capacity(alloc, states.len())?;
    for state in states {
        types.push(state.ty)?;
    }
    Ok(List::from_vec(types))
}

/// Takes a piece of the stream behind the rest, and reads what is whole: how many bytes of the
/// stream are read now, and whether a whole frame that is none stands there. A refused call leaves
/// both lists as they were.
fn go_on(
    alloc: Global,
    types: &[List<Ty>],
    place: u64,
    rest: &mut Vec<u8>,
    piece: &[u8],
    out: &mut Vec<Frame>,
) -> Result<(u64, bool), NoMemory>
    ensures read { IfOk result (λ x. Advances (waits types.now place rest.old.items) piece.now
        (waits types.now x.0 rest.new.items) out.old.items out.new.items) }
    ensures leaves_off { IfOk result (λ x. LeavesOff x.1 types.now rest.new.items) }
    ensures rest_kept { OnErr result (rest.new.items ≡ rest.old.items) }
    ensures out_kept { OnErr result (out.new.items ≡ out.old.items) }
{
    let held = rest.len();
    let before = out.len();
    rest.extend_from_slice(piece)?;
    let Ok((used, is_broken)) = read_frames(alloc, types, rest.as_slice(), out) else {
        return Err(taken_back(rest, held, out, before));
    };
    let Some(place) = place.checked_add(used as u64) else {
        return Err(taken_back(rest, held, out, before));
    };
    keep_from(rest, used);
    Ok((place, is_broken))
}

/// Takes back what stands in two lists from these places on.
fn taken_back(rest: &mut Vec<u8>, held: usize, out: &mut Vec<Frame>, before: usize) -> NoMemory
    ensures rest { rest.new.items ≡ take held rest.old.items }
    ensures out { out.new.items ≡ take before out.old.items }
{
    rest.truncate(held);
    out.truncate(before);
    NoMemory
}

/// Keeps what stands from a place on.
fn keep_from(bytes: &mut Vec<u8>, start: usize)
    requires { start ≤ length bytes.old.items }
    ensures { bytes.new.items ≡ drop start bytes.old.items }
{
    if start == 0 {
        return;
    }
    let left = bytes.len() - start;
    bytes.copy_within(start.., 0);
    bytes.truncate(left);
}

/// Appends the frames in front: how many bytes they have, and whether a whole frame that is none
/// stands behind them.
fn read_frames(
    alloc: Global,
    types: &[List<Ty>],
    bytes: &[u8],
    out: &mut Vec<Frame>,
) -> Result<(usize, bool), NoMemory>
    ensures read { IfOk result (λ x. (frames : List Frame)
        × (out.new.items ≡ out.old.items ++ frames)
        × Reads types.now bytes.now frames (drop x.0 bytes.now)) }
    ensures within { IfOk result (λ x. x.0 ≤ length bytes.now) }
    ensures leaves_off { IfOk result (λ x. LeavesOff x.1 types.now (drop x.0 bytes.now)) }
    ensures out_kept { OnErr result (take (length out.old.items) out.new.items ≡ out.old.items) }
{
    let mut rest = bytes;
    while let Some((body, behind)) = split_frame(rest) {
        match read_frame(alloc, types, body) {
            Ok(f) => out.push(f)?,
            Err(Unread::Bad) => return Ok((bytes.len() - rest.len(), true)),
            Err(Unread::NoMemory) => return Err(NoMemory),
        }
        rest = behind;
    }
    Ok((bytes.len() - rest.len(), false))
}
