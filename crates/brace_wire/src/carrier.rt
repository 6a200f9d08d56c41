ghost use Rattle.std.specs.Prelude.{◌≡◌, ◌++◌, [], ◌∷◌, List, IfOk, OnOk};
ghost use Rattle.brace_wire.specs.declared.frame.Frame.{Frame};
ghost use Rattle.brace_wire.specs.Fitting.{IsOf, layout};
ghost use Rattle.brace_wire.specs.Streams.{Reads};

use crate::encoding::append;
use crate::{Decoder, Frame, WireFault};
use brace_model::Program;
use brace_num::NoMemory;
use std::alloc::Global;

/// At most so many bytes are handed to a decoder at once.
const MOST_BYTES: usize = 4096;

/// Carries frames as bytes from one end of a link to the other.
#[derive(Drop)]
pub(crate) struct Carrier {
    pub(crate) decoder: Decoder,
    bytes: Vec<u8>,
}

impl Carrier {
    /// One for frames of a program's classes.
    pub(crate) fn make(alloc: Global, program: &Program) -> Result<Carrier, NoMemory>
        ensures { IfOk result (λ c. c.decoder.types ≡ layout program.now) }
    {
        Ok(Carrier {
            decoder: Decoder::make(alloc, program)?,
            bytes: Vec::new(alloc),
        })
    }

    /// Appends what a decoder reads of the bytes of a frame: that frame.
    pub(crate) fn carry(&mut self, f: &Frame, out: &mut Vec<Frame>) -> Result<(), NoMemory>
        requires { IsOf self.old.decoder.types f.now.piece }
        ensures same { OnOk result (out.new.items ≡ out.old.items ++ f.now ∷ []) }
        ensures types { self.new.decoder.types ≡ self.old.decoder.types }
    {
        self.bytes.clear();
        append(&mut self.bytes, f)?;
        self.decoder.begin();
        feed_in_pieces(&mut self.decoder, self.bytes.as_slice(), out)
    }

    /// Appends a frame twice, as [`carry`](Carrier::carry) does once.
    pub(crate) fn carry_twice(&mut self, f: &Frame, out: &mut Vec<Frame>) -> Result<(), NoMemory>
        requires { IsOf self.old.decoder.types f.now.piece }
        ensures same { OnOk result (out.new.items ≡ out.old.items ++ f.now ∷ f.now ∷ []) }
        ensures types { self.new.decoder.types ≡ self.old.decoder.types }
    {
        self.carry(f, out)?;
        self.carry(f, out)
    }
}

/// Feeds the bytes of whole frames to a decoder that waits with none.
fn feed_in_pieces(decoder: &mut Decoder, bytes: &[u8], out: &mut Vec<Frame>) -> Result<(), NoMemory>
    requires rest { decoder.old.rest ≡ [] }
    requires whole { (frames : List Frame) × Reads decoder.old.types bytes.now frames [] }
    ensures read { OnOk result ((frames : List Frame) → Reads decoder.old.types bytes.now frames []
        → out.new.items ≡ out.old.items ++ frames) }
    ensures types { decoder.new.types ≡ decoder.old.types }
{
    let mut fed = 0;
    while fed < bytes.len() {
        let end = bytes.len().min(fed + MOST_BYTES);
        match decoder.feed(&bytes[fed..end], out) {
            Ok(()) => fed = end,
            Err(WireFault::NoMemory) => return Err(NoMemory),
            Err(WireFault::BadFrame(_)) => unreachable!(),
        }
    }
    Ok(())
}
