//! Frames as bytes.
ghost use Rattle.std.specs.Prelude.{◌≡◌, ◌<◌, ◌≤◌, ◌+◌, ◌-◌, ◌^◌, ◌++◌, take, drop, length, List, OnOk, OnErr};
ghost use Rattle.brace_model.specs.declared.program.Ty.{Ty};
ghost use Rattle.brace_wire.specs.Frames.{four, piece_bytes, body, frame};
ghost use Rattle.brace_wire.specs.Fitting.{AgentFits, PieceFits, IsOf, IsFrame, layout};
ghost use Rattle.brace_wire.specs.inner.Written.{BodyFits};

use crate::Frame;
use crate::write::{
    append_byte, append_cause, append_census, append_eight, append_entries, append_four,
    append_herd, append_shows,
};
use brace_model::Program;
use brace_num::NoMemory;
use brace_pieces::Piece;

/// Appends the bytes of a frame. Where its agents are of the program's classes, these are the bytes
/// that a decoder of the program reads as this frame. A refused call leaves `out` as it was; so is
/// one refused whose frame is too long for its length, of 4 bytes.
pub fn encode(out: &mut Vec<u8>, program: &Program, f: &Frame) -> Result<(), NoMemory>
    ensures written { OnOk result (out.new.items ≡ out.old.items ++ frame f.now) }
    ensures fits { OnOk result (IsOf (layout program.now) f.now.piece
        → IsFrame (layout program.now) f.now) }
    ensures kept { OnErr result (out.new.items ≡ out.old.items) }
{
    append(out, f)
}

/// Appends the bytes of a frame, which is one of whatever classes its agents are of.
pub(crate) fn append(out: &mut Vec<u8>, f: &Frame) -> Result<(), NoMemory>
    ensures written { OnOk result (out.new.items ≡ out.old.items ++ frame f.now) }
    ensures fits { OnOk result ((types : List (List Ty)) → IsOf types f.now.piece
        → IsFrame types f.now) }
    ensures kept { OnErr result (out.new.items ≡ out.old.items) }
{
    let before = out.len();
    let written = append_frame(out, f);
    if written.is_err() {
        out.truncate(before);
    }
    written
}

// A refused append may leave a part of the frame behind `out`.
#[tactic(auto, using(crate::proofs::Starts::starts), unfolding(crate::specs::Frames::frame))]
fn append_frame(out: &mut Vec<u8>, f: &Frame) -> Result<(), NoMemory>
    ensures written { OnOk result (out.new.items ≡ out.old.items ++ frame f.now) }
    ensures fits { OnOk result (BodyFits AgentFits f.now) }
    ensures short { OnOk result (length (body f.now) < 2 ^ 32) }
    ensures only_appends { take (length out.old.items) out.new.items ≡ out.old.items }
{
    let start = out.len();
    append_four(out, 0)?;
    append_body(out, f)?;
    set_length(out, start)
}

// Writes how many bytes stand behind the 4 at a place into these.
fn set_length(out: &mut Vec<u8>, start: usize) -> Result<(), NoMemory>
    requires { start + 4 ≤ length out.old.items }
    ensures written { OnOk result (out.new.items ≡ take start out.old.items
        ++ four (length out.old.items - (start + 4)) ++ drop (start + 4) out.old.items) }
    ensures short { OnOk result (length out.old.items - (start + 4) < 2 ^ 32) }
    ensures kept { OnErr result (out.new.items ≡ out.old.items) }
{
    match u32::try_from(out.len() - (start + 4)) {
        Ok(length) => {
            out[start..start + 4].copy_from_slice(&length.to_be_bytes());
            Ok(())
        }
        Err(_) => Err(NoMemory),
    }
}

#[tactic(auto, using(crate::proofs::Starts::starts), unfolding(crate::specs::Frames::body))]
fn append_body(out: &mut Vec<u8>, f: &Frame) -> Result<(), NoMemory>
    ensures written { OnOk result (out.new.items ≡ out.old.items ++ body f.now) }
    ensures fits { OnOk result (BodyFits AgentFits f.now) }
    ensures only_appends { take (length out.old.items) out.new.items ≡ out.old.items }
{
    append_four(out, f.from)?;
    append_four(out, f.to)?;
    append_eight(out, f.ordinal)?;
    append_piece(out, &f.piece)
}

#[tactic(auto, using(crate::proofs::Starts::starts), unfolding(crate::specs::Frames::piece_bytes))]
fn append_piece(out: &mut Vec<u8>, p: &Piece) -> Result<(), NoMemory>
    ensures written { OnOk result (out.new.items ≡ out.old.items ++ piece_bytes p.now) }
    ensures fits { OnOk result (PieceFits AgentFits p.now) }
    ensures only_appends { take (length out.old.items) out.new.items ≡ out.old.items }
{
    match p {
        Piece::Border(agents) => {
            append_byte(out, 0)?;
            append_herd(out, agents)
        }
        Piece::Effects(entries) => {
            append_byte(out, 1)?;
            append_entries(out, entries.as_slice())
        }
        Piece::Move(agents) => {
            append_byte(out, 2)?;
            append_herd(out, agents)
        }
        Piece::Hand(agents) => {
            append_byte(out, 3)?;
            append_herd(out, agents)
        }
        Piece::Show(shows) => {
            append_byte(out, 4)?;
            append_shows(out, shows.as_slice())
        }
        Piece::Ack => append_byte(out, 5),
        Piece::Halt(cause) => {
            append_byte(out, 6)?;
            append_cause(out, *cause)
        }
        Piece::Census(census) => {
            append_byte(out, 7)?;
            append_census(out, census)
        }
    }
}
