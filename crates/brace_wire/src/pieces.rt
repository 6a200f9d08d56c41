//! Pieces and frames, read from bytes.
ghost use Rattle.std.specs.Prelude.{◌≡◌, ◌<◌, ◌^◌, ◌++◌, Err, IfOk, IfSome, IfNone, length, true, false};
ghost use Rattle.brace_wire.specs.declared.fault.Unread.TheVariants as unread;
ghost use Rattle.brace_wire.specs.declared.frame.Frame.{Frame};
ghost use Rattle.brace_wire.specs.Frames.{four, body};
ghost use Rattle.brace_wire.specs.Fitting.{IsFrame};
ghost use Rattle.brace_wire.specs.Streams.{is_whole};
ghost use Rattle.brace_wire.specs.inner.Reading.{Gives, piece_at, body_at, frame_of};

use crate::Frame;
use crate::fault::Unread;
use crate::numbers::{read_eight, read_four};
use crate::parts::{read_agents, read_cause, read_census, read_entries, read_shows};
use brace_model::Ty;
use brace_num::List;
use brace_pieces::Piece;
use std::alloc::Global;

#[tactic(auto, unfolding(crate::specs::inner::Reading::piece_at))]
fn read_piece<'a>(
    alloc: Global,
    types: &[List<Ty>],
    bytes: &'a [u8],
) -> Result<(Piece, &'a [u8]), Unread>
    ensures { Gives (λ x. (x.0, x.1.now)) result (piece_at types.now bytes.now) }
{
    match bytes {
        [0, rest @ ..] => {
            let (agents, rest) = read_agents(alloc, types, rest)?;
            Ok((Piece::Border(agents), rest))
        }
        [1, rest @ ..] => {
            let (entries, rest) = read_entries(alloc, rest)?;
            Ok((Piece::Effects(entries), rest))
        }
        [2, rest @ ..] => {
            let (agents, rest) = read_agents(alloc, types, rest)?;
            Ok((Piece::Move(agents), rest))
        }
        [3, rest @ ..] => {
            let (agents, rest) = read_agents(alloc, types, rest)?;
            Ok((Piece::Hand(agents), rest))
        }
        [4, rest @ ..] => {
            let (shows, rest) = read_shows(alloc, types, rest)?;
            Ok((Piece::Show(shows), rest))
        }
        [5, rest @ ..] => Ok((Piece::Ack, rest)),
        [6, rest @ ..] => {
            let (cause, rest) = read_cause(rest)?;
            Ok((Piece::Halt(cause), rest))
        }
        [7, rest @ ..] => {
            let (census, rest) = read_census(alloc, rest)?;
            Ok((Piece::Census(census), rest))
        }
        _ => Err(Unread::Bad),
    }
}

#[tactic(auto, unfolding(crate::specs::inner::Reading::body_at))]
fn read_body<'a>(
    alloc: Global,
    types: &[List<Ty>],
    bytes: &'a [u8],
) -> Result<(Frame, &'a [u8]), Unread>
    ensures { Gives (λ x. (x.0, x.1.now)) result (body_at types.now bytes.now) }
{
    let (from, rest) = read_four(bytes)?;
    let (to, rest) = read_four(rest)?;
    let (ordinal, rest) = read_eight(rest)?;
    let (piece, rest) = read_piece(alloc, types, rest)?;
    Ok((
        Frame {
            from,
            to,
            ordinal,
            piece,
        },
        rest,
    ))
}

#[tactic(auto, unfolding(crate::specs::inner::Reading::frame_of))]
fn read_whole_body(alloc: Global, types: &[List<Ty>], bytes: &[u8]) -> Result<Frame, Unread>
    ensures { Gives (λ f. f) result (frame_of types.now bytes.now) }
{
    let (f, rest) = read_body(alloc, types, bytes)?;
    if rest.is_empty() {
        Ok(f)
    } else {
        Err(Unread::Bad)
    }
}

/// The frame of these classes that has the bytes behind its length.
pub(crate) fn read_frame(alloc: Global, types: &[List<Ty>], bytes: &[u8]) -> Result<Frame, Unread>
    ensures found { IfOk result (λ f. length bytes.now < 2 ^ 32 → IsFrame types.now f) }
    ensures same { IfOk result (λ f. body f ≡ bytes.now) }
    ensures none { result ≡ Err unread.Bad
        → (f : Frame) → IsFrame types.now f → body f ≡ bytes.now → ⊥ }
{
    read_whole_body(alloc, types, bytes)
}

/// The bytes behind the length in front, as many as it says, and the bytes behind these; None where
/// they are not all there.
pub(crate) fn split_frame(bytes: &[u8]) -> Option<(&[u8], &[u8])>
    ensures whole { IfSome result (λ x. is_whole bytes.now ≡ true) }
    ensures short { IfSome result (λ x. length x.0.now < 2 ^ 32) }
    ensures parts { IfSome result
        (λ x. bytes.now ≡ four (length x.0.now) ++ (x.0.now ++ x.1.now)) }
    ensures none { IfNone result (is_whole bytes.now ≡ false) }
{
    let Ok((length, rest)) = read_four(bytes) else {
        return None;
    };
    let length = length as usize;
    if rest.len() < length {
        return None;
    }
    Some(rest.split_at(length))
}
