//! Facts on frames and links that hold always. The functions do nothing; their clauses are the
//! laws.
ghost use Rattle.std.specs.Prelude.{◌≡◌, ◌≤◌, ◌++◌, ◌⊎◌, [], ℕ, List, length, flat_map};
ghost use Rattle.brace_model.specs.declared.program.Ty.{Ty};
ghost use Rattle.brace_pieces.specs.declared.piece.Piece.{Piece};
ghost use Rattle.brace_wire.specs.declared.frame.Frame.{Frame};
ghost use Rattle.brace_wire.specs.Frames.{frame};
ghost use Rattle.brace_wire.specs.Fitting.{IsFrame};
ghost use Rattle.brace_wire.specs.Net.{Lane, Happens, IsInOrder, IsKept};
ghost use Rattle.brace_wire.specs.Streams.{IsPartial, IsBroken, Reads, ReadsInTurn};

/// No two frames have the same bytes, and no frame's bytes begin with those of another.
pub fn frames_have_one_spelling()
    ensures { (types : List (List Ty)) (a b : Frame) (x y : List ℕ)
        → IsFrame types a → IsFrame types b → frame a ++ x ≡ frame b ++ y
        → (a ≡ b) × (x ≡ y) }
{}

/// A stream is read in one way alone, up to less than a whole frame, or up to a whole one that is
/// none.
pub fn streams_are_read_one_way()
    ensures { (types : List (List Ty)) (bytes x y : List ℕ) (fs gs : List Frame)
        → Reads types bytes fs x → Reads types bytes gs y
        → IsPartial x ⊎ IsBroken types x → IsPartial y ⊎ IsBroken types y
        → (fs ≡ gs) × (x ≡ y) }
{}

/// However a stream is cut into pieces, the frames that are read of one piece after another are
/// those of the stream.
pub fn cuts_do_not_matter()
    ensures { (types : List (List Ty)) (pieces : List (List ℕ)) (frames : List Frame)
        (end : List ℕ) → ReadsInTurn types [] pieces frames end
        → Reads types (flat_map (λ piece. piece) pieces) frames end }
{}

/// Whatever a link loses, repeats and reorders: what a lane received are the first of the pieces
/// put, in their order, each as it was put; what was taken was received; and the next piece to be
/// received is one that the sender keeps.
pub fn net_law()
    ensures in_order { (lane : Lane Piece) → Happens lane → IsInOrder lane }
    ensures taken { (lane : Lane Piece) → Happens lane → lane.taken ≤ length lane.received }
    ensures kept { (lane : Lane Piece) → Happens lane → IsKept lane }
{}
