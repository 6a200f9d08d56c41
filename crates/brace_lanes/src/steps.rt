//! The steps of a seat on the words and slots of lanes.
ghost use Rattle.std.specs.Prelude.{◌≡◌, ◌<◌, ◌+◌, ◌^◌, [], ◌∷◌, None, Some, slice_index};
ghost use Rattle.brace_lanes.specs.declared.table.Hand.TheVariants.{Empty, ToPut, ToTake};
ghost use Rattle.brace_lanes.specs.Places.{slot};
ghost use Rattle.brace_lanes.specs.Views.{has_put, has_taken, newcomer, splitting};
ghost use Rattle.brace_lanes.specs.inner.Steps.{forth, back, IsPlaced, IsOut, IsCarried, LooksAt, ClaimsAt};

use crate::cargo::Cargo;
use crate::plays::{Claim, Cut, Look, StorePut, StoreTaken};
use crate::table::{LaneTable, Place, Way};

/// How many names of the lane from the other actor to its own were put.
pub(crate) fn look<F: Cargo>(table: &LaneTable<F>, seat: &mut Place<F>, way: Way) -> u64
    requires placed { IsPlaced table.now.shared.table_id seat.old way }
    requires idle { seat.old.me.0.hand ≡ Empty }
    ensures same { (seat.new.table_id ≡ seat.old.table_id) × (seat.new.id ≡ seat.old.id) }
    ensures looked { LooksAt F.schedule F.right way.actors (back way) (forth way) seat.old.me
        result seat.new.me }
{
    table
        .shared
        .load::<Look>(seat, way.other * way.actors + way.own)
}

/// How many names of the lane from its own actor to the other were taken, before one is put.
pub(crate) fn claim<F: Cargo>(table: &LaneTable<F>, seat: &mut Place<F>, way: Way) -> u64
    requires placed { IsPlaced table.now.shared.table_id seat.old way }
    requires idle { seat.old.me.0.hand ≡ Empty }
    requires answered { slice_index seat.old.me.0.put (forth way)
        ≡ slice_index seat.old.me.0.taken (forth way) }
    ensures same { (seat.new.table_id ≡ seat.old.table_id) × (seat.new.id ≡ seat.old.id) }
    ensures claimed { ClaimsAt way.actors (forth way) seat.old.me result seat.new.me }
{
    table.shared.load::<Claim>(
        seat,
        way.actors * way.actors + (way.other * way.actors + way.own),
    )
}

/// Puts a piece into the slot that the seat holds, which is empty.
pub(crate) fn fill<F: Cargo>(table: &LaneTable<F>, seat: &mut Place<F>, place: usize, piece: F)
    requires table { seat.old.table_id ≡ table.now.shared.table_id }
    requires empty { seat.old.me.1 ≡ (place, None) ∷ [] }
    ensures same { (seat.new.table_id ≡ seat.old.table_id) × (seat.new.id ≡ seat.old.id) }
    ensures filled { seat.new.me ≡ (seat.old.me.0, (place, Some piece) ∷ []) }
{
    table.shared.exchange(seat, place, Some(piece));
}

/// What is in the slot that the seat holds, which is empty from now on.
pub(crate) fn clear<F: Cargo>(table: &LaneTable<F>, seat: &mut Place<F>, place: usize) -> Option<F>
    requires table { seat.old.table_id ≡ table.now.shared.table_id }
    requires held { IsOut place seat.old.me }
    ensures same { (seat.new.table_id ≡ seat.old.table_id) × (seat.new.id ≡ seat.old.id) }
    ensures found { seat.old.me.1 ≡ (place, result) ∷ [] }
    ensures cleared { seat.new.me ≡ (seat.old.me.0, (place, None) ∷ []) }
{
    table.shared.exchange(seat, place, None)
}

/// One more name of the lane from its own actor to the other is put.
pub(crate) fn store_put<F: Cargo>(table: &LaneTable<F>, seat: &mut Place<F>, way: Way, count: u64)
    requires placed { IsPlaced table.now.shared.table_id seat.old way }
    requires count { slice_index seat.old.me.0.put (forth way) ≡ count }
    requires answered { slice_index seat.old.me.0.taken (forth way) ≡ count }
    requires short { count + 1 < 2 ^ 64 }
    requires hand { seat.old.me.0.hand ≡ ToPut (forth way) }
    requires piece { IsCarried F.schedule F.right way.actors (forth way) count seat.old.me }
    ensures same { (seat.new.table_id ≡ seat.old.table_id) × (seat.new.id ≡ seat.old.id) }
    ensures put { seat.new.me ≡ (has_put seat.old.me.0 (forth way), []) }
{
    table
        .shared
        .store::<StorePut>(seat, way.own * way.actors + way.other, count + 1);
}

/// One more name of the lane from the other actor to its own is taken.
pub(crate) fn store_taken<F: Cargo>(table: &LaneTable<F>, seat: &mut Place<F>, way: Way, count: u64)
    requires placed { IsPlaced table.now.shared.table_id seat.old way }
    requires count { slice_index seat.old.me.0.taken (forth way) ≡ count }
    requires seen { count < slice_index seat.old.me.0.seen (forth way) }
    requires short { count + 1 < 2 ^ 64 }
    requires hand { seat.old.me.0.hand ≡ ToTake (forth way) }
    requires slot { seat.old.me.1 ≡ (slot way.actors (back way) count, None) ∷ [] }
    ensures same { (seat.new.table_id ≡ seat.old.table_id) × (seat.new.id ≡ seat.old.id) }
    ensures taken { seat.new.me ≡ (has_taken seat.old.me.0 (forth way), []) }
{
    table.shared.store::<StoreTaken>(
        seat,
        way.actors * way.actors + (way.own * way.actors + way.other),
        count + 1,
    );
}

/// One more seat, behind those that the first has made.
pub(crate) fn split<F: Cargo>(table: &LaneTable<F>, first: &mut Place<F>) -> Place<F>
    requires table { first.old.table_id ≡ table.now.shared.table_id }
    requires words { 0 < table.now.shared.table_id.words }
    requires first { first.old.me.0.number ≡ 0 }
    ensures same { (first.new.table_id ≡ first.old.table_id) × (first.new.id ≡ first.old.id) }
    ensures table { result.table_id ≡ first.old.table_id }
    ensures first { first.new.me ≡ (splitting first.old.me.0, first.old.me.1) }
    ensures made { result.me ≡ (newcomer first.old.me.0, []) }
{
    table.shared.split_seat::<Cut>(first)
}
