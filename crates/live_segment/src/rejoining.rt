//! The pieces of a segment are joined again: the calls of its whole record.
ghost use Rattle.std.specs.Prelude.{◌≡◌, ◌++◌, map, IfOk, OnOk, IfErr, IsTrue, ◌↔◌, List};
ghost use Rattle.segment_law.specs.Segment.{are_addresses};
ghost use Rattle.live_record.specs.Past.{joined, NumberedAfter};
ghost use Rattle.stored_calls.specs.declared.stored.Stored.{Stored as StoredCall};
ghost use Rattle.live_segment.specs.Rejoining.{IsJoined, IsJoinCause, StandsAfter, call_in};

use crate::live::Live;
use live_calls::{NewRefused, Segment, the_headline_holds};
use live_record::Piece;
use pgn_ids::Address;
use segment_law::{Call, Refusal};
use std::alloc::{AllocError, Global};
use stored_calls::{Stored, StoredCalls};

/// The pieces are handed back. Without a refusal there was no memory.
#[derive(Debug, Drop)]
pub struct RejoinRefused {
    pub refusal: Option<Refusal>,
    pub pieces: Vec<Piece>,
}

/// Joins the pieces of a segment, and returns all calls of its record: those of the pieces, and then those that are stored.
///
/// Refused as `PiecesDontJoin` if they aren't as many as were cut, numbered from 1 in order, and else if their calls, made on a
/// new segment, don't leave it as the segment was at the last cut. Want of memory is returned only if the numbers are right. The
/// calls are made again for it, so it takes time and memory as they did. Both hand the pieces back.
pub fn rejoin(pieces: Vec<Piece>, live: &Live) -> Result<Vec<Call>, RejoinRefused>
    ensures joined { IfOk result (λ calls. IsJoined live.now pieces.items calls.items) }
    ensures refused { IfErr result (λ e. IsJoinCause live.now pieces.items e.refusal) }
    ensures back { IfErr result (λ e. e.pieces ≡ pieces) }
{
    live.laws();
    the_headline_holds();
    if pieces.len() as u64 != live.cuts() || !are_numbered(pieces.as_slice()) {
        return Err(RejoinRefused {
            refusal: Some(Refusal::PiecesDontJoin),
            pieces,
        });
    }
    let Ok(segment) = replay(live.alloc, live.addresses(), pieces.as_slice()) else {
        return Err(RejoinRefused {
            refusal: None,
            pieces,
        });
    };
    if !live.is_at_cut(&segment, pieces.as_slice()) {
        return Err(RejoinRefused {
            refusal: Some(Refusal::PiecesDontJoin),
            pieces,
        });
    }
    let Ok(calls) = copy_all(live.alloc, pieces.as_slice(), live.calls()) else {
        return Err(RejoinRefused {
            refusal: None,
            pieces,
        });
    };
    Ok(calls)
}

// Whether pieces are numbered from 1.
fn are_numbered(pieces: &[Piece]) -> bool
    ensures { IsTrue result ↔ NumberedAfter 0 pieces.now }
{
    for (i, piece) in pieces.iter().enumerate() {
        if piece.number != i as u64 + 1 {
            return false;
        }
    }
    true
}

// The segment that the calls of pieces leave, made on a new one.
fn replay(alloc: Global, addresses: &[Address], pieces: &[Piece]) -> Result<Segment, AllocError>
    requires { IsTrue (are_addresses addresses.now) }
    ensures { IfOk result (λ segment. StandsAfter addresses.now (joined pieces.now) segment) }
{
    let mut segment = match Segment::new(alloc, addresses) {
        Ok(segment) => segment,
        Err(NewRefused::BadAddresses) => unreachable!(),
        Err(NewRefused::OutOfMemory) => return Err(AllocError),
    };
    for piece in pieces {
        make_all(alloc, &mut segment, &piece.calls)?;
    }
    Ok(segment)
}

// Makes stored calls again.
fn make_all(alloc: Global, segment: &mut Segment, calls: &StoredCalls) -> Result<(), AllocError>
    ensures { (addresses : List Address) (made : List StoredCall) → StandsAfter addresses made segment.old → OnOk result (StandsAfter addresses (made ++ calls.now.items) segment.new) }
{
    for at in 0..calls.len() {
        let Stored { by: _, call } = calls.copy(alloc, at)?;
        segment.apply(call)?;
    }
    Ok(())
}

// Copies of the calls of pieces, one after another, and then of those that are stored.
fn copy_all(alloc: Global, pieces: &[Piece], stored: &StoredCalls) -> Result<Vec<Call>, AllocError>
    ensures { IfOk result (λ v. v.items ≡ map call_in (joined pieces.now ++ stored.now.items)) }
{
    let mut calls = Vec::new(alloc);
    for piece in pieces {
        copy_behind(alloc, &mut calls, &piece.calls)?;
    }
    copy_behind(alloc, &mut calls, stored)?;
    Ok(calls)
}

// Copies of stored calls follow these.
fn copy_behind(alloc: Global, calls: &mut Vec<Call>, stored: &StoredCalls) -> Result<(), AllocError>
    ensures { OnOk result (calls.new.items ≡ calls.old.items ++ map call_in stored.now.items) }
{
    for at in 0..stored.len() {
        let Stored { by: _, call } = stored.copy(alloc, at)?;
        calls.push(call)?;
    }
    Ok(())
}
