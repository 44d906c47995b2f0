//! The law of a receiver of TP. It speaks of the definitions alone, and a call of it does nothing.
ghost use Rattle.std.specs.Prelude.{ℕ, ◌≡◌, Bool};
ghost use Rattle.tp_wire.specs.declared.wire.Wire.{Wire};
ghost use Rattle.responder.specs.Steps.{stepped, expired};
ghost use Rattle.responder.specs.Room.{IsPrepared, IsPreparedToExpire, prepared, prepared_to_expire};
ghost use Rattle.responder.specs.declared.flow.Flow.{Flow};
ghost use Rattle.responder.specs.declared.in_state.InState.{InState};
ghost use Rattle.tp_session.specs.Rows.{IsTp, tp_stepped, GoesOnAsTp};

/// A receiver of TP has the rows of TP (SAE J1939-21, TP.DT), no more and no less, and stays one. None of its steps needs
/// room to be made, nor does its timer.
pub fn rows_are_those_of_tp()
    ensures rows { (s : InState) (wire : Wire) (room : Bool) (flow : Flow) (now : ℕ) → IsTp s
        → stepped s wire room flow now ≡ tp_stepped s wire room flow now }
    ensures steps { (s : InState) (wire : Wire) (room : Bool) (flow : Flow) (now : ℕ) → IsTp s
        → GoesOnAsTp (stepped s wire room flow now) }
    ensures fires { (s : InState) (flow : Flow) (now : ℕ) → IsTp s → GoesOnAsTp (expired s flow now) }
    ensures needs_no_room { (s : InState) (wire : Wire) (room : Bool) (flow : Flow) → IsTp s
        → (IsPrepared s wire room flow × (prepared s wire room flow ≡ s)) }
    ensures fires_without_room { (s : InState) (flow : Flow) → IsTp s
        → (IsPreparedToExpire s flow × (prepared_to_expire s flow ≡ s)) }
{}
