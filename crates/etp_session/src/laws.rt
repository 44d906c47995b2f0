//! The laws of a receiver of ETP. They speak of the definitions alone, and a call of one does nothing.
ghost use Rattle.std.specs.Prelude.{ℕ, Bool, ◌+◌, ◌*◌, ◌≤◌, ◌≡◌, length};
ghost use Rattle.tp_wire.specs.declared.constants.TheConstants.{ETP_MAX_WINDOW};
ghost use Rattle.tp_wire.specs.declared.wire.Kind.TheVariants.{Etp};
ghost use Rattle.tp_wire.specs.declared.wire.Wire.{Wire};
ghost use Rattle.tp_wire.specs.Sizes.{IsSizeOf};
ghost use Rattle.seg_cut.specs.Join.{Join, IsJoin, held};
ghost use Rattle.responder.specs.Peer.{Peer};
ghost use Rattle.responder.specs.Unfinished.{begun};
ghost use Rattle.responder.specs.Readers.{unfinished_of};
ghost use Rattle.responder.specs.Asking.{asking};
ghost use Rattle.responder.specs.Steps.{stepped, expired};
ghost use Rattle.responder.specs.Room.{first_join, prepared, prepared_to_expire};
ghost use Rattle.responder.specs.declared.flow.Flow.{Flow};
ghost use Rattle.responder.specs.declared.flow.Flow.TheVariants.{Open, Held};
ghost use Rattle.responder.specs.declared.in_state.InState.{InState};
ghost use Rattle.etp_session.specs.Memory.{IsWithinWindow, HasLeastRoom, GoesOnWithLeastRoom};
ghost use Rattle.etp_session.specs.Rows.{IsEtp, etp_stepped, GoesOnAsEtp};

/// A receiver of ETP has the rows of ETP (ISO 11783-3, ETP.CM_DPO, ETP.DT), no more and no less, and stays one.
pub fn rows_are_those_of_etp()
    ensures rows { (s : InState) (wire : Wire) (room : Bool) (flow : Flow) (now : ℕ) → IsEtp s
        → stepped s wire room flow now ≡ etp_stepped s wire room flow now }
    ensures steps { (s : InState) (wire : Wire) (room : Bool) (flow : Flow) (now : ℕ) → IsEtp s
        → GoesOnAsEtp (stepped s wire room flow now) }
    ensures fires { (s : InState) (flow : Flow) (now : ℕ) → IsEtp s → GoesOnAsEtp (expired s flow now) }
{}

/// The memory of a receiver grows by the window: at its beginning, after each step, and after each firing of its timer
/// that was prepared. There is then room for just the granted packets, 64 at most, so it holds the bytes received,
/// rounded up by one window at most. A receiver that begins on hold holds none.
pub fn memory_grows_by_the_window()
    ensures begins { (peer : Peer) (size now : ℕ) → IsSizeOf Etp size
        → HasLeastRoom (asking (begun Etp peer ETP_MAX_WINDOW (first_join Etp size Open)) Open now) }
    ensures begins_held { (peer : Peer) (size now : ℕ) → IsSizeOf Etp size
        → HasLeastRoom (asking (begun Etp peer ETP_MAX_WINDOW (first_join Etp size Held)) Held now) }
    ensures held_without_memory { (size : ℕ) → held (first_join Etp size Held) ≡ 0 }
    ensures steps { (s : InState) (wire : Wire) (room : Bool) (flow : Flow) (now : ℕ) → HasLeastRoom s
        → GoesOnWithLeastRoom (stepped (prepared s wire room flow) wire room flow now) }
    ensures fires { (s : InState) (flow : Flow) (now : ℕ) → HasLeastRoom s
        → GoesOnWithLeastRoom (expired (prepared_to_expire s flow) flow now) }
    ensures one_window { (s : InState) → HasLeastRoom s → IsWithinWindow (unfinished_of s).join }
    ensures rounded_up { (join : Join) → IsJoin join → IsWithinWindow join
        → held join ≤ length join.bytes + 7 * ETP_MAX_WINDOW }
{}
