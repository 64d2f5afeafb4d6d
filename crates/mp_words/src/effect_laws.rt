//! What it means that an operation changes a row.

ghost use Rattle.std.specs.Prelude.{◌≡◌, ◌+◌, ℕ, true, false};
ghost use Rattle.mp_words.specs.declared.row.Row.{Row};
ghost use Rattle.mp_words.specs.declared.row.CState.{CState};
ghost use Rattle.mp_words.specs.declared.op.Op.{Op};
ghost use Rattle.mp_words.specs.declared.op.Op.TheVariants.{Expire};
ghost use Rattle.mp_words.specs.declared.op.Effect.TheVariants.{Changed, Refused, NotArmed};
ghost use Rattle.mp_words.specs.Row.{is_given};
ghost use Rattle.mp_words.specs.Facts.{IsRow};
ghost use Rattle.mp_words.specs.Effect.{effect_of, row_after, IsRefused, Suits, leaves_path, keeps_path};

/// A changed row has the next version.
pub fn changes_are_next()
    ensures { (row new : Row) (op : Op) → effect_of row op ≡ Changed new → new.version ≡ row.version + 1 }
{}

/// `Refused` comes exactly where the controller may not go there, with the state that the row has.
pub fn refusals_have_a_cause()
    ensures cause { (row : Row) (op : Op) (cstate : CState) → effect_of row op ≡ Refused cstate → IsRefused row op }
    ensures cstate { (row : Row) (op : Op) (cstate : CState) → effect_of row op ≡ Refused cstate → cstate ≡ row.cstate }
    ensures comes { (row : Row) (op : Op) → IsRefused row op → effect_of row op ≡ Refused row.cstate }
{}

/// `NotArmed` comes exactly on `Expire` of a row that isn't armed.
pub fn not_armed_has_a_cause()
    ensures op { (row : Row) (op : Op) → effect_of row op ≡ NotArmed → op ≡ Expire }
    ensures armed { (row : Row) (op : Op) → effect_of row op ≡ NotArmed → row.armed ≡ false }
    ensures comes { (row : Row) → row.armed ≡ false → effect_of row Expire ≡ NotArmed }
{}

/// An operation that suits a row that may be stored leaves one that may be stored, with a path unless it frees the slot.
pub fn changes_may_be_stored()
    ensures stored { (row : Row) (op : Op) → IsRow row → Suits row op → IsRow (row_after row op) }
    ensures given { (row : Row) (op : Op) → Suits row op → is_given (row_after row op) ≡ leaves_path op }
{}

/// An operation other than `Give` and `Free` leaves the controller and whether it reports ANA.
pub fn changes_keep_the_controller()
    ensures ctrl { (row : Row) (op : Op) → keeps_path op ≡ true → (row_after row op).ctrl ≡ row.ctrl }
    ensures ana { (row : Row) (op : Op) → keeps_path op ≡ true → (row_after row op).ana ≡ row.ana }
{}
