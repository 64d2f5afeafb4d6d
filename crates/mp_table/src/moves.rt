//! What the table keeps, what each step tells, and how passes are split off and joined.

use atomic_table::{Join, Play, Split, TableRule};
use mp_core::view::{Start, View};
use std::marker::{Brand, PhantomData};

/// What holds between any two steps.
pub struct Rule;

impl TableRule<(), View, Start> for Rule {
    ghost use Rattle.mp_table.specs.Table.{Kept};
    ghost use Rattle.mp_rule.specs.Lawful.{opening_view};

    ghost holds = { λ start s. Kept start s.words s.views };

    ghost first = { opening_view };
}

/// What one step tells of the number that it found and of what the pass knows after it. A call picks it.
pub trait Move {
    ghost use Rattle.std.specs.Prelude.{ℕ};
    ghost use Rattle.mp_core.specs.declared.view.View.{View};

    ghost tells: { ℕ → View → Type 0 };
}

impl Move for Brand {
    ghost tells = { λ _ _. Unit {0} };
}

/// The step that tells what a call picked. The pass holds no slot before and after it, and what it knows fits.
pub struct Made<M: Move> {
    of: PhantomData<M>,
}

impl<M: Move> Play<(), View> for Made<M> {
    ghost use Rattle.std.specs.Prelude.{◌≡◌};
    ghost use Rattle.mp_table.specs.Known.{Fits};

    ghost then = { λ _ me n me'. (me'.1 ≡ me.1) × Fits me'.0 × M.tells n me'.0 };
}

/// The lane and the units of a new pass. A call picks them.
pub trait Share {
    ghost use Rattle.std.specs.Prelude.{ℕ};

    ghost lane: { ℕ };

    ghost units: { ℕ };
}

impl Share for Brand {
    ghost lane = { 0 };

    ghost units = { 0 };
}

/// How a pass is split off.
pub struct Parts<C: Share> {
    of: PhantomData<C>,
}

impl<C: Share> Split<View> for Parts<C> {
    ghost use Rattle.mp_core.specs.Views.{kept_part, new_part};

    ghost left = { kept_part C.lane C.units };

    ghost right = { new_part C.lane C.units };
}

/// The view of a pass that is joined. A call picks it.
pub trait Over {
    ghost use Rattle.mp_core.specs.declared.view.View.{View};

    ghost view: { View };
}

impl Over for Brand {
    ghost use Rattle.mp_rule.specs.Lawful.{opening_view};
    ghost use Rattle.mp_plain.specs.Lanes.{no_words};

    ghost view = { opening_view (record { words = no_words; units = 0 }) };
}

/// How a pass is joined.
pub struct Whole<C: Over> {
    of: PhantomData<C>,
}

impl<C: Over> Join<View> for Whole<C> {
    ghost use Rattle.mp_core.specs.Views.{joined, spent};

    ghost both = { joined };

    ghost spent = { spent C.view };
}
