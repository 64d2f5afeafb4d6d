//! How the lanes on one thread begin, whose turn it is, and the words.

ghost use Rattle.std.specs.Prelude.{◌≡◌, ◌*◌, Some, IfOk};
ghost use Rattle.mp_core.specs.Seats.{turned};
ghost use Rattle.mp_core.specs.Unpacked.{unpacked};
ghost use Rattle.mp_rule.specs.Lawful.{IsLawful, HasRoom};
ghost use Rattle.mp_plain.specs.Packed.{IsPacked};
ghost use Rattle.mp_plain.specs.Lanes.{begun};
ghost use Rattle.mp_plain.specs.Told.{told_core, core_begun};

use crate::ledger::{Ledger, Opening};
use crate::plain::{Plain, PlainError};
use crate::unpacked::Unpacked;
use mp_words::numbers::LaneId;
use mp_words::words::Words;
use std::alloc::Global;

impl Plain {
    /// The lanes on these words, each with so many units. Lane 0 steps first.
    ///
    /// # Errors
    ///
    /// `NoMemory` where memory ran out.
    pub fn make(alloc: Global, words: &Words, allowance: u32) -> Result<Plain, PlainError>
        requires packed { IsPacked words.now }
        requires lawful { IsLawful (unpacked words.now) }
        requires room { HasRoom (unpacked words.now) (17 * allowance) }
        ensures words { IfOk result (λ p. p.words ≡ words.now) }
        ensures core { IfOk result (λ p. told_core p ≡ core_begun (told_core p).home (record { words = words.now; allowance = allowance })) }
    {
        let opening = Opening {
            words: *words,
            allowance,
        };
        let Ok(ledger) = Ledger::make(alloc, &opening) else {
            return Err(PlainError::NoMemory);
        };
        Ok(Plain {
            words: *words,
            said: Unpacked::of_words(words),
            lane: first_lane(),
            left: [allowance; 17],
            ledger,
        })
    }

    /// Makes the lane the one that steps.
    pub fn turn(&mut self, lane: LaneId)
        ensures core { told_core self.new ≡ turned (begun (told_core self.old).view.keeping.start) lane (told_core self.old) (unpacked self.old.words) }
        ensures words { self.new.words ≡ self.old.words }
    {
        let _number = lane.get();
        self.lane = lane;
    }

    /// The words.
    pub fn words(&self) -> &Words
        ensures words { result.now ≡ self.now.words }
        ensures told { (told_core self.now).told ≡ Some (unpacked result.now) }
        ensures packed { IsPacked result.now }
    {
        &self.words
    }
}

/// The lane that steps first.
fn first_lane() -> LaneId
    ensures { result ≡ 0 }
{
    LaneId::make(0).unwrap()
}
