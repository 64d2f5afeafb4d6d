//! The words of the table with which a run begins.

ghost use Rattle.std.specs.Prelude.{◌≡◌, ◌*◌, Some, IfOk, All, map, length};
ghost use Rattle.mp_words.specs.Facts.{IsRow};
ghost use Rattle.mp_words.specs.RowWord.{row_of_word};
ghost use Rattle.mp_core.specs.Unpacked.{unpacked};
ghost use Rattle.mp_rule.specs.Lawful.{IsLawful, HasRoom};
ghost use Rattle.mp_plain.specs.Packed.{IsPacked};
ghost use Rattle.mp_run.specs.FirstMemory.{memory_of};
ghost use Rattle.mp_legal.specs.Inputs.{inputs_of};
ghost use Rattle.mp_legal.specs.Opening as plain;
ghost use Rattle.mp_run.specs.World.{IsWorld};

use crate::error::RunError;
use crate::opening::{opening_order, opening_rows};
use mp_page::laws::stated_state_is_in_range;
use mp_script::script::World;
use mp_words::row::Row;
use mp_words::words::Words;
use std::alloc::Global;

/// The number of slots.
const SLOTS: usize = 15;

/// The words of the rows, by slot.
fn row_words(rows: &[Row]) -> [u64; 15]
    requires length { length rows.now ≡ 15 }
    requires rows { All IsRow rows.now }
    ensures { map row_of_word result ≡ map Some rows.now }
{
    let mut words = [0; SLOTS];
    for (slot, row) in rows.iter().enumerate() {
        words[slot] = row.pack();
    }
    words
}

/// The words of the table with which a run of this world begins: the rows and the list of paths of its opening, and
/// nobody has stepped yet.
///
/// # Errors
///
/// `NoMemory` where memory ran out.
pub fn opening(alloc: Global, world: &World) -> Result<Words, RunError>
    requires world { IsWorld world.now }
    ensures words { IfOk result (λ w. unpacked w ≡ memory_of (plain.opening (inputs_of world.now))) }
    ensures packed { IfOk result IsPacked }
    ensures lawful { IfOk result (λ w. IsLawful (unpacked w)) }
    ensures room { IfOk result (λ w. HasRoom (unpacked w) (17 * 2097152)) }
{
    stated_state_is_in_range();
    let rows = opening_rows(alloc, world)?;
    let order = opening_order(&world.topology);
    Ok(Words {
        index: 0,
        sides: [0; 2],
        order: order.pack(),
        rows: row_words(rows.as_slice()),
        depths: [0; 15],
        currents: [0; 8],
    })
}
