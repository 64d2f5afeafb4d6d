//! Words of the run text.

ghost use Rattle.std.specs.Prelude.{◌≡◌, ◌++◌, OnOk, codes};
ghost use Rattle.std.specs.Fmt.{decimal};
ghost use Rattle.mp_words.specs.Names.{state_word};
ghost use Rattle.mp_line.specs.Words.{one_number, two_numbers, three_numbers, pair_word, list_word};
ghost use Rattle.mp_record.specs.Words.{comma, dash, letter, grace_word, flags_word, maker_word, path_word};

use mp_line::digits::put_number;
use mp_topology::names::controller_name;
use mp_topology::topology::Topology;
use mp_words::entry::Grace;
use mp_words::names::cstate_name;
use mp_words::numbers::Slot;
use mp_words::op::Maker;
use mp_words::row::Row;
use mp_words::states::{CHANGE, INACCESSIBLE, NON_OPTIMIZED, OPTIMIZED, PERSISTENT_LOSS};
use std::alloc::AllocError;

/// A word and a number.
pub(crate) fn put_one(text: &mut Vec<u8>, word: &str, a: u32) -> Result<(), AllocError>
    ensures { OnOk result (text.new.items ≡ text.old.items ++ one_number word.now a) }
{
    text.extend_from_slice(word.as_bytes())?;
    text.extend_from_slice(b" ")?;
    put_number(text, a)
}

/// A word and two numbers.
pub(crate) fn put_two(text: &mut Vec<u8>, word: &str, a: u32, b: u32) -> Result<(), AllocError>
    ensures { OnOk result (text.new.items ≡ text.old.items ++ two_numbers word.now a b) }
{
    put_one(text, word, a)?;
    text.extend_from_slice(b" ")?;
    put_number(text, b)
}

/// A word and three numbers.
pub(crate) fn put_three(
    text: &mut Vec<u8>,
    word: &str,
    a: u32,
    b: u32,
    c: u32,
) -> Result<(), AllocError>
    ensures { OnOk result (text.new.items ≡ text.old.items ++ three_numbers word.now a b c) }
{
    put_two(text, word, a, b)?;
    text.extend_from_slice(b" ")?;
    put_number(text, c)
}

/// Two numbers with a colon between them.
pub(crate) fn put_pair(text: &mut Vec<u8>, a: u32, b: u32) -> Result<(), AllocError>
    ensures { OnOk result (text.new.items ≡ text.old.items ++ pair_word a b) }
{
    put_number(text, a)?;
    text.extend_from_slice(b":")?;
    put_number(text, b)
}

/// The comma before a further item of a list.
pub(crate) fn put_comma(text: &mut Vec<u8>, further: bool) -> Result<(), AllocError>
    ensures { OnOk result (text.new.items ≡ text.old.items ++ comma further) }
{
    if further {
        return text.extend_from_slice(b",");
    }
    Ok(())
}

/// The dash of a list without items.
pub(crate) fn put_dash(text: &mut Vec<u8>, further: bool) -> Result<(), AllocError>
    ensures { OnOk result (text.new.items ≡ text.old.items ++ dash further) }
{
    if further {
        return Ok(());
    }
    text.extend_from_slice(b"-")
}

/// The letter of a grace period.
pub(crate) fn grace_name(grace: Grace) -> &'static str
    ensures { result.now ≡ grace_word grace }
{
    match grace {
        Grace::A => "a",
        Grace::B => "b",
    }
}

/// The letter of a flag, where it is on.
fn put_letter(text: &mut Vec<u8>, on: bool, word: &str) -> Result<(), AllocError>
    ensures { OnOk result (text.new.items ≡ text.old.items ++ letter on word.now) }
{
    if on {
        return text.extend_from_slice(word.as_bytes());
    }
    Ok(())
}

/// The letters of the flags that are on, or a dash.
fn put_flags(text: &mut Vec<u8>, row: Row) -> Result<(), AllocError>
    ensures { OnOk result (text.new.items ≡ text.old.items ++ flags_word row) }
{
    if row.pending || row.ready || row.armed || row.marked || row.ana {
        put_letter(text, row.pending, "p")?;
        put_letter(text, row.ready, "r")?;
        put_letter(text, row.armed, "a")?;
        put_letter(text, row.marked, "m")?;
        put_letter(text, row.ana, "n")
    } else {
        text.extend_from_slice(b"-")
    }
}

/// Who made a version.
pub(crate) fn put_maker(text: &mut Vec<u8>, maker: Maker) -> Result<(), AllocError>
    ensures { OnOk result (text.new.items ≡ text.old.items ++ maker_word maker) }
{
    match maker {
        Maker::Start => text.extend_from_slice(b"open"),
        Maker::Line { lane, line } => {
            put_number(text, lane.get())?;
            text.extend_from_slice(b".")?;
            put_number(text, line)
        }
        Maker::Hop { lane, req, hop } => {
            put_number(text, lane.get())?;
            text.extend_from_slice(b"/")?;
            put_number(text, req.get())?;
            text.extend_from_slice(b".")?;
            put_number(text, hop)
        }
    }
}

/// The name of an ANA state, `reserved-N` for a state N that the standard has no name for.
fn put_state(text: &mut Vec<u8>, state: u8) -> Result<(), AllocError>
    ensures { OnOk result (text.new.items ≡ text.old.items ++ state_word state) }
{
    match state {
        OPTIMIZED => text.extend_from_slice(b"optimized"),
        NON_OPTIMIZED => text.extend_from_slice(b"non-optimized"),
        INACCESSIBLE => text.extend_from_slice(b"inaccessible"),
        PERSISTENT_LOSS => text.extend_from_slice(b"persistent-loss"),
        CHANGE => text.extend_from_slice(b"change"),
        _ => {
            text.extend_from_slice(b"reserved-")?;
            put_number(text, u32::from(state))
        }
    }
}

/// A path's controller, its state, the ANA state and the flags; or that the slot is free.
pub(crate) fn put_path(text: &mut Vec<u8>, topology: &Topology, row: Row) -> Result<(), AllocError>
    ensures { OnOk result (text.new.items ≡ text.old.items ++ path_word topology.now row) }
{
    if row.state == 0 {
        return text.extend_from_slice(b"free");
    }
    let name = controller_name(topology, row.ctrl);
    let cstate = cstate_name(row.cstate);
    text.extend_from_slice(name.as_bytes())?;
    text.extend_from_slice(b" ")?;
    text.extend_from_slice(cstate.as_bytes())?;
    text.extend_from_slice(b" ")?;
    put_state(text, row.state)?;
    text.extend_from_slice(b" ")?;
    put_flags(text, row)
}

/// Slots joined by commas, or a dash.
pub(crate) fn put_slots(text: &mut Vec<u8>, slots: &[Slot]) -> Result<(), AllocError>
    ensures { OnOk result (text.new.items ≡ text.old.items ++ list_word decimal slots.now) }
{
    let Some((first, rest)) = slots.split_first() else {
        return text.extend_from_slice(b"-");
    };
    put_number(text, first.get())?;
    for slot in rest {
        text.extend_from_slice(b",")?;
        put_number(text, slot.get())?;
    }
    Ok(())
}
