//! The text of the lanes.

ghost use Rattle.std.specs.Prelude.{◌≡◌, ◌++◌, OnOk};
ghost use Rattle.std.specs.List.{flat_map, enumerate_from};
ghost use Rattle.mp_record.specs.RunText.{lane_word};
ghost use Rattle.mp_record.specs.NotedText.{noted_lane};

use crate::notes::LaneNotes;
use itoa::Buffer;
use mp_words::numbers::LaneId;
use std::alloc::AllocError;

/// The word that begins a lane's block.
fn block_name(keeper: &Option<LaneId>, lane: usize) -> &'static str
    ensures { result.now ≡ lane_word keeper.now lane }
{
    match keeper {
        None => "lane",
        Some(keeper) => {
            if keeper.get() as usize == lane {
                "keeper"
            } else {
                "lane"
            }
        }
    }
}

/// The block of a lane.
fn put_lane(
    text: &mut Vec<u8>,
    notes: bool,
    keeper: &Option<LaneId>,
    lane: usize,
    events: &LaneNotes,
) -> Result<(), AllocError>
    ensures { OnOk result (text.new.items ≡ text.old.items ++ noted_lane notes keeper.now (lane, events.now)) }
{
    let mut buffer = Buffer::new();
    text.extend_from_slice(block_name(keeper, lane).as_bytes())?;
    text.extend_from_slice(b" ")?;
    text.extend_from_slice(buffer.format(lane).as_bytes())?;
    text.extend_from_slice(b"\n")?;
    events.put(text, notes)
}

/// The blocks of the lanes.
pub(crate) fn put_lanes(
    text: &mut Vec<u8>,
    notes: bool,
    keeper: &Option<LaneId>,
    lanes: &[LaneNotes],
) -> Result<(), AllocError>
    ensures { OnOk result (text.new.items ≡ text.old.items ++ flat_map (noted_lane notes keeper.now) (enumerate_from 0 lanes.now)) }
{
    for (lane, events) in lanes.iter().enumerate() {
        put_lane(text, notes, keeper, lane, events)?;
    }
    Ok(())
}
