//! What is known of the lines before a line.

ghost use Rattle.std.specs.Prelude.{◌≡◌, ◌<◌, [], ◌++◌, ◌+◌, if◌then◌else◌, IfOk, OnOk, true, false};
ghost use Rattle.std.specs.Option.{option_to_list};
ghost use Rattle.mp_checks.specs.Marks.{HaveSame};
ghost use Rattle.mp_script.specs.Shape.{shape};
ghost use Rattle.mp_script.specs.Wording.{has_numbers};
ghost use Rattle.mp_script.specs.Numbers.{AreNumbers};
ghost use Rattle.mp_script.specs.Before.{Before, before, begins_lane, is_keeper, repeats, submitted_of, answer_of};
ghost use Rattle.mp_script.specs.Building.{IsEarlier, noted, has_some, put_some};

use crate::answered::Answered;
use crate::numbers::Numbers;
use crate::requests::Requests;
use crate::shapes::LineShape;
use crate::splitting::{request_of, small, status_of};
use mp_words::answers::Answer;
use std::alloc::{AllocError, Global};

/// How many lanes have begun, whether the last of them and whether any of them is the keeper's, the requests that were
/// submitted, and the answers.
#[derive(Drop)]
pub(crate) struct Earlier {
    pub(crate) lanes: u32,
    pub(crate) in_keeper: bool,
    pub(crate) had_keeper: bool,
    pub(crate) submitted: Requests,
    pub(crate) answered: Answered,
}

/// What is known before the first line.
pub(crate) fn nothing(alloc: Global) -> Result<Earlier, AllocError>
    ensures known { IfOk result (λ k. IsEarlier k (before [])) }
    ensures lanes { IfOk result (λ k. k.lanes ≡ 0) }
{
    Ok(Earlier {
        lanes: 0,
        in_keeper: false,
        had_keeper: false,
        submitted: Requests::make(alloc)?,
        answered: Answered::make(alloc),
    })
}

pub(crate) fn begins_lane(line: &LineShape<'_>) -> bool
    ensures { result ≡ begins_lane (shape line.now) }
{
    matches!(*line, LineShape::Lane | LineShape::Keeper)
}

pub(crate) fn is_keeper(line: &LineShape<'_>) -> bool
    ensures { result ≡ is_keeper (shape line.now) }
{
    matches!(*line, LineShape::Keeper)
}

/// Whether the line says again what was said.
#[tactic(auto, unfolding(crate::specs::Before::repeats, crate::specs::Wording::has_numbers))]
pub(crate) fn repeats(
    earlier: &Earlier,
    nodes: u32,
    line: &LineShape<'_>,
    numbers: &Numbers,
) -> bool
    requires given { AreNumbers numbers.now (shape line.now) }
    requires numbers { has_numbers nodes (shape line.now) ≡ true }
    ensures repeats { (b : Before) → IsEarlier earlier.now b → result ≡ repeats b (shape line.now) }
    ensures fresh { result ≡ false → has_some (answer_of (shape line.now)) earlier.now.answered ≡ false }
{
    match *line {
        LineShape::Submit(..) => earlier.submitted.has(request_of(numbers.first)),
        LineShape::Answer(..) => {
            earlier
                .answered
                .has(small(0, numbers.first), small(1, numbers.second))
        }
        LineShape::Keeper => earlier.had_keeper,
        _ => false,
    }
}

/// How many lanes have begun with the line.
fn lanes_with(lanes: u32, line: &LineShape<'_>) -> u32
    requires { lanes < 65536 }
    ensures { result ≡ (if begins_lane (shape line.now) then 1 else 0) + lanes }
{
    if begins_lane(line) { 1 + lanes } else { lanes }
}

/// Whether the keeper's lane goes on behind the line.
fn keeper_with(in_keeper: bool, line: &LineShape<'_>) -> bool
    ensures { result ≡ (if begins_lane (shape line.now) then is_keeper (shape line.now) else in_keeper) }
{
    if begins_lane(line) {
        is_keeper(line)
    } else {
        in_keeper
    }
}

/// Puts the request that the line submits to those that were submitted.
#[tactic(auto, unfolding(crate::specs::Wording::has_numbers))]
pub(crate) fn put_submitted(
    submitted: &mut Requests,
    nodes: u32,
    line: &LineShape<'_>,
    numbers: &Numbers,
)
    requires given { AreNumbers numbers.now (shape line.now) }
    requires numbers { has_numbers nodes (shape line.now) ≡ true }
    ensures { HaveSame submitted.new (submitted.old ++ option_to_list (submitted_of (shape line.now))) }
{
    if let LineShape::Submit(..) = *line {
        submitted.put(request_of(numbers.first));
    }
}

/// Puts the answer of the line to the answers.
#[tactic(auto, unfolding(crate::specs::Wording::has_numbers))]
fn put_answered(
    answered: &mut Answered,
    nodes: u32,
    line: &LineShape<'_>,
    numbers: &Numbers,
) -> Result<(), AllocError>
    requires given { AreNumbers numbers.now (shape line.now) }
    requires numbers { has_numbers nodes (shape line.now) ≡ true }
    requires fresh { has_some (answer_of (shape line.now)) answered.old ≡ false }
    ensures { OnOk result (answered.new ≡ put_some (answer_of (shape line.now)) answered.old) }
{
    match *line {
        LineShape::Answer(_, _, s) => {
            let answer = Answer {
                req: request_of(numbers.first),
                attempt: small(1, numbers.second),
                status: status_of(s),
            };
            answered.put(answer)
        }
        _ => Ok(()),
    }
}

/// What is known once the line was read.
pub(crate) fn note(
    earlier: &mut Earlier,
    nodes: u32,
    line: &LineShape<'_>,
    numbers: &Numbers,
) -> Result<(), AllocError>
    requires lanes { earlier.old.lanes < 65536 }
    requires given { AreNumbers numbers.now (shape line.now) }
    requires numbers { has_numbers nodes (shape line.now) ≡ true }
    requires fresh { has_some (answer_of (shape line.now)) earlier.old.answered ≡ false }
    ensures known { (b : Before) → IsEarlier earlier.old b → OnOk result (IsEarlier earlier.new (noted b (shape line.now))) }
    ensures lanes { OnOk result (earlier.new.lanes ≡ (if begins_lane (shape line.now) then 1 else 0) + earlier.old.lanes) }
{
    put_submitted(&mut earlier.submitted, nodes, line, numbers);
    put_answered(&mut earlier.answered, nodes, line, numbers)?;
    earlier.lanes = lanes_with(earlier.lanes, line);
    earlier.in_keeper = keeper_with(earlier.in_keeper, line);
    earlier.had_keeper = earlier.had_keeper | is_keeper(line);
    Ok(())
}
