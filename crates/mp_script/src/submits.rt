//! The requests that a text submits.

ghost use Rattle.std.specs.Prelude.{◌≡◌, ◌++◌, IfOk};
ghost use Rattle.std.specs.Option.{option_to_list};
ghost use Rattle.mp_checks.specs.Marks.{HaveSame};
ghost use Rattle.mp_script.specs.Splitting.{lines_of};
ghost use Rattle.mp_script.specs.Shape.{shape};
ghost use Rattle.mp_script.specs.Numbers.{AreNumbers};
ghost use Rattle.mp_script.specs.Before.{submit_in, submitted_in};

use crate::cut::Cut;
use crate::earlier::{begins_lane, put_submitted};
use crate::requests::Requests;
use crate::shapes::take_line;
use crate::wording::has_numbers;
use std::alloc::{AllocError, Global};

/// Puts the request that a line submits to the others, where it stands in a lane and its numbers are right.
fn put_submit(submits: &mut Requests, nodes: u32, begun: bool, cut: &Cut<'_>)
    requires { AreNumbers cut.now.numbers (shape cut.now.line) }
    ensures { HaveSame submits.new (submits.old ++ option_to_list (submit_in nodes begun (shape cut.now.line))) }
{
    if begun && has_numbers(nodes, &cut.line, &cut.numbers) {
        put_submitted(submits, nodes, &cut.line, &cut.numbers);
    }
}

/// The requests that some line of the text submits.
///
/// # Errors
///
/// `AllocError` where memory runs out.
pub(crate) fn submitted_in(alloc: Global, nodes: u32, bytes: &[u8]) -> Result<Requests, AllocError>
    ensures { IfOk result (λ submits. HaveSame submits (submitted_in nodes (lines_of bytes.now))) }
{
    let mut submits = Requests::make(alloc)?;
    let mut begun = false;
    let mut rest = bytes;
    while !rest.is_empty() {
        let cut = take_line(rest);
        put_submit(&mut submits, nodes, begun, &cut);
        begun = begun | begins_lane(&cut.line);
        rest = cut.rest;
    }
    Ok(submits)
}
