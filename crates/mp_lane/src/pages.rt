//! The pages that lines name.

ghost use Rattle.std.specs.Prelude.{◌≡◌, IfOk, OnOk, IfErr};
ghost use Rattle.mp_checks.specs.Checks.{Answers};
ghost use Rattle.mp_page.specs.Gifts as gifts;
ghost use Rattle.mp_lane.specs.Lines.{page_said, reads_of};
ghost use Rattle.mp_lane.specs.Steps.{FitsPage};
ghost use Rattle.std.specs.Prelude.{[], Some};

use mp_desk::full::Full;
use mp_page::{Page, PageError, changing, read_page, state_for};
use mp_record::event::Said;
use mp_script::script::World;
use mp_words::numbers::Ctrl;
use mp_words::op::Gift;
use std::alloc::Global;

/// What a path of a controller without ANA begins with.
pub fn plain_gift(ctrl: Ctrl) -> Gift
    ensures { result ≡ gifts.plain_gift ctrl }
{
    Gift {
        ctrl,
        ana: false,
        state: 1,
        pending: false,
        armed: false,
    }
}

/// What a path with ANA begins with: in the state that is stated, else inaccessible and pending.
pub fn stated_gift(ctrl: Ctrl, armed: bool, stated: Option<u8>) -> Gift
    ensures { result ≡ gifts.stated_gift ctrl armed stated }
{
    let (state, pending) = match stated {
        Some(state) => (state, false),
        None => (3, true),
    };
    Gift {
        ctrl,
        ana: true,
        state,
        pending,
        armed,
    }
}

/// What a path with ANA begins with, by its page.
pub fn page_gift(ctrl: Ctrl, page: &Page, nsid: u32) -> Gift
    ensures { result ≡ gifts.gift_of nsid ctrl (Some page.now) }
{
    stated_gift(ctrl, changing(page), state_for(page, nsid))
}

/// The page in a box. A box that isn't there is empty.
pub fn page_in(alloc: Global, world: &World, number: u32) -> Result<Page, PageError>
    requires { FitsPage world.now.pages number }
    ensures { Answers PageError.NoMemory result (gifts.page_at (reads_of world.now []).pages number) }
{
    match world.pages.get(number as usize) {
        Some(bytes) => read_page(alloc, bytes, world.topology.anagrpmax),
        None => Err(PageError::ShortHeader(0)),
    }
}

/// What a line says of a refused page, unless memory ran out.
pub fn page_said(refusal: &PageError) -> Result<Said, Full>
    ensures said { IfOk result (λ said. said ≡ page_said refusal.now) }
    ensures refused { OnOk result (refusal.now ≡ PageError.NoMemory → ⊥) }
    ensures cause { IfErr result (λ full. full ≡ Full.NoMemory) }
{
    match refusal {
        PageError::ShortHeader(offset) => Ok(Said::Page(1, *offset)),
        PageError::ShortDescriptor(offset) => Ok(Said::Page(2, *offset)),
        PageError::GroupZero(offset) => Ok(Said::Page(3, *offset)),
        PageError::GroupAbove(offset) => Ok(Said::Page(4, *offset)),
        PageError::StateBad(offset) => Ok(Said::Page(5, *offset)),
        PageError::ShortList(offset) => Ok(Said::Page(6, *offset)),
        PageError::NoMemory => Err(Full::NoMemory),
    }
}
