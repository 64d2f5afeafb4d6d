//! Worked cases over a table: what each step finds, whatever steps stand between.

ghost use Rattle.std.specs.Prelude.{◌≡◌, ◌+◌, ◌-◌, ◌<◌, ◌≤◌, ◌++◌, ◌∷◌, [], ℕ, List, None, Some, false, IfOk, IfSome, ◌≢◌, true};
ghost use Rattle.mp_core.specs.declared.view.Role.TheVariants as role;
ghost use Rattle.mp_words.specs.declared.op.Op.TheVariants as op;
ghost use Rattle.mp_words.specs.declared.row.CState.TheVariants.{Resetting};
ghost use Rattle.mp_core.specs.Kinds.{Changes};
ghost use Rattle.mp_core.specs.Notes.{HasRow, ReadsNothing};
ghost use Rattle.mp_core.specs.Views.{without_lane};
ghost use Rattle.mp_plain.specs.TwoPaths.{two_path_words};
ghost use Rattle.mp_rule.specs.Sums.{times};
ghost use Rattle.mp_table.specs.Passes.{table_of, view_of, keeper_home, keeper_view};
ghost use Rattle.mp_table.specs.Trials.{Idle, SitsDown, StandsUp, StaysIdle, StaysIn};

use crate::error::TableError;
use crate::keeper_pass::KeeperPass;
use crate::on::On;
use crate::on_keeper::OnKeeper;
use crate::shared::Shared;
use mp_core::section::slot_at;
use mp_core::steps::{KeeperSteps, Steps};
use mp_core::view::{RowEnd, Section};
use mp_words::effect::effect;
use mp_words::note::Note;
use mp_words::numbers::{LaneId, Slot};
use mp_words::op::{Effect, Maker, Op};
use mp_words::row::{CState, Row};
use mp_words::words::Words;
use std::alloc::Global;
use std::test::Fail;

/// The words of two live, optimized and ready paths, listed under NUMA.
fn two_paths() -> Words
    ensures { result ≡ two_path_words }
{
    let mut rows = [0; 15];
    rows[0] = 0x0000_4240_0000_0000;
    rows[1] = 0x0000_4241_0000_0000;
    Words {
        index: 0,
        sides: [0, 0],
        order: 0xFFFF_FF10_0000_0000,
        rows,
        depths: [0; 15],
        currents: [0; 8],
    }
}

/// A table on the words of two paths.
pub(crate) fn table(alloc: Global, units: u32) -> Result<(Shared, KeeperPass), TableError>
    requires { units ≤ 1700 }
    ensures own { IfOk result (λ t. keeper_home t.1 ≡ table_of t.0) }
    ensures idle { IfOk result (λ t. Idle role.Keeper units [] (keeper_view t.1)) }
{
    Shared::make(alloc, &two_paths(), units)
}

/// The lane of a number.
pub(crate) fn lane(n: u32) -> LaneId
    requires { n < 17 }
    ensures { result ≡ n }
{
    LaneId::make(n).unwrap()
}

/// Splits off a pass, and binds it.
fn split<'a>(shared: &'a Shared, keeper: &mut KeeperPass, n: u32, units: u32) -> On<'a>
    requires own { keeper_home keeper.old ≡ table_of shared.now }
    requires lane { n < 17 }
    requires left { units ≤ (keeper_view keeper.old).left }
    requires fresh { times n (keeper_view keeper.old).keeping.out ≡ 0 }
    ensures own { (keeper_home keeper.new ≡ table_of shared.now) × (table_of result.shared.now ≡ table_of shared.now) }
    ensures lane { Idle (role.Lane n) units [] (view_of result.pass) }
    ensures keeper { (k : ℕ) (out : List ℕ) → Idle role.Keeper k out (keeper_view keeper.old) → Idle role.Keeper (k - units) (out ++ n ∷ []) (keeper_view keeper.new) }
{
    let pass = shared.split(keeper, lane(n), units);
    On::make(shared, pass)
}

/// Loads the side index.
pub(crate) fn load(on: &mut On) -> u8
    ensures own { table_of on.new.shared.now ≡ table_of on.old.shared.now }
    ensures idle { StaysIdle (view_of on.old.pass) (view_of on.new.pass) }
    ensures side { result < 2 }
{
    on.load_side()
}

/// Enters a side.
pub(crate) fn enter(on: &mut On, side: u8) -> Section
    requires side { side < 2 }
    requires left { 1 ≤ (view_of on.old.pass).left }
    requires closed { (view_of on.old.pass).inside ≡ None }
    ensures own { table_of on.new.shared.now ≡ table_of on.old.shared.now }
    ensures sits { SitsDown result (view_of on.old.pass) (view_of on.new.pass) }
    ensures nothing { ReadsNothing result.note }
    ensures open { (view_of on.new.pass).inside ≡ Some result }
    ensures untried { result.tried ≡ false }
{
    on.enter(side)
}

/// Leaves a side.
pub(crate) fn leave(on: &mut On, section: Section) -> Note
    requires { (view_of on.old.pass).inside ≡ Some section }
    ensures own { table_of on.new.shared.now ≡ table_of on.old.shared.now }
    ensures idle { StandsUp section (view_of on.old.pass) (view_of on.new.pass) }
{
    on.leave(section)
}

/// Binds the keeper's pass for lane 16.
fn keep(shared: &Shared, keeper: KeeperPass) -> OnKeeper<'_>
    requires own { keeper_home keeper ≡ table_of shared.now }
    requires fresh { times 16 (keeper_view keeper).keeping.out ≡ 0 }
    ensures pass { result.pass ≡ keeper }
    ensures own { table_of result.shared.now ≡ table_of shared.now }
{
    OnKeeper::make(shared, keeper, lane(16))
}

/// Looks at a side: how many have entered it, and how many are inside.
fn look(on: &mut OnKeeper, side: u8) -> (u32, u32)
    requires { side < 2 }
    ensures own { table_of on.new.shared.now ≡ table_of on.old.shared.now }
    ensures idle { StaysIdle (keeper_view on.old.pass) (keeper_view on.new.pass) }
{
    let found = on.scan(side);
    (found.entries, found.inside)
}

/// Flips the sides.
fn flip(on: &mut OnKeeper)
    ensures own { table_of on.new.shared.now ≡ table_of on.old.shared.now }
    ensures idle { StaysIdle (keeper_view on.old.pass) (keeper_view on.new.pass) }
{
    on.flip();
}

/// Joins a lane's pass.
fn join(shared: &Shared, keeper: &mut KeeperPass, on: On)
    requires own { (keeper_home keeper.old ≡ table_of shared.now) × (table_of on.shared.now ≡ table_of shared.now) }
    requires closed { (view_of on.pass).inside ≡ None }
    requires landed { (view_of on.pass).flights ≡ [] }
    ensures own { keeper_home keeper.new ≡ table_of shared.now }
    ensures keeper { (l k n : ℕ) (out none : List ℕ) → Idle role.Keeper k out (keeper_view keeper.old) → Idle (role.Lane l) n none (view_of on.entry.pass) → Idle role.Keeper (k + n) (without_lane (role.Lane l) out) (keeper_view keeper.new) }
{
    shared.join(keeper, on.pass());
}

/// Loads the list of paths, and the row of its first path.
fn read_first(on: &mut On, section: &mut Section) -> Option<(Slot, Row)>
    requires open { (view_of on.old.pass).inside ≡ Some section.old }
    requires first { ReadsNothing section.old.note }
    ensures own { table_of on.new.shared.now ≡ table_of on.old.shared.now }
    ensures sits { StaysIn section.old section.new (view_of on.old.pass) (view_of on.new.pass) }
    ensures open { (view_of on.new.pass).inside ≡ Some section.new }
    ensures row { IfSome result (λ r. HasRow section.new.note r.0 r.1) }
    ensures below { IfSome result (λ r. r.1.version < 1073741824) }
    ensures ordered { section.new.note.order ≢ None }
    ensures tried { section.new.tried ≡ section.old.tried }
{
    let order = on.load_order(section);
    if order.len == 0 {
        return None;
    }
    let slot = slot_at(&section.note.reading.slots, 0);
    let row = on.load_row(section, slot);
    Some((slot, row))
}

/// Whether a row may become one of a controller that resets.
fn may_reset(old: &Row) -> bool
    requires { old.now.version < 1073741824 }
    ensures { result ≡ true → Changes old.now (op.Ctrl Resetting) }
{
    matches!(
        effect(*old, Op::Ctrl(CState::Resetting)),
        Effect::Changed(_)
    )
}

/// Resets a controller, where that changes its row.
fn reset(on: &mut On, section: &mut Section, slot: Slot, old: Row) -> Option<RowEnd>
    requires open { (view_of on.old.pass).inside ≡ Some section.old }
    requires row { HasRow section.old.note slot old }
    requires below { old.version < 1073741824 }
    requires ordered { section.old.note.order ≢ None }
    requires untried { section.old.tried ≡ false }
    ensures own { table_of on.new.shared.now ≡ table_of on.old.shared.now }
    ensures sits { StaysIn section.old section.new (view_of on.old.pass) (view_of on.new.pass) }
{
    if !may_reset(&old) {
        return None;
    }
    let op = Op::Ctrl(CState::Resetting);
    Some(on.change_row(section, slot, old, op, Maker::Start))
}

/// Two lanes read one row, and both reset its controller, the second first.
fn race(p: &mut On, q: &mut On, a: &mut Section, b: &mut Section) -> Option<(RowEnd, RowEnd)>
    requires open { ((view_of p.old.pass).inside ≡ Some a.old) × ((view_of q.old.pass).inside ≡ Some b.old) }
    requires nothing { ReadsNothing a.old.note × ReadsNothing b.old.note }
    requires untried { (a.old.tried ≡ false) × (b.old.tried ≡ false) }
    ensures own { (table_of p.new.shared.now ≡ table_of p.old.shared.now) × (table_of q.new.shared.now ≡ table_of q.old.shared.now) }
    ensures p_sits { StaysIn a.old a.new (view_of p.old.pass) (view_of p.new.pass) }
    ensures q_sits { StaysIn b.old b.new (view_of q.old.pass) (view_of q.new.pass) }
{
    let (slot, old) = read_first(p, a)?;
    let (other, same) = read_first(q, b)?;
    let won = reset(q, b, other, same)?;
    let lost = reset(p, a, slot, old)?;
    Some((won, lost))
}

/// Whether the exchange was won, with this version.
fn is_won(end: &RowEnd, version: u32) -> bool {
    match end {
        RowEnd::Done(entry) => {
            entry.row.version == version && matches!(entry.row.cstate, CState::Resetting)
        }
        RowEnd::Moved(_) => false,
    }
}

/// Whether the exchange met a row of this version of a controller that resets.
fn is_lost(end: &RowEnd, version: u32) -> bool {
    match end {
        RowEnd::Done(_) => false,
        RowEnd::Moved(row) => row.version == version && matches!(row.cstate, CState::Resetting),
    }
}

#[test]
fn a_stale_load(rt: HostRuntime) -> Result<(), Fail> {
    let (shared, mut keeper) = table(rt.alloc(), 100)?;
    let mut p = split(&shared, &mut keeper, 0, 4);
    let mut q = split(&shared, &mut keeper, 1, 4);
    let mut on = keep(&shared, keeper);
    let stale = load(&mut p);
    flip(&mut on);
    let before = look(&mut on, 0);
    flip(&mut on);
    let section = enter(&mut p, stale);
    let during = look(&mut on, 0);
    let first = leave(&mut p, section);
    let after = look(&mut on, 0);
    let side = load(&mut q);
    let section = enter(&mut q, side);
    let second = leave(&mut q, section);
    let left = (p.left(), q.left());
    let mut keeper = on.pass();
    join(&shared, &mut keeper, p);
    join(&shared, &mut keeper, q);
    let words = shared.close(keeper);
    assert_eq!(rt; stale, 0);
    assert!(rt; before.0 == 0 && before.1 == 0);
    assert!(rt; during.0 == 1 && during.1 == 1);
    assert!(rt; first.side == 0 && first.ticket == 0);
    assert!(rt; after.0 == 1 && after.1 == 0);
    assert!(rt; side == 0 && second.side == 0 && second.ticket == 1);
    assert!(rt; left.0 == 3 && left.1 == 3);
    assert_eq!(rt; words.sides[0], 0x0000_0002_0000_0000);
    Ok(())
}

#[test]
fn a_lost_exchange(rt: HostRuntime) -> Result<(), Fail> {
    let (shared, mut keeper) = table(rt.alloc(), 100)?;
    let mut p = split(&shared, &mut keeper, 0, 3);
    let mut q = split(&shared, &mut keeper, 1, 3);
    let mut on = keep(&shared, keeper);
    let mut a = enter(&mut p, 0);
    let mut b = enter(&mut q, 0);
    let ends = race(&mut p, &mut q, &mut a, &mut b);
    let during = look(&mut on, 0);
    let first = leave(&mut p, a);
    let second = leave(&mut q, b);
    let left = (p.left(), q.left());
    let mut keeper = on.pass();
    join(&shared, &mut keeper, p);
    join(&shared, &mut keeper, q);
    let words = shared.close(keeper);
    match ends {
        Some((won, lost)) => assert!(rt; is_won(&won, 1) && is_lost(&lost, 1)),
        None => assert!(rt; false),
    }
    assert!(rt; during.0 == 2 && during.1 == 2);
    assert!(rt; first.ticket == 0 && second.ticket == 1);
    assert!(rt; left.0 == 2 && left.1 == 2);
    assert_eq!(rt; words.rows[0], 0x0000_4280_0000_0001);
    Ok(())
}
