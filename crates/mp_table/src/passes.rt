//! How a table begins and ends, and how passes are split off and joined.

ghost use Rattle.std.specs.Prelude.{◌≡◌, ◌<◌, ◌≤◌, ◌+◌, length, [], None, IfOk};
ghost use Rattle.std.specs.Slots.{slots_items, slots_len, IsFull};
ghost use Rattle.mp_core.specs.Unpacked.{unpacked};
ghost use Rattle.mp_core.specs.Views.{kept_part, new_part, joined};
ghost use Rattle.mp_rule.specs.Lawful.{IsLawful, HasRoom, opening_view};
ghost use Rattle.mp_rule.specs.Sums.{times};
ghost use Rattle.mp_core.specs.declared.view.Role.TheVariants as role;
ghost use Rattle.mp_plain.specs.Packed.{IsPacked};
ghost use Rattle.mp_table.specs.Known.{Fits, RowsFit};
ghost use Rattle.mp_table.specs.Passes.{table_of, home_of, view_of, keeper_home, keeper_view};
ghost use Rattle.mp_table.specs.Table.{RuleHolds, Told};
ghost use Rattle.mp_table.specs.Words.{words_of, part};

use crate::atoms::load_as;
use crate::error::TableError;
use crate::keeper_pass::KeeperPass;
use crate::moves::{Over, Parts, Share, Whole};
use crate::pass::Pass;
use crate::shared::Shared;
use crate::token::Token;
use atomic_table::{Closed, Seat, Table};
use mp_core::view::{Start, View};
use mp_words::numbers::LaneId;
use mp_words::words::Words;
use std::alloc::Global;
use std::marker::Brand;

/// The words in the table's order.
fn laid(
    words: &Words,
    sides: &[u64; 2],
    rows: &[u64; 15],
    depths: &[u64; 15],
    currents: &[u64; 8],
) -> [u64; 42]
    requires parts { (sides.now ≡ words.now.sides) × (rows.now ≡ words.now.rows) × (depths.now ≡ words.now.depths) × (currents.now ≡ words.now.currents) }
    ensures words { words_of result ≡ words.now }
    ensures count { length result ≡ 42 }
{
    [
        words.index,
        sides[0],
        sides[1],
        words.order,
        rows[0],
        rows[1],
        rows[2],
        rows[3],
        rows[4],
        rows[5],
        rows[6],
        rows[7],
        rows[8],
        rows[9],
        rows[10],
        rows[11],
        rows[12],
        rows[13],
        rows[14],
        depths[0],
        depths[1],
        depths[2],
        depths[3],
        depths[4],
        depths[5],
        depths[6],
        depths[7],
        depths[8],
        depths[9],
        depths[10],
        depths[11],
        depths[12],
        depths[13],
        depths[14],
        currents[0],
        currents[1],
        currents[2],
        currents[3],
        currents[4],
        currents[5],
        currents[6],
        currents[7],
    ]
}

/// Fifteen words of a table that ended, from this one on.
fn fifteen(closed: &Closed<(), Global>, from: usize) -> [u64; 15]
    requires { (from + 15 ≤ slots_len closed.now.words) × IsFull closed.now.words }
    ensures { result ≡ part (slots_items closed.now.words) from 15 }
{
    let mut words = [0; 15];
    for i in 0..15 {
        words[i] = closed.word(from + i);
    }
    words
}

/// Eight words of a table that ended, from this one on.
fn eight(closed: &Closed<(), Global>, from: usize) -> [u64; 8]
    requires { (from + 8 ≤ slots_len closed.now.words) × IsFull closed.now.words }
    ensures { result ≡ part (slots_items closed.now.words) from 8 }
{
    let mut words = [0; 8];
    for i in 0..8 {
        words[i] = closed.word(from + i);
    }
    words
}

/// The words of a table that ended.
fn words_in(closed: &Closed<(), Global>) -> Words
    requires { (slots_len closed.now.words ≡ 42) × IsFull closed.now.words }
    ensures { result ≡ words_of (slots_items closed.now.words) }
{
    Words {
        index: closed.word(0),
        sides: [closed.word(1), closed.word(2)],
        order: closed.word(3),
        rows: fifteen(closed, 4),
        depths: fifteen(closed, 19),
        currents: eight(closed, 34),
    }
}

/// One load by which a pass is split off.
fn split_as<C: Share>(
    shared: &Shared,
    seat: &mut Seat<(), View>,
    lane: LaneId,
    units: u32,
) -> Seat<(), View>
    requires own { seat.old.table_id ≡ table_of shared.now }
    requires picked { (lane ≡ C.lane) × (units ≡ C.units) }
    requires keeper { seat.old.me.0.role ≡ role.Keeper }
    requires left { units ≤ seat.old.me.0.left }
    requires fresh { times lane seat.old.me.0.keeping.out ≡ 0 }
    ensures own { (seat.new.table_id ≡ seat.old.table_id) × (result.table_id ≡ seat.old.table_id) }
    ensures kept { seat.new.me ≡ (kept_part lane units seat.old.me.0, seat.old.me.1) }
    ensures new { result.me ≡ (new_part lane units seat.old.me.0, []) }
{
    shared.table.shared.split_seat::<Parts<C>>(seat)
}

/// One load by which a pass is joined.
fn join_as<C: Over>(shared: &Shared, seat: &mut Seat<(), View>, other: Seat<(), View>)
    requires own { (seat.old.table_id ≡ table_of shared.now) × (other.table_id ≡ table_of shared.now) }
    requires picked { other.me.0 ≡ C.view }
    requires empty { other.me.1 ≡ [] }
    requires keeper { seat.old.me.0.role ≡ role.Keeper }
    requires closed { other.me.0.inside ≡ None }
    requires landed { other.me.0.flights ≡ [] }
    ensures own { seat.new.table_id ≡ seat.old.table_id }
    ensures view { seat.new.me ≡ (joined seat.old.me.0 other.me.0, seat.old.me.1) }
{
    shared.table.shared.join_seat::<Whole<C>>(seat, other);
}

/// One load that tells that the rule holds.
fn tell(shared: &Shared, seat: &mut Seat<(), View>, lane: LaneId)
    requires own { seat.old.table_id ≡ table_of shared.now }
    requires last { seat.old.me.0.keeping.last ≡ None }
    requires rows { RowsFit seat.old.me.0 }
    ensures own { seat.new.table_id ≡ seat.old.table_id }
    ensures view { seat.new.me ≡ seat.old.me }
    ensures fits { Fits seat.new.me.0 }
    ensures told { Told seat.new.me.0 }
    ensures units { seat.new.me.0.left < 1073741824 }
{
    load_as::<Brand>(shared, seat, 0, 0, lane);
}

impl Shared {
    /// A table on these words, and the keeper's pass with so many units.
    ///
    /// # Errors
    ///
    /// `NoMemory` where memory ran out.
    pub fn make(
        alloc: Global,
        words: &Words,
        allowance: u32,
    ) -> Result<(Shared, KeeperPass), TableError>
        requires packed { IsPacked words.now }
        requires lawful { IsLawful (unpacked words.now) }
        requires room { HasRoom (unpacked words.now) allowance }
        ensures own { IfOk result (λ t. keeper_home t.1 ≡ table_of t.0) }
        ensures view { IfOk result (λ t. keeper_view t.1 ≡ opening_view (record { words = words.now; units = allowance })) }
    {
        let start = Start {
            words: *words,
            units: allowance,
        };
        let all = laid(
            words,
            &words.sides,
            &words.rows,
            &words.depths,
            &words.currents,
        );
        let Ok((table, seat)) = Table::of_words(alloc, &all, &start) else {
            return Err(TableError::NoMemory);
        };
        let token = Token {
            seat,
            left: allowance,
        };
        let keeper = KeeperPass {
            token,
            index: words.index as u8,
        };
        Ok((Shared { table }, keeper))
    }

    /// Splits off a pass for a lane that isn't out, with units of the keeper's.
    pub fn split(&self, pass: &mut KeeperPass, lane: LaneId, allowance: u32) -> Pass
        requires own { keeper_home pass.old ≡ table_of self.now }
        requires units { allowance ≤ (keeper_view pass.old).left }
        requires fresh { times lane (keeper_view pass.old).keeping.out ≡ 0 }
        ensures own { (keeper_home pass.new ≡ table_of self.now) × (home_of result ≡ table_of self.now) }
        ensures lane { result.lane ≡ lane }
        ensures kept { keeper_view pass.new ≡ kept_part lane allowance (keeper_view pass.old) }
        ensures new { view_of result ≡ new_part lane allowance (keeper_view pass.old) }
    {
        let token = &mut pass.token;
        let seat = split_as::<Brand>(self, &mut token.seat, lane, allowance);
        token.left -= allowance;
        let token = Token {
            seat,
            left: allowance,
        };
        Pass { token, lane }
    }

    /// Joins a pass that has no open section and no flight.
    pub fn join(&self, pass: &mut KeeperPass, other: Pass)
        requires own { (keeper_home pass.old ≡ table_of self.now) × (home_of other ≡ table_of self.now) }
        requires closed { (view_of other).inside ≡ None }
        requires landed { (view_of other).flights ≡ [] }
        ensures own { keeper_home pass.new ≡ table_of self.now }
        ensures view { keeper_view pass.new ≡ joined (keeper_view pass.old) (view_of other) }
        ensures told { Told (keeper_view pass.new) }
    {
        let Pass { token: spent, lane } = other;
        let Token { seat, left } = spent;
        let token = &mut pass.token;
        join_as::<Brand>(self, &mut token.seat, seat);
        tell(self, &mut token.seat, lane);
        token.left += left;
    }

    /// Ends the table, once every other pass is joined and the keeper's has no open section and no flight.
    pub fn close(self, pass: KeeperPass) -> Words
        requires own { keeper_home pass ≡ table_of self }
        requires joined { (keeper_view pass).keeping.out ≡ [] }
        requires closed { (keeper_view pass).inside ≡ None }
        requires landed { (keeper_view pass).flights ≡ [] }
        ensures packed { IsPacked result }
        ensures lawful { IsLawful (unpacked result) }
        ensures room { HasRoom (unpacked result) (keeper_view pass).left }
        ensures told { RuleHolds result (keeper_view pass) }
    {
        let KeeperPass { token, index: _ } = pass;
        let Token { seat, left: _ } = token;
        let Shared { table } = self;
        let closed = table.close_with(seat);
        let words = words_in(&closed);
        closed.free();
        words
    }
}
