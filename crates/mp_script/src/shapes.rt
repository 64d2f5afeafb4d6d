//! What the words of one line are.

ghost use Rattle.std.specs.Prelude.{◌≡◌, ◌<◌, ◌∷◌, length, IfSome};
ghost use Rattle.mp_script.specs.Splitting.{lines_of, first_line, behind_line};
ghost use Rattle.mp_script.specs.Numbers.{AreNumbers};
ghost use Rattle.mp_script.specs.Shape.{shape, shape_of, shape_0, shape_1, shape_2, shape_3, is_word, is_comment};

use crate::cut::Cut;
use crate::numbers::Numbers;
use crate::splitting::{begins, behind_feed, behind_line, split_digits, split_number, split_word};

/// A line by its first word and the number of its words.
#[derive(Clone, Copy)]
pub(crate) enum LineShape<'a> {
    Skipped,
    Unknown,
    Answer(&'a [u8], &'a [u8], &'a [u8]),
    Lane,
    Keeper,
    Submit(&'a [u8], &'a [u8]),
    Finish(&'a [u8]),
    Requeue,
    Log(&'a [u8], &'a [u8]),
    Ctrl(&'a [u8], &'a [u8]),
    Anatt(&'a [u8]),
    Add(&'a [u8], &'a [u8]),
    Remove(&'a [u8]),
    Reap,
    Policy(&'a [u8]),
}

pub(crate) fn is_word(w: &[u8], text: &str) -> bool
    ensures { result ≡ is_word w.now text.now }
{
    let text = text.as_bytes();
    if w.len() != text.len() {
        return false;
    }
    for (i, b) in w.iter().enumerate() {
        if *b != text[i] {
            return false;
        }
    }
    true
}

fn is_comment(w: &[u8]) -> bool
    ensures { result ≡ is_comment w.now }
{
    match w {
        [] => false,
        [first, ..] => *first == b'#',
    }
}

#[tactic(auto, unfolding(crate::specs::Shape::shape_0))]
fn shape_0(w: &[u8]) -> LineShape<'static>
    ensures { shape result ≡ shape_0 w.now }
{
    if is_word(w, "lane") {
        LineShape::Lane
    } else if is_word(w, "keeper") {
        LineShape::Keeper
    } else if is_word(w, "requeue") {
        LineShape::Requeue
    } else if is_word(w, "reap") {
        LineShape::Reap
    } else {
        LineShape::Unknown
    }
}

#[tactic(auto, unfolding(crate::specs::Shape::shape_1))]
fn shape_1<'a>(w: &[u8], a: &'a [u8]) -> LineShape<'a>
    ensures { shape result ≡ shape_1 w.now a.now }
{
    if is_word(w, "finish") {
        LineShape::Finish(a)
    } else if is_word(w, "anatt") {
        LineShape::Anatt(a)
    } else if is_word(w, "remove") {
        LineShape::Remove(a)
    } else if is_word(w, "policy") {
        LineShape::Policy(a)
    } else {
        LineShape::Unknown
    }
}

#[tactic(auto, unfolding(crate::specs::Shape::shape_2))]
fn shape_2<'a>(w: &[u8], a: &'a [u8], b: &'a [u8]) -> LineShape<'a>
    ensures { shape result ≡ shape_2 w.now a.now b.now }
{
    if is_word(w, "submit") {
        LineShape::Submit(a, b)
    } else if is_word(w, "log") {
        LineShape::Log(a, b)
    } else if is_word(w, "ctrl") {
        LineShape::Ctrl(a, b)
    } else if is_word(w, "add") {
        LineShape::Add(a, b)
    } else {
        LineShape::Unknown
    }
}

#[tactic(auto, unfolding(crate::specs::Shape::shape_3))]
fn shape_3<'a>(w: &[u8], a: &'a [u8], b: &'a [u8], c: &'a [u8]) -> LineShape<'a>
    ensures { shape result ≡ shape_3 w.now a.now b.now c.now }
{
    if is_word(w, "answer") {
        LineShape::Answer(a, b, c)
    } else {
        LineShape::Unknown
    }
}

/// What the words of the first line are, of which at most five are looked for, the numbers of two of them, and what is
/// left behind them.
#[tactic(auto, unfolding(crate::specs::Shape::shape_of))]
fn shape_of(bytes: &[u8]) -> Cut<'_>
    ensures shape { shape result.line ≡ shape_of (first_line bytes.now) }
    ensures numbers { AreNumbers result.numbers (shape result.line) }
    ensures behind { behind_line result.rest.now ≡ behind_line bytes.now }
{
    let (w, rest) = match split_word(bytes) {
        Some(found) => found,
        None => return cut(LineShape::Skipped, None, None, bytes),
    };
    if is_comment(w) {
        return cut(LineShape::Skipped, None, None, rest);
    }
    let (a, first, rest) = match split_number(rest) {
        Some(found) => found,
        None => return cut(shape_0(w), None, None, rest),
    };
    let (b, second, rest) = match split_number(rest) {
        Some(found) => found,
        None => return cut(shape_1(w, a), first, None, rest),
    };
    let (c, rest) = match split_word(rest) {
        Some(found) => found,
        None => return cut(shape_2(w, a, b), first, second, rest),
    };
    match split_word(rest) {
        Some((_, rest)) => cut(LineShape::Unknown, first, second, rest),
        None => cut(shape_3(w, a, b, c), first, second, rest),
    }
}

/// A line with its numbers, and what is left behind it.
fn cut<'a>(line: LineShape<'a>, first: Option<u64>, second: Option<u64>, rest: &'a [u8]) -> Cut<'a>
    ensures line { shape result.line ≡ shape line.entry }
    ensures numbers { result.numbers ≡ record { first = first; second = second } }
    ensures rest { result.rest.now ≡ rest.entry.now }
{
    Cut {
        line,
        numbers: Numbers { first, second },
        rest,
    }
}

/// A line `finish` with one number, where single blanks stand between its words.
fn plain_finish(bytes: &[u8]) -> Option<Cut<'_>>
    ensures shape { IfSome result (λ c. shape c.line ≡ shape_of (first_line bytes.now)) }
    ensures numbers { IfSome result (λ c. AreNumbers c.numbers (shape c.line)) }
    ensures behind { IfSome result (λ c. c.rest.now ≡ behind_line bytes.now) }
{
    if !begins(bytes, "finish ") {
        return None;
    }
    let (_, words) = bytes.split_at(7);
    let (r, n, rest) = match split_digits(words) {
        Some(found) => found,
        None => return None,
    };
    match behind_feed(rest) {
        Some(after) => Some(cut(LineShape::Finish(r), Some(n), None, after)),
        None => None,
    }
}

/// A line `submit` with two numbers, where single blanks stand between its words.
fn plain_submit(bytes: &[u8]) -> Option<Cut<'_>>
    ensures shape { IfSome result (λ c. shape c.line ≡ shape_of (first_line bytes.now)) }
    ensures numbers { IfSome result (λ c. AreNumbers c.numbers (shape c.line)) }
    ensures behind { IfSome result (λ c. c.rest.now ≡ behind_line bytes.now) }
{
    if !begins(bytes, "submit ") {
        return None;
    }
    let (_, words) = bytes.split_at(7);
    let (r, n, more) = match split_digits(words) {
        Some(found) => found,
        None => return None,
    };
    if !begins(more, " ") {
        return None;
    }
    let (_, last) = more.split_at(1);
    let (k, m, rest) = match split_digits(last) {
        Some(found) => found,
        None => return None,
    };
    match behind_feed(rest) {
        Some(after) => Some(cut(LineShape::Submit(r, k), Some(n), Some(m), after)),
        None => None,
    }
}

/// What the words of the first line are, the numbers of two of them, and the lines behind it. The lines that most lines
/// are like are looked for first.
fn line_at(bytes: &[u8]) -> Cut<'_>
    ensures shape { shape result.line ≡ shape_of (first_line bytes.now) }
    ensures numbers { AreNumbers result.numbers (shape result.line) }
    ensures behind { result.rest.now ≡ behind_line bytes.now }
{
    if let Some(found) = plain_submit(bytes) {
        return found;
    }
    if let Some(found) = plain_finish(bytes) {
        return found;
    }
    let Cut {
        line,
        numbers,
        rest,
    } = shape_of(bytes);
    Cut {
        line,
        numbers,
        rest: behind_line(rest),
    }
}

/// The first line, and the lines behind it.
pub(crate) fn take_line(bytes: &[u8]) -> Cut<'_>
    requires { 0 < length bytes.now }
    ensures line { lines_of bytes.now ≡ first_line bytes.now ∷ lines_of result.rest.now }
    ensures shape { shape result.line ≡ shape_of (first_line bytes.now) }
    ensures numbers { AreNumbers result.numbers (shape result.line) }
    ensures shorter { length result.rest.now < length bytes.now }
{
    line_at(bytes)
}
