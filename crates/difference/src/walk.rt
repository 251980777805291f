// The walk along the indexes of two tables, which writes the lines.
ghost use Rattle.std.specs.Prelude.{◌+◌, ◌≤◌, ◌<◌, length};
ghost use Rattle.model.specs.Table.{form128};
ghost use Rattle.model.specs.Difference.{difference, lines_bytes};
ghost use Rattle.table.specs.Slots.{Good, slots_of, IsRecord};
ghost use Rattle.slice.specs.Wrote.{Wrote};
ghost use Rattle.difference.specs.Walk.{Along, number_at, Heads, Ready, Steps};

use crate::fields::no_field;
use crate::line::{put_change, put_line};
use order::{compare, make_index};
use record::Form;
use std::cmp::Ordering;

// How far the walk is: the places in the two indexes, and the place in the buffer.
#[derive(Clone, Copy)]
pub struct Walk {
    pub first: usize,
    pub second: usize,
    pub at: usize,
}

// The record whose number stands at a place of an index.
fn record_at<'a>(table: &'a [u8], index: &[u8], i: usize) -> &'a [u8]
    requires along { Along table.now index.now }
    requires i_in_bounds { i < length index.now }
    ensures { IsRecord form128 table.now (number_at index.now i) result.now }
{
    table::record_at(table, Form::Of128, index[i] as usize)
}

// Which table has the next key: the first one, the second one, or both.
fn next_key(before: &[u8], first: &[u8], after: &[u8], second: &[u8], walk: Walk) -> Ordering
    requires { Along before.now first.now × Along after.now second.now }
    ensures { Heads before.now first.now after.now second.now walk result }
{
    if first.len() <= walk.first {
        return Ordering::Greater;
    }
    if second.len() <= walk.second {
        return Ordering::Less;
    }
    compare(
        record::key(record_at(before, first, walk.first)),
        record::key(record_at(after, second, walk.second)),
    )
}

// Writes the line of the next key, and gives back how far the walk then is.
fn step(
    before: &[u8],
    first: &[u8],
    after: &[u8],
    second: &[u8],
    walk: Walk,
    out: &mut [u8],
) -> Walk
    requires along { Along before.now first.now × Along after.now second.now }
    requires ready { Ready first.now second.now walk out.old × (walk.first + walk.second < length first.now + length second.now) }
    ensures { Steps before.now first.now after.now second.now walk result out.old out.new }
{
    match next_key(before, first, after, second, walk) {
        Ordering::Less => {
            let key = record::key(record_at(before, first, walk.first));
            Walk {
                first: walk.first + 1,
                at: put_line(out, walk.at, b'-', key, no_field()),
                ..walk
            }
        }
        Ordering::Greater => {
            let key = record::key(record_at(after, second, walk.second));
            Walk {
                second: walk.second + 1,
                at: put_line(out, walk.at, b'+', key, no_field()),
                ..walk
            }
        }
        Ordering::Equal => {
            let r = record_at(before, first, walk.first);
            let q = record_at(after, second, walk.second);
            Walk {
                first: walk.first + 1,
                second: walk.second + 1,
                at: put_change(out, walk.at, r, q),
            }
        }
    }
}

// Writes the lines of two tables by their indexes.
// Kept: a step goes on in one index or in both, so that the loop has no range to go over.
fn write_lines(before: &[u8], first: &[u8], after: &[u8], second: &[u8], out: &mut [u8]) -> usize
    requires { Along before.now first.now × Along after.now second.now × (26112 ≤ length out.old) }
    ensures { Wrote 0 (lines_bytes (difference (slots_of form128 before.now) (slots_of form128 after.now))) out.old out.new result }
{
    let mut walk = Walk {
        first: 0,
        second: 0,
        at: 0,
    };
    while walk.first + walk.second < first.len() + second.len() {
        walk = step(before, first, after, second, walk, out);
    }
    walk.at
}

// Makes the indexes of two good tables and writes their lines.
pub fn write_between(
    before: &[u8],
    after: &[u8],
    first: &mut [u8],
    second: &mut [u8],
    out: &mut [u8],
) -> usize
    requires good { Good form128 before.now × Good form128 after.now }
    requires in_bounds { (256 ≤ length first.old) × (256 ≤ length second.old) × (26112 ≤ length out.old) }
    ensures { Wrote 0 (lines_bytes (difference (slots_of form128 before.now) (slots_of form128 after.now))) out.old out.new result }
{
    let n = make_index(before, Form::Of128, first);
    let m = make_index(after, Form::Of128, second);
    write_lines(before, &first[0..n], after, &second[0..m], out)
}
