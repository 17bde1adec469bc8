// The darts of a block in groups: its cells; or its pieces, cells that are joined where a dart of one is sewn to a dart of another.
ghost use Rattle.std.specs.Prelude.{◌≡◌, ◌+◌, ◌≤◌, ◌<◌, length, get_or};
ghost use Rattle.model.specs.Image.{words_for, count_in};
ghost use Rattle.model.specs.Values.{room};
ghost use Rattle.cells.specs.Places.{Clear, Assigned};
ghost use Rattle.stats.specs.Groups.{third_link, group_of, Joined, GroupEntered, Queued, LinksEntered, Shut, Grouped};

use memory::header::Header;
use memory::record::{Place, Record};
use memory::{kind, record};

// Where the third link of the dart at place p leads, if third links count and the dart is sewn; else p.
fn third_link(block: &[u64], third: bool, p: Place) -> Place
    requires { words_for (p.0 + 1) ≤ length block.now }
    ensures { result.0 ≡ third_link third block.now p.0 }
{
    if third & kind::is_sewn(record::field(block, p, Record::KIND)) {
        return Place(record::field(block, p, Record::LINK) as usize);
    }
    p
}

// A place that is in no group yet is put into one, and at the end of the queue. Returns the queue's new length.
fn enter(groups: &mut [usize], order: &mut [usize], tail: usize, p: Place, group: usize) -> usize
    requires { (p.0 < room) × (p.0 < length groups.old) × (tail ≤ room) × (get_or groups.old p.0 0 ≡ 0 → tail < length order.old) }
    ensures { GroupEntered p.0 group groups.old order.old tail groups.new order.new result }
{
    let i = p.0;
    if groups[i] != 0 {
        return tail;
    }
    groups[i] = group;
    order[tail] = i;
    tail + 1
}

// Puts the darts that the links of the one at place p lead to into a group, those that are in none yet. Returns the queue's new
// length.
fn enter_links(
    block: &[u64],
    third: bool,
    p: Place,
    group: usize,
    order: &mut [usize],
    tail: usize,
    groups: &mut [usize],
) -> usize
    requires { Joined block.now × (p.0 < get_or block.now 2 0) × (0 < group)
        × Queued (get_or block.now 2 0) groups.old order.old tail }
    ensures { LinksEntered third block.now p.0 group groups.old order.old tail
        groups.new order.new result }
{
    let a = Place(record::field(block, p, Record::NEXT) as usize);
    let with_next = enter(groups, order, tail, a, group);
    let b = Place(record::field(block, p, Record::OPPOSITE) as usize);
    let with_opposite = enter(groups, order, with_next, b, group);
    let c = third_link(block, third, p);
    enter(groups, order, with_opposite, c, group)
}

// Puts the darts that the links of the one at place `start` lead to into a group of their own. Returns the queue's new length.
fn add_group(
    block: &[u64],
    third: bool,
    start: Place,
    group: usize,
    order: &mut [usize],
    tail: usize,
    groups: &mut [usize],
) -> usize
    requires joined { Joined block.now × (start.0 < get_or block.now 2 0) × (0 < group) }
    requires queued { Queued (get_or block.now 2 0) groups.old order.old tail × Shut third block.now groups.old
        × (get_or groups.old start.0 0 ≡ 0) }
    ensures queue { Queued (get_or block.now 2 0) groups.new order.new result }
    ensures assigned { Assigned group (group_of third block.now start.0) groups.old groups.new }
{
    let first = start.0;
    // The links of what stands before `head` lead to what is in a group.
    let mut end = enter(groups, order, tail, Place(first), group);
    let mut head = tail;
    while head < end {
        let p = order[head];
        head += 1;
        end = enter_links(block, third, Place(p), group, order, end, groups);
    }
    end
}

// Numbers the groups of a block's darts from 1 on, by their least places, which `firsts` lists. Returns how many there are.
pub fn number(
    block: &[u64],
    third: bool,
    groups: &mut [usize],
    firsts: &mut [usize],
    order: &mut [usize],
) -> usize
    requires joined { Joined block.now × (count_in block.now ≤ length groups.old) × Clear groups.old }
    requires block_in_bounds { (count_in block.now ≤ length firsts.old) × (count_in block.now ≤ length order.old) }
    ensures { Grouped third block.now groups.new firsts.new result }
{
    let n = block[Header::COUNT] as usize;
    // The groups of the places below p have their numbers, `count` of them.
    let mut count = 0;
    let mut tail = 0;
    for p in 0..n {
        if groups[p] != 0 {
            continue;
        }
        firsts[count] = p;
        count += 1;
        tail = add_group(block, third, Place(p), count, order, tail, groups);
    }
    count
}
