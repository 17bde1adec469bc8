// Whole messages: the head in its frame, a transfer and an update. What is read is told by an outline; the rest stays where it stands.
ghost use Rattle.std.specs.Prelude.{List, ◌≤◌, length};
ghost use Rattle.model.specs.Messages.{FaceDart};
ghost use Rattle.inbox.specs.Inbox.{Sides, Sized};
ghost use Rattle.inbox.specs.Outlines.{Headed, HeadRead, CountedRead, FrontRead, TailRead, UpdateRead};
ghost use Rattle.inbox.specs.Parts.{entry};

use crate::parts::Part;
use crate::{faces, parts};
use groups::Read;
use memory::header::Header;
use reader::Head;

// The head of a slice whose first number is the length of the rest, and whose ends are blocks.
pub fn framed_head(s: &[u8]) -> Option<Head>
    ensures { HeadRead s.now result }
{
    let head = reader::read_head(s)?;
    let rest = s.len() - head.body;
    if rest as u64 != head.length {
        return None;
    }
    if Header::BLOCKS <= head.from {
        return None;
    }
    if Header::BLOCKS <= head.to {
        return None;
    }
    Some(head)
}

// A count, where the first entry stands, and the place past the last.
#[derive(Clone, Copy)]
pub struct Counted {
    pub count: u64,
    pub first: usize,
    pub next: usize,
}

// A part, in a message whose darts have faces of these sizes.
fn counted_part(s: &[u8], at: usize, part: Part, darts: usize, sizes: &[usize]) -> Option<Counted>
    requires { darts ≤ length sizes.now }
    ensures { (fs : List (List FaceDart)) → Sized fs darts sizes.now → CountedRead (entry part fs) s.now at result }
{
    let (count, first) = reader::read_group(s, at)?;
    let (n, next) = parts::pass_entries(s, first, part, count, darts, sizes)?;
    Some(Counted { count, first, next })
}

// Part 1 of a transfer: its ends, where its points stand, how many darts it has, and the place past them.
#[derive(Clone, Copy)]
pub struct Front {
    pub hollow: bool,
    pub from: u64,
    pub to: u64,
    pub vertices: u64,
    pub points: usize,
    pub darts: usize,
    pub next: usize,
}

// Part 1 of a transfer after its head; its darts go into the arrays.
pub fn read_front(
    s: &[u8],
    head: Head,
    vertex: &mut [u64],
    serial: &mut [u64],
    starts: &mut [usize],
    sizes: &mut [usize],
) -> Option<Front>
    requires { Headed 1 s.now head.body head.from head.to head.next × Sides vertex.old serial.old starts.old sizes.old }
    ensures { FrontRead s.now head.body vertex.new serial.new starts.new sizes.new result }
{
    let (vertices, points) = faces::read_points(s, head.next)?;
    let (count, first) = reader::read_group(s, points + 24 * (vertices as usize))?;
    let faces = faces::read_faces(s, first, count, vertex, serial, starts, sizes)?;
    Some(Front {
        hollow: faces.hollow,
        from: head.from,
        to: head.to,
        vertices,
        points,
        darts: faces.darts,
        next: faces.next,
    })
}

// Parts 2 to 4 of a transfer: how many entries each has, and where the first one stands.
#[derive(Clone, Copy)]
pub struct Tail {
    pub count2: u64,
    pub part2: usize,
    pub count3: u64,
    pub part3: usize,
    pub count4: u64,
    pub part4: usize,
}

// Parts 2 to 4 of a transfer of so many darts, to the last byte.
pub fn read_tail(s: &[u8], at: usize, darts: usize, sizes: &[usize]) -> Option<Tail>
    requires { darts ≤ length sizes.now }
    ensures { (fs : List (List FaceDart)) → Sized fs darts sizes.now → TailRead fs s.now at result }
{
    let second = counted_part(s, at, Part::Second, darts, sizes)?;
    let third = counted_part(s, second.next, Part::Third, darts, sizes)?;
    let fourth = counted_part(s, third.next, Part::Fourth, darts, sizes)?;
    let last = fourth.next;
    if last != s.len() {
        return None;
    }
    Some(Tail {
        count2: second.count,
        part2: second.first,
        count3: third.count,
        part3: third.first,
        count4: fourth.count,
        part4: fourth.first,
    })
}

// An update: its ends, the new block, how many labels it has and where the first one stands.
#[derive(Clone, Copy)]
pub struct Update {
    pub from: u64,
    pub to: u64,
    pub block: u64,
    pub count: u64,
    pub labels: usize,
}

// An update after its head, to the last byte.
pub fn read_update(s: &[u8], head: Head) -> Option<Update>
    requires { Headed 2 s.now head.body head.from head.to head.next }
    ensures { UpdateRead s.now head.body result }
{
    let (block, past) = reader::read_at_most(s, head.next, Header::BLOCKS - 1)?;
    // An update has no faces, so no sizes.
    let none = [0usize; 1];
    let labels = counted_part(s, past, Part::Labels, 0, &none[0..1])?;
    if labels.next != s.len() {
        return None;
    }
    Some(Update {
        from: head.from,
        to: head.to,
        block,
        count: labels.count,
        labels: labels.first,
    })
}
