// Vectors of the second implementation: a call of the rack or of a viewer is played on what a record lends, and compared with what the record tells.
#![tactic(auto)]

pub mod cursor; // cursor.rt: numbers and words of a record
pub mod lent; // lent.rt: lent memory and bytes, filled and compared
pub mod meshes; // meshes.rt: meshes stored as files, and digests of their blocks
mod packed; // packed.rt: packed text
pub mod records; // records.rt: the records on standard input

ghost use Rattle.std.specs.Prelude.{◌≡◌, true};
ghost use Rattle.model.specs.Values.{finite_bits};

use answers::{Answer, NextMove, Written};
use balance::nextmove::Balance;
use memory::header::BLOCKS;
use memory::point::Point;

// What was found of a record.
#[derive(Clone, Copy, PartialEq, Eq, Debug)]
pub enum Verdict {
    AsTold,
    OtherAnswer,
    OtherContent,
    // The record cannot be read.
    Unreadable,
    // What the record lends has no room here.
    PassedOver,
}

impl Verdict {
    // The end of a line about a record that is not as told.
    pub fn meaning(self) -> &'static [u8] {
        match self {
            Verdict::AsTold => b": as told\n",
            Verdict::OtherAnswer => b": another answer\n",
            Verdict::OtherContent => b": other content\n",
            Verdict::Unreadable => b": cannot be read\n",
            Verdict::PassedOver => b": passed over\n",
        }
    }
}

// Where a call is played: at a node of the rack, or at a viewer.
#[derive(Clone, Copy, PartialEq, Eq, Debug)]
pub enum Host {
    Rack,
    Viewer,
}

// What a call did beside what a record tells.
fn judge(record: &[u8], answer: u32, same: bool) -> Verdict {
    if answer != told_answer(record) {
        return Verdict::OtherAnswer;
    }
    if !same {
        return Verdict::OtherContent;
    }
    Verdict::AsTold
}

// A number of four bytes.
pub fn small(record: &[u8], at: usize) -> u32 {
    (cursor::number(record, at, 4) % 4294967296) as u32
}

// The answer with which every record starts.
pub fn told_answer(record: &[u8]) -> u32 {
    small(record, 0)
}

// Fills memory before the call and memory as told after it, from a place on; gives the place past both.
fn before_and_after(record: &[u8], at: usize, block: &mut [u64], told: &mut [u64]) -> usize {
    lent::words(record, at, told);
    let change = lent::words(record, at, block);
    lent::runs(record, change, told)
}

// A call that changes a block's memory, with its numbers.
#[derive(Clone, Copy)]
enum Changing {
    Empty(u64),
    ReadFile,
    Receive,
    Release(u64, u64),
    Redirect,
    ReadPages,
}

// At a node of the rack.
fn change_rack(call: Changing, bytes: &[u8], block: &mut [u64]) -> Answer {
    match call {
        Changing::Empty(number) => memory::header::empty(number, block),
        Changing::ReadFile => readfile::read_file(bytes, block),
        Changing::Receive => receive::receive(block, bytes),
        Changing::Release(to, serial) => release::release(block, to, serial),
        Changing::Redirect => redirect::redirect(block, bytes),
        Changing::ReadPages => readpages::read_pages(bytes, block),
    }
}

// At a viewer.
fn change_viewer(call: Changing, bytes: &[u8], block: &mut [u64]) -> Answer {
    match call {
        Changing::Empty(number) => viewer::empty(number, block),
        Changing::ReadFile => viewer::read_file(bytes, block),
        Changing::Receive => viewer::receive(block, bytes),
        Changing::Release(to, serial) => viewer::release(block, to, serial),
        Changing::Redirect => viewer::redirect(block, bytes),
        Changing::ReadPages => viewer::read_pages(bytes, block),
    }
}

// At a viewer, or at a node of the rack.
fn change(host: Host, call: Changing, bytes: &[u8], block: &mut [u64]) -> Answer {
    match host {
        Host::Rack => change_rack(call, bytes, block),
        Host::Viewer => change_viewer(call, bytes, block),
    }
}

// On memory of the record's size, which stands at a place with its change behind it.
fn change_on(
    host: Host,
    call: Changing,
    record: &[u8],
    at: usize,
    bytes: &[u8],
    block: &mut [u64],
    told: &mut [u64],
) -> Verdict {
    if before_and_after(record, at, block, told) != record.len() {
        return Verdict::Unreadable;
    }
    let answer = answers::answer_number(change(host, call, bytes, block));
    judge(record, answer, &block[..] == &told[..])
}

// Memory, change, from a place on.
fn change_from(
    host: Host,
    call: Changing,
    record: &[u8],
    at: usize,
    bytes: &[u8],
    block: &mut [u64],
    told: &mut [u64],
) -> Verdict {
    let words = cursor::short(record, at);
    if words <= block.len() {
        if words <= told.len() {
            return change_on(
                host,
                call,
                record,
                at,
                bytes,
                &mut block[..words],
                &mut told[..words],
            );
        }
    }
    Verdict::PassedOver
}

// Bytes, memory, change.
fn change_by_bytes(
    host: Host,
    call: Changing,
    record: &[u8],
    block: &mut [u64],
    told: &mut [u64],
) -> Verdict {
    let at = cursor::bytes_end(record, 4);
    if 8 <= at {
        if at <= record.len() {
            return change_from(host, call, record, at, &record[8..at], block, told);
        }
    }
    Verdict::Unreadable
}

// Numbers up to a place, memory, change.
fn change_by_numbers(
    host: Host,
    call: Changing,
    record: &[u8],
    at: usize,
    block: &mut [u64],
    told: &mut [u64],
) -> Verdict {
    change_from(host, call, record, at, b"", block, told)
}

// Empty: number, memory, change.
pub fn empty_case(host: Host, record: &[u8], block: &mut [u64], told: &mut [u64]) -> Verdict {
    let call = Changing::Empty(cursor::number(record, 4, 8));
    change_by_numbers(host, call, record, 12, block, told)
}

// Read file: bytes of the file, memory, change.
pub fn read_file_case(host: Host, record: &[u8], block: &mut [u64], told: &mut [u64]) -> Verdict {
    change_by_bytes(host, Changing::ReadFile, record, block, told)
}

// Receive: bytes of the message, memory, change.
pub fn receive_case(host: Host, record: &[u8], block: &mut [u64], told: &mut [u64]) -> Verdict {
    change_by_bytes(host, Changing::Receive, record, block, told)
}

// Release: destination, serial, memory, change.
pub fn release_case(host: Host, record: &[u8], block: &mut [u64], told: &mut [u64]) -> Verdict {
    let call = Changing::Release(cursor::number(record, 4, 8), cursor::number(record, 12, 8));
    change_by_numbers(host, call, record, 20, block, told)
}

// Redirect: bytes of the message, memory, change.
pub fn redirect_case(host: Host, record: &[u8], block: &mut [u64], told: &mut [u64]) -> Verdict {
    change_by_bytes(host, Changing::Redirect, record, block, told)
}

// Packed pages into lent bytes of their length, memory, change.
fn change_by_pages(
    host: Host,
    record: &[u8],
    block: &mut [u64],
    told: &mut [u64],
    pages: &mut [u8],
) -> Verdict {
    let at = packed::end(record, 4);
    if packed::unpack(record, 12, pages) != at {
        return Verdict::Unreadable;
    }
    change_from(host, Changing::ReadPages, record, at, pages, block, told)
}

// Read pages: packed pages, memory, change. The pages are unpacked into lent bytes.
pub fn read_pages_case(
    host: Host,
    record: &[u8],
    block: &mut [u64],
    told: &mut [u64],
    out: &mut [u8],
) -> Verdict {
    let bytes = cursor::short(record, 4);
    if bytes <= out.len() {
        return change_by_pages(host, record, block, told, &mut out[0..bytes]);
    }
    Verdict::PassedOver
}

// A call that reads a block's memory and writes bytes, with its numbers.
#[derive(Clone, Copy)]
enum Writing {
    SaveFile,
    Send(u64, u64),
    WritePages,
}

// At a node of the rack.
fn write_rack(call: Writing, block: &[u64], out: &mut [u8]) -> Written {
    match call {
        Writing::SaveFile => savefile::save_file(block, out),
        Writing::Send(to, serial) => send::send(block, to, serial, out),
        Writing::WritePages => writepages::write_pages(block, out),
    }
}

// At a viewer.
fn write_viewer(call: Writing, block: &[u64], out: &mut [u8]) -> Written {
    match call {
        Writing::SaveFile => viewer::save_file(block, out),
        Writing::Send(to, serial) => viewer::send(block, to, serial, out),
        Writing::WritePages => viewer::write_pages(block, out),
    }
}

// At a viewer, or at a node of the rack.
fn write(host: Host, call: Writing, block: &[u64], out: &mut [u8]) -> Written {
    match host {
        Host::Rack => write_rack(call, block, out),
        Host::Viewer => write_viewer(call, block, out),
    }
}

// The place past a room, whose bytes written are packed if they are pages.
fn room_end(call: Writing, record: &[u8], room: usize) -> usize {
    let bytes = cursor::step(record, room, 5);
    match call {
        Writing::WritePages => packed::end(record, bytes),
        _ => cursor::bytes_end(record, bytes),
    }
}

// Whether lent bytes are as the room tells.
fn room_is(call: Writing, record: &[u8], room: usize, written: usize, out: &[u8]) -> bool {
    match call {
        Writing::WritePages => packed::room_is(record, room, written, out),
        _ => lent::room_is(record, room, written, out),
    }
}

// On memory and room of the record's sizes. The memory is lent for reading only.
fn write_on(
    host: Host,
    call: Writing,
    record: &[u8],
    room: usize,
    block: &[u64],
    out: &mut [u8],
) -> Verdict {
    out.fill(cursor::byte(record, cursor::step(record, room, 4)));
    let written = write(host, call, block, out);
    let same = room_is(call, record, room, answers::written_bytes(written), out);
    judge(record, answers::written_number(written), same)
}

// On memory of the record's size, which stands at a place with the room behind it.
fn write_from(
    host: Host,
    call: Writing,
    record: &[u8],
    at: usize,
    block: &mut [u64],
    out: &mut [u8],
) -> Verdict {
    let room = lent::words(record, at, block);
    if room_end(call, record, room) != record.len() {
        return Verdict::Unreadable;
    }
    let bytes = cursor::short(record, room);
    if bytes <= out.len() {
        return write_on(host, call, record, room, block, &mut out[..bytes]);
    }
    Verdict::PassedOver
}

// Numbers up to a place, memory, room.
fn write_by_numbers(
    host: Host,
    call: Writing,
    record: &[u8],
    at: usize,
    block: &mut [u64],
    out: &mut [u8],
) -> Verdict {
    let words = cursor::short(record, at);
    if words <= block.len() {
        return write_from(host, call, record, at, &mut block[..words], out);
    }
    Verdict::PassedOver
}

// Save file: memory, room.
pub fn save_file_case(host: Host, record: &[u8], block: &mut [u64], out: &mut [u8]) -> Verdict {
    write_by_numbers(host, Writing::SaveFile, record, 4, block, out)
}

// Send: destination, serial, memory, room.
pub fn send_case(host: Host, record: &[u8], block: &mut [u64], out: &mut [u8]) -> Verdict {
    let call = Writing::Send(cursor::number(record, 4, 8), cursor::number(record, 12, 8));
    write_by_numbers(host, call, record, 20, block, out)
}

// Write pages: memory, room.
pub fn write_pages_case(host: Host, record: &[u8], block: &mut [u64], out: &mut [u8]) -> Verdict {
    write_by_numbers(host, Writing::WritePages, record, 4, block, out)
}

// On a mesh and a scratch of the record's sizes; the scratch stands at a place, twice filled from it.
fn check_with(
    record: &[u8],
    at: usize,
    mesh: &[u64],
    scratch: &mut [u64],
    told: &mut [u64],
) -> Verdict {
    lent::words(record, at, told);
    if lent::words(record, at, scratch) != record.len() {
        return Verdict::Unreadable;
    }
    let answer = answers::answer_number(checkmesh::check_mesh(mesh, small(record, 4), scratch));
    judge(record, answer, &scratch[..] == &told[..])
}

// On a mesh of the record's size.
fn check_on(record: &[u8], mesh: &mut [u64], scratch: &mut [u64], told: &mut [u64]) -> Verdict {
    let at = lent::words(record, 8, mesh);
    let entries = cursor::short(record, at);
    if entries <= scratch.len() {
        if entries <= told.len() {
            return check_with(
                record,
                at,
                mesh,
                &mut scratch[..entries],
                &mut told[..entries],
            );
        }
    }
    Verdict::PassedOver
}

// Check mesh: viewers, memory of the mesh, scratch, which stays.
pub fn check_mesh_case(
    record: &[u8],
    mesh: &mut [u64],
    scratch: &mut [u64],
    told: &mut [u64],
) -> Verdict {
    let words = cursor::short(record, 8);
    if words <= mesh.len() {
        return check_on(record, &mut mesh[..words], scratch, told);
    }
    Verdict::PassedOver
}

// The float of a finite pattern.
fn finite_float(w: u64) -> f64
    requires { finite_bits w ≡ true }
{
    f64::from_bits(w)
}

// The float of a pattern; where the pattern is a NaN's, a NaN: `from_bits` takes none.
fn float(w: u64) -> f64 {
    if memory::point::finite_word(w) {
        return finite_float(w);
    }
    let top = f64::from_bits(0x7ff0000000000000);
    if w == 0x7ff0000000000000 {
        return top;
    }
    if w == 0xfff0000000000000 {
        return -top;
    }
    top - top
}

// Three floats.
pub fn point(record: &[u8], at: usize) -> Point {
    Point {
        x: float(cursor::number(record, at, 8)),
        y: float(cursor::number(record, cursor::step(record, at, 8), 8)),
        z: float(cursor::number(record, cursor::step(record, at, 16), 8)),
    }
}

// Whether sixteen surpluses are as words tell.
fn surpluses_are(record: &[u8], at: usize, surplus: [i32; BLOCKS]) -> bool {
    // Those before i are.
    for i in 0..BLOCKS {
        let word = cursor::number(record, cursor::step(record, at, i * 8), 8);
        if word != balance::nextmove::signed_word(surplus[i]) {
            return false;
        }
    }
    true
}

// Whether a next move is as 21 words tell: the move, the mean, the surpluses.
fn balance_is(record: &[u8], at: usize, b: Balance) -> bool {
    let next = b.next;
    let surplus = b.surplus;
    let mean = cursor::number(record, cursor::step(record, at, 32), 8) == u64::from(b.mean);
    move_is(record, at, next) & mean & surpluses_are(record, cursor::step(record, at, 40), surplus)
}

// Whether a next move is as four words tell: level, blocked or a move, donor, recipient, serial.
fn move_is(record: &[u8], at: usize, m: NextMove) -> bool {
    let kind = cursor::number(record, at, 8) == u64::from(answers::move_kind(m));
    let donor = cursor::number(record, cursor::step(record, at, 8), 8)
        == u64::from(answers::move_donor(m));
    let recipient = cursor::number(record, cursor::step(record, at, 16), 8)
        == u64::from(answers::move_recipient(m));
    let serial = cursor::number(record, cursor::step(record, at, 24), 8) == answers::move_serial(m);
    kind & donor & recipient & serial
}

// The next move by the record's oracle.
fn asked_move(record: &[u8], mesh: &[u64], scratch: &mut [u64]) -> Balance {
    let low = point(record, 16);
    let high = point(record, 40);
    balance::nextmove::next_move_by_number(
        mesh,
        small(record, 4),
        small(record, 8),
        small(record, 12),
        low,
        high,
        scratch,
    )
}

// On a mesh and a scratch of the record's sizes; the scratch stands at a place, the answer behind it.
fn move_with(
    record: &[u8],
    at: usize,
    mesh: &[u64],
    scratch: &mut [u64],
    told: &mut [u64],
) -> Verdict {
    lent::words(record, at, told);
    let end = lent::words(record, at, scratch);
    if cursor::step(record, end, 172) != record.len() {
        return Verdict::Unreadable;
    }
    let b = asked_move(record, mesh, scratch);
    let next = b.next;
    let same = (&scratch[..] == &told[..]) & balance_is(record, cursor::step(record, end, 4), b);
    judge(record, answers::move_number(next), same)
}

// On a mesh of the record's size.
fn move_on(record: &[u8], mesh: &mut [u64], scratch: &mut [u64], told: &mut [u64]) -> Verdict {
    let at = lent::words(record, 64, mesh);
    let entries = cursor::short(record, at);
    if entries <= scratch.len() {
        if entries <= told.len() {
            return move_with(
                record,
                at,
                mesh,
                &mut scratch[..entries],
                &mut told[..entries],
            );
        }
    }
    Verdict::PassedOver
}

// Next move: viewers, oracle, axis, six floats, memory of the mesh, scratch, which stays, the size of the lent answer, the answer.
pub fn next_move_case(
    record: &[u8],
    mesh: &mut [u64],
    scratch: &mut [u64],
    told: &mut [u64],
) -> Verdict {
    let words = cursor::short(record, 64);
    if words <= mesh.len() {
        return move_on(record, &mut mesh[..words], scratch, told);
    }
    Verdict::PassedOver
}
