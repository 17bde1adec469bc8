// What a slice is: one message of a kind, to the last byte, or none. Question 16.
ghost use Rattle.inbox.specs.Inbox.{Sides};
ghost use Rattle.inbox.specs.Arrived.{MessageRead};

use crate::message;
use crate::message::{Front, Tail, Update};

#[derive(Clone, Copy)]
pub enum Received {
    Transfer(Front, Tail),
    Update(Update),
    Nothing,
}

// The message that a slice is; the darts of a transfer go into the arrays.
pub fn message_in(
    s: &[u8],
    vertex: &mut [u64],
    serial: &mut [u64],
    starts: &mut [usize],
    sizes: &mut [usize],
) -> Received
    requires { Sides vertex.old serial.old starts.old sizes.old }
    ensures { MessageRead s.now vertex.new serial.new starts.new sizes.new result }
{
    let Some(head) = message::framed_head(s) else {
        return Received::Nothing;
    };
    if head.kind == 1 {
        let Some(front) = message::read_front(s, head, vertex, serial, starts, sizes) else {
            return Received::Nothing;
        };
        let Some(tail) = message::read_tail(s, front.next, front.darts, sizes) else {
            return Received::Nothing;
        };
        return Received::Transfer(front, tail);
    }
    if head.kind == 2 {
        let Some(update) = message::read_update(s, head) else {
            return Received::Nothing;
        };
        return Received::Update(update);
    }
    Received::Nothing
}
