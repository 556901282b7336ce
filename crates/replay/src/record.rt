// A record: a call on the lists of a line, and whether it answers and leaves what the line says.

use crate::calls;
use crate::calls::Numbers;
use exports::words;
use replaying::line::{List, Marks};
use replaying::lists;
use replaying::lists::{BYTES, ROW, TABLE, Told, VALUES};

#[derive(Clone, Copy)]
pub enum Verdict {
    Same,
    Differs,
    // The line is no record.
    Unread,
}

pub fn replayed(all: &[u64], marks: &Marks) -> Verdict {
    if !lists::may_be_loaded(all, marks) {
        return Verdict::Unread;
    }
    match lists::list(all, marks, List::Call) {
        [call] if *call < calls::CALLS => {
            if is_replayed(*call, all, marks) {
                Verdict::Same
            } else {
                Verdict::Differs
            }
        }
        _ => Verdict::Unread,
    }
}
// The call on memory that holds the lists.
fn is_replayed(call: u64, all: &[u64], marks: &Marks) -> bool {
    let mut t = [0i64; VALUES];
    let mut p = [0u8; BYTES];
    let mut q = [0u8; BYTES];
    let mut v = [0u32; VALUES];
    let mut r = [0u64; ROW];
    let mut u = [0u64; TABLE];
    let in_t = lists::load(lists::list(all, marks, List::T), &mut t, words::time_in);
    let in_p = lists::load(lists::list(all, marks, List::P), &mut p, lists::low_byte);
    let in_q = lists::load(lists::list(all, marks, List::Q), &mut q, lists::low_byte);
    let in_v = lists::load(lists::list(all, marks, List::V), &mut v, words::low);
    let in_r = lists::load(lists::list(all, marks, List::R), &mut r, |word| word);
    let in_u = lists::load(lists::list(all, marks, List::U), &mut u, |word| word);
    agrees(
        call,
        &t[..in_t],
        &mut p[..in_p],
        &mut q[..in_q],
        &mut v[..in_v],
        &mut r[..in_r],
        &mut u[..in_u],
        all,
        marks,
    )
}

fn agrees(
    call: u64,
    t: &[i64],
    p: &mut [u8],
    q: &mut [u8],
    v: &mut [u32],
    r: &mut [u64],
    u: &mut [u64],
    all: &[u64],
    marks: &Marks,
) -> bool {
    let s = lists::list(all, marks, List::S);
    let told = calls::answer(call, numbers(all, marks), t, s, p, q, v, r, u).unwrap_or(Told::given(
        calls::NO_NUMBER,
    ));
    is_left(told, p, q, v, r, u, all, marks)
}

// Whether the call answered what the line says, and left all memory as it says.
fn is_left(
    told: Told,
    p: &[u8],
    q: &[u8],
    v: &[u32],
    r: &[u64],
    u: &[u64],
    all: &[u64],
    marks: &Marks,
) -> bool {
    lists::is_answer(told, all, marks)
        && lists::is_left(p, all, marks, List::P)
        && lists::is_left(q, all, marks, List::Q)
        && lists::is_left(v, all, marks, List::V)
        && lists::is_left(r, all, marks, List::R)
        && lists::is_left(u, all, marks, List::U)
}

fn numbers(all: &[u64], marks: &Marks) -> Numbers {
    Numbers {
        a: words::low(lists::word(all, marks, List::X, 0)),
        b: words::low(lists::word(all, marks, List::X, 1)),
        c: words::low(lists::word(all, marks, List::X, 2)),
        d: words::low(lists::word(all, marks, List::X, 3)),
        e: words::low(lists::word(all, marks, List::X, 4)),
        k: lists::word(all, marks, List::W, 0),
        m: lists::word(all, marks, List::W, 1),
        n: lists::word(all, marks, List::W, 2),
    }
}
