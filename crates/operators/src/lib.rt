// A rule's turn after the others: the three operators, worked in a lent room.
#![tactic(auto)]

ghost use Rattle.std.specs.Prelude.{◌≡◌, ◌+◌, ◌*◌, ◌≤◌, length};
ghost use Rattle.ranges.specs.Insertion.{add_r};
ghost use Rattle.ranges.specs.Closed.{shut_b};
ghost use Rattle.reading.specs.Operators.{lasts, overlaid, normal, additional, fallback, turn};
ghost use Rattle.operators.specs.Rooms.{count, eval_in, turn_of, Ready, Shows, Holds, Overlaying, Turning};

use rules::Operator;

// A match and an evaluation: how many words at the front of a room are its ranges.
#[derive(Clone, Copy)]
pub struct Held {
    pub matched: bool,
    pub evaluation: Option<usize>,
}

// Whether there is an evaluation that is not shut.
fn lasting(e: Option<usize>, room: &[u32]) -> bool
    requires { count e ≤ length room.now }
    ensures { result ≡ lasts shut_b (eval_in e room.now) }
{
    e.is_some_and(|n| !schedule::is_shut(&room[..n]))
}

// The evaluation of `own` in place of what stands in the room.
fn replaced(room: &mut [u32], own: &[u32], e: Option<usize>) -> Option<usize>
    requires { Ready e own.now (length room.old) }
    ensures { Shows (eval_in e own.now) room.new (count e) result }
{
    if let Some(n) = e {
        room[..n].copy_from_slice(&own[..n]);
    }
    e
}

// The evaluation of `own` over the one in the room, or the one that is there.
pub fn lay_over(room: &mut [u32], p: Option<usize>, own: &[u32], e: Option<usize>) -> Option<usize>
    requires { Overlaying p room.old e own.now }
    ensures { Shows (overlaid add_r (eval_in p room.old) (eval_in e own.now)) room.new (count p + 2 * count e) result }
{
    match (p, e) {
        (Some(n), Some(m)) => Some(schedule::add_in(room, n, &own[..m])),
        (Some(_), None) => p,
        (None, _) => replaced(room, own, e),
    }
}

fn as_normal(p: Held, room: &mut [u32], e: Held, own: &[u32]) -> Held
    requires { Turning p room.old e own.now }
    ensures { Holds (normal shut_b add_r (turn_of p room.old) (turn_of e own.now)) room.new 112 result }
{
    let kept = !e.matched && lasting(p.evaluation, room);
    let evaluation = if kept {
        p.evaluation
    } else {
        replaced(room, own, e.evaluation)
    };
    Held {
        matched: p.matched || e.matched,
        evaluation,
    }
}

fn as_additional(p: Held, room: &mut [u32], e: Held, own: &[u32]) -> Held
    requires { Turning p room.old e own.now }
    ensures { Holds (additional shut_b add_r (turn_of p room.old) (turn_of e own.now)) room.new 112 result }
{
    let evaluation = lay_over(room, p.evaluation, own, e.evaluation);
    Held {
        matched: p.matched || e.matched,
        evaluation,
    }
}

fn as_fallback(p: Held, room: &mut [u32], e: Held, own: &[u32]) -> Held
    requires { Turning p room.old e own.now }
    ensures { Holds (fallback shut_b add_r (turn_of p room.old) (turn_of e own.now)) room.new 112 result }
{
    if p.matched && lasting(p.evaluation, room) {
        return p;
    }
    let evaluation = replaced(room, own, e.evaluation);
    Held {
        matched: e.matched,
        evaluation,
    }
}

// The rule's turn; a normal rule of kind closed is an additional one.
pub fn turn(operator: Operator, kind: u8, p: Held, room: &mut [u32], e: Held, own: &[u32]) -> Held
    requires { Turning p room.old e own.now }
    ensures { Holds (turn shut_b add_r operator kind (turn_of p room.old) (turn_of e own.now)) room.new 112 result }
{
    match operator {
        Operator::Normal if kind != 1 => as_normal(p, room, e, own),
        Operator::Normal | Operator::Additional => as_additional(p, room, e, own),
        Operator::Fallback => as_fallback(p, room, e, own),
    }
}
