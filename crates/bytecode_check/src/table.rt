//! What an operation does to the height of the stack, and how far a jump leads.

ghost use Rattle.std.specs.Prelude.{◌≡◌, ◌≤◌, ◌+◌, ◌*◌, ◌^◌};
ghost use Rattle.hog_ops.specs.View.{op_of};
ghost use Rattle.bytecode_check.specs.Effects.{takes as taking, effect, depth_after as depth_behind, place_at as place_by};

use hog_ops::Op;

/// How many values an operation looks at, how many of these it takes off, and how many it leaves.
#[derive(Clone, Copy, Debug, PartialEq, Eq)]
pub struct Effect {
    pub looks: usize,
    pub pops: usize,
    pub leaves: usize,
}

fn takes(pops: usize, leaves: usize) -> Effect
    ensures { result ≡ taking pops leaves }
{
    Effect {
        looks: pops,
        pops,
        leaves,
    }
}

/// An operation's row of the table. Takes no memory.
pub(crate) fn effect_of(op: &Op) -> Effect
    ensures value { result ≡ effect (op_of op.now) }
    ensures few { result.leaves ≤ 1 }
{
    match op {
        Op::Jump(_) | Op::Try(_) | Op::PopTry => takes(0, 0),
        Op::PushTrue
        | Op::PushFalse
        | Op::PushNull
        | Op::Str(_)
        | Op::Integer(_)
        | Op::GetLocal(_)
        | Op::GetUpvalue(_)
        | Op::Callable(_) => takes(0, 1),
        Op::Pop
        | Op::SetLocal(_)
        | Op::SetUpvalue(_)
        | Op::CloseUpvalue
        | Op::JumpIfFalse(_)
        | Op::Return
        | Op::Throw => takes(1, 0),
        Op::JumpIfStackNotNull(_) => Effect {
            looks: 1,
            pops: 0,
            leaves: 0,
        },
        Op::Not => takes(1, 1),
        Op::Plus
        | Op::Minus
        | Op::Multiply
        | Op::Eq
        | Op::NotEq
        | Op::Gt
        | Op::GtEq
        | Op::Lt
        | Op::LtEq
        | Op::IsIn
        | Op::NotIn
        | Op::GetProperty
        | Op::GetPropertyNullish => takes(2, 1),
        Op::SetProperty => takes(3, 0),
        Op::GetGlobal(n) | Op::CallGlobal(_, n) | Op::And(n) | Op::Or(n) | Op::Array(n) => {
            takes(*n as usize, 1)
        }
        Op::Dict(n) => takes(2 * *n as usize, 1),
        Op::CallLocal(n) => takes(*n as usize + 1, 1),
    }
}

/// The depth behind an operation. Takes no memory.
pub(crate) fn depth_after(op: &Op, depth: usize) -> usize
    requires { depth ≤ 2 ^ 62 }
    ensures value { result ≡ depth_behind (op_of op.now) depth }
    ensures few { result ≤ depth + 1 }
{
    let effect = effect_of(op);
    depth.saturating_sub(effect.pops) + effect.leaves
}

/// The place so far from the one behind an operation. Takes no memory.
pub(crate) fn place_at(behind: usize, distance: i64) -> usize
    requires { behind ≤ 2 ^ 62 }
    ensures { result ≡ place_by behind distance }
{
    if distance < 0 {
        behind.saturating_sub(distance.unsigned_abs() as usize)
    } else {
        behind + distance as usize
    }
}
