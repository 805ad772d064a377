//! A code for each answer.

use crate::{VerifyStop, verify};
use hog_ops::{Code, Op};
use std::alloc::Global;
use std::test::Fail;

fn answer(alloc: Global, code: &Code) -> Option<VerifyStop> {
    match verify(alloc, code) {
        Ok(_) => None,
        Err(stop) => Some(stop),
    }
}

#[test]
fn answers(rt: HostRuntime) -> Result<(), Fail> {
    let alloc = rt.alloc();
    let sum = Code::new(vec![in alloc; Op::Integer(2), Op::Integer(1), Op::Plus, Op::Return]?);
    let few = Code::new(vec![in alloc; Op::Plus, Op::Return]?);
    let local = Code::new(vec![in alloc; Op::GetLocal(0), Op::Return]?);
    let upvalue = Code::new(vec![in alloc; Op::GetUpvalue(0), Op::Return]?);
    let open = Code::new(vec![in alloc; Op::PopTry, Op::PushNull, Op::Return]?);
    let end = Code::new(vec![in alloc; Op::PushNull]?);
    let grows = Code::new(vec![in alloc; Op::PushTrue, Op::Jump(-3), Op::Return]?);
    let round = Code::new(vec![in alloc; Op::Jump(-2)]?);
    assert_eq!(rt; answer(alloc, &sum), None);
    assert_eq!(rt; answer(alloc, &few), Some(VerifyStop::Underflow { at: 2 }));
    assert_eq!(rt; answer(alloc, &local), Some(VerifyStop::NoLocal { at: 2 }));
    assert_eq!(rt;
        answer(alloc, &upvalue),
        Some(VerifyStop::NoUpvalue { at: 2 })
    );
    assert_eq!(rt; answer(alloc, &open), Some(VerifyStop::NoTry { at: 2 }));
    assert_eq!(rt; answer(alloc, &end), Some(VerifyStop::FallsOff { at: 2 }));
    assert_eq!(rt;
        answer(alloc, &grows),
        Some(VerifyStop::ShapesDiffer { at: 3 })
    );
    assert_eq!(rt; answer(alloc, &round), None);
    Ok(())
}
