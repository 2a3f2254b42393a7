//! The harness of calls that may be refused memory, for tests. A call that wants memory is made once more, when nothing is told
//! of its receiver that was not told before; then it must give the answer of ample memory. So what covers this harness
//! passes whichever one allocation fails, and `tools/refused` refuses each in turn.
#![tactic(auto)]

#[cfg(test)]
mod made_up;

ghost use Rattle.std.specs.Prelude.{IfSome, IfNone, Ok, Err};

use std::alloc::Global;

/// What a call answers with ample memory: where it is refused so, it is made once more. None where it is refused otherwise, or
/// so twice.
pub fn answered<A, T, E, C>(alloc: Global, refusal: E, call: C, given: A) -> Option<T>
where
    A: Copy,
    E: PartialEq + Drop,
    C: Fn(Global, A) -> Result<T, E>,
    requires { C.IsAlwaysCallable call }
    ensures given { IfSome result (λ answer. C.post call alloc given (Ok answer)) }
    ensures refused { IfNone result ((fault : _) × C.post call alloc given (Err fault)) }
{
    match call(alloc, given) {
        Ok(answer) => Some(answer),
        Err(fault) => {
            if fault != refusal {
                return None;
            }
            call(alloc, given).ok()
        }
    }
}

/// The same of a call that changes its receiver. Where it is refused so, the same is told of the receiver as before; else None.
pub fn changed<R, S, A, T, E, F, C>(
    alloc: Global,
    refusal: E,
    receiver: &mut R,
    told: F,
    call: C,
    given: A,
) -> Option<T>
where
    A: Copy,
    S: Copy + PartialEq,
    E: PartialEq + Drop,
    F: Fn(&R) -> S,
    C: Fn(Global, &mut R, A) -> Result<T, E>,
    requires tells { F.IsAlwaysCallable told }
    requires calls { C.IsAlwaysCallable call }
{
    let before = told(receiver);
    match call(alloc, receiver, given) {
        Ok(answer) => Some(answer),
        Err(fault) => {
            if fault != refusal || told(receiver) != before {
                return None;
            }
            call(alloc, receiver, given).ok()
        }
    }
}
