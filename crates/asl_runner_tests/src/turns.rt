//! Tickets: which numbers are drawn, how passes go from seat to seat, and what is refused.
ghost use Rattle.std.specs.Prelude.{◌≡◌, ◌≤◌, [], IfOk};

use asl_turns::{TurnFault, TurnSeat, Turns};
use std::alloc::Global;
use std::test::Fail;

/// Tickets below a limit, at the second call if the first wants memory.
fn open(alloc: Global, limit: u64) -> Result<(Turns, TurnSeat), TurnFault>
    requires { limit ≤ 16777216 }
    ensures { IfOk result (λ made. (made.0.limit ≡ limit) × (made.1 ≡ record { of = made.0; left = 64; spent = 0; tickets = [] })) }
{
    match Turns::new(alloc, limit) {
        Err(TurnFault::OutOfMemory) => Turns::new(alloc, limit),
        answer => answer,
    }
}

#[test]
fn two_seats_draw_each_number_once_whatever_memory_is_refused(rt: HostRuntime) -> Result<(), Fail> {
    let (turns, mut first) = open(rt.alloc(), 2)?;
    let mut second = turns.split(&mut first)?;
    let drawn = [
        turns.draw(&mut first),
        turns.draw(&mut second),
        turns.draw(&mut first),
        turns.draw(&mut second),
        turns.draw(&mut second),
    ];
    assert!(rt; drawn == [Some(0), Some(1), None, None, None]);
    turns.join(&mut first, second);
    let count = turns.finish(first);
    assert!(rt; count == 2);
    Ok(())
}

/// 63 splits of one seat.
fn split_again_and_again(turns: &Turns, seat: &mut TurnSeat) -> Result<(), TurnFault>
    requires { seat.old.of ≡ turns.now }
    ensures { seat.new.of ≡ turns.now }
{
    for _ in 0..63 {
        let _other = turns.split(seat)?;
    }
    Ok(())
}

#[test]
fn sixty_four_seats_have_a_pass_each(rt: HostRuntime) -> Result<(), Fail> {
    let (turns, mut first) = open(rt.alloc(), 2)?;
    split_again_and_again(&turns, &mut first)?;
    assert!(rt; turns.split(&mut first).err() == Some(TurnFault::NoPass));
    Ok(())
}

#[test]
fn no_ticket_is_below_the_limit_0(rt: HostRuntime) -> Result<(), Fail> {
    let (turns, mut first) = open(rt.alloc(), 0)?;
    let drawn = [turns.draw(&mut first), turns.draw(&mut first)];
    assert!(rt; drawn == [None, None]);
    let count = turns.finish(first);
    assert!(rt; count == 0);
    Ok(())
}

#[test]
fn faults_print_as_written(rt: HostRuntime) -> Result<(), Fail> {
    for (fault, text) in [
        (TurnFault::NoPass, "NoPass"),
        (TurnFault::OutOfMemory, "OutOfMemory"),
    ] {
        assert!(rt; format!(in rt.alloc(); "{fault}")?.as_str() == text);
    }
    Ok(())
}
