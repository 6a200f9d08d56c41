ghost use Rattle.std.specs.Prelude.{◌≡◌, ◌≤◌, ◌+◌, cond, is_some};
ghost use Rattle.brace_core.specs.Exchanges.{Follows, one_on};
ghost use Rattle.brace_lanes.specs.declared.tests.Talk.{Talk};
ghost use Rattle.brace_lanes.specs.Seats.{IsSameSeat, puts_of, takes_of};
ghost use Rattle.brace_lanes.specs.Views.{Serves};
ghost use Rattle.brace_lanes.specs.inner.Talk.{HasTalked, talk};

use super::*;
use brace_core::{Exchange, Freight, Name};
use brace_num::NoMemory;
use std::alloc::Global;
use std::test::Fail;
use std::thread;
use std::thread::Threads;

/// A setting in which two actors meet in each of so many steps.
#[derive(Drop)]
struct Talk {
    steps: u64,
}

/// A number, which is right for the name of that step.
#[derive(Drop)]
struct Number(u64);

impl Freight for Number {
    ghost use Rattle.std.specs.Prelude.{◌≡◌};
    ghost use Rattle.brace_lanes.specs.inner.Talk.{talk};

    type Setting = Talk;

    ghost schedule = { λ setting. talk setting.steps };

    ghost right = { λ setting name number. number.0 ≡ name.step };
}

/// Takes the number of a name within the looks that are left. Behind each look that found nothing
/// the other thread may run.
fn hear(
    lanes: &Lanes<Number>,
    seat: &mut LaneSeat<Number>,
    name: Name,
    looks: &mut u64,
) -> Option<Number>
    requires lanes { seat.old.lanes ≡ lanes.now }
    requires served { Serves seat.old.view name.to }
    requires next { Follows (talk seat.old.view.setting.steps) (takes_of seat.old.view) name }
    ensures lanes { seat.new.lanes ≡ lanes.now }
    ensures same { IsSameSeat seat.old.view seat.new.view }
    ensures put { (p q : _) → puts_of seat.new.view p q ≡ puts_of seat.old.view p q }
    ensures taken { (p q : _) → takes_of seat.new.view p q
        ≡ takes_of seat.old.view p q + cond (is_some result) (one_on name p q) 0 }
{
    while *looks > 0 {
        *looks -= 1;
        if let Some(number) = seat.take(lanes, name) {
            return Some(number);
        }
        thread::yield_now();
    }
    None
}

/// Puts a number to the other actor and takes one from it, in each of so many steps, for at most
/// 10,000,000 looks. Tells how many came in order.
fn speak(lanes: &Lanes<Number>, seat: LaneSeat<Number>, own: u32, other: u32, steps: u64) -> u64
    requires lanes { seat.lanes ≡ lanes.now }
    requires apart { own + other ≡ 1 }
    requires new { HasTalked seat.view (record { steps = steps }) own other 0 0 }
{
    let mut seat = seat;
    let mut looks = 10_000_000;
    let mut heard = 0;
    for step in 0..steps {
        let said = Name {
            step,
            from: own,
            to: other,
        };
        seat.put(lanes, said, Number(step));
        let name = Name {
            step,
            from: other,
            to: own,
        };
        let Some(number) = hear(lanes, &mut seat, name, &mut looks) else {
            return heard;
        };
        if number.0 != step {
            return heard;
        }
        heard = step + 1;
    }
    seat.close(lanes);
    heard
}

/// What two actors heard of one another, each on one thread.
fn converse<R: Threads + Sync>(rt: &R, alloc: Global, steps: u64) -> Result<(u64, u64), Fail>
    requires short { steps ≤ 10000 }
{
    let setting = Talk { steps };
    let (lanes, mut seats) = Lanes::<Number>::make(alloc, &setting, 2, 2)?;
    let (Some(second), Some(first)) = (seats.pop(), seats.pop()) else {
        return Err(Fail::from("no two seats"));
    };
    let lanes = &lanes;
    Ok(thread::join(
        rt,
        move || -> u64
            requires { (first.lanes ≡ lanes.now)
                × HasTalked first.view (record { steps = steps }) 0 1 0 0 }
        { speak(lanes, first, 0, 1, steps) },
        move || -> u64
            requires { (second.lanes ≡ lanes.now)
                × HasTalked second.view (record { steps = steps }) 1 0 0 0 }
        { speak(lanes, second, 1, 0, steps) },
    ))
}

#[test]
fn two_seats_on_two_threads_take_10000_names_in_order(rt: HostRuntime) -> Result<(), Fail> {
    let (one, two) = converse(&rt, rt.alloc(), 10_000)?;
    assert_eq!(rt; one, 10_000);
    assert_eq!(rt; two, 10_000);
    Ok(())
}

/// What an end takes behind its own put, where a take before that finds nothing.
fn put_and_take(alloc: Global) -> Result<Option<Number>, NoMemory> {
    let setting = Talk { steps: 1 };
    let (lanes, mut seats) = Lanes::<Number>::make(alloc, &setting, 2, 1)?;
    let Some(seat) = seats.pop() else {
        return Ok(None);
    };
    let mut end = LaneEnd {
        seat,
        lanes: &lanes,
    };
    let name = Name {
        step: 0,
        from: 0,
        to: 1,
    };
    if end.take(name).is_some() {
        return Ok(None);
    }
    end.put(name, Number(0));
    Ok(end.take(name))
}

#[test]
fn an_end_takes_what_it_put(rt: HostRuntime) -> Result<(), Fail> {
    let Some(number) = put_and_take(rt.alloc())? else {
        return Err(Fail::from("nothing was taken"));
    };
    assert_eq!(rt; number.0, 0);
    Ok(())
}
