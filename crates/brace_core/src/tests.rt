ghost use Rattle.std.specs.Prelude.{◌≡◌, ◌<◌, [], ◌∷◌, map};
ghost use Rattle.brace_core.specs.Schedule.{front, turns};
ghost use Rattle.brace_core.specs.inner.Small.{small};

use super::*;
use brace_num::NoMemory;
use std::alloc::Global;
use std::cell::Cell;
use std::test::Fail;

macro_rules! put {
    ($step:literal, $from:literal, $to:literal) => {
        Turn::Put(Name {
            step: $step,
            from: $from,
            to: $to,
        })
    };
}

macro_rules! take {
    ($step:literal, $from:literal, $to:literal) => {
        Turn::Take(Name {
            step: $step,
            from: $from,
            to: $to,
        })
    };
}

/// The turns of the first part.
static FIRST: [Turn; 12] = [
    put!(0, 0, 1),
    take!(0, 1, 0),
    Turn::Work,
    put!(1, 0, 1),
    take!(1, 1, 0),
    Turn::Work,
    put!(2, 0, 1),
    take!(2, 1, 0),
    Turn::Work,
    put!(3, 0, 2),
    take!(3, 2, 0),
    Turn::Work,
];

/// The turns of the second part.
static SECOND: [Turn; 12] = [
    put!(0, 1, 0),
    take!(0, 0, 1),
    Turn::Work,
    put!(1, 1, 0),
    take!(1, 0, 1),
    Turn::Work,
    put!(2, 1, 0),
    take!(2, 0, 1),
    Turn::Work,
    put!(3, 1, 2),
    take!(3, 2, 1),
    Turn::Work,
];

/// The turns of the publisher.
static PUBLISHER: [Turn; 8] = [
    Turn::Work,
    Turn::Work,
    Turn::Work,
    put!(3, 2, 0),
    put!(3, 2, 1),
    take!(3, 0, 2),
    take!(3, 1, 2),
    Turn::Work,
];

/// The turns of an actor of the small schedule.
fn turns_of(number: u32) -> &'static [Turn]
    requires { number < 3 }
    ensures { result.now ≡ turns small number }
{
    match number {
        0 => &FIRST,
        1 => &SECOND,
        _ => &PUBLISHER,
    }
}

/// Those in its first steps, so many.
fn turns_to(number: u32, end: u64) -> &'static [Turn]
    requires { number < 3 }
    ensures { result.now ≡ turns (front small end) number }
{
    let turns = turns_of(number);
    if 3 < end {
        return turns;
    }
    let each = if number == 2 { 1 } else { 3 };
    &turns[..each * end as usize]
}

/// The setting whose schedule is the small one.
struct Small;

/// A piece that tells its name, and is right for that name.
#[derive(Drop)]
struct Parcel(Name);

impl Freight for Parcel {
    ghost use Rattle.std.specs.Prelude.{◌≡◌};
    ghost use Rattle.brace_core.specs.inner.Small.{small};

    type Setting = Small;

    ghost schedule = { λ setting. small };

    ghost right = { λ setting name parcel. parcel.0 ≡ name };
}

/// How many events there were, and which actors made them, as the digits of a number to the base 3.
#[derive(Drop)]
struct Log {
    events: Cell<u64>,
    trace: Cell<u64>,
}

impl Log {
    fn empty() -> Log {
        Log {
            events: Cell::new(0),
            trace: Cell::new(0),
        }
    }

    fn note(&self, number: u32) {
        self.events.set(self.events.get().wrapping_add(1));
        let trace = self.trace.get().wrapping_mul(3);
        self.trace.set(trace.wrapping_add(u64::from(number)));
    }
}

/// An actor that logs its events.
#[derive(Drop)]
struct Walker<'a> {
    number: u32,
    past: usize,
    log: &'a Log,
    ghost low: { number < 3 },
}

impl<'a> Walker<'a> {
    /// An actor before its first turn.
    fn new(number: u32, log: &'a Log) -> Walker<'a>
        requires { number < 3 }
        ensures number { result.number ≡ number }
        ensures past { result.past ≡ 0 }
    {
        Walker {
            number,
            past: 0,
            log,
        }
    }
}

/// Three actors before their first turns, which log in one place.
fn walkers(log: &Log) -> [Walker<'_>; 3]
    ensures numbers { map (λ walker. walker.number) result ≡ 0 ∷ 1 ∷ 2 ∷ [] }
    ensures pasts { map (λ walker. walker.past) result ≡ 0 ∷ 0 ∷ 0 ∷ [] }
{
    [
        Walker::new(0, log),
        Walker::new(1, log),
        Walker::new(2, log),
    ]
}

impl Actor<Parcel> for Walker<'_> {
    ghost use Rattle.brace_core.specs.declared.tests.Small.{Small};

    type Opening = ();

    ghost setting = { λ walker. record {} };

    ghost number = { λ walker. walker.number };

    ghost opening = { λ walker. tt };

    ghost past = { λ walker. walker.past };

    fn next(&self, end: u64) -> Turn {
        match turns_to(self.number, end).get(self.past) {
            Some(turn) => *turn,
            None => Turn::Done,
        }
    }

    fn piece(&mut self) -> Parcel {
        let Turn::Put(name) = self.next(4) else {
            unreachable!()
        };
        self.past += 1;
        self.log.note(self.number);
        Parcel(name)
    }

    fn give(&mut self, _: Parcel) {
        self.past += 1;
        self.log.note(self.number);
    }

    fn work(&mut self) {
        self.past += 1;
        self.log.note(self.number);
    }
}

/// The traces of the orders 0 to 15, worked out by another program.
static TRACES: [u64; 16] = [
    1229733243648976,
    376847568657566,
    1461811251120614,
    1233120035142134,
    250756108367858,
    1580330525189226,
    1078274953182938,
    298098452760302,
    1407259231464794,
    1232820057054084,
    581444951259334,
    1372047358012928,
    1228301222628122,
    499090901313086,
    1356137286453218,
    1217283060901450,
];

/// What three actors log whom an order leads from their first turns to their last ones.
fn logged(alloc: Global, order: u64) -> Result<Log, NoMemory> {
    let log = Log::empty();
    let mut actors = walkers(&log);
    let mut lanes = PlainLanes::<Parcel>::make(alloc, &Small, 3)?;
    run_in_order(&mut actors, &mut lanes, order, 4);
    Ok(log)
}

#[test]
fn every_order_makes_as_many_events_as_there_are_turns(rt: HostRuntime) -> Result<(), Fail> {
    for (order, trace) in TRACES.iter().enumerate() {
        let log = logged(rt.alloc(), order as u64)?;
        assert_eq!(rt; log.events.get(), 32, "order {order}");
        assert_eq!(rt; log.trace.get(), *trace, "order {order}");
    }
    Ok(())
}

#[test]
fn fronts_one_behind_the_other_make_all_turns(rt: HostRuntime) -> Result<(), Fail> {
    let log = Log::empty();
    let mut actors = walkers(&log);
    let mut lanes = PlainLanes::<Parcel>::make(rt.alloc(), &Small, 3)?;
    run_in_order(&mut actors, &mut lanes, 5, 0);
    assert_eq!(rt; log.events.get(), 0);
    run_in_order(&mut actors, &mut lanes, 5, 3);
    assert_eq!(rt; log.events.get(), 21);
    run_in_order(&mut actors, &mut lanes, 5, 4);
    assert_eq!(rt; log.events.get(), 32);
    Ok(())
}

#[test]
fn takes_what_was_put_in_order(rt: HostRuntime) -> Result<(), Fail> {
    let mut lanes = PlainLanes::<Parcel>::make(rt.alloc(), &Small, 3)?;
    let name = Name {
        step: 0,
        from: 0,
        to: 1,
    };
    assert!(rt; lanes.take(name).is_none());
    lanes.put(name, Parcel(name));
    let Some(parcel) = lanes.take(name) else {
        return Err(Fail::from("nothing was taken"));
    };
    assert_eq!(rt; parcel.0, name);
    Ok(())
}
