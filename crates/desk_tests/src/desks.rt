ghost use Rattle.std.specs.Prelude.{◌≡◌, ℕ, ◌+◌, ◌%◌, ◌^◌, cond, true, false};

use one_history::{Entry, Object, Told};
use plan_base::NoMemory;
use std::alloc::{AllocError, Global};
use std::sync::Wait;
use std::test::*;
use std::thread::{Threads, join};
use turn_desk::{Desk, DeskRefusal, Pass, Unclosed};

/// Adds amounts up. A reply is the sum before.
#[derive(Debug, Drop)]
struct Sum {
    total: u64,
}

impl Object for Sum {
    type Command = u64;

    type Reply = u64;

    ghost start = { record { total = 0 } };

    ghost good = { λ _. Unit {0} };

    ghost next = { λ sum caller moment amount. record { total = (sum.total + amount) % 2 ^ 64 } };

    ghost reply = { λ sum caller moment amount. sum.total };

    fn fresh(_alloc: Global) -> Result<Self, NoMemory> {
        Ok(Sum { total: 0 })
    }

    fn step(
        &mut self,
        _alloc: Global,
        _caller: u32,
        _moment: u64,
        amount: &u64,
    ) -> Result<u64, NoMemory> {
        let before = self.total;
        self.total = before.wrapping_add(*amount);
        Ok(before)
    }
}

/// Two things that are created once: `false` is x, and `true` is y. A reply says whether the thing exists already.
#[derive(Debug, Drop)]
struct Things {
    x: bool,
    y: bool,
}

const X: bool = false;

impl Object for Things {
    type Command = bool;

    type Reply = bool;

    ghost start = { record { x = false; y = false } };

    ghost good = { λ _. Unit {0} };

    ghost next = { λ things caller moment name. cond name (record things { y = true }) (record things { x = true }) };

    ghost reply = { λ things caller moment name. cond name things.y things.x };

    fn fresh(_alloc: Global) -> Result<Self, NoMemory> {
        Ok(Things { x: false, y: false })
    }

    fn step(
        &mut self,
        _alloc: Global,
        _caller: u32,
        _moment: u64,
        name: &bool,
    ) -> Result<bool, NoMemory> {
        if *name {
            let exists = self.y;
            self.y = true;
            Ok(exists)
        } else {
            let exists = self.x;
            self.x = true;
            Ok(exists)
        }
    }
}

/// Has no data, so that a full history of it is small.
#[derive(Debug, Drop)]
struct Nothing;

impl Object for Nothing {
    type Command = ();

    type Reply = ();

    ghost start = { record {} };

    ghost good = { λ _. Unit {0} };

    ghost next = { λ nothing caller moment command. nothing };

    ghost reply = { λ nothing caller moment command. command };

    fn fresh(_alloc: Global) -> Result<Self, NoMemory> {
        Ok(Nothing)
    }

    fn step(
        &mut self,
        _alloc: Global,
        _caller: u32,
        _moment: u64,
        command: &(),
    ) -> Result<(), NoMemory> {
        Ok(*command)
    }
}

fn entry<M>(caller: u32, moment: u64, command: M) -> Entry<M> {
    Entry {
        caller,
        moment,
        command,
    }
}

#[test]
fn a_joined_pass_leaves_its_entries(rt: HostRuntime) -> Result<(), Fail> {
    let (desk, mut first) = Desk::<Sum>::open(rt.alloc())?;
    let told = desk.event(&rt, &mut first, 7, 5);
    assert_eq!(rt; told, Ok(Told { at: 0, reply: 0 }));
    let Ok(mut second) = desk.pass(&rt, &mut first) else {
        panic!(rt; "a pass is refused")
    };
    assert_eq!(rt; second.number(), 1);
    let told = desk.event(&rt, &mut second, 8, 6);
    assert_eq!(rt; told, Ok(Told { at: 1, reply: 5 }));
    assert_eq!(rt; first.seen(), 1);
    desk.join(&mut first, second);
    assert_eq!(rt; first.seen(), 2);
    assert_eq!(rt; first.left(), 4_294_967_293);
    let Ok(journal) = desk.close(&rt, vec![in rt.alloc(); first]?) else {
        panic!(rt; "the desk stays open")
    };
    assert_eq!(rt;
        journal.entries(),
        [entry(0, 7, 5), entry(1, 8, 6)].as_slice()
    );
    assert_eq!(rt; journal.object().total, 11);
    Ok(())
}

#[test]
fn a_pass_that_is_not_given_is_missed(rt: HostRuntime) -> Result<(), Fail> {
    let (desk, mut first) = Desk::<Things>::open(rt.alloc())?;
    let told = desk.event(&rt, &mut first, 1, X);
    assert_eq!(rt;
        told,
        Ok(Told {
            at: 0,
            reply: false
        })
    );
    let Ok(mut second) = desk.pass(&rt, &mut first) else {
        panic!(rt; "a pass is refused")
    };
    let told = desk.event(&rt, &mut second, 2, X);
    assert_eq!(rt; told, Ok(Told { at: 1, reply: true }));
    let Ok(note) = desk.note(&rt, &mut second) else {
        panic!(rt; "a note is refused")
    };
    desk.meet(&mut first, note);
    assert_eq!(rt; first.seen(), 2);
    assert!(rt; first.left() > 0 && second.left() > 0);
    let Err(unclosed) = desk.close(&rt, vec![in rt.alloc(); first]?) else {
        panic!(rt; "the desk is closed")
    };
    let Unclosed {
        made,
        given,
        desk,
        mut passes,
    } = unclosed;
    assert_eq!(rt; (made, given), (3, 2));
    passes.insert(0, second)?;
    let Ok(journal) = desk.close(&rt, passes) else {
        panic!(rt; "the desk stays open")
    };
    assert_eq!(rt;
        journal.entries(),
        [entry(0, 1, X), entry(1, 2, X)].as_slice()
    );
    Ok(())
}

fn commit_many<R: Wait>(rt: &R, desk: &Desk<Sum>, mut pass: Pass<Sum>, number: u64) -> Pass<Sum>
    requires { pass.0 ≡ desk.now }
    ensures { result.0 ≡ desk.now }
{
    for moment in 0..number {
        let _told = desk.event(rt, &mut pass, moment, 1);
    }
    pass
}

// Commits a number of amounts by each of 2 ^ level passes, each in a thread of its own. Pairs exchange notes on the way.
fn commit_by_many<R: Threads + Wait + Sync>(
    rt: &R,
    desk: &Desk<Sum>,
    mut pass: Pass<Sum>,
    level: u32,
    number: u64,
) -> Pass<Sum>
    requires { pass.0 ≡ desk.now }
    ensures { result.0 ≡ desk.now }
{
    if level == 0 {
        return commit_many(rt, desk, pass, number);
    }
    let below = level - 1;
    let Ok(other) = desk.pass(rt, &mut pass) else {
        return pass;
    };
    let (mut left, mut right) = join(
        rt,
        || -> Pass<Sum>
            requires { pass.0 ≡ desk.now }
            ensures { result.0 ≡ desk.entry.now }
        { commit_by_many(rt, desk, pass, below, number) },
        || -> Pass<Sum>
            requires { other.0 ≡ desk.now }
            ensures { result.0 ≡ desk.entry.now }
        { commit_by_many(rt, desk, other, below, number) },
    );
    exchange_notes(rt, desk, &mut left, &mut right);
    desk.join(&mut left, right);
    left
}

fn exchange_notes<R: Wait>(rt: &R, desk: &Desk<Sum>, left: &mut Pass<Sum>, right: &mut Pass<Sum>)
    requires { (left.old.0 ≡ desk.now) × (right.old.0 ≡ desk.now) }
    ensures { (left.new.0 ≡ desk.now) × (right.new.0 ≡ desk.now) }
{
    let from_left = desk.note(rt, left);
    let from_right = desk.note(rt, right);
    if let Ok(note) = from_right {
        desk.meet(left, note);
    }
    if let Ok(note) = from_left {
        desk.meet(right, note);
    }
}

#[test]
fn threads_commit_to_one_history(rt: HostRuntime) -> Result<(), Fail> {
    for (level, number, total) in [(1, 1_000, 2_000), (3, 500, 4_000)] {
        let (desk, first) = Desk::<Sum>::open(rt.alloc())?;
        let all = commit_by_many(&rt, &desk, first, level, number);
        assert!(rt; all.left() > 0);
        let Ok(journal) = desk.close(&rt, vec![in rt.alloc(); all]?) else {
            panic!(rt; "the desk stays open")
        };
        assert_eq!(rt; journal.entries().len(), total);
        assert_eq!(rt; journal.object().total, total as u64);
    }
    Ok(())
}

#[test]
fn no_more_passes_than_there_are_numbers(rt: HostRuntime) -> Result<(), Fail> {
    let (desk, mut first) = Desk::<Nothing>::open(rt.alloc())?;
    for _ in 1..65_536 {
        assert!(rt; desk.pass(&rt, &mut first).is_ok());
    }
    let refused = desk.pass(&rt, &mut first);
    assert!(rt; matches!(refused, Err(DeskRefusal::PassesOut)));
    let refused = desk.note(&rt, &mut first);
    assert!(rt; matches!(refused, Err(DeskRefusal::PassesOut)));
    assert_eq!(rt;
        desk.event(&rt, &mut first, 0, ()),
        Ok(Told { at: 0, reply: () })
    );
    Ok(())
}

#[test]
fn a_full_history_takes_no_more(rt: HostRuntime) -> Result<(), Fail> {
    let (desk, mut first) = Desk::<Nothing>::open(rt.alloc())?;
    for at in 0..4_194_304 {
        assert_eq!(rt;
            desk.event(&rt, &mut first, 0, ()),
            Ok(Told { at, reply: () })
        );
    }
    let refused = desk.event(&rt, &mut first, 0, ());
    assert_eq!(rt; refused, Err(DeskRefusal::Full { length: 4_194_304 }));
    assert_eq!(rt; first.seen(), 4_194_304);
    Ok(())
}
