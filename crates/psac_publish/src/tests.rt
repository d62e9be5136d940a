ghost use Rattle.std.specs.Prelude.{◌≡◌, ◌<◌, None};
ghost use Rattle.psac_publish.specs.History.{last_commit};

use crate::{Observer, Opened, Outputs, Published, Seen, SeenName};
use psac_model::Shown;
use std::alloc::Global;
use std::marker::Brand;
use std::process::Abort;
use std::sync::Wait;
use std::test::Fail;
use std::thread::{Threads, join};

fn seen(commit: u64, value: Shown) -> Seen
    ensures { result.commit ≡ commit }
{
    Seen {
        commit,
        outputs: Outputs::of([value].as_slice()),
    }
}

fn unkept(commit: u64) -> Seen
    ensures { result.commit ≡ commit }
{
    Seen {
        commit,
        outputs: None,
    }
}

fn shows(seen: &Seen, commit: u64, value: Option<Shown>) -> bool {
    let first = match &seen.outputs {
        Some(outputs) => outputs.as_slice().first().copied(),
        None => None,
    };
    seen.commit == commit && first == value
}

fn is_first(observer: &mut Observer<impl SeenName>) -> bool {
    shows(&observer.look(), 0, None)
}

// One observer sees what is published, and the other one is told of it.
fn two_values<N: SeenName, R: Wait + Abort>(
    rt: &R,
    alloc: Global,
    opened: Opened,
) -> Result<(), Fail>
    requires book { opened.token.book ≡ N.book }
    requires untold { N.course ≡ None }
{
    let (published, mut observers) = Published::<N>::new(alloc, opened, 2)?;
    let (Some(mut told), Some(mut first)) = (observers.pop(), observers.pop()) else {
        published.close(rt);
        return Err(Fail::from("two observers"));
    };
    let begun = is_first(&mut first);
    let (published, one) = published.publish(rt, seen(1, Shown::Int(10)));
    let looked = first.look();
    let (published, two) = published.publish(rt, unkept(2));
    let last = published.last();
    told.learn(published.tell());
    let learnt = told.look();
    published.close(rt);
    let after = first.look();
    assert!(rt; begun && one.is_ok() && two.is_ok());
    assert!(rt; shows(&looked, 1, Some(Shown::Int(10))));
    assert!(rt; shows(&learnt, 2, None) && last == 2);
    assert!(rt; after.commit == 1 || after.commit == 2);
    Ok(())
}

#[test]
fn values_are_seen(rt: HostRuntime) -> Result<(), Fail> {
    two_values::<Brand, _>(&rt, rt.alloc(), Opened::new())
}

const TURNS: u32 = 100_000_000;

// Whether the observer comes to see commit 1.
fn comes_to_see<N: SeenName>(mut observer: Observer<N>) -> bool {
    for _ in 0..TURNS {
        if shows(&observer.look(), 1, Some(Shown::Bool(true))) {
            return true;
        }
    }
    false
}

fn two_threads<N: SeenName + Send + Sync, R: Threads + Wait + Abort + Sync>(
    rt: &R,
    alloc: Global,
    opened: Opened,
) -> Result<(), Fail>
    requires book { opened.token.book ≡ N.book }
    requires untold { N.course ≡ None }
{
    let (mut published, mut observers) = Published::<N>::new(alloc, opened, 1)?;
    let Some(observer) = observers.pop() else {
        published.close(rt);
        return Err(Fail::from("an observer"));
    };
    let theirs = &mut published;
    let (put, met) = join(
        rt,
        || -> bool
            requires { (last_commit theirs.now < 1) × (N.course ≡ None) }
        { theirs.publish_here(rt, seen(1, Shown::Bool(true))).is_ok() },
        || comes_to_see(observer),
    );
    published.close(rt);
    assert!(rt; put && met);
    Ok(())
}

#[test]
fn a_value_crosses_threads(rt: HostRuntime) -> Result<(), Fail> {
    two_threads::<Brand, _>(&rt, rt.alloc(), Opened::new())
}
