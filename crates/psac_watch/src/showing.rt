// The side that shows what is published.
ghost use Rattle.std.specs.Prelude.{◌≡◌, ◌≤◌, ◌<◌, true, false, None, Option, Some, IfSome};
ghost use Rattle.psac_publish.specs.History.{Fits, last_commit};
ghost use Rattle.psac_watch.specs.Showed.{IsAbove, IsAt, Showed};

use crate::eye::Eye;
use psac_publish::{Observer, Seen, SeenName};
use std::sync::Wait;
use std::sync::atomic::AtomicBool;
use std::sync::atomic::Ordering::SeqCst;

fn is_above(last: Option<u64>, commit: u64) -> bool
    ensures above { result ≡ true → IsAbove last commit }
    ensures same { result ≡ false → IfSome last (λ m. m ≤ commit) → last ≡ Some commit }
{
    match last {
        Some(shown) => shown < commit,
        None => true,
    }
}

/// Shows a value, if it is a new one. It gives the number of commits of the last value that was shown.
pub fn show<E: Eye, N: SeenName>(eye: &mut E, seen: &Seen, last: Option<u64>) -> Option<u64>
    requires { Fits N.course seen.now }
    ensures shown { Showed N.course last result (E.shown eye.old) (E.shown eye.new) }
    ensures latest { IfSome last (λ m. m ≤ seen.now.commit) → result ≡ Some seen.now.commit }
{
    if !is_above(last, seen.commit) {
        return last;
    }
    eye.saw(seen);
    Some(seen.commit)
}

// Shows the value that is seen, if it is a new one.
fn show_new<E: Eye, N: SeenName>(
    observer: &mut Observer<N>,
    eye: &mut E,
    last: Option<u64>,
) -> Option<u64>
    ensures shown { Showed N.course last result (E.shown eye.old) (E.shown eye.new) }
    ensures latest { IsAt last (last_commit observer.old) → result ≡ Some (last_commit observer.new) }
{
    let seen = observer.look();
    show::<E, N>(eye, &seen, last)
}

/// Shows each value with a new number of commits, until it is told the end, and once more after that.
pub fn show_all<Rt: Wait, E: Eye, N: SeenName>(
    rt: &Rt,
    observer: &mut Observer<N>,
    eye: &mut E,
    ended: &AtomicBool,
) -> Option<u64>
    ensures shown { Showed N.course None result (E.shown eye.old) (E.shown eye.new) }
    // What was shown last is what was seen last.
    ensures latest { IsAt result (last_commit observer.new) }
{
    let mut last = None;
    for _ in rt.forever() {
        let over = ended.load(SeqCst);
        last = show_new(observer, eye, last);
        if over {
            break;
        }
    }
    last
}
