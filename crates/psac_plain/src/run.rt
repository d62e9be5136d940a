// The run of a body.
ghost use Rattle.std.specs.Prelude.{◌≡◌, ℕ, List, IfOk};
ghost use Rattle.psac_model.specs.Run.{act, run, first_stop as either_stop};
ghost use Rattle.psac_plain.specs.Slots.{env_of, setting_by, slots};
ghost use Rattle.psac_plain.specs.Running.{places_of, action_view, Ends, GoesOn};

use crate::ask::{Action, asked, line};
use crate::binding::{Binding, bind_seen, bind_to, inner_env};
use crate::halt::Halt;
use crate::opening::Opening;
use crate::places::{make, store};
use crate::size::{ONE_MOD, ONE_P, ONE_S, grow, one_block};
use psac_base::NoMemory;
use psac_model::{End, FaultKind, Size};
use psac_ops::Plain;
use psac_syntax::{Func, Stmt};
use std::alloc::Global;

/// The left side's stop, and else the end of the right side.
fn first_stop(left: End, right: End) -> End
    ensures { result ≡ either_stop left right }
{
    match left {
        End::Stop(kind, line) => End::Stop(kind, line),
        End::Done => right,
    }
}

/// Runs a body, under an environment, that may go so many levels deeper.
#[cycle(run)]
pub fn run_body(
    alloc: Global,
    opening: &Opening,
    funcs: &[Func],
    room: u32,
    body: &[Stmt],
    env: Vec<Binding>,
    heap: &mut Vec<Option<Plain>>,
    size: &mut Size,
) -> Result<End, NoMemory>
    ensures { IfOk result (λ end. (path : List ℕ) →
        Ends (run slots (setting_by opening.now) funcs.now room body.now (env_of env.items) (places_of heap.old.items) path) end (places_of heap.new.items) size.old size.new) }
{
    let [s, rest @ ..] = body else {
        return Ok(End::Done);
    };
    if room == 0 {
        return Ok(End::Stop(FaultKind::TooDeep, line(s)));
    }
    match asked(alloc, opening, funcs, &env, heap, s) {
        Ok(action) => act_on(
            alloc,
            opening,
            funcs,
            room - 1,
            action,
            rest,
            env,
            heap,
            size,
        ),
        Err(halt) => match halt {
            Halt::Fault(kind) => Ok(End::Stop(kind, line(s))),
            Halt::NoMemory => Err(NoMemory),
        },
    }
}

/// Does what a statement asked for, and runs the rest of its body.
#[cycle(run)]
fn act_on(
    alloc: Global,
    opening: &Opening,
    funcs: &[Func],
    room: u32,
    action: Action,
    rest: &[Stmt],
    mut env: Vec<Binding>,
    heap: &mut Vec<Option<Plain>>,
    size: &mut Size,
) -> Result<End, NoMemory>
    ensures { IfOk result (λ end. (path : List ℕ) →
        Ends (act slots (run slots (setting_by opening.now) funcs.now room) (action_view (env_of env.items) action.entry) rest.now (env_of env.items) (places_of heap.old.items) path) end (places_of heap.new.items) size.old size.new) }
{
    match action {
        Action::Bind(name, value) => {
            bind_to(&mut env, name, value)?;
            run_body(alloc, opening, funcs, room, rest, env, heap, size)
        }
        Action::Make(name) => {
            let made = make(heap, None)?;
            grow(size, ONE_MOD);
            bind_to(&mut env, name, Plain::Ref(made))?;
            run_body(alloc, opening, funcs, room, rest, env, heap, size)
        }
        Action::Put(m, v) => {
            store(heap, m, v);
            run_body(alloc, opening, funcs, room, rest, env, heap, size)
        }
        Action::Branch(body) => {
            grow(size, ONE_S);
            let inner = inner_env(alloc, &mut env, rest)?;
            let end = run_body(alloc, opening, funcs, room, body, inner, heap, size)?;
            go_on(alloc, opening, funcs, room, end, rest, env, heap, size)
        }
        Action::Called(body, inner) => {
            grow(size, ONE_S);
            let end = run_body(alloc, opening, funcs, room, body, inner, heap, size)?;
            go_on(alloc, opening, funcs, room, end, rest, env, heap, size)
        }
        Action::Block(_, seen, items, body) => {
            grow(size, ONE_S);
            grow(size, one_block(seen.len()));
            let mut inner = inner_env(alloc, &mut env, rest)?;
            bind_seen(&mut inner, items, &seen)?;
            let end = run_body(alloc, opening, funcs, room, body, inner, heap, size)?;
            go_on(alloc, opening, funcs, room, end, rest, env, heap, size)
        }
        Action::Sides(left, right) => {
            grow(size, ONE_S);
            grow(size, ONE_P);
            let copy = Vec::from_slice(alloc, &env)?;
            let again = inner_env(alloc, &mut env, rest)?;
            let first = run_body(alloc, opening, funcs, room, left, copy, heap, size)?;
            let second = run_body(alloc, opening, funcs, room, right, again, heap, size)?;
            let end = first_stop(first, second);
            go_on(alloc, opening, funcs, room, end, rest, env, heap, size)
        }
    }
}

/// Runs the rest of a body where what stands before it is done.
#[cycle(run)]
fn go_on(
    alloc: Global,
    opening: &Opening,
    funcs: &[Func],
    room: u32,
    end: End,
    rest: &[Stmt],
    env: Vec<Binding>,
    heap: &mut Vec<Option<Plain>>,
    size: &mut Size,
) -> Result<End, NoMemory>
    ensures { IfOk result (λ told. (path : List ℕ) →
        GoesOn end (run slots (setting_by opening.now) funcs.now room rest.now (env_of env.items) (places_of heap.old.items) path) told (places_of heap.old.items) (places_of heap.new.items) size.old size.new) }
{
    match end {
        End::Done => run_body(alloc, opening, funcs, room, rest, env, heap, size),
        End::Stop(kind, line) => Ok(End::Stop(kind, line)),
    }
}
