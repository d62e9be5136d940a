//! The tracing run.
ghost use Rattle.std.specs.Prelude.{◌≡◌, ◌+◌, ◌-◌, ◌<◌, Result, Option, Some, None, Ok, Err};
ghost use Rattle.std.specs.Thread.{IsSync};
ghost use Rattle.psac_plain.specs.Slots.{env_of};
ghost use Rattle.psac_plain.specs.Running.{action_view, reads_view};
ghost use Rattle.psac_traced.specs.Traced.{traced};
ghost use Rattle.psac_cut.specs.CutShort.{cut_short};
ghost use Rattle.psac_model.specs.Fresh.{levels};
ghost use Rattle.psac_ops.specs.Named.{value_of as plain_value};
ghost use Rattle.psac_model.specs.Run.{Make, Put, Body, Block, Sides, with_reads};
ghost use Rattle.psac_record.specs.Kept.{Kept, E};
ghost use Rattle.psac_trace.specs.Asking.{setting_on};
ghost use Rattle.psac_trace.specs.Told.{ended_of};
ghost use Rattle.psac_trace.specs.Running.{Begins, Leaves};
ghost use Rattle.psac_trace.specs.Worlds.{BeginsIn, LeavesIn, BeginsActIn, LeavesActIn, LeavesBothIn, BeginsAfterIn, LeavesAfterIn};

use crate::ask::asked;
use crate::divide::fork_for;
use crate::ground::Ground;
use crate::halt::Halt;
use crate::nodes::{opened, stepped};
use crate::put::{
    after_made, after_step, after_wrote, bound_in, entered, in_block, paired, ran_out, still_old,
    stopped,
};
use crate::warn::warned;
use crate::world::World;
use psac_fork::{Crew, Gate, Pass, Tables, both};
use psac_model::{CapKind, FaultKind};
use psac_ops::{Handle, Plain, TextId, to_words};
use psac_plain::ask::{Action, Seen, line};
use psac_plain::binding::Binding;
use psac_record::Record;
use psac_syntax::{Func, ReadItem, Stmt};
use std::alloc::Global;
use std::thread::Threads;

/// Runs statements from a level on, on a pass, and records what they do: what it makes stands below the parent. The old
/// destinations are those that this run didn't make; where one gets other words, all who read it are marked.
#[cycle(run)]
pub fn run_block<Rt: Threads + Sync, G: Gate + Sync>(
    rt: &Rt,
    alloc: Global,
    crew: &Crew,
    gate: &G,
    tables: &Tables,
    ground: &Ground,
    texts: &[TextId],
    funcs: &[Func],
    olds: &[Handle],
    level: u32,
    body: &[Stmt],
    env: &[Binding],
    parent: Option<Handle>,
    pass: Pass,
) -> (Result<Record, Halt>, Pass)
    requires { Begins (setting_on ground.now texts.now) funcs.now olds.now tables.now body.now (env_of env.now) parent pass }
    ensures { (k : Kept) × Leaves (setting_on ground.now texts.now) (traced (setting_on ground.now texts.now) funcs.now (levels - level)) (cut_short (setting_on ground.now texts.now) funcs.now (levels - level)) olds.now tables.now body.now (env_of env.now) parent pass result.1 (ended_of k result.0) }
{
    let world = World {
        crew,
        tables,
        ground,
        texts,
        funcs,
        olds,
    };
    run_body(rt, alloc, &world, gate, level, body, env, parent, pass)
}

/// Runs statements from a level on, over a world.
#[cycle(run)]
fn run_body<Rt: Threads + Sync, G: Gate + Sync>(
    rt: &Rt,
    alloc: Global,
    world: &World,
    gate: &G,
    level: u32,
    body: &[Stmt],
    env: &[Binding],
    parent: Option<Handle>,
    mut pass: Pass,
) -> (Result<Record, Halt>, Pass)
    requires { BeginsIn world.now body.now (env_of env.now) parent pass }
    ensures { (k : Kept) × LeavesIn world.now level body.now (env_of env.now) parent pass result.1 (ended_of k result.0) }
{
    let [s, rest @ ..] = body else {
        return (Ok(Record::empty()), pass);
    };
    if level >= 300 {
        return (Err(Halt::Fault(FaultKind::TooDeep, line(s))), pass);
    }
    match asked(
        alloc,
        world.ground,
        world.texts,
        world.funcs,
        env,
        &world.tables.values,
        &mut pass.values,
        s,
    ) {
        Ok(action) => act_on(
            rt,
            alloc,
            world,
            gate,
            level + 1,
            action,
            rest,
            env,
            parent,
            pass,
        ),
        Err(halt) => (Err(stopped(halt, line(s))), pass),
    }
}

/// Does what a statement asked for, and runs the rest of its body; the level is that of a body behind it or in it.
#[cycle(run)]
fn act_on<Rt: Threads + Sync, G: Gate + Sync>(
    rt: &Rt,
    alloc: Global,
    world: &World,
    gate: &G,
    level: u32,
    action: Action,
    rest: &[Stmt],
    env: &[Binding],
    parent: Option<Handle>,
    pass: Pass,
) -> (Result<Record, Halt>, Pass)
    requires { BeginsActIn world.now (action_view (env_of env.now) action) rest.now (env_of env.now) parent pass }
    ensures { (k : Kept) × LeavesActIn world.now level (action_view (env_of env.now) action.entry) rest.now (env_of env.now) parent pass result.1 (ended_of k result.0) }
{
    match action {
        Action::Bind(name, value) => match bound_in(alloc, env, name, value) {
            Ok(more) => run_body(rt, alloc, world, gate, level, rest, &more, parent, pass),
            Err(_) => (Err(Halt::NoMemory), pass),
        },
        Action::Make(name) => run_new(rt, alloc, world, gate, level, name, rest, env, parent, pass),
        Action::Put(m, v) => run_put(rt, alloc, world, gate, level, m, v, rest, env, parent, pass),
        Action::Branch(body) => run_inner(
            rt, alloc, world, gate, level, body, env, rest, env, parent, pass,
        ),
        Action::Called(body, inner) => run_inner(
            rt, alloc, world, gate, level, body, &inner, rest, env, parent, pass,
        ),
        Action::Block(number, seen, items, body) => run_read(
            rt, alloc, world, gate, level, number, &seen, items, body, rest, env, parent, pass,
        ),
        Action::Sides(left, right) => run_par(
            rt, alloc, world, gate, level, left, right, rest, env, parent, pass,
        ),
    }
}

/// Makes a modifiable, and runs the rest.
#[cycle(run)]
fn run_new<Rt: Threads + Sync, G: Gate + Sync>(
    rt: &Rt,
    alloc: Global,
    world: &World,
    gate: &G,
    level: u32,
    name: u16,
    rest: &[Stmt],
    env: &[Binding],
    parent: Option<Handle>,
    mut pass: Pass,
) -> (Result<Record, Halt>, Pass)
    requires { BeginsActIn world.now (Make name) rest.now (env_of env.now) parent pass }
    ensures { (k : Kept) × LeavesActIn world.now level (Make name) rest.now (env_of env.now) parent pass result.1 (ended_of k result.0) }
{
    let m = match world.tables.values.claim(&mut pass.values) {
        Ok(m) => m,
        Err(full) => return (Err(Halt::Full(CapKind::Mods, full)), pass),
    };
    match bound_in(alloc, env, name, Plain::Ref(m)) {
        Ok(more) => {
            let (r, pass) = run_body(rt, alloc, world, gate, level, rest, &more, parent, pass);
            (after_made(alloc, m, r), pass)
        }
        Err(_) => (Err(Halt::NoMemory), pass),
    }
}

/// Writes a value, and runs the rest.
#[cycle(run)]
fn run_put<Rt: Threads + Sync, G: Gate + Sync>(
    rt: &Rt,
    alloc: Global,
    world: &World,
    gate: &G,
    level: u32,
    m: Handle,
    v: Plain,
    rest: &[Stmt],
    env: &[Binding],
    parent: Option<Handle>,
    pass: Pass,
) -> (Result<Record, Halt>, Pass)
    requires { BeginsActIn world.now (Put m (plain_value v)) rest.now (env_of env.now) parent pass }
    ensures { (k : Kept) × LeavesActIn world.now level (Put m (plain_value v)) rest.now (env_of env.now) parent pass result.1 (ended_of k result.0) }
{
    let words = to_words(v);
    let mut pass = warned(world.tables, world.olds, m, words, pass);
    world.tables.values.write(&mut pass.values, m, words);
    let (r, pass) = run_body(rt, alloc, world, gate, level, rest, env, parent, pass);
    (after_wrote(alloc, m, v, r), pass)
}

/// Runs an inner body, and the rest.
#[cycle(run)]
fn run_inner<Rt: Threads + Sync, G: Gate + Sync>(
    rt: &Rt,
    alloc: Global,
    world: &World,
    gate: &G,
    level: u32,
    body: &[Stmt],
    inner: &[Binding],
    rest: &[Stmt],
    env: &[Binding],
    parent: Option<Handle>,
    pass: Pass,
) -> (Result<Record, Halt>, Pass)
    requires { BeginsActIn world.now (Body body.now (env_of inner.now)) rest.now (env_of env.now) parent pass }
    ensures { (k : Kept) × LeavesActIn world.now level (Body body.now (env_of inner.now)) rest.now (env_of env.now) parent pass result.1 (ended_of k result.0) }
{
    let (claimed, pass) = stepped(world.tables, parent, pass);
    match claimed {
        Ok(node) => {
            let below = Some(node);
            let (t, pass) = run_body(rt, alloc, world, gate, level, body, inner, below, pass);
            go_on(rt, alloc, world, gate, level, node, t, rest, env, pass)
        }
        Err(halt) => (Err(halt), pass),
    }
}

/// Runs a read block, and the rest.
#[cycle(run)]
fn run_read<Rt: Threads + Sync, G: Gate + Sync>(
    rt: &Rt,
    alloc: Global,
    world: &World,
    gate: &G,
    level: u32,
    number: u32,
    seen: &[Seen],
    items: &[ReadItem],
    body: &[Stmt],
    rest: &[Stmt],
    env: &[Binding],
    parent: Option<Handle>,
    pass: Pass,
) -> (Result<Record, Halt>, Pass)
    requires { BeginsActIn world.now (Block number (reads_view seen.now) body.now (with_reads (env_of env.now) items.now (reads_view seen.now))) rest.now (env_of env.now) parent pass }
    ensures { (k : Kept) × LeavesActIn world.now level (Block number (reads_view seen.now) body.now (with_reads (env_of env.now) items.now (reads_view seen.now))) rest.now (env_of env.now) parent pass result.1 (ended_of k result.0) }
{
    let (begun, pass) = opened(alloc, world.tables, parent, level, number, env, seen, pass);
    match begun {
        Ok((node, reading)) => match entered(alloc, env, items, seen) {
            Ok(inner) => {
                let below = Some(reading.node);
                let (t, pass) = run_body(rt, alloc, world, gate, level, body, &inner, below, pass);
                let t = in_block(alloc, reading, t);
                go_on(rt, alloc, world, gate, level, node, t, rest, env, pass)
            }
            Err(_) => (Err(Halt::NoMemory), pass),
        },
        Err(halt) => (Err(halt), pass),
    }
}

/// Runs a par, and the rest.
#[cycle(run)]
fn run_par<Rt: Threads + Sync, G: Gate + Sync>(
    rt: &Rt,
    alloc: Global,
    world: &World,
    gate: &G,
    level: u32,
    left: &[Stmt],
    right: &[Stmt],
    rest: &[Stmt],
    env: &[Binding],
    parent: Option<Handle>,
    pass: Pass,
) -> (Result<Record, Halt>, Pass)
    requires { BeginsActIn world.now (Sides left.now right.now) rest.now (env_of env.now) parent pass }
    ensures { (k : Kept) × LeavesActIn world.now level (Sides left.now right.now) rest.now (env_of env.now) parent pass result.1 (ended_of k result.0) }
{
    let (claimed, pass) = stepped(world.tables, parent, pass);
    match claimed {
        Ok(node) => {
            let below = Some(node);
            let (t, pass) = run_both(
                rt, alloc, world, gate, level, left, right, rest, env, below, pass,
            );
            go_on(rt, alloc, world, gate, level, node, t, rest, env, pass)
        }
        Err(halt) => (Err(halt), pass),
    }
}

/// Runs both sides of a par, at once where the pass can be forked, and else one after the other. The rest is there for the contract
/// alone.
#[cycle(run)]
fn run_both<Rt: Threads + Sync, G: Gate + Sync>(
    rt: &Rt,
    alloc: Global,
    world: &World,
    gate: &G,
    level: u32,
    left: &[Stmt],
    right: &[Stmt],
    rest: &[Stmt],
    env: &[Binding],
    parent: Option<Handle>,
    pass: Pass,
) -> (Result<Record, Halt>, Pass)
    requires { BeginsActIn world.now (Sides left.now right.now) rest.now (env_of env.now) parent pass }
    ensures { (k : Kept) × LeavesBothIn world.now level left.now right.now rest.now (env_of env.now) parent pass result.1 (ended_of k result.0) }
{
    let (claimed, pass) = stepped(world.tables, parent, pass);
    let par = match claimed {
        Ok(par) => par,
        Err(halt) => return (Err(halt), pass),
    };
    let below = Some(par);
    if pass.depth >= 62 {
        let (l, pass) = run_body(rt, alloc, world, gate, level, left, env, below, pass);
        if ran_out(&l) {
            return (l, pass);
        }
        let later = World {
            olds: still_old(world.olds, &l),
            ..*world
        };
        let (r, pass) = run_body(rt, alloc, &later, gate, level, right, env, below, pass);
        return (paired(alloc, par, l, r), pass);
    }
    let (mine, theirs) = fork_for(world.tables, pass, left, right, env);
    let ((l, mine), (r, theirs)) = run_sides(
        rt, alloc, world, gate, level, left, right, env, below, mine, theirs,
    );
    let pass = Pass::join(mine, theirs, world.tables);
    (paired(alloc, par, l, r), pass)
}

/// Runs both sides of a par at once, each on its pass.
#[cycle(run)]
fn run_sides<Rt: Threads + Sync, G: Gate + Sync>(
    rt: &Rt,
    alloc: Global,
    world: &World,
    gate: &G,
    level: u32,
    left: &[Stmt],
    right: &[Stmt],
    env: &[Binding],
    parent: Option<Handle>,
    mine: Pass,
    theirs: Pass,
) -> ((Result<Record, Halt>, Pass), (Result<Record, Halt>, Pass))
    requires left { BeginsIn world.now left.now (env_of env.now) parent mine }
    requires right { BeginsIn world.now right.now (env_of env.now) parent theirs }
    ensures left { (k : Kept) × LeavesIn world.now level left.now (env_of env.now) parent mine result.0.1 (ended_of k result.0.0) }
    ensures right { (k : Kept) × LeavesIn world.now level right.now (env_of env.now) parent theirs result.1.1 (ended_of k result.1.0) }
{
    // A closure that captures a world tells its caller nothing, since the world has a lifetime.
    let crew = world.crew;
    let tables = world.tables;
    let ground = world.ground;
    let texts = world.texts;
    let funcs = world.funcs;
    let olds = world.olds;
    both(
        rt,
        crew,
        gate,
        move || -> (Result<Record, Halt>, Pass)
            requires { IsSync Rt.row × IsSync G.row × Begins (setting_on ground.now texts.now) funcs.now olds.now tables.now left.now (env_of env.now) parent mine }
            ensures { (k : Kept) × Leaves (setting_on ground.entry.now texts.entry.now) (traced (setting_on ground.entry.now texts.entry.now) funcs.entry.now (levels - level)) (cut_short (setting_on ground.entry.now texts.entry.now) funcs.entry.now (levels - level)) olds.entry.now tables.entry.now left.entry.now (env_of env.entry.now) parent mine result.1 (ended_of k result.0) }
        {
            run_block(
                rt, alloc, crew, gate, tables, ground, texts, funcs, olds, level, left, env,
                parent, mine,
            )
        },
        move || -> (Result<Record, Halt>, Pass)
            requires { IsSync Rt.row × IsSync G.row × Begins (setting_on ground.now texts.now) funcs.now olds.now tables.now right.now (env_of env.now) parent theirs }
            ensures { (k : Kept) × Leaves (setting_on ground.entry.now texts.entry.now) (traced (setting_on ground.entry.now texts.entry.now) funcs.entry.now (levels - level)) (cut_short (setting_on ground.entry.now texts.entry.now) funcs.entry.now (levels - level)) olds.entry.now tables.entry.now right.entry.now (env_of env.entry.now) parent theirs result.1 (ended_of k result.0) }
        {
            run_block(
                rt, alloc, crew, gate, tables, ground, texts, funcs, olds, level, right, env,
                parent, theirs,
            )
        },
    )
}

/// Runs the rest of a body where the compound statement before it, whose node this is, is done.
#[cycle(run)]
fn go_on<Rt: Threads + Sync, G: Gate + Sync>(
    rt: &Rt,
    alloc: Global,
    world: &World,
    gate: &G,
    level: u32,
    node: Handle,
    t: Result<Record, Halt>,
    rest: &[Stmt],
    env: &[Binding],
    pass: Pass,
) -> (Result<Record, Halt>, Pass)
    requires { BeginsAfterIn world.now node (ended_of E t) rest.now (env_of env.now) pass }
    ensures { (j : Kept) → (k : Kept) × LeavesAfterIn world.now level node (ended_of j t) rest.now (env_of env.now) pass result.1 (ended_of k result.0) }
{
    match t {
        Ok(t) => {
            let below = Some(node);
            let (r, pass) = run_body(rt, alloc, world, gate, level, rest, env, below, pass);
            (after_step(alloc, node, t, r), pass)
        }
        Err(h) => (Err(h), pass),
    }
}
