// The read blocks of a program, each at its number.
ghost use Rattle.std.specs.Prelude.{◌≡◌, ◌≢◌, ◌<◌, ℕ, AllPairs, IfOk, OnOk, Some, [], ◌∷◌, length, slice_get, flat_map};
ghost use Rattle.psac_traced.specs.Blocks.{numbers_of, blocks_in};
ghost use Rattle.psac_repair.specs.Indexed.{Code as Indexed, ArePut, AreIndexed};

use crate::world::Code;
use psac_syntax::{Func, Stmt};
use std::alloc::{AllocError, Global};

/// Goes on with empty blocks until one has this number.
fn reach<'a>(blocks: &mut Vec<Code<'a>>, number: u32) -> Result<(), AllocError>
    ensures reached { OnOk result (number < length blocks.new.items) }
    ensures kept { OnOk result ((n : ℕ) (c : Indexed) → slice_get blocks.old.items n ≡ Some c → slice_get blocks.new.items n ≡ Some c) }
{
    let place = number as usize;
    if place < blocks.len() {
        return Ok(());
    }
    blocks.resize(place + 1, (&[], &[]))
}

/// Puts a read block at its number, in place of what stands there.
fn put<'a>(blocks: &mut Vec<Code<'a>>, number: u32, code: Code<'a>) -> Result<(), AllocError>
    ensures { OnOk result (ArePut ((number, code.entry.0.now, code.entry.1.now) ∷ []) blocks.old.items blocks.new.items) }
{
    reach(blocks, number)?;
    blocks[number as usize] = code;
    Ok(())
}

/// Puts each read block in a statement at its number.
#[cycle(put)]
fn put_blocks<'a>(blocks: &mut Vec<Code<'a>>, stmt: &'a Stmt) -> Result<(), AllocError>
    ensures { OnOk result (ArePut (blocks_in stmt.now) blocks.old.items blocks.new.items) }
{
    match stmt {
        Stmt::Read {
            block,
            items,
            body,
            ..
        } => {
            let (items, body) = (items.as_slice(), body.as_slice());
            put(blocks, *block, (items, body))?;
            put_all(blocks, body)
        }
        Stmt::If { yes, no, .. } => {
            put_all(blocks, yes.as_slice())?;
            put_all(blocks, no.as_slice())
        }
        Stmt::Par { left, right, .. } => {
            put_all(blocks, left.as_slice())?;
            put_all(blocks, right.as_slice())
        }
        Stmt::Let { .. } => Ok(()),
        Stmt::New { .. } => Ok(()),
        Stmt::Write { .. } => Ok(()),
        Stmt::Call { .. } => Ok(()),
    }
}

/// Puts each read block in these statements at its number.
#[cycle(put)]
fn put_all<'a>(blocks: &mut Vec<Code<'a>>, stmts: &'a [Stmt]) -> Result<(), AllocError>
    ensures { OnOk result (ArePut (flat_map blocks_in stmts.now) blocks.old.items blocks.new.items) }
{
    for stmt in stmts {
        put_blocks(blocks, stmt)?;
    }
    Ok(())
}

/// The read blocks of these functions, each at its number, where no two have one number. An error says that memory ran out.
pub fn blocks_of<'a>(alloc: Global, funcs: &'a [Func]) -> Result<Vec<Code<'a>>, AllocError>
    requires distinct { AllPairs (λ m n. m ≢ n) (numbers_of funcs.now) }
    ensures { IfOk result (λ blocks. AreIndexed funcs.now blocks.items) }
{
    let mut blocks = Vec::new(alloc);
    for func in funcs {
        put_all(&mut blocks, func.body.as_slice())?;
    }
    Ok(blocks)
}
