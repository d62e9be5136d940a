ghost use Rattle.std.specs.Prelude.{◌≡◌, IfOk};

use psac_ops::Op;
use sqlite_items::{Boxed, Items};
use std::alloc::{AllocError, Global};
use std::marker::Model;

/// A name of a program, as its bytes.
#[derive(Drop)]
pub struct Word {
    bytes: Items<u8>,
}

impl Model for Word {
    ghost use Rattle.std.specs.Prelude.{List, ℕ};

    ghost Value = { List ℕ };

    ghost view = { λ w. w.bytes };
}

impl Word {
    /// A name of these bytes.
    pub fn from_bytes(alloc: Global, bytes: &[u8]) -> Result<Word, AllocError>
        ensures { IfOk result (λ made. made ≡ bytes.now) }
    {
        Ok(Word {
            bytes: Items::from_slice(alloc, bytes)?,
        })
    }

    pub fn bytes(&self) -> &[u8]
        ensures { result.now ≡ self.now }
    {
        self.bytes.as_slice()
    }
}

/// A text of a program, as its bytes.
#[derive(Drop)]
pub struct TextConst {
    bytes: Items<u8>,
}

impl Model for TextConst {
    ghost use Rattle.std.specs.Prelude.{List, ℕ};

    ghost Value = { List ℕ };

    ghost view = { λ t. t.bytes };
}

impl TextConst {
    /// A text of these bytes.
    pub fn from_bytes(alloc: Global, bytes: &[u8]) -> Result<TextConst, AllocError>
        ensures { IfOk result (λ made. made ≡ bytes.now) }
    {
        Ok(TextConst {
            bytes: Items::from_slice(alloc, bytes)?,
        })
    }

    pub fn bytes(&self) -> &[u8]
        ensures { result.now ≡ self.now }
    {
        self.bytes.as_slice()
    }
}

/// A program; names, texts and functions go by their places.
#[derive(Drop)]
pub struct Program {
    pub names: Items<Word>,
    pub texts: Items<TextConst>,
    pub funcs: Items<Func>,
    pub blocks: u32,
}

/// A function.
#[derive(Drop)]
pub struct Func {
    pub name: u16,
    pub values: Items<u16>,
    pub dests: Items<u16>,
    pub body: Items<Stmt>,
    pub line: u32,
}

/// One read of a read block.
#[derive(Drop)]
pub struct ReadItem {
    pub from: Expr,
    pub bound: u16,
}

/// A statement, with the line of its first token.
#[derive(Drop)]
pub enum Stmt {
    Let {
        line: u32,
        name: u16,
        value: Expr,
    },
    New {
        line: u32,
        name: u16,
    },
    Write {
        line: u32,
        dest: u16,
        value: Expr,
    },
    Read {
        line: u32,
        block: u32,
        items: Items<ReadItem>,
        body: Items<Stmt>,
    },
    If {
        line: u32,
        cond: Expr,
        yes: Items<Stmt>,
        no: Items<Stmt>,
    },
    Par {
        line: u32,
        left: Items<Stmt>,
        right: Items<Stmt>,
    },
    Call {
        line: u32,
        func: u16,
        values: Items<Expr>,
        dests: Items<u16>,
    },
}

/// An expression.
#[derive(Drop)]
pub enum Expr {
    Nil,
    Bool(bool),
    Int(i64),
    Text(u16),
    Name(u16),
    Rows,
    Cols,
    RowCount,
    Cell(Boxed<Expr>, Boxed<Expr>),
    Apply(Op, Items<Expr>),
}
