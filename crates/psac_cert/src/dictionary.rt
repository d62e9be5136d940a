// What the text of a record needs besides the record: words, texts and names. After an `Err` a first part of a piece may stand at
// the end of the text.
ghost use Rattle.std.specs.Prelude.{◌≡◌, ◌++◌, IfOk, OnOk, flat_map, length};
ghost use Rattle.psac_ops.specs.declared.plain.Handle.{Handle};
ghost use Rattle.psac_ops.specs.Named.{renamed, value_of};
ghost use Rattle.psac_traced.specs.Renamed.{env_named, reads_named};
ghost use Rattle.psac_record.specs.Kept.{env_of, reads_of};
ghost use Rattle.psac_record.specs.Shown.{rec_of};
ghost use Rattle.psac_report.specs.Dump.{bound_text, name_text, read_text};
ghost use Rattle.psac_stage.specs.Places.{name_of};
ghost use Rattle.psac_cert.specs.Lines.{block_line, named, value_named, write_line};
ghost use Rattle.psac_cert.specs.Told.{dests_of};

use crate::name::push_name;
use crate::names::Names;
use psac_base::NoMemory;
use psac_inputs::{Grid, Interner};
use psac_model::{Shown, main_of};
use psac_ops::{Handle, Plain};
use psac_record::{Binding, Reading, Record, Seen};
use psac_script::{name_of, push_number, push_value};
use psac_syntax::Program;
use std::alloc::Global;

/// The words of a program, a list of texts, and the names of a record's modifiables.
#[derive(Drop)]
pub struct Dictionary<'a> {
    program: &'a Program,
    texts: &'a Interner,
    names: Names,
}

// How many outputs main has.
fn outputs_of(program: &Program) -> usize
    ensures { result ≡ length (dests_of program.now) }
{
    match main_of(program) {
        Some(main) => main.dests.as_slice().len(),
        None => 0,
    }
}

impl<'a> Dictionary<'a> {
    /// The dictionary for a record of a program over a grid.
    pub fn new(
        alloc: Global,
        tree: &Record,
        program: &'a Program,
        grid: &Grid,
        texts: &'a Interner,
    ) -> Result<Dictionary<'a>, NoMemory>
        ensures program { IfOk result (λ d. d.program.now ≡ program.now) }
        ensures texts { IfOk result (λ d. d.texts.now ≡ texts.now) }
        ensures names { IfOk result (λ d. (h : Handle) → named d h ≡ name_of grid.now (dests_of program.now) (rec_of tree.now) h) }
    {
        let names = Names::new(alloc, tree, grid, outputs_of(program))?;
        Ok(Dictionary {
            program,
            texts,
            names,
        })
    }

    fn push_reference(&self, text: &mut Vec<u8>, handle: Handle) -> Result<(), NoMemory>
        ensures { OnOk result (text.new.items ≡ text.old.items ++ name_text (named self.now handle)) }
    {
        push_name(text, self.names.name(handle))
    }

    /// Appends a value, with the names of its references.
    fn push_value(&self, text: &mut Vec<u8>, value: Plain) -> Result<(), NoMemory>
        ensures { OnOk result (text.new.items ≡ text.old.items ++ value_named self.now value) }
    {
        match value {
            Plain::Nil => push_value(text, self.texts, Shown::Nil)?,
            Plain::Bool(truth) => push_value(text, self.texts, Shown::Bool(truth))?,
            Plain::Int(number) => push_value(text, self.texts, Shown::Int(number))?,
            Plain::Text(id) => push_value(text, self.texts, Shown::Text(id))?,
            Plain::Ref(handle) => {
                text.push(b'&')?;
                self.push_reference(text, handle)?;
            }
            Plain::Pair(first, second) => {
                text.push(b'&')?;
                self.push_reference(text, first)?;
                text.push(b',')?;
                self.push_reference(text, second)?;
            }
        }
        Ok(())
    }

    fn push_bound(&self, text: &mut Vec<u8>, bound: &Binding) -> Result<(), NoMemory>
        ensures { OnOk result (text.new.items ≡ text.old.items ++ bound_text self.now.program.now.names self.now.texts.now (bound.now.name, renamed (named self.now) (value_of bound.now.value))) }
    {
        text.push(b' ')?;
        text.extend_from_slice(name_of(self.program, bound.name))?;
        text.push(b'=')?;
        self.push_value(text, bound.value)
    }

    fn push_env(&self, text: &mut Vec<u8>, env: &[Binding]) -> Result<(), NoMemory>
        ensures { OnOk result (text.new.items ≡ text.old.items ++ flat_map (bound_text self.now.program.now.names self.now.texts.now) (env_named (named self.now) (env_of env.now))) }
    {
        let [bound, env @ ..] = env else {
            return Ok(());
        };
        self.push_bound(text, bound)?;
        self.push_env(text, env)
    }

    fn push_read(&self, text: &mut Vec<u8>, seen: &Seen) -> Result<(), NoMemory>
        ensures { OnOk result (text.new.items ≡ text.old.items ++ read_text self.now.program.now.names self.now.texts.now (named self.now seen.now.from, renamed (named self.now) (value_of seen.now.value))) }
    {
        text.push(b' ')?;
        self.push_reference(text, seen.from)?;
        text.push(b'=')?;
        self.push_value(text, seen.value)
    }

    fn push_reads(&self, text: &mut Vec<u8>, reads: &[Seen]) -> Result<(), NoMemory>
        ensures { OnOk result (text.new.items ≡ text.old.items ++ flat_map (read_text self.now.program.now.names self.now.texts.now) (reads_named (named self.now) (reads_of reads.now))) }
    {
        let [seen, reads @ ..] = reads else {
            return Ok(());
        };
        self.push_read(text, seen)?;
        self.push_reads(text, reads)
    }

    /// Appends the line of a write.
    pub fn push_write(
        &self,
        text: &mut Vec<u8>,
        handle: Handle,
        value: Plain,
    ) -> Result<(), NoMemory>
        ensures { OnOk result (text.new.items ≡ text.old.items ++ write_line self.now handle value) }
    {
        text.extend_from_slice(b"W ")?;
        self.push_reference(text, handle)?;
        text.push(b' ')?;
        self.push_value(text, value)?;
        text.push(b'\n')?;
        Ok(())
    }

    /// Appends the line of a read block.
    pub fn push_block(&self, text: &mut Vec<u8>, reading: &Reading) -> Result<(), NoMemory>
        ensures { OnOk result (text.new.items ≡ text.old.items ++ block_line self.now reading.now) }
    {
        text.extend_from_slice(b"R ")?;
        push_number(text, u64::from(reading.block))?;
        self.push_env(text, reading.env.as_slice())?;
        text.extend_from_slice(b" |")?;
        self.push_reads(text, reading.reads.as_slice())?;
        text.push(b'\n')?;
        Ok(())
    }
}
