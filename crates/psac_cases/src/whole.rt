// A whole run, from the words of a command line.
use psac_base::{MemShelf, MemSink, MemSource};
use std::alloc::{AllocError, Global};

/// What a run is made of: the words and further words, the program, the input both as lines and as records, the
/// script, and how the outside acts.
#[derive(Clone, Copy)]
pub struct Case<'a> {
    pub words: &'a str,
    pub options: &'a str,
    pub program: &'a [u8],
    pub input: &'a [u8],
    pub script: &'a [u8],
    pub outside: Outside,
}

/// Whether each read and each write moves a single byte, and the numbers of the load, the read and the write that
/// fail, where 0 is none.
#[derive(Clone, Copy)]
pub struct Outside {
    pub by_byte: bool,
    pub load: u64,
    pub read: u64,
    pub write: u64,
}

/// An outside that doesn't fail.
pub const SOUND: Outside = Outside {
    by_byte: false,
    load: 0,
    read: 0,
    write: 0,
};

/// Caps that the runs of most tests keep within. Small ones make an engine's tables quickly.
pub const SMALL: &str = "--nodes 400 --mods 100 --links 100";

/// What a top call is handed.
#[derive(Drop)]
pub struct Parts {
    pub words: Vec<String>,
    pub shelf: MemShelf,
    pub script: MemSource,
    pub out: MemSink,
}

fn add_words(alloc: Global, words: &mut Vec<String>, line: &str) -> Result<(), AllocError> {
    for word in line.split_whitespace() {
        words.push(String::from_str(alloc, word)?)?;
    }
    Ok(())
}

impl Case<'_> {
    /// The parts of one run.
    pub fn parts(&self, alloc: Global) -> Result<Parts, AllocError> {
        let mut words = Vec::new(alloc);
        add_words(alloc, &mut words, self.words)?;
        add_words(alloc, &mut words, self.options)?;
        let shelf = self.shelf(alloc)?;
        let piece = if self.outside.by_byte { 1 } else { 4000 };
        let script = Vec::from_slice(alloc, self.script)?;
        let reads = Vec::from_slice(alloc, &[self.outside.read])?;
        let script = MemSource::new(script, piece, reads);
        let writes = Vec::from_slice(alloc, &[self.outside.write])?;
        let Ok(out) = MemSink::new(alloc, 1000, piece, writes) else {
            return Err(AllocError);
        };
        Ok(Parts {
            words,
            shelf,
            script,
            out,
        })
    }

    // A shelf with the program and the input.
    fn shelf(&self, alloc: Global) -> Result<MemShelf, AllocError> {
        let mut files = Vec::new(alloc);
        let program = Vec::from_slice(alloc, self.program)?;
        files.push((String::from_str(alloc, "p.psac")?, program))?;
        let lines = Vec::from_slice(alloc, self.input)?;
        files.push((String::from_str(alloc, "i.txt")?, lines))?;
        let records = Vec::from_slice(alloc, self.input)?;
        files.push((String::from_str(alloc, "i.csv")?, records))?;
        let fails = Vec::from_slice(alloc, &[self.outside.load])?;
        // (their names differ, as one sees, and a shelf asks for that)
        if !MemShelf::names_differ(&files) {
            return Err(AllocError);
        }
        Ok(MemShelf::new(files, fails))
    }
}

/// A run in an outside that doesn't fail. A session has the script, and `certify` the text that it compares.
pub fn run_of<'a>(words: &'a str, program: &'a str, input: &'a str, script: &'a str) -> Case<'a> {
    Case {
        words,
        options: "",
        program: program.as_bytes(),
        input: input.as_bytes(),
        script: script.as_bytes(),
        outside: SOUND,
    }
}
