// Which of the program's calls the words are handed to.
ghost use Rattle.std.specs.Prelude.{◌≡◌, map, string_bytes};
ghost use Rattle.psac_command.specs.Calls.{call_by, call_named};

/// The calls of the program.
#[derive(Clone, Copy, Debug, PartialEq, Eq)]
pub enum TopCall {
    /// One run or a session. It takes all words that aren't another call's, and tells of those that ask for nothing known.
    Run,
    /// A bench.
    Bench,
    /// One run, whose record is written.
    Dump,
    /// One run, whose record a text is compared with.
    Certify,
    /// A session whose outputs are seen while it runs.
    Watch,
}

fn call_for(mode: &str) -> TopCall
    ensures { result ≡ call_named mode.now }
{
    match mode {
        "bench" => TopCall::Bench,
        "dump" => TopCall::Dump,
        "certify" => TopCall::Certify,
        "watch" => TopCall::Watch,
        _ => TopCall::Run,
    }
}

/// The call for the words, the program's own name first: the mode alone says which.
pub fn choose_call(words: &[String]) -> TopCall
    ensures { result ≡ call_by (map string_bytes words.now) }
{
    match words.get(1) {
        Some(mode) => call_for(mode.as_str()),
        None => TopCall::Run,
    }
}
