use psac_base::NoMemory;
use psac_command::{
    Mode, TopCall, choose_call, read_bench_request, read_request, read_single_request,
};
use std::alloc::Global;

fn words_of(alloc: Global, line: &str) -> Result<Vec<String>, NoMemory> {
    let mut words = Vec::new(alloc);
    for word in line.split_whitespace() {
        words.push(String::from_str(alloc, word)?)?;
    }
    Ok(words)
}

fn is_taken(alloc: Global, line: &str) -> Result<bool, NoMemory> {
    let words = words_of(alloc, line)?;
    Ok(read_request(alloc, words.as_slice())?.is_some())
}

#[test]
fn taken(rt: HostRuntime) {
    let alloc = rt.alloc();
    let lines = [
        "psac once p i",
        "psac session p i --workers 64",
        "psac --workers 8 once p i",
        "psac once p i --workers=8",
        "psac once -- p i",
        "psac once p i --rows 65536 --nodes 1 --mods 1048576 --links 0007",
    ];
    for line in lines {
        assert!(rt; matches!(is_taken(alloc, line), Ok(true)));
    }
}

#[test]
fn refused(rt: HostRuntime) {
    let alloc = rt.alloc();
    let lines = [
        "psac once p",
        "psac once p i j",
        "psac twice p i",
        "psac bench p 4x1",
        "psac once p i --workers 65",
        "psac once p i --workers 0",
        "psac once p i --nodes 0",
        "psac once p i --nodes 1048577",
        "psac once p i --rows 65537",
        "psac once p i --rows 0000000001",
        "psac once p i --mods x",
        "psac once p i --workers 8 --workers 9",
        "psac once p i --workers",
        "psac once p i --help",
        "psac once p i --other 3",
    ];
    for line in lines {
        assert!(rt; matches!(is_taken(alloc, line), Ok(false)));
    }
}

// Whether the words of a session are read whole: what is named is set, and the rest as it is where nothing is named.
fn is_read(alloc: Global) -> bool {
    let Ok(words) = words_of(alloc, "psac session p i --nodes 5 --rows 4") else {
        return false;
    };
    let Ok(Some(asked)) = read_request(alloc, words.as_slice()) else {
        return false;
    };
    let caps = asked.settings.caps;
    asked.mode == Mode::Session
        && asked.program == "p"
        && asked.input == "i"
        && asked.settings.workers == 4
        && caps.nodes == 5
        && caps.mods == 131_072
        && asked.settings.rows == 4
}

fn is_bench(alloc: Global, line: &str) -> Result<bool, NoMemory> {
    let words = words_of(alloc, line)?;
    Ok(read_bench_request(alloc, words.as_slice())?.is_some())
}

#[test]
fn bench_taken(rt: HostRuntime) {
    let alloc = rt.alloc();
    let lines = [
        "psac bench p 4x1",
        "psac bench p 1x0",
        "psac bench p 65536x1000 --workers 64",
        "psac bench p 000000004x000000001",
    ];
    for line in lines {
        assert!(rt; matches!(is_bench(alloc, line), Ok(true)));
    }
}

#[test]
fn bench_refused(rt: HostRuntime) {
    let alloc = rt.alloc();
    let lines = [
        "psac once p 4x1",
        "psac bench p",
        "psac bench p i.txt",
        "psac bench p 4",
        "psac bench p x1",
        "psac bench p 4x",
        "psac bench p 4x1x1",
        "psac bench p 4X1",
        "psac bench p 0x1",
        "psac bench p 65537x1",
        "psac bench p 4x1001",
        "psac bench p 0000000004x1",
        "psac bench p 4x1 --workers 65",
    ];
    for line in lines {
        assert!(rt; matches!(is_bench(alloc, line), Ok(false)));
    }
}

fn is_bench_read(alloc: Global) -> bool {
    let Ok(words) = words_of(alloc, "psac bench p 64x5 --links 7") else {
        return false;
    };
    let Ok(Some(asked)) = read_bench_request(alloc, words.as_slice()) else {
        return false;
    };
    asked.program == "p"
        && asked.counts.cells == 64
        && asked.counts.batches == 5
        && asked.settings.caps.links == 7
}

fn is_single(alloc: Global, name: &str, line: &str) -> Result<bool, NoMemory> {
    let words = words_of(alloc, line)?;
    Ok(read_single_request(alloc, name, words.as_slice())?.is_some())
}

#[test]
fn single_taken(rt: HostRuntime) {
    let alloc = rt.alloc();
    assert!(rt; is_single(alloc, "dump", "psac dump p i") == Ok(true));
    assert!(rt; is_single(alloc, "dump", "psac --workers 8 dump p i") == Ok(true));
}

#[test]
fn single_refused(rt: HostRuntime) {
    let alloc = rt.alloc();
    let lines = [
        "psac once p i",
        "psac session p i",
        "psac certify p i",
        "psac dump p",
        "psac dump p i j",
        "psac dump p i --workers 65",
    ];
    for line in lines {
        assert!(rt; is_single(alloc, "dump", line) == Ok(false));
    }
}

fn is_single_read(alloc: Global) -> bool {
    let Ok(words) = words_of(alloc, "psac certify p i --links 7") else {
        return false;
    };
    let Ok(Some(asked)) = read_single_request(alloc, "certify", words.as_slice()) else {
        return false;
    };
    asked.mode == Mode::Once
        && asked.program == "p"
        && asked.input == "i"
        && asked.settings.caps.links == 7
}

#[test]
fn read_whole(rt: HostRuntime) {
    let alloc = rt.alloc();
    assert!(rt; is_read(alloc));
    assert!(rt; is_bench_read(alloc));
    assert!(rt; is_single_read(alloc));
}

fn is_call(alloc: Global, line: &str, call: TopCall) -> bool {
    match words_of(alloc, line) {
        Ok(words) => choose_call(words.as_slice()) == call,
        Err(_) => false,
    }
}

#[test]
fn calls(rt: HostRuntime) {
    let alloc = rt.alloc();
    assert!(rt; is_call(alloc, "psac once p i", TopCall::Run));
    assert!(rt; is_call(alloc, "psac", TopCall::Run));
    assert!(rt; is_call(alloc, "psac bench p 4x1", TopCall::Bench));
    assert!(rt; is_call(alloc, "psac dump p i j k", TopCall::Dump));
    assert!(rt; is_call(alloc, "psac certify p i", TopCall::Certify));
    assert!(rt; is_call(alloc, "psac watch p", TopCall::Watch));
}
