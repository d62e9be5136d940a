// A whole run by the top call.
use psac_cases::{Case, Parts};
use psac_fork::NoGate;
use psac_run::psac;
use std::alloc::{AllocError, Global};
use std::thread::Threads;

/// The status with which a run ends, and its parts as it left them.
pub fn ends<Rt: Threads + Sync>(
    rt: &Rt,
    alloc: Global,
    case: &Case<'_>,
) -> Result<(u8, Parts), AllocError> {
    let mut parts = case.parts(alloc)?;
    let status = psac(
        rt,
        alloc,
        &parts.words,
        &mut parts.shelf,
        &mut parts.script,
        &mut parts.out,
        &NoGate,
    );
    Ok((status.code, parts))
}

/// Whether a run ends with the status and writes the text.
pub fn gives<Rt: Threads + Sync>(
    rt: &Rt,
    alloc: Global,
    case: &Case<'_>,
    code: u8,
    text: &str,
) -> bool {
    match ends(rt, alloc, case) {
        Ok((status, parts)) => status == code && parts.out.bytes() == Some(text.as_bytes()),
        Err(_) => false,
    }
}
