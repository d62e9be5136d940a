use psac_model::{CapKind, FaultKind};

/// Why a commit keeps no run.
#[derive(Clone, Copy, Debug, PartialEq, Eq)]
pub enum Answer {
    /// The run of the present grid stops, at this line.
    Fault { kind: FaultKind, line: u32 },
    /// The record of that run has more of this than its cap; also where the run stops.
    Full { which: CapKind },
    NoMemory,
}
