//! Why a run gives no record.
use psac_model::{CapKind, FaultKind};
use psac_slots::Full;

/// Why a run gives no record. Want of memory goes before a full table, and that before a fault.
#[derive(Clone, Copy, Debug, Drop)]
pub enum Halt {
    Fault(FaultKind, u32),
    Full(CapKind, Full),
    NoMemory,
}
