/// For tests: it may hold threads up. Threads share it; no clause speaks of it.
pub trait Gate {
    /// A worker is about to build this ticket's job.
    fn before_build(&self, ticket: u64);

    /// The command at this index of the script, from 0, was replied to.
    fn replied(&self, caller: u8, index: u32);
}

/// Holds up nobody.
#[derive(Clone, Copy, Debug, Drop)]
pub struct FreeGate;

impl Gate for FreeGate {
    fn before_build(&self, _ticket: u64) {}

    fn replied(&self, _caller: u8, _index: u32) {}
}
