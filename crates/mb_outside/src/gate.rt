/// Where a worker stops by before it does a job. In the programs it does nothing; the gate of a test may
/// hold workers.
pub trait Gate: Sync {
    fn enter(&self, job: u32);
}

/// The gate that holds nobody.
#[derive(Clone, Copy, Debug)]
pub struct OpenGate;

impl Gate for OpenGate {
    fn enter(&self, _job: u32) {}
}
