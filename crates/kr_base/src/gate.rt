//! A place at which a test may hold a worker.

ghost use Rattle.std.specs.Prelude.{◌≡◌, Some, None};
ghost use Rattle.kr_base.specs.Causes.{raised};

/// What a worker passes between the job that it took and the step that does it.
pub trait Gate {
    /// The worker passes, with the number of the job among those that it took.
    fn before(&mut self, number: u64);
}

/// A gate that holds nobody: that of every worker outside tests.
#[derive(Clone, Copy, Debug, Drop, PartialEq, Eq)]
pub struct OpenGate;

impl Gate for OpenGate {
    fn before(&mut self, _number: u64) {}
}

/// A gate that holds nobody and counts who passes.
#[derive(Clone, Copy, Debug, Drop, PartialEq, Eq)]
pub struct CountingGate {
    /// How often the worker passed; the count stands still at the greatest u64.
    pub passed: u64,
    /// The number of the last job, `None` before the first.
    pub last: Option<u64>,
}

impl CountingGate {
    /// A gate that nobody has passed.
    pub fn new() -> CountingGate
        ensures { result ≡ record { passed = 0; last = None } }
    {
        CountingGate {
            passed: 0,
            last: None,
        }
    }
}

impl Gate for CountingGate {
    fn before(&mut self, number: u64)
        ensures { self.new ≡ record { passed = raised self.old.passed; last = Some number } }
    {
        self.passed = self.passed.saturating_add(1);
        self.last = Some(number);
    }
}
