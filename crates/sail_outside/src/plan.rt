//! Which calls of an object fail, and how many did.
ghost use Rattle.std.specs.Prelude.{◌≡◌, ◌↔◌, ◌≤◌, ◌-◌, ◌+◌, ◌^◌, IsTrue, Contains, min, false};
ghost use Rattle.sail_outside.specs.Faults.{Rose};

/// The calls that fail, counted from 0, the calls so far, and the faults among them.
#[derive(Drop)]
pub struct Plan {
    fails: Vec<u64>,
    calls: u64,
    faults: u64,
}

impl Plan {
    /// These calls fail; there was none so far.
    pub fn new(fails: Vec<u64>) -> Plan
        ensures fails { result.fails ≡ fails }
        ensures calls { result.calls ≡ 0 }
        ensures faults { result.faults ≡ 0 }
    {
        Plan {
            fails,
            calls: 0,
            faults: 0,
        }
    }

    /// How many calls there were; the count stands still at its end.
    pub fn calls(&self) -> u64
        ensures { result ≡ self.now.calls }
    {
        self.calls
    }

    /// How many of them failed; the count stands still at its end.
    pub fn faults(&self) -> u64
        ensures { result ≡ self.now.faults }
    {
        self.faults
    }

    /// Counts one more call and answers whether it fails, which is a fault.
    pub fn fails_now(&mut self) -> bool
        ensures planned { IsTrue result ↔ Contains self.old.fails.items self.old.calls }
        ensures plan { self.new.fails ≡ self.old.fails }
        ensures counted { self.new.calls ≡ min (self.old.calls + 1) (2 ^ 64 - 1) }
        ensures rose { IsTrue result → Rose self.old.faults self.new.faults }
        ensures later { self.old.faults ≤ self.new.faults }
        ensures still { result ≡ false → self.new.faults ≡ self.old.faults }
    {
        let fails = self.fails.contains(&self.calls);
        self.calls = self.calls.saturating_add(1);
        if fails {
            self.faults = self.faults.saturating_add(1);
        }
        fails
    }
}
