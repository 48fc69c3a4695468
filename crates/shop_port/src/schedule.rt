// Which calls of a fake fail, and how many have.
ghost use Rattle.std.specs.Prelude.{◌≡◌, ◌≤◌, if◌then◌else◌};
ghost use Rattle.shop_port.specs.Counts.{one_more, is_listed};

/// The numbers of the calls that are to fail, from 1 on, and two counts that stand still at their end.
#[derive(Drop)]
pub struct Schedule {
    pub failing: Vec<u64>,
    pub calls: u64,
    pub faults: u64,
}

impl Schedule {
    /// No call was made yet.
    pub fn new(failing: Vec<u64>) -> Schedule
        ensures { result ≡ record { failing = failing; calls = 0; faults = 0 } }
    {
        Schedule {
            failing,
            calls: 0,
            faults: 0,
        }
    }

    /// Counts a call, and says whether it fails; then it counts as a fault too.
    pub fn next_fails(&mut self) -> bool
        ensures calls { self.new.calls ≡ one_more self.old.calls }
        ensures listed { result ≡ is_listed self.new.calls self.old.failing.items }
        ensures faults { self.new.faults ≡ (if result then one_more self.old.faults else self.old.faults) }
        ensures rising { self.old.faults ≤ self.new.faults }
        ensures unchanged { self.new.failing.items ≡ self.old.failing.items }
    {
        self.calls = self.calls.saturating_add(1);
        let fails = self.failing.contains(&self.calls);
        if fails {
            self.add_fault();
        }
        fails
    }

    /// Counts a fault.
    pub fn add_fault(&mut self)
        ensures after { self.new ≡ record self.old { faults = one_more self.old.faults } }
        ensures rising { self.old.faults ≤ self.new.faults }
    {
        self.faults = self.faults.saturating_add(1);
    }
}
