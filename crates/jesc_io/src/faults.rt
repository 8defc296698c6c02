ghost use Rattle.std.specs.Prelude.{◌≡◌, ◌+◌, ◌-◌, ◌^◌, min};
ghost use Rattle.jesc_io.specs.Schedule.{fault_of};

use jesc_text::List;

/// The faults that an object in memory is to have, by the numbers of its calls.
#[derive(Drop)]
pub struct Faults {
    list: List<(u32, u32)>,
    calls: u64,
}

/// How many bytes the call of this number takes before it fails, if the list has it; the first pair counts.
fn fault_at(list: &[(u32, u32)], call: u64) -> Option<u32>
    ensures { result ≡ fault_of list.now call }
{
    for fault in list {
        if fault.0 as u64 == call {
            return Some(fault.1);
        }
    }
    None
}

impl Faults {
    pub fn new(list: List<(u32, u32)>) -> Faults
        ensures { result ≡ record { list = list; calls = 0 } }
    {
        Faults { list, calls: 0 }
    }

    /// Numbers the next call, and tells how many bytes it takes before it fails, if it is to fail.
    pub fn next(&mut self) -> Option<u32>
        ensures fault { result ≡ fault_of self.old.list self.old.calls }
        ensures calls { self.new ≡ record { list = self.old.list; calls = min (self.old.calls + 1) (2 ^ 64 - 1) } }
    {
        let fault = fault_at(self.list.as_slice(), self.calls);
        self.calls = self.calls.saturating_add(1);
        fault
    }
}
