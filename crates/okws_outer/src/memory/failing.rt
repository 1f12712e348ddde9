//! Which calls of an object fail, and how many have.

ghost use Rattle.std.specs.Prelude.{◌≡◌, ◌≤◌, ◌+◌, ◌==◌, true, false, length};
ghost use Rattle.okws_outer.specs.Streams.{Counts, Rose, counted};

/// The numbers of the calls that fail, the number of the next call, and the count of faults.
#[derive(Clone, Copy)]
pub struct Failing<'a> {
    /// The numbers of the calls that fail.
    pub calls: &'a [u64],
    next: u64,
    /// How many calls have failed; it never falls, and stays at 2^64 - 1 once it is there.
    pub faults: u64,
}

impl<'a> Failing<'a> {
    /// The calls of these numbers fail, and none has yet.
    pub fn at(calls: &'a [u64]) -> Self
        ensures calls { result.calls.now ≡ calls.now }
        ensures faults { result.faults ≡ 0 }
    {
        Failing {
            calls,
            next: 0,
            faults: 0,
        }
    }

    /// Numbers a call, and tells whether it fails, which is then counted.
    pub fn fails(&mut self) -> bool
        ensures calls { self.new.calls ≡ self.old.calls }
        ensures faults { Counts self.old.faults self.new.faults (result ≡ true) }
        ensures still { result ≡ false → self.new.faults ≡ self.old.faults }
        ensures never { (length self.old.calls.now == 0) ≡ true → result ≡ false }
    {
        let call = self.next;
        self.next = self.next.saturating_add(1);
        let fails = self.calls.contains(&call);
        if fails {
            self.count();
        }
        fails
    }

    /// The same, of an object of which each call fails where `refuses` says so.
    pub fn fails_or(&mut self, refuses: bool) -> bool
        ensures faults { Counts self.old.faults self.new.faults (result ≡ true) }
        ensures still { result ≡ false → self.new.faults ≡ self.old.faults }
    {
        if refuses {
            self.count();
            return true;
        }
        self.fails()
    }

    /// Counts a fault; the count stays at 2^64 - 1.
    pub fn count(&mut self)
        ensures calls { self.new.calls ≡ self.old.calls }
        ensures later { self.old.faults ≤ self.new.faults }
        ensures rose { Rose self.old.faults self.new.faults }
        ensures by { self.new.faults ≤ self.old.faults + 1 }
    {
        self.faults = self.faults.saturating_add(1);
    }

    /// Counts so many faults; the count stays at 2^64 - 1.
    pub fn add(&mut self, faults: u64)
        ensures calls { self.new.calls ≡ self.old.calls }
        ensures faults { self.new.faults ≡ counted self.old.faults faults }
    {
        self.faults = self.faults.saturating_add(faults);
    }
}
