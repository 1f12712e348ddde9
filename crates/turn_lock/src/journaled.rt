//! Values that keep a journal.

ghost use Rattle.std.specs.Prelude.{◌≡◌, ℕ, List};

/// A value that stands for a journal. Each entry names the number of who made it, and new entries
/// name the holder's.
pub trait Journaled {
    /// One entry of the journal.
    type Entry;

    /// The entries, the newest first.
    ghost journal: { Self → List Self.Entry };

    /// The number that an entry names.
    ghost by: { Self.Entry → ℕ };

    /// The number that new entries will name.
    ghost holder: { Self → ℕ };

    /// Which of several values of its type it is. No call changes it.
    ghost label: { Self → ℕ };

    /// The same value, whose new entries will name this number.
    ghost held: { Self → ℕ → Self };

    /// Has new entries name this number, and changes nothing else.
    fn hold(&mut self, number: u16)
        ensures all { self.new ≡ held self.old number }
        ensures same { journal self.new ≡ journal self.old }
        ensures label { label self.new ≡ label self.old }
        ensures holder { holder self.new ≡ number };

    /// Which of several values of its type it is.
    fn label(&self) -> u16
        ensures { result ≡ label self.now };

    /// The number that new entries name.
    fn holder(&self) -> u16
        ensures { result ≡ holder self.now };
}
