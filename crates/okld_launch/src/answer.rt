//! What the launcher's calls answer.

ghost use Rattle.std.specs.Prelude.{◌≡◌};
ghost use Rattle.okld_launch.specs.Ups.{crash_up, launch_up, tend_up};

/// What `launch` and `relaunch` answer.
#[derive(Clone, Copy)]
pub enum Launched {
    /// This incarnation was begun in the call, and is up.
    Up(u32),
    /// The service was given up after so many tries.
    Dead(u32),
    /// The last incarnation that the service may have was begun.
    Spent,
    /// Memory was refused.
    NoMemory,
}

impl Launched {
    /// Whether an incarnation was begun in the call, and is up.
    pub fn is_up(self) -> bool
        ensures { result ≡ launch_up self }
    {
        matches!(self, Launched::Up(_))
    }
}

/// What `crashed` answers.
#[derive(Clone, Copy)]
pub enum Crashed {
    /// This incarnation was begun in the call, and is up.
    Up(u32),
    /// The service was given up after so many tries.
    Dead(u32),
    /// The last incarnation that the service may have was begun.
    Spent,
    /// This incarnation was begun after the one that crashed.
    Later(u32),
    /// Memory was refused.
    NoMemory,
}

impl Crashed {
    /// Whether an incarnation was begun in the call, and is up.
    pub fn is_up(self) -> bool
        ensures { result ≡ crash_up self }
    {
        matches!(self, Crashed::Up(_))
    }
}

/// What `tend` answers.
#[derive(Clone, Copy)]
pub enum Tended {
    /// The service is up, and its child did not say that it has ended.
    Alive,
    /// This incarnation was begun in the call, and is up.
    Up(u32),
    /// The service was given up after so many tries.
    Dead(u32),
    /// The last incarnation that the service may have was begun.
    Spent,
    /// Memory was refused.
    NoMemory,
}

impl Tended {
    /// Whether an incarnation was begun in the call, and is up.
    pub fn is_up(self) -> bool
        ensures { result ≡ tend_up self }
    {
        matches!(self, Tended::Up(_))
    }
}

/// How one attempt at a launch went.
#[derive(Clone, Copy)]
pub enum Attempt {
    /// The incarnation is up.
    Up(u32),
    /// The child did not start, or its link failed before it was booted.
    Failed,
    /// Memory was refused.
    NoMemory,
}
