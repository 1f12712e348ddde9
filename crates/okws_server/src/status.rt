//! How a run ends.

ghost use Rattle.std.specs.Prelude.{◌≡◌};
ghost use Rattle.okws_server.specs.Status.{status_number};

/// How a run ended; the number is the program's exit status.
#[derive(Clone, Copy, PartialEq, Eq)]
pub enum Status {
    /// The run came to its end.
    Ok,
    /// The words are no command.
    Usage,
    /// A file could not be read.
    ReadFault,
    /// The configuration is refused.
    ConfigRefused,
    /// The network failed at listen.
    NetFault,
    /// A store could not be made.
    StoreFault,
    /// The log could not be written.
    LogFault,
    /// What was due to be printed could not be printed.
    OutFault,
    /// The script is refused.
    ScriptRefused,
    /// The operator's console failed.
    ConsoleFault,
    /// Memory was refused.
    NoMemory,
}

impl Status {
    /// The program's exit status.
    pub fn number(self) -> u8
        ensures { result ≡ status_number self }
    {
        match self {
            Status::Ok => 0,
            Status::Usage => 2,
            Status::ReadFault => 3,
            Status::ConfigRefused => 4,
            Status::NetFault => 5,
            Status::StoreFault => 6,
            Status::LogFault => 7,
            Status::OutFault => 8,
            Status::ScriptRefused => 9,
            Status::ConsoleFault => 10,
            Status::NoMemory => 11,
        }
    }
}
