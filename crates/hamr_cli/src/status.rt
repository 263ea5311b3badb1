//! How a call of the program ends.

ghost use Rattle.std.specs.Prelude.{◌≡◌};
ghost use Rattle.hamr_cli.specs.Status.{number_of};

/// The exit statuses (this project's own; README).
#[derive(Clone, Copy, Debug, PartialEq, Eq)]
pub enum Status {
    /// The command's text was printed, and nothing in it is false.
    Done,
    /// The command's text was printed, and a verdict in it is false.
    SomeFalse,
    /// The words are no row of the table of commands.
    Words,
    /// The model, or a contract in it, is not accepted.
    Model,
    /// The C of a domain is not accepted.
    User,
    /// A run file or a trace is not accepted, or a component is none.
    RunFile,
    /// A file is not there.
    Absent,
    /// A file could not be read.
    ReadFault,
    /// A file or the standard output could not be written.
    WriteFault,
    /// There was no memory.
    NoMemory,
}

impl Status {
    /// The number that the program exits with, from 0 to 9 in the order of the table.
    pub fn number(self) -> u8
        ensures { result ≡ number_of self }
    {
        match self {
            Status::Done => 0,
            Status::SomeFalse => 1,
            Status::Words => 2,
            Status::Model => 3,
            Status::User => 4,
            Status::RunFile => 5,
            Status::Absent => 6,
            Status::ReadFault => 7,
            Status::WriteFault => 8,
            Status::NoMemory => 9,
        }
    }
}
