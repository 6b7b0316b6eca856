ghost use Rattle.std.specs.Prelude.{◌≡◌};
ghost use Rattle.strand_app.specs.StatusCode.{exit_code_of};

/// How a call ended (docs/program.md).
#[derive(Clone, Copy, Debug, PartialEq, Eq)]
pub enum Status {
    /// The command's text was put.
    Ok,
    /// The answer was no: of `judge` and `gen`, of `refute` or of `check` (docs/program.md).
    No,
    /// The words are no command.
    Words,
    /// A file is not of its form.
    Input,
    /// A file could not be fetched.
    FileFault,
    /// The sink failed; a proper front of the text was put.
    SinkFault,
    /// A memory module refused a word.
    ModuleFault,
    /// Memory ran out, and nothing was put.
    Memory,
    /// A quantity is outside its limits.
    Limit,
    /// The stop is past the schedule's steps.
    StopPast,
}

impl Status {
    /// The exit status of the process.
    pub fn code(&self) -> u8
        ensures { result ≡ exit_code_of self.now }
    {
        match self {
            Status::Ok => 0,
            Status::No => 1,
            Status::Words => 2,
            Status::Input => 3,
            Status::FileFault => 4,
            Status::SinkFault => 5,
            Status::ModuleFault => 6,
            Status::Memory => 7,
            Status::Limit => 8,
            Status::StopPast => 9,
        }
    }
}

/// What is to be put, and how the call ends if it is.
#[derive(Drop)]
pub struct Made {
    pub status: Status,
    pub text: Vec<u8>,
}
