ghost use Rattle.std.specs.Prelude.{◌≡◌, option_map};
ghost use Rattle.warp_run.specs.Status.{exit_code, error_line};

/// How a run ended.
#[derive(Clone, Copy, Debug, PartialEq, Eq)]
pub enum Status {
    /// The report was written.
    Done,
    /// The first line is no site.
    BadSite,
    /// What follows does not begin with a hello, or two uploads of a round are of one client.
    BadHello,
    /// An allocation, the start of a thread of a round, or random bytes at the start were refused.
    OutOfMemory,
    /// A read of the site line failed, a file or a port could not be opened, or too few callers came; or a write of the report failed or took nothing.
    InputOutput,
}

impl Status {
    /// The exit status of the program.
    pub fn code(self) -> u8
        ensures { result ≡ exit_code self }
    {
        match self {
            Status::Done => 0,
            Status::BadSite => 3,
            Status::BadHello => 4,
            Status::OutOfMemory => 5,
            Status::InputOutput => 6,
        }
    }

    /// The line for standard error; none where the run was done.
    pub fn line(self) -> Option<&'static str>
        ensures { option_map (λ line. line.now) result ≡ error_line self }
    {
        match self {
            Status::Done => None,
            Status::BadSite => Some("bad site"),
            Status::BadHello => Some("bad hello"),
            Status::OutOfMemory => Some("no memory"),
            Status::InputOutput => Some("input or output failed"),
        }
    }
}
