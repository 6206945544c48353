// How the program ended.
ghost use Rattle.std.specs.Prelude.{◌≡◌};
ghost use Rattle.std.specs.Process.{exit_status};
ghost use Rattle.script.specs.Outcomes.{status_of};

use std::process::ExitCode;

// A refused line is an answer: all is done where each line has its answer, and each record that is asked for is archived
// or listed.
#[derive(Clone, Copy)]
pub enum Outcome {
    Done,
    ArchiveRefused,
    WrongArguments,
    Failed,
}

impl Outcome {
    // The status that the process ends with.
    pub(crate) fn status(self) -> ExitCode
        ensures { exit_status result ≡ status_of self }
    {
        ExitCode::from(match self {
            Outcome::Done => 0,
            Outcome::ArchiveRefused => 1,
            Outcome::WrongArguments => 2,
            Outcome::Failed => 3,
        })
    }
}
