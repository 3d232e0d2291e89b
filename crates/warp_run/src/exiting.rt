ghost use Rattle.std.specs.Prelude.{◌≡◌};
ghost use Rattle.std.specs.Process.{exit_status};

use std::process::ExitCode;

/// How a program ends: says this line on standard error, where there is one, and gives the exit status.
pub fn exit_with(rt: &impl Eprint, code: u8, line: Option<&'static str>) -> ExitCode
    ensures { exit_status result ≡ code }
{
    if let Some(line) = line {
        let _ = rt.eprintln(line);
    }
    ExitCode::from(code)
}
