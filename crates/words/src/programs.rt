// What programs share: the arguments of a call, and how a program ends.
ghost use Rattle.std.specs.Prelude.{◌≡◌, true, Some, Ok, IfOk};
ghost use Rattle.std.specs.Fn.{FnOnceReturnsAt};
ghost use Rattle.std.specs.Process.{exit_status};
ghost use Rattle.words.specs.declared.programs.Stop.TheVariants.{Refused, Failed};
ghost use Rattle.words.specs.Programs.{status, HasFailed, StopsBy};

use crate::taking::Fault;
use codec::edits::Refusal;
use std::alloc::{AllocError, AllocFailed};
use std::process::ExitCode;
use std::{env, io};

// Why a program stops: a page or a file is refused, or the world fails it.
#[derive(Debug, Drop)]
pub enum Stop {
    Refused(Refusal),
    Failed(io::Error),
}

impl From<Refusal> for Stop {
    ghost from_gives = { λ why stop. stop ≡ Refused why };

    fn from(why: Refusal) -> Stop {
        Stop::Refused(why)
    }
}

impl From<io::Error> for Stop {
    ghost from_gives = { λ fault stop. stop ≡ Failed fault };

    fn from(fault: io::Error) -> Stop {
        Stop::Failed(fault)
    }
}

impl From<AllocError> for Stop {
    ghost from_gives = { λ _ stop. HasFailed stop };

    fn from(_failed: AllocError) -> Stop {
        Stop::Failed(io::Error::from(io::ErrorKind::OutOfMemory))
    }
}

impl<T: Drop> From<AllocFailed<T>> for Stop {
    ghost from_gives = { λ _ stop. HasFailed stop };

    fn from(failed: AllocFailed<T>) -> Stop {
        Stop::from(AllocError::from(failed))
    }
}

impl From<Fault> for Stop {
    ghost from_gives = { StopsBy };

    fn from(fault: Fault) -> Stop {
        match fault {
            Fault::Refused(why) => Stop::Refused(why),
            Fault::NoMemory => Stop::from(AllocError),
        }
    }
}

// The arguments of the call, without the program's name.
fn arguments(rt: &HostRuntime) -> io::Result<Vec<String>> {
    Ok(env::args(rt)?.skip(1).collect(rt.alloc())?)
}

// How a program ends: with success only where nothing was left out, and where it stopped, it says why.
fn end(rt: &HostRuntime, name: &str, outcome: Result<bool, Stop>) -> io::Result<ExitCode>
    ensures { IfOk result (λ code. exit_status code ≡ status outcome) }
{
    let said = match outcome {
        Ok(all) => Ok(all),
        Err(Stop::Refused(why)) => println!(rt; "{why}").map(|()| false),
        Err(Stop::Failed(fault)) => Err(fault),
    };
    match said {
        Ok(true) => Ok(ExitCode::SUCCESS),
        Ok(false) => Ok(ExitCode::FAILURE),
        Err(fault) => {
            eprintln!(rt; "{name}: {fault}")?;
            Ok(ExitCode::FAILURE)
        }
    }
}

// Does what the arguments ask of a program, or says how it is called: `act` answers None where the arguments are no call.
// What `act` gives is three answers (no call, stopped, whether all was done), since the first is no error of what only acts.
pub fn perform<F: FnOnce(&[String]) -> Option<Result<bool, Stop>>>(
    rt: &HostRuntime,
    name: &str,
    usage: &str,
    act: F,
) -> io::Result<ExitCode>
    requires { F.IsAlwaysCallable act }
    ensures { IfOk result (λ code. exit_status code ≡ 0 → (args : _) × FnOnceReturnsAt F.FnOnce act args (Some (Ok true))) }
{
    let args = arguments(rt)?;
    match act(args.as_slice()) {
        Some(outcome) => end(rt, name, outcome),
        None => {
            eprintln!(rt; "{usage}")?;
            Ok(ExitCode::FAILURE)
        }
    }
}
