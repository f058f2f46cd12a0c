//! The connector's command line. It describes a packet, checks a configuration and a journal, prints the statement
//! of a peer's account, copies a journal, replays a script from standard input over a configuration, or runs a connector
//! of one.
//!
//! All of it is proved safe, and no more: what its commands do is promised by `ilp_described`,
//! `ilp_offline`, `ilp_statement`, `ilp_backup` and `ilp_serve`.
#![tactic(auto)]

mod asking;
mod checking;
mod helping;
mod inquiring;
mod replaying;
mod streams;

use asking::{Asked, Words};
use checking::{run_check, run_check_journal};
use helping::{USAGE, run_help, run_version};
use ilp_backup::print_backup;
use ilp_described::{describe_packet, reject_words};
use ilp_new_period::{follows, follows_all, new_period};
use ilp_refusals::Refusal;
use ilp_serve::{KeepsPeriods, ReadsConfigs, serve};
use ilp_starting::{Host, PlacesFiles, Refused, RunFault};
use inquiring::run_statement;
use replaying::run_replay;
use std::env;
use std::fs::File;
use std::io::ErrorKind;
use std::net::{Net, TcpListener, TcpStream};
use std::process::ExitCode;
use std::rt::{Files, Runtime};
use streams::HeldStreams;

// How the program ends.
#[derive(Drop)]
enum Exit {
    Done,
    Refused(Refused),
    // Its words are none of the commands.
    Misused,
    // Its words can't be meant so, of which a line on standard error has said more.
    Told,
    // Standard output could not be written.
    OutputFailed,
}

// A refusal of which nothing more is said.
impl From<Refusal> for Exit {
    fn from(refusal: Refusal) -> Exit {
        Exit::Refused(Refused::from(refusal))
    }
}

fn main(rt: HostRuntime) -> ExitCode {
    let _held = HeldStreams::hold(&rt);
    let exit = match given_words(&rt) {
        Ok(words) => run(&rt, &words),
        Err(exit) => exit,
    };
    ExitCode::from(status(&rt, exit))
}

// The words that the program is started with.
fn given_words<R: Runtime + AllocGlobal>(rt: &R) -> Result<Words, Exit> {
    let mut words = match env::args(rt) {
        Ok(args) => args.skip(1),
        Err(error) if error.kind() == ErrorKind::OutOfMemory => {
            return Err(Exit::from(Refusal::Memory));
        }
        Err(_) => return Err(Exit::Misused),
    };
    let Some(command) = words.next() else {
        return Err(Exit::Misused);
    };
    let mut about = Vec::new(rt.alloc());
    for word in words {
        if about.push(word).is_err() {
            return Err(Exit::from(Refusal::Memory));
        }
    }
    Ok(Words { command, about })
}

// Runs what the words ask for.
fn run<R>(rt: &R, words: &Words) -> Exit
where
    R: Host
        + Files<File = File>
        + PlacesFiles<File = File>
        + ReadsConfigs
        + KeepsPeriods
        + Net<Listener = TcpListener, Stream = TcpStream>,
{
    match words.asked() {
        Some(asked) => run_asked(rt, asked),
        None => Exit::Misused,
    }
}

// Runs what the program is asked for.
fn run_asked<R>(rt: &R, asked: Asked<'_>) -> Exit
where
    R: Host
        + Files<File = File>
        + PlacesFiles<File = File>
        + ReadsConfigs
        + KeepsPeriods
        + Net<Listener = TcpListener, Stream = TcpStream>,
{
    match asked {
        Asked::Help => run_help(rt),
        Asked::Version => run_version(rt),
        Asked::Packet(text) => run_packet(rt, text),
        Asked::Check(config, None) => run_check(rt, config),
        Asked::Check(config, Some(journal)) => run_check_journal(rt, config, journal),
        Asked::Replay(config) => run_replay(rt, config),
        Asked::Serve(config, journal) => ended(serve(rt, config, journal)),
        Asked::NewPeriod(config, journal, next) => ended(new_period(rt, config, journal, next)),
        Asked::Follows(config, kept, next, journal) => {
            ended(follows(rt, config, kept, next, journal))
        }
        Asked::FollowsAll(path, configs) => ended(follows_all(rt, path, configs)),
        Asked::Backup(journal, folder) => ended(print_backup(rt, journal, folder)),
        Asked::Statement(inquiry) => run_statement(rt, &inquiry),
    }
}

// How the program ends that ran a connector, or looked after its journal.
fn ended(served: Result<(), RunFault>) -> Exit {
    match served {
        Ok(()) => Exit::Done,
        Err(RunFault::Refused(refused)) => Exit::Refused(refused),
        Err(RunFault::OutputFailed) => Exit::OutputFailed,
    }
}

// Prints what a packet in hexadecimal says, and on standard error what a Reject says as text.
fn run_packet<R: Runtime + AllocGlobal>(rt: &R, text: &str) -> Exit {
    match describe_packet(rt.alloc(), text) {
        Ok(line) => {
            let exit = print_line(rt, line.as_str());
            tell_words(rt, text);
            exit
        }
        Err(refusal) => Exit::from(refusal),
    }
}

// Tells a person what a Reject says as text. Where memory is short its line was printed all the same.
fn tell_words<R: Runtime + AllocGlobal>(rt: &R, text: &str) {
    if let Ok(Some(words)) = reject_words(rt.alloc(), text) {
        let _ = rt.eprintln(words.as_str());
    }
}

// Prints the one line of a command that is done.
fn print_line<R: Runtime>(rt: &R, line: &str) -> Exit {
    match rt.println(line) {
        Ok(()) => Exit::Done,
        Err(_) => Exit::OutputFailed,
    }
}

// Prints how the program ends, and gives its exit status.
fn status<R: Runtime + AllocGlobal>(rt: &R, exit: Exit) -> u8 {
    match exit {
        Exit::Done => 0,
        Exit::Refused(refused) => status_of_refusal(rt, &refused),
        Exit::Misused => {
            let _ = rt.eprintln(USAGE);
            2
        }
        Exit::Told => 2,
        Exit::OutputFailed => 3,
    }
}

// Prints a refusal, tells why it came where that is said, and gives the exit status of the program that
// it ends.
fn status_of_refusal<R: Runtime>(rt: &R, refused: &Refused) -> u8 {
    let status = match rt.println(format_args!("refused {refused}")) {
        Ok(()) => 1,
        Err(_) => 3,
    };
    if let Some(why) = &refused.why {
        let _ = rt.eprintln(why.as_str());
    }
    status
}
