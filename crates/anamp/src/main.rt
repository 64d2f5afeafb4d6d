//! The program: runs a script of NVMe paths, or reads their log pages, and prints what came of it.
#![tactic(auto)]

use mp_io::host::{HostFolder, HostOut};
use mp_page::BoxError;
use mp_run::status::Status;
use mp_run::top::top_plain;
use mp_script::errors::ScriptError;
use mp_topology::errors::{Place, TopologyError};
use std::alloc::{AllocError, Global};
use std::env;
use std::io::{self, Eprint, ErrorKind};
use std::process::ExitCode;
use std::rt::Env;

#[cfg(test)]
mod tests;

/// A refusal that carries a place of the topology.
fn place_line(alloc: Global, name: &str, place: Place) -> Result<String, AllocError> {
    format!(in alloc; "topology refused {name} {place}")
}

/// What is said of a refused topology.
fn topology_line(alloc: Global, error: TopologyError) -> Result<String, AllocError> {
    match error {
        TopologyError::NotToml => String::from_str(alloc, "topology refused NotToml"),
        TopologyError::Field(place) => place_line(alloc, "Field", place),
        TopologyError::Range(place) => place_line(alloc, "Range", place),
        TopologyError::Duplicate(place) => place_line(alloc, "Duplicate", place),
        TopologyError::Limit(place) => place_line(alloc, "Limit", place),
        TopologyError::NoMemory => String::from_str(alloc, "out of memory"),
    }
}

/// A refusal that carries a number of the script: a line, from 1, or an offset.
fn numbered_line(alloc: Global, name: &str, number: u32) -> Result<String, AllocError> {
    format!(in alloc; "script refused {name} {number}")
}

/// What is said of a refused script.
fn script_line(alloc: Global, error: ScriptError) -> Result<String, AllocError> {
    match error {
        ScriptError::NotAscii(offset) => numbered_line(alloc, "NotAscii", offset),
        ScriptError::Line(line) => numbered_line(alloc, "Line", line),
        ScriptError::Unknown(line) => numbered_line(alloc, "Unknown", line),
        ScriptError::Number(line) => numbered_line(alloc, "Number", line),
        ScriptError::Repeat(line) => numbered_line(alloc, "Repeat", line),
        ScriptError::NotKeeper(line) => numbered_line(alloc, "NotKeeper", line),
        ScriptError::Limit(line) => numbered_line(alloc, "Limit", line),
        ScriptError::NoMemory => String::from_str(alloc, "out of memory"),
    }
}

/// What is said of refused boxes.
fn boxes_line(alloc: Global, error: BoxError) -> Result<String, AllocError> {
    match error {
        BoxError::TooMany => String::from_str(alloc, "boxes refused TooMany"),
        BoxError::ShortBox(offset) => format!(in alloc; "boxes refused ShortBox {offset}"),
        BoxError::LongBox(offset) => format!(in alloc; "boxes refused LongBox {offset}"),
        BoxError::NoMemory => String::from_str(alloc, "out of memory"),
    }
}

/// What is said of a status other than `Ok`.
fn fault_line(alloc: Global, status: Status) -> Result<String, AllocError> {
    match status {
        Status::Ok => Ok(String::new(alloc)),
        Status::NoMemory => String::from_str(alloc, "out of memory"),
        Status::Usage => String::from_str(alloc, "usage"),
        Status::ReadFault(file) => format!(in alloc; "read fault in file {file}"),
        Status::WriteFault => String::from_str(alloc, "write fault"),
        Status::Topology(error) => topology_line(alloc, error),
        Status::Script(error) => script_line(alloc, error),
        Status::Boxes(error) => boxes_line(alloc, error),
        Status::TooLong(file) => format!(in alloc; "file {file} is too long"),
        Status::Spent(lane) => {
            let lane = lane.get();
            format!(in alloc; "lane {lane} is spent")
        }
    }
}

/// Says on standard error why the call did not end with `Ok`.
fn say_fault(rt: &impl Eprint, alloc: Global, status: Status) -> io::Result<()> {
    match fault_line(alloc, status) {
        Ok(line) => eprintln!(rt; "anamp: {line}"),
        Err(_) => eprintln!(rt; "anamp: out of memory"),
    }
}

/// The words of the command line, without the program's name. Words that aren't UTF-8 are of none of the forms.
fn words(rt: &(impl Env + AllocGlobal)) -> Result<Vec<String>, Status> {
    let mut words = Vec::new(rt.alloc());
    let args = match env::args(rt) {
        Ok(args) => args,
        Err(error) => {
            return Err(match error.kind() {
                ErrorKind::InvalidData => Status::Usage,
                _ => Status::NoMemory,
            });
        }
    };
    for word in args.skip(1) {
        if words.push(word).is_err() {
            return Err(Status::NoMemory);
        }
    }
    Ok(words)
}

fn main(rt: HostRuntime) -> ExitCode {
    let status = match words(&rt) {
        Ok(words) => {
            let mut folder = HostFolder::make(&rt);
            let mut out = HostOut::make(&rt);
            top_plain(rt.alloc(), &words, &mut folder, &mut out)
        }
        Err(status) => status,
    };
    if status.code() != 0 {
        let _ = say_fault(&rt, rt.alloc(), status);
    }
    ExitCode::from(status.code())
}
