// `drive FILE`: a console over the player. It opens the log in the file; then each line of standard input is a call, and gets a line.
#![tactic(auto)]

mod answer;
mod call;
mod console;
mod failure;
mod output;

ghost use Rattle.std.specs.Prelude.{◌≤◌, IfOk, IfSome, length};

use crate::output::Line;
use refusal::Refusal;
use register_log::Log;
use report::streams::STDERR_FILENO;
use std::env::FillError;
use std::fs::File;
use std::io::{Error, ErrorKind, Read, Result, Stdin, Stdout};
use std::rt::{Env, Files};
use std::str;

// The most bytes of a log's file.
const MOST: usize = 1_048_576;

// The bytes that came. A read may bring a part only, as of a pipe.
fn read_all(mut file: File, space: &mut [u8]) -> Result<&[u8]>
    ensures { IfOk result (λ t. length t.now ≤ length space.old) }
{
    let mut size = 0;
    while size < space.len() {
        let more = file.read(&mut space[size..])?;
        if more == 0 {
            break;
        }
        size += more;
    }
    Ok(&space[..size])
}

fn refused(to: Stdout, why: Refusal) {
    let mut line = Line::new();
    line.refused(why);
    line.words(b"\n");
    output::put(to, &line);
}

fn opened(to: Stdout, count: u32, cycles: u32) {
    let mut line = Line::new();
    output::labelled(&mut line, b"open entries ", count);
    output::labelled(&mut line, b" cycles ", cycles);
    line.words(b"\n");
    output::put(to, &line);
}

fn drive(from: Stdin, to: Stdout, log: &[u8]) {
    let c = register_log::check_log(log);
    match c {
        Ok(Log { count, cycles }) => {
            opened(to, count, cycles);
            console::run(from, to, log);
        }
        Err(why) => refused(to, why),
    }
}

// A name is text here. The file is closed behind it.
fn read_file<'a>(rt: &impl Files<File = File>, path: &[u8], space: &'a mut [u8]) -> Result<&'a [u8]>
    ensures { IfOk result (λ t. length t.now ≤ length space.old) }
{
    let Ok(name) = str::from_utf8(path) else {
        return Err(Error::from(ErrorKind::InvalidFilename));
    };
    read_all(File::open(rt, name)?, space)
}

// There is room for one byte more than a log may have, so that a longer one shows.
fn drive_file(rt: &impl Files<File = File>, path: &[u8], from: Stdin, to: Stdout) {
    let mut space = [0u8; 1048577];
    match read_file(rt, path, &mut space) {
        Ok(log) if log.len() > MOST => refused(to, Refusal::Room),
        Ok(log) => drive(from, to, log),
        Err(why) => failure::told(path, why),
    }
}

// The one argument; its length.
fn named(rt: &impl Env, path: &mut [u8; 4096]) -> Option<usize>
    ensures { IfSome result (λ n. n ≤ length path.new) }
{
    let mut second = [0u8; 1];
    if let Err(FillError::NotPresent) = rt.arg(2, &mut second) {
        return rt.arg(1, path).ok();
    }
    None
}

fn main(rt: HostRuntime) {
    let mut path = io::buffer();
    let Some(length) = named(&rt, &mut path) else {
        io::write_all(STDERR_FILENO, b"usage: drive FILE\n");
        return;
    };
    drive_file(&rt, &path[..length], rt.stdin(), rt.stdout());
}
