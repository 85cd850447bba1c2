// The files, each known by the number of the argument that names it, and their bytes.
ghost use Rattle.std.specs.Prelude.{◌≤◌, length, IfOk};

use crate::reasons;
use program_quotes::stderr;
use std::fs;
use std::io::{Input, Read};
use std::rt::{Env, Files};

// Argument i, in a lent block; empty if there is none or it is longer than the block.
fn argument<'a>(rt: &impl Env, i: usize, block: &'a mut [u8; 4096]) -> &'a [u8]
    ensures { length result.now ≤ 4096 }
{
    match rt.arg(i, block) {
        Ok(n) => &block[..n],
        Err(_) => b"",
    }
}

// Says the name of a file as it was given.
pub fn say_name(rt: &impl Env, name: usize) {
    let mut block = io::buffer();
    match argument(rt, name, &mut block) {
        b"-" => stderr::say("standard input"),
        path => stderr::say_bytes(path),
    }
}

// Says that a file that was opened can't be read, as a folder can't.
pub fn say_unread(rt: &impl Env, name: usize) {
    say_name(rt, name);
    stderr::say(": can't be read\n");
}

// Says that the answer can't be written, as to a disk that is full.
pub fn say_unwritten() {
    stderr::say("standard output: can't be written\n");
}

// Opens the file at a path for reading; or says why it can't be.
fn open_path<R: Files>(rt: &R, path: &[u8]) -> Option<R::File> {
    let Ok(text) = str::from_utf8(path) else {
        reasons::say_unnamed(path);
        return None;
    };
    match fs::open(rt, text) {
        Ok(file) => Some(file),
        Err(error) => {
            reasons::say(path, error);
            None
        }
    }
}

// Opens the file for reading; or says why it can't be, and answers none.
pub fn open<R: Env + Files>(rt: &R, name: usize) -> Option<R::File> {
    let mut block = io::buffer();
    let path = argument(rt, name, &mut block);
    if path.is_empty() {
        stderr::say("khushelvo: the name of a file is empty or too long\n");
        return None;
    }
    open_path(rt, path)
}

// A file that is open, or standard input.
#[derive(Drop)]
pub enum Source<F, I> {
    Opened(F),
    Input(I),
}

impl<F: Read, I: Read> Read for Source<F, I> {
    fn read(&mut self, block: &mut [u8]) -> std::io::Result<usize> {
        match self {
            Source::Opened(file) => file.read(block),
            Source::Input(input) => input.read(block),
        }
    }
}

// The plan may be standard input.
pub fn open_plan<R: Env + Files + Input>(
    rt: &R,
    name: usize,
) -> Option<Source<R::File, R::Reader>> {
    let mut block = io::buffer();
    if argument(rt, name, &mut block) == b"-".as_slice() {
        Some(Source::Input(rt.reader()))
    } else {
        Some(Source::Opened(open(rt, name)?))
    }
}

// Reads to the front of the block until `size` bytes are there or the file ends, and says how many are: a pipe hands over less than it is asked for.
pub fn fill(source: &mut impl Read, block: &mut [u8], size: usize) -> std::io::Result<usize>
    ensures { IfOk result (λ n. n ≤ length block.new) }
{
    let end = size.min(block.len());
    let mut used = 0;
    while used < end {
        match source.read(&mut block[used..end])? {
            0 => break,
            n => used += n,
        }
    }
    Ok(used)
}
