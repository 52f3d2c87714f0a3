//! The files of the machine, its standard input, and its sockets.
use crate::program::Outside;
use commands::UdpLink;
use std::fs::File;
use std::io::{Read, Stdin, Write};
use std::{fs, io};

/// Opens the files and the sockets of the machine.
#[derive(Drop)]
pub struct Host<'a> {
    pub rt: &'a HostRuntime,
}

/// What a command line reads.
#[derive(Drop)]
pub enum Source {
    File(File),
    Standard(Stdin),
}

impl Read for Source {
    fn read(&mut self, buf: &mut [u8]) -> io::Result<usize> {
        match self {
            Source::File(file) => file.read(buf),
            Source::Standard(stdin) => stdin.read(buf),
        }
    }
}

impl Outside for Host<'_> {
    type Input = Source;

    type Link = UdpLink;

    /// `-` is the standard input.
    fn open(&self, path: &str) -> Option<Source> {
        if path == "-" {
            return Some(Source::Standard(self.rt.stdin()));
        }
        match fs::open(self.rt, path) {
            Ok(file) => Some(Source::File(file)),
            Err(_) => None,
        }
    }

    /// To write nothing is an error where the output is closed.
    fn has_output(&self) -> bool {
        self.rt.stdout().write(&[]).is_ok()
    }

    fn link(&self) -> Option<UdpLink> {
        UdpLink::open(self.rt).ok()
    }
}
