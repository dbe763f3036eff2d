//! Why the words of the command line ask for nothing.

use crate::request::{Job, Setting};
use clap::error::{Error, ErrorKind};
use std::alloc::AllocError;
use std::fmt::{self, Display, Formatter, Write};
use std::io;

/// An option among the words that isn't read.
#[derive(Clone, Copy)]
pub enum Unread {
    /// The job reads others alone.
    ByJob { setting: Setting, job: Job },
    /// The picture has several values of it.
    ByPicture { setting: Setting },
}

impl Display for Unread {
    fn fmt<W: Write>(&self, f: &mut Formatter<W>) -> fmt::Result {
        match *self {
            Unread::ByJob { setting, job } => {
                let (name, word) = (setting.name(), job.word());
                write!(f, "the job '{word}' doesn't read '--{name}'")
            }
            Unread::ByPicture { setting } => {
                let name = setting.name();
                write!(f, "'picture --by {name}' doesn't read '--{name}'")
            }
        }
    }
}

/// Why the words ask for nothing, or help where they ask for it.
#[derive(Drop)]
pub enum WordFault {
    /// What clap says of them.
    Words(Error),
    Unread(Unread),
    /// A word is not UTF-8.
    NotText,
}

impl WordFault {
    /// The status with which the program ends: 0 behind help, 1 where there is no memory, and 2 for other words.
    pub fn status(&self) -> u8 {
        match self {
            WordFault::Words(error) => status_of(error.kind()),
            WordFault::Unread(_) | WordFault::NotText => 2,
        }
    }

    /// Prints the text for the user: help as an output, and what is wrong as a message.
    pub fn print<R: Print + Eprint>(&self, rt: &R) -> io::Result<()> {
        match self {
            WordFault::Words(error) => error.print(rt),
            WordFault::Unread(unread) => {
                eprintln!(rt; "error: {unread}\n\nFor more information, try '--help'.")
            }
            WordFault::NotText => {
                eprintln!(rt; "error: a word of the command line is not UTF-8")
            }
        }
    }
}

fn status_of(kind: ErrorKind) -> u8 {
    if kind == ErrorKind::DisplayHelp {
        0
    } else if kind == ErrorKind::OutOfMemory {
        1
    } else {
        2
    }
}

impl From<Error> for WordFault {
    fn from(error: Error) -> WordFault {
        WordFault::Words(error)
    }
}

impl From<AllocError> for WordFault {
    fn from(error: AllocError) -> WordFault {
        WordFault::Words(error.into())
    }
}

impl From<Unread> for WordFault {
    fn from(unread: Unread) -> WordFault {
        WordFault::Unread(unread)
    }
}
