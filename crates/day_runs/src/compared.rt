//! The files of a folder, each compared with what the program does.

use crate::folder::try_day;
use crate::said::{Command, try_file};
use crate::tally::tell_tally;
use std::rt::Files;
use std::thread::Threads;
use std::{fs, io};

/// What is compared.
#[derive(Clone, Copy)]
enum Compared {
    /// The days of the folder that the program runs in.
    Days,
    /// What a command answers.
    Answers(Command),
}

impl Compared {
    /// What each of the files says, in a word.
    fn kind(self) -> &'static str {
        match self {
            Compared::Days => "day",
            Compared::Answers(command) => command.kind(),
        }
    }

    fn folder(self) -> &'static str {
        match self {
            Compared::Days => ".",
            Compared::Answers(command) => command.folder(),
        }
    }

    /// How the names of the files end.
    fn ending(self) -> &'static str {
        match self {
            Compared::Days => ".served.lines",
            Compared::Answers(command) => command.ending(),
        }
    }

    /// Compares one, and tells of a difference. Answers whether there is none.
    fn try_name<Rt: Files + Print + AllocGlobal + Threads + Sync>(
        self,
        rt: &Rt,
        name: &str,
    ) -> io::Result<bool> {
        match self {
            Compared::Days => try_day(rt, name),
            Compared::Answers(command) => try_file(rt, command, name),
        }
    }

    /// Compares the one in a file, and tells of a difference. Answers whether there is none; none where the file is no such one.
    fn try_entry<Rt: Files + Print + AllocGlobal + Threads + Sync>(
        self,
        rt: &Rt,
        file: &str,
    ) -> io::Result<Option<bool>> {
        match file.strip_suffix(self.ending()) {
            Some(name) => Ok(Some(self.try_name(rt, name)?)),
            None => Ok(None),
        }
    }

    /// Compares each, tells of each difference, and then how many there are, or that they agree. Answers whether there is one, and
    /// none differs.
    fn agrees<Rt: Files + Print + AllocGlobal + Threads + Sync + Clone + Drop>(
        self,
        rt: &Rt,
    ) -> io::Result<bool> {
        let (mut count, mut differ) = (0usize, 0usize);
        for entry in fs::read_dir(rt, self.folder())? {
            let entry = entry?;
            if let Some(agrees) = self.try_entry(rt, entry.file_name())? {
                count = count.saturating_add(1);
                differ = differ.saturating_add(usize::from(!agrees));
            }
        }
        tell_tally(rt, self.kind(), count, differ)
    }
}

/// Runs each day of the folder that the program runs in, tells of each difference, and then how many days there are, or that
/// they agree. Answers whether there is a day, and none differs.
pub fn agree<Rt: Files + Print + AllocGlobal + Threads + Sync + Clone + Drop>(
    rt: &Rt,
) -> io::Result<bool> {
    Compared::Days.agrees(rt)
}

/// Compares what a command answers with each file that says so, in its folder of the one that the program runs in. It tells of
/// each difference, and then how many there are, or that the files agree. Answers whether there is a file, and none differs.
pub fn files_agree<Rt: Files + Print + AllocGlobal + Threads + Sync + Clone + Drop>(
    rt: &Rt,
    command: Command,
) -> io::Result<bool> {
    Compared::Answers(command).agrees(rt)
}
