use crate::answer::times_as_worked;
use crate::case::Case;
use crate::texts::{Text, append, append_line, append_repeated};
use crate::unfit::Unfit;
use itoa::Buffer;
use std::alloc::Global;
use std::sync::Wait;
use std::thread::Threads;

/// What is added to the words of a command that is given with several numbers of workers.
const WORKERS: [&str; 3] = [" --workers 2", " --workers 3", " --workers 16"];

/// What is added to the words of a command that is given over links.
const LINKS: [&str; 3] = [" --link llld", " --link ta", " --link d"];

/// What was read so far: the texts, the group, its command that is still being read, and how many
/// commands of the group were given.
#[derive(Drop)]
pub struct Sheet<'a> {
    texts: Vec<Text<'a>>,
    group: &'a str,
    case: Option<Case<'a>>,
    given: u64,
    /// What is told of the groups that were given.
    report: String,
}

impl<'a> Sheet<'a> {
    pub fn new(alloc: Global) -> Sheet<'a> {
        Sheet {
            texts: Vec::new(alloc),
            group: "",
            case: None,
            given: 0,
            report: String::new(alloc),
        }
    }

    /// What is told of the groups that were given.
    pub fn into_report(self) -> String {
        let Sheet { report, .. } = self;
        report
    }

    /// Adds a line to the report.
    fn tell(&mut self, before: &str, text: &str) -> Result<(), Unfit> {
        self.report.push_str(before)?;
        self.report.push_str(text)?;
        self.report.push_str("\n")?;
        Ok(())
    }

    /// Reads a line. Where one ends a command, the command is given.
    pub fn read<R: Threads + Wait + Sync>(
        &mut self,
        rt: &R,
        alloc: Global,
        line: &'a str,
    ) -> Result<(), Unfit> {
        if line.is_empty() || line.starts_with('#') {
            return Ok(());
        }
        let (word, rest) = line.split_once(' ').unwrap_or((line, ""));
        match word {
            "define" => self.texts.push(Text {
                name: rest,
                bytes: Vec::new(alloc),
            })?,
            "group" => {
                self.end_group(rt, alloc)?;
                self.group = rest;
            }
            "case" => {
                self.end_case(rt, alloc)?;
                self.case = Some(Case::new(alloc, rest));
            }
            _ => {
                if !self.take(alloc, word, rest)? {
                    self.tell("no such line: ", line)?;
                }
            }
        }
        Ok(())
    }

    /// Takes a line of a text or of a command. Answers whether there is such a line.
    fn take(&mut self, alloc: Global, word: &str, rest: &'a str) -> Result<bool, Unfit> {
        if let Some(case) = &mut self.case {
            return case.take(alloc, word, rest, self.texts.as_slice());
        }
        let Some(text) = self.texts.last_mut() else {
            return Ok(false);
        };
        match word {
            "|" => append_line(&mut text.bytes, rest)?,
            "+" => append(&mut text.bytes, rest)?,
            "*" => append_repeated(&mut text.bytes, rest)?,
            _ => return Ok(false),
        }
        Ok(true)
    }

    /// Gives the command that was read, and tells where something else came of it.
    fn end_case<R: Threads + Wait + Sync>(&mut self, rt: &R, alloc: Global) -> Result<(), Unfit> {
        let Some(case) = self.case.take() else {
            return Ok(());
        };
        self.give(rt, alloc, &case, "")?;
        if case.has_workers {
            for workers in WORKERS {
                self.give(rt, alloc, &case, workers)?;
            }
        }
        if case.has_links {
            for link in LINKS {
                self.give(rt, alloc, &case, link)?;
            }
        }
        for order in 0..case.orders {
            let mut more = String::from_str(alloc, " --order ")?;
            more.push_str(Buffer::new().format(order))?;
            self.give(rt, alloc, &case, more.as_str())?;
        }
        Ok(())
    }

    /// Gives a command with more words behind it.
    fn give<R: Threads + Wait + Sync>(
        &mut self,
        rt: &R,
        alloc: Global,
        case: &Case,
        more: &str,
    ) -> Result<(), Unfit> {
        let mut words = String::from_str(alloc, case.words)?;
        words.push_str(more)?;
        let times = times_as_worked(rt, alloc, case, words.as_str())?;
        self.given = self.given.saturating_add(times.unwrap_or(1));
        if times.is_none() {
            self.tell("not as worked: ", words.as_str())?;
        }
        Ok(())
    }

    /// Gives the last command of a group, and tells how many were given.
    pub fn end_group<R: Threads + Wait + Sync>(
        &mut self,
        rt: &R,
        alloc: Global,
    ) -> Result<(), Unfit> {
        self.end_case(rt, alloc)?;
        if !self.group.is_empty() {
            self.report.push_str(Buffer::new().format(self.given))?;
            self.tell(" commands: ", self.group)?;
        }
        self.given = 0;
        Ok(())
    }
}
