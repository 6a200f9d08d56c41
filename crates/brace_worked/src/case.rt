use crate::texts::{Text, append, append_line, copied, named};
use crate::unfit::Unfit;
use std::alloc::Global;

/// A file that has to be held behind a command with these bytes, or not to be held.
#[derive(Drop)]
pub struct Held<'a> {
    pub name: &'a str,
    pub bytes: Option<Vec<u8>>,
}

/// Whose calls fail: those of the shelf, or those of the sink of rows.
#[derive(Clone, Copy, Drop)]
pub enum Failing {
    Shelf,
    Sink,
}

/// What is varied of a command that is given more than once.
#[derive(Clone, Copy, Drop)]
pub enum Variation {
    None,
    /// File a is cut off at each place.
    Fronts,
    /// Each call fails in turn, until none is left that does.
    Calls(Failing),
}

/// A command, what it finds, how it is varied, and what comes of it.
#[derive(Drop)]
pub struct Case<'a> {
    pub words: &'a str,
    pub script: Vec<u8>,
    pub agents: Vec<u8>,
    pub cuts: Vec<u8>,
    pub published: Vec<u8>,
    pub is_published: bool,
    pub watch: Vec<u8>,
    pub is_watched: bool,
    pub is_bare: bool,
    pub shelf_fails: Vec<u64>,
    pub sink_fails: Vec<u64>,
    /// The most bytes that one call moves.
    pub most: usize,
    pub variation: Variation,
    pub has_workers: bool,
    pub has_links: bool,
    pub orders: u64,
    pub status: u8,
    pub out: Vec<u8>,
    pub err: Vec<u8>,
    pub files: Vec<Held<'a>>,
}

/// What a line adds to a text: the text of a name, or what stands in it, with its end or without.
#[derive(Drop)]
struct Line<'a> {
    rest: &'a str,
    is_whole: bool,
    texts: &'a [Text<'a>],
}

impl<'a> Line<'a> {
    /// Adds to a text. Answers whether there is a text of the name.
    fn add_to(&self, bytes: &mut Vec<u8>) -> Result<bool, Unfit> {
        if let Some(name) = self.rest.strip_prefix("of ") {
            let Some(text) = named(self.texts, name) else {
                return Ok(false);
            };
            bytes.extend_from_slice(text)?;
        } else if self.is_whole {
            append_line(bytes, self.rest)?;
        } else {
            append(bytes, self.rest)?;
        }
        Ok(true)
    }
}

impl<'a> Case<'a> {
    /// A command that comes to status 0 and writes nothing.
    pub fn new(alloc: Global, words: &'a str) -> Case<'a> {
        Case {
            words,
            script: Vec::new(alloc),
            agents: Vec::new(alloc),
            cuts: Vec::new(alloc),
            published: Vec::new(alloc),
            is_published: false,
            watch: Vec::new(alloc),
            is_watched: false,
            is_bare: false,
            shelf_fails: Vec::new(alloc),
            sink_fails: Vec::new(alloc),
            most: usize::MAX,
            variation: Variation::None,
            has_workers: false,
            has_links: false,
            orders: 0,
            status: 0,
            out: Vec::new(alloc),
            err: Vec::new(alloc),
            files: Vec::new(alloc),
        }
    }

    /// Takes a line: its first word and the rest. Answers whether there is such a line.
    pub fn take(
        &mut self,
        alloc: Global,
        word: &str,
        rest: &'a str,
        texts: &[Text],
    ) -> Result<bool, Unfit> {
        match word {
            "bare" => self.is_bare = true,
            "workers" => self.has_workers = true,
            "links" => self.has_links = true,
            "orders" => self.orders = rest.parse::<u64>().unwrap_or(0),
            "status" => self.status = rest.parse::<u8>().unwrap_or(u8::MAX),
            "most" => self.most = rest.parse::<usize>().unwrap_or(0),
            "fronts" => self.variation = Variation::Fronts,
            "shelf" => self.take_failing(Failing::Shelf, rest)?,
            "sink" => self.take_failing(Failing::Sink, rest)?,
            "file" => return self.take_file(alloc, rest, texts),
            _ => return self.take_text(word, rest, texts),
        }
        Ok(true)
    }

    /// Takes a line of a text.
    fn take_text(&mut self, word: &str, rest: &str, texts: &[Text]) -> Result<bool, Unfit> {
        let (name, is_whole) = match word.strip_suffix("-") {
            Some(name) => (name, false),
            None => (word, true),
        };
        let line = Line {
            rest,
            is_whole,
            texts,
        };
        match name {
            "script" => line.add_to(&mut self.script),
            "agents" => line.add_to(&mut self.agents),
            "cuts" => line.add_to(&mut self.cuts),
            "published" => {
                self.is_published = true;
                line.add_to(&mut self.published)
            }
            "watch" => {
                self.is_watched = true;
                line.add_to(&mut self.watch)
            }
            "out" => line.add_to(&mut self.out),
            "err" => line.add_to(&mut self.err),
            _ => Ok(false),
        }
    }

    /// Takes the line of a file that has to be held behind the command, or not.
    fn take_file(&mut self, alloc: Global, rest: &'a str, texts: &[Text]) -> Result<bool, Unfit> {
        let Some((name, text)) = rest.split_once(' ') else {
            return Ok(false);
        };
        let bytes = match (text, named(texts, text)) {
            ("none", _) => None,
            (_, Some(bytes)) => Some(copied(alloc, bytes)?),
            (_, None) => return Ok(false),
        };
        self.files.push(Held { name, bytes })?;
        Ok(true)
    }

    /// Takes the line of a call that fails, or of each in turn: `fails N`, `fails each`.
    fn take_failing(&mut self, failing: Failing, rest: &str) -> Result<(), Unfit> {
        let number = rest.strip_prefix("fails ").unwrap_or("");
        if number == "each" {
            self.variation = Variation::Calls(failing);
            return Ok(());
        }
        let number = number.parse::<u64>().unwrap_or(0);
        match failing {
            Failing::Shelf => self.shelf_fails.push(number)?,
            Failing::Sink => self.sink_fails.push(number)?,
        }
        Ok(())
    }
}
