// One run of the program: what it is given, and what is wanted of it.
use crate::bytes::{add_hex, add_number, fill};
use crate::connection::Connection;
use reg_base::Moment;
use std::alloc::{AllocError, Global};

/// 2025-09-01T00:00:00Z in microseconds, the moment of a run that names none.
const FIRST: u64 = 1_756_684_800_000_000;

/// How many bytes of input a read gives where a run doesn't say it.
const PIECE: usize = 4096;

/// What stands behind the `{` of a line that GrouperSystem asks.
const BY_SYSTEM: &[u8] = b"{\"by\":\"g:isa/GrouperSystem\",";

/// A run as it is written: its words, what its objects hold, which of their calls fail, and the
/// lines that are wanted.
#[derive(Drop)]
pub struct Run {
    pub words: Vec<String>,
    /// The moments that the clock gives, one for each line.
    pub moments: Vec<Moment>,
    /// The moment of the lines that follow.
    pub now: Moment,
    pub input: Vec<u8>,
    /// The run is done with reads of each size from the first to the last.
    pub first_piece: usize,
    pub last_piece: usize,
    /// It is done over the disk cut to each length from the first to the last.
    pub cuts: Option<(usize, usize)>,
    /// Or over the second disk cut so.
    pub second_cuts: Option<(usize, usize)>,
    pub fail_read: Vec<u64>,
    pub fail_write: Vec<u64>,
    pub fail_note: Vec<u64>,
    pub fail_disk: Vec<u64>,
    pub fail_second: Vec<u64>,
    pub fail_net: Vec<u64>,
    /// What comes of connections, in order. What is given behind the first is theirs.
    pub connections: Vec<Connection>,
    pub wanted: String,
    pub shows_kept: bool,
    pub shows_journal: bool,
    pub shows_second: bool,
    /// Behind it, it is stopped at each call of the disk.
    pub has_stops: bool,
}

fn words_of(alloc: Global, text: &str) -> Result<Vec<String>, AllocError> {
    let mut words = Vec::new(alloc);
    for word in text.split_whitespace() {
        words.push(String::from_str(alloc, word)?)?;
    }
    Ok(words)
}

fn copies_of(alloc: Global, words: &[String]) -> Result<Vec<String>, AllocError> {
    let mut copies = Vec::new(alloc);
    for word in words {
        copies.push(String::from_str(alloc, word.as_str())?)?;
    }
    Ok(copies)
}

/// A number that isn't 0.
fn size_of(text: &str) -> Option<usize> {
    match text.parse::<usize>() {
        Ok(size) if size > 0 => Some(size),
        _ => None,
    }
}

fn range_of(text: &str) -> Option<(usize, usize)> {
    let (first, last) = text.split_once(' ')?;
    match (first.parse::<usize>(), last.parse::<usize>()) {
        (Ok(first), Ok(last)) => Some((first, last)),
        _ => None,
    }
}

impl Run {
    pub fn new(alloc: Global, words: &str) -> Result<Run, AllocError> {
        Ok(Run {
            words: words_of(alloc, words)?,
            moments: Vec::new(alloc),
            now: Moment::new(FIRST).unwrap_or(Moment::start()),
            input: Vec::new(alloc),
            first_piece: PIECE,
            last_piece: PIECE,
            cuts: None,
            second_cuts: None,
            fail_read: Vec::new(alloc),
            fail_write: Vec::new(alloc),
            fail_note: Vec::new(alloc),
            fail_disk: Vec::new(alloc),
            fail_second: Vec::new(alloc),
            fail_net: Vec::new(alloc),
            connections: Vec::new(alloc),
            wanted: String::new(alloc),
            shows_kept: false,
            shows_journal: false,
            shows_second: false,
            has_stops: false,
        })
    }

    /// A run of the same words and input at the same moments. No call of it fails, and nothing is
    /// wanted of it yet.
    pub fn again(&self, alloc: Global) -> Result<Run, AllocError> {
        let mut run = Run::new(alloc, "")?;
        run.words = copies_of(alloc, &self.words)?;
        run.moments = self.moments.to_vec(alloc)?;
        run.input = self.input.to_vec(alloc)?;
        for connection in &self.connections {
            run.connections.push(connection.again(alloc)?)?;
        }
        run.now = self.now;
        run.first_piece = self.first_piece;
        run.last_piece = self.last_piece;
        Ok(run)
    }

    /// Adds a line of input, which is answered at the moment that stands now.
    fn add_line(&mut self, line: &str) -> Result<bool, AllocError> {
        self.input.extend_from_slice(line.as_bytes())?;
        self.moments.push(self.now)?;
        Ok(true)
    }

    fn add_whole_line(&mut self, line: &str) -> Result<bool, AllocError> {
        self.add_line(line)?;
        self.input.push(b'\n')?;
        Ok(true)
    }

    fn add_line_by_system(&mut self, line: &str) -> Result<bool, AllocError> {
        match line.strip_prefix('{') {
            Some(rest) => {
                self.input.extend_from_slice(BY_SYSTEM)?;
                self.add_whole_line(rest)
            }
            None => Ok(false),
        }
    }

    /// Sets what the clock says: at the lines that follow, or next, where connections come.
    fn set_now(&mut self, text: &str) -> Result<bool, AllocError> {
        let Some(moment) = Moment::parse(text.as_bytes()) else {
            return Ok(false);
        };
        self.now = moment;
        if !self.connections.is_empty() {
            self.moments.push(moment)?;
        }
        Ok(true)
    }

    fn set_pieces(&mut self, first: Option<usize>, last: Option<usize>) -> bool {
        match (first, last) {
            (Some(first), Some(last)) => {
                self.first_piece = first;
                self.last_piece = last;
                true
            }
            _ => false,
        }
    }

    fn set_cuts(&mut self, text: &str) -> bool {
        match text.strip_prefix("second ") {
            Some(rest) => {
                self.second_cuts = range_of(rest);
                self.second_cuts.is_some()
            }
            None => {
                self.cuts = range_of(text);
                self.cuts.is_some()
            }
        }
    }

    fn set_stops(&mut self) -> bool {
        self.has_stops = true;
        true
    }

    fn add_failing(&mut self, text: &str) -> Result<bool, AllocError> {
        match text.split_once(' ') {
            Some(("read", number)) => add_number(&mut self.fail_read, number),
            Some(("write", number)) => add_number(&mut self.fail_write, number),
            Some(("note", number)) => add_number(&mut self.fail_note, number),
            Some(("disk", number)) => add_number(&mut self.fail_disk, number),
            Some(("second", number)) => add_number(&mut self.fail_second, number),
            Some(("net", number)) => add_number(&mut self.fail_net, number),
            _ => Ok(false),
        }
    }

    fn want(&mut self, line: &str) -> Result<bool, AllocError> {
        self.wanted.push_str(line)?;
        self.wanted.push_str("\n")?;
        Ok(true)
    }

    /// Wants the reply to a command that is accepted as the one of this number.
    fn want_number(&mut self, number: &str) -> Result<bool, AllocError> {
        self.wanted.push_str("< {\"number\":")?;
        self.wanted.push_str(number)?;
        self.want(",\"ok\":true}")
    }

    /// Wants these bytes of a disk, in hex, under a key.
    fn want_bytes(&mut self, key: &str, text: &str) -> Result<bool, AllocError> {
        self.wanted.push_str(key)?;
        if !text.is_empty() {
            self.wanted.push_str(" ")?;
        }
        for piece in text.split(' ') {
            self.wanted.push_str(piece)?;
        }
        self.want("")
    }

    /// Takes a line of what is given.
    fn take_given(&mut self, alloc: Global, key: &str, rest: &str) -> Result<bool, AllocError> {
        match key {
            ">" => self.add_whole_line(rest),
            ">-" => self.add_line(rest),
            "+" => self.add_line_by_system(rest),
            "bytes" => add_hex(alloc, &mut self.input, rest),
            "fill" => fill(&mut self.input, rest),
            "at" => self.set_now(rest),
            "piece" => Ok(self.set_pieces(size_of(rest), size_of(rest))),
            "pieces" => Ok(self.set_pieces(Some(1), size_of(rest))),
            "cuts" => Ok(self.set_cuts(rest)),
            "stops" => Ok(self.set_stops()),
            "fail" => self.add_failing(rest),
            _ => Ok(false),
        }
    }

    fn add_connection(&mut self, alloc: Global, sender: Option<usize>) -> Result<bool, AllocError> {
        self.connections.push(Connection::new(alloc, sender))?;
        Ok(true)
    }

    /// Adds bytes of the connection with this number, from 1 on.
    fn add_more(&mut self, alloc: Global, number: &str) -> Result<bool, AllocError> {
        match size_of(number) {
            Some(number) => self.add_connection(alloc, Some(number.saturating_sub(1))),
            None => Ok(false),
        }
    }

    /// Takes a line of what the last connection is given. False where there is none, or the line
    /// isn't its.
    fn take_connected(&mut self, alloc: Global, key: &str, rest: &str) -> Result<bool, AllocError> {
        match self.connections.last_mut() {
            Some(connection) => connection.take(alloc, key, rest),
            None => Ok(false),
        }
    }

    fn take_one(&mut self, alloc: Global, line: &str) -> Result<bool, AllocError> {
        let (key, rest) = match line.split_once(' ') {
            Some(parts) => parts,
            None => (line, ""),
        };
        match key {
            "<" | "reply" | "cut" | "closed" | "note" | "status" => self.want(line),
            "connection" => self.add_connection(alloc, None),
            "more" => self.add_more(alloc, rest),
            "ok" => self.want_number(rest),
            "kept" => {
                self.shows_kept = true;
                self.want(line)
            }
            "journal" => {
                self.shows_journal = true;
                self.want_bytes("journal", rest)
            }
            "second" => {
                self.shows_second = true;
                self.want_bytes("second", rest)
            }
            _ => {
                let is_taken = self.take_connected(alloc, key, rest)?;
                Ok(is_taken || self.take_given(alloc, key, rest)?)
            }
        }
    }

    /// Takes a line so many times, each with its number, from 1 on, at the place of `#`.
    fn take_each(&mut self, alloc: Global, text: &str) -> Result<bool, AllocError> {
        let Some((count, line)) = text.split_once(' ') else {
            return Ok(false);
        };
        let (Ok(count), Some((front, rest))) = (count.parse::<u32>(), line.split_once('#')) else {
            return Ok(false);
        };
        let mut is_read = true;
        for number in 0..count {
            let line = format!(in alloc; "{front}{}{rest}", number + 1)?;
            is_read = self.take_one(alloc, line.as_str())? && is_read;
        }
        Ok(is_read)
    }

    /// Takes a line that follows the run's words. False where it can't be read.
    pub fn take(&mut self, alloc: Global, line: &str) -> Result<bool, AllocError> {
        match line.strip_prefix("each ") {
            Some(rest) => self.take_each(alloc, rest),
            None => self.take_one(alloc, line),
        }
    }
}
