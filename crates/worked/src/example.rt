// One example: its disks, and its runs one after another.
use crate::bytes::add_hex;
use crate::migrations::play_migration;
use crate::objects::{Disks, play};
use crate::run::Run;
use crate::stops::play_stops;
use std::alloc::{AllocError, Global};

/// An example as far as it was read. Its runs share the disks, which begin empty.
#[derive(Drop)]
pub struct Example {
    title: String,
    /// What came out otherwise than it is written.
    faults: String,
    disks: Disks,
    /// The disks as the last run found them.
    before: Disks,
    run: Option<Run>,
    last: Option<Run>,
}

fn add_pair(faults: &mut String, wanted: &str, found: &str) -> Result<(), AllocError> {
    faults.push_str("    wanted: ")?;
    faults.push_str(wanted)?;
    faults.push_str("\n    found:  ")?;
    faults.push_str(found)?;
    faults.push_str("\n")
}

/// Adds the first line in which what was wanted and what was found differ.
fn add_difference(faults: &mut String, wanted: &str, found: &str) -> Result<(), AllocError> {
    let mut others = found.lines();
    for line in wanted.lines() {
        let other = others.next().unwrap_or("");
        if line != other {
            return add_pair(faults, line, other);
        }
    }
    let more = others.next().unwrap_or("");
    add_pair(faults, "", more)
}

/// Says which run came out otherwise: its words, how much a read gave, and how long the disk was.
fn add_run(
    alloc: Global,
    faults: &mut String,
    run: &Run,
    piece: usize,
    length: usize,
) -> Result<(), AllocError> {
    let words = run.words.join(alloc, " ")?;
    let line = format!(in alloc; "    $ {words} (piece {piece}, disk of {length} bytes)\n")?;
    faults.push_str(line.as_str())
}

/// At most so many bytes of a disk, from its front on.
fn front_of(disk: &[u8], length: usize) -> &[u8] {
    let (front, _) = disk.split_at(length.min(disk.len()));
    front
}

impl Example {
    pub fn new(alloc: Global, title: &str) -> Result<Example, AllocError> {
        Ok(Example {
            title: String::from_str(alloc, title)?,
            faults: String::new(alloc),
            disks: Disks::new(alloc),
            before: Disks::new(alloc),
            run: None,
            last: None,
        })
    }

    /// Adds its title with the verdict, and what came out otherwise.
    pub fn report(&self, report: &mut String) -> Result<(), AllocError> {
        let verdict = if self.faults.is_empty() {
            "as written: "
        } else {
            "OTHERWISE: "
        };
        report.push_str(verdict)?;
        report.push_str(self.title.as_str())?;
        report.push_str("\n")?;
        report.push_str(self.faults.as_str())
    }

    fn unread(&mut self, line: &str) -> Result<(), AllocError> {
        self.faults.push_str("    unread: ")?;
        self.faults.push_str(line)?;
        self.faults.push_str("\n")
    }

    /// Does a run once, and notes where it came out otherwise. After the first such it does none.
    fn play_once(
        &mut self,
        alloc: Global,
        run: &Run,
        disks: &Disks,
        piece: usize,
    ) -> Result<(), AllocError> {
        if !self.faults.is_empty() {
            return Ok(());
        }
        let outcome = play(alloc, run, disks, piece)?;
        if outcome.lines.as_str() != run.wanted.as_str() {
            add_run(alloc, &mut self.faults, run, piece, disks.first.len())?;
            add_difference(
                &mut self.faults,
                run.wanted.as_str(),
                outcome.lines.as_str(),
            )?;
        }
        self.disks = outcome.disks;
        Ok(())
    }

    fn play_pieces(&mut self, alloc: Global, run: &Run, disks: &Disks) -> Result<(), AllocError> {
        for piece in run.first_piece..=run.last_piece {
            self.play_once(alloc, run, disks, piece)?;
        }
        Ok(())
    }

    fn play_cuts(
        &mut self,
        alloc: Global,
        run: &Run,
        disks: &Disks,
        cuts: (usize, usize),
    ) -> Result<(), AllocError> {
        let (first, last) = cuts;
        for length in first..=last {
            let cut = Disks::of(alloc, front_of(&disks.first, length), &disks.second)?;
            self.play_pieces(alloc, run, &cut)?;
        }
        Ok(())
    }

    fn play_second_cuts(
        &mut self,
        alloc: Global,
        run: &Run,
        disks: &Disks,
        cuts: (usize, usize),
    ) -> Result<(), AllocError> {
        let (first, last) = cuts;
        for length in first..=last {
            let cut = Disks::of(alloc, &disks.first, front_of(&disks.second, length))?;
            self.play_pieces(alloc, run, &cut)?;
        }
        Ok(())
    }

    /// Does a run over each length of a disk that it names, or over the disks as they are.
    fn play_all(&mut self, alloc: Global, run: &Run, disks: &Disks) -> Result<(), AllocError> {
        if let Some(cuts) = run.second_cuts {
            return self.play_second_cuts(alloc, run, disks, cuts);
        }
        match run.cuts {
            Some(cuts) => self.play_cuts(alloc, run, disks, cuts),
            None => self.play_pieces(alloc, run, disks),
        }
    }

    /// Stops a run at each call of a disk that it found, and notes what a stop leaves otherwise.
    /// After a run that came out otherwise it does nothing.
    fn stop(&mut self, alloc: Global, run: &Run, disks: &Disks) -> Result<(), AllocError> {
        if !run.has_stops || !self.faults.is_empty() {
            return Ok(());
        }
        let words = run.words.join(alloc, " ")?;
        if words.as_str() == "migrate" {
            return play_migration(alloc, run, disks, &mut self.faults);
        }
        play_stops(alloc, run, &disks.first, &mut self.faults)
    }

    /// Does the run that was read last, if there is one.
    fn finish(&mut self, alloc: Global) -> Result<(), AllocError> {
        if let Some(run) = self.run.take() {
            let disks = self.disks.again(alloc)?;
            self.play_all(alloc, &run, &disks)?;
            self.stop(alloc, &run, &disks)?;
            self.before = disks;
            self.last = Some(run);
        }
        Ok(())
    }

    fn begin(&mut self, alloc: Global, words: &str) -> Result<bool, AllocError> {
        self.finish(alloc)?;
        self.run = Some(Run::new(alloc, words)?);
        Ok(true)
    }

    /// Begins the last run anew, over the disks that it found. False where there was none.
    fn begin_again(&mut self, alloc: Global) -> Result<bool, AllocError> {
        self.finish(alloc)?;
        let run = match &self.last {
            Some(last) => last.again(alloc)?,
            None => return Ok(false),
        };
        self.run = Some(run);
        self.disks = self.before.again(alloc)?;
        Ok(true)
    }

    fn set_disk(&mut self, alloc: Global, text: &str) -> Result<bool, AllocError> {
        self.finish(alloc)?;
        self.disks.first = Vec::new(alloc);
        add_hex(alloc, &mut self.disks.first, text)
    }

    fn set_second(&mut self, alloc: Global, text: &str) -> Result<bool, AllocError> {
        self.disks.second = Vec::new(alloc);
        add_hex(alloc, &mut self.disks.second, text)
    }

    /// Takes a line that stands before a run.
    fn take_before_run(&mut self, alloc: Global, line: &str) -> Result<bool, AllocError> {
        match line.strip_prefix("second ") {
            Some(text) => self.set_second(alloc, text),
            None => Ok(false),
        }
    }

    fn take_of_run(&mut self, alloc: Global, line: &str) -> Result<bool, AllocError> {
        if self.run.is_none() {
            return self.take_before_run(alloc, line);
        }
        match &mut self.run {
            Some(run) => run.take(alloc, line),
            None => Ok(false),
        }
    }

    fn is_taken(&mut self, alloc: Global, line: &str) -> Result<bool, AllocError> {
        if let Some(words) = line.strip_prefix('$') {
            return self.begin(alloc, words);
        }
        if line == "again" {
            return self.begin_again(alloc);
        }
        match line.strip_prefix("disk ") {
            Some(text) => self.set_disk(alloc, text),
            None => self.take_of_run(alloc, line),
        }
    }

    fn take(&mut self, alloc: Global, line: &str) -> Result<(), AllocError> {
        if !self.is_taken(alloc, line)? {
            self.unread(line)?;
        }
        Ok(())
    }

    fn end(&mut self, alloc: Global) -> Result<(), AllocError> {
        self.finish(alloc)?;
        if self.last.is_none() {
            self.faults.push_str("    it has no run\n")?;
        }
        Ok(())
    }

    /// Does the runs of an example: what stands in by four spaces in these lines.
    pub fn play(&mut self, alloc: Global, lines: &str) -> Result<(), AllocError> {
        for line in lines.lines() {
            if let Some(rest) = line.strip_prefix("    ") {
                self.take(alloc, rest)?;
            }
        }
        self.end(alloc)
    }
}
