// What the words ask for.
ghost use Rattle.std.specs.Prelude.{◌≡◌, ◌≤◌};
ghost use Rattle.reg_words.specs.Numbers.{batched, sized};

use reg_base::Text;
use std::marker::Model;

/// How large a sample is: from 2 to 500. Contracts see the number.
#[derive(Clone, Copy)]
pub struct Size {
    number: u64,
}

impl Model for Size {
    ghost use Rattle.std.specs.Prelude.{ℕ, ◌≤◌};

    ghost Value = { ℕ };

    ghost view = { λ s. s.number };

    ghost invariant = { λ s. (2 ≤ s.number) × (s.number ≤ 500) };

    ghost inverse = { λ n. record { number = n } };
}

impl Size {
    /// The size of this number. None where it is less than 2 or greater than 500.
    pub fn new(number: u64) -> Option<Size>
        ensures { result ≡ sized number }
    {
        if number >= 2 && number <= 500 {
            Some(Size { number })
        } else {
            None
        }
    }

    /// The number.
    pub fn number(self) -> u64
        ensures number { result ≡ self }
        ensures least { 2 ≤ result }
        ensures most { result ≤ 500 }
    {
        self.number
    }
}

/// How many lines are answered together at the most: from 1 to 10,000. Contracts see the number.
#[derive(Clone, Copy)]
pub struct BatchSize {
    number: u64,
}

impl Model for BatchSize {
    ghost use Rattle.std.specs.Prelude.{ℕ, ◌≤◌};

    ghost Value = { ℕ };

    ghost view = { λ s. s.number };

    ghost invariant = { λ s. (1 ≤ s.number) × (s.number ≤ 10000) };

    ghost inverse = { λ n. record { number = n } };
}

impl BatchSize {
    /// The size of this number. None where it is 0 or greater than 10,000.
    pub fn new(number: u64) -> Option<BatchSize>
        ensures { result ≡ batched number }
    {
        if number >= 1 && number <= 10_000 {
            Some(BatchSize { number })
        } else {
            None
        }
    }

    /// The number.
    pub fn number(self) -> u64
        ensures number { result ≡ self }
        ensures least { 1 ≤ result }
        ensures most { result ≤ 10000 }
    {
        self.number
    }
}

/// A question in the words of its caller: whether its texts are names and moments isn't asked yet.
#[derive(Drop)]
pub enum Question {
    /// The members of a group, now or at a moment.
    Members { name: Text, at: Option<Text> },
    /// What became of the memberships of a group.
    History { name: Text },
}

/// What a report is about, in the words of its caller: whether its texts are names and moments
/// isn't asked yet.
#[derive(Drop)]
pub enum Report {
    /// Whether a person may act so on a resource.
    Permit {
        subject: Text,
        resource: Text,
        action: Text,
    },
    /// Who may act so on a resource.
    Permitted {
        resource: Text,
        action: Text,
    },
    /// The attestation of a group, now or at a moment.
    Attested {
        group: Text,
        at: Option<Text>,
    },
    /// The attestation of a group from the beginning on.
    Attestation {
        group: Text,
    },
    /// The groups whose attestation asks for something.
    Reminders,
    /// Why a person is an effective member of a group, or isn't.
    Why {
        subject: Text,
        group: Text,
    },
}

/// A batch of operations for an outside list of memberships, in the words of its caller: whether
/// its texts are names isn't asked yet.
#[derive(Drop)]
pub struct Provision {
    /// Whose place in the log the batch goes on from.
    pub consumer: Text,
    /// The person whose grants of READ say which groups it is about.
    pub subject: Text,
    /// How many entries of the log it goes over at most: from 1 to 1,000,000.
    pub max: u64,
}

/// Some of the commands, by their places, of which the first is 1.
#[derive(Clone, Copy)]
pub struct Places {
    /// The first place.
    pub from: u64,
    /// The last one.
    pub to: u64,
}

/// What the words ask for.
#[derive(Drop)]
pub enum Task {
    /// Begin a journal.
    Init,
    /// Answer the lines of the input, one after another.
    Apply,
    /// Answer the lines of the input, at most so many together.
    Together { most: BatchSize },
    /// Serve so many connections of a port.
    Serve { port: u16, connections: u64 },
    /// Open the journal.
    Check,
    /// Answer one question.
    Ask(Question),
    /// Make one report.
    Report(Report),
    /// Make one report as it was made at an earlier moment. Whether the text is a moment isn't asked
    /// yet.
    ReportAsOf { report: Report, at: Text },
    /// Run a job over a table, which is the input. Whether the job's text is a name isn't asked
    /// yet.
    Load { job: Text },
    /// Print the accepted commands of these places.
    Commands(Places),
    /// Answer the lines of the input as they were answered at an earlier moment. Whether the text
    /// is a moment isn't asked yet.
    AsOf { at: Text },
    /// Print a batch of operations and acknowledge where it ends.
    Provision(Provision),
    /// Put the requests of a seed and a size to a registry that keeps nothing.
    Sample { seed: u64, size: Size },
    /// Write the journal, which is of format 1, anew as one of format 2.
    Migrate,
}
