// A document of examples.
use crate::example::Example;
use std::alloc::{AllocError, Global};

/// Plays one example: its title, and in the lines behind it those that begin with four spaces.
fn play_section(alloc: Global, section: &str, report: &mut String) -> Result<(), AllocError> {
    let (title, body) = section.split_once('\n').unwrap_or((section, ""));
    let mut example = Example::new(alloc, title)?;
    example.play(alloc, body)?;
    example.report(report)
}

/// Plays the examples of a document, and gives a line for each, with what was wrong below it. A
/// line that begins with `## `, not the first of all, begins an example. What stands before the
/// first one, and each line that isn't indented, is for readers. The only error is out of memory.
pub fn play(alloc: Global, text: &str) -> Result<String, AllocError> {
    let mut report = String::new(alloc);
    for section in text.split("\n## ").skip(1) {
        play_section(alloc, section, &mut report)?;
    }
    Ok(report)
}
