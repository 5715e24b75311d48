// What was written to connections.
use reg_outside::GivenBack;
use std::alloc::AllocError;

/// Adds a line of a response, which an LF ends. One that a CR LF ends is a line of its head; else
/// it is the reply's text.
fn add_line(found: &mut String, line: &str) -> Result<(), AllocError> {
    match line.strip_suffix('\r') {
        Some("") => found.push_str("<\n"),
        Some(line) => {
            found.push_str("< ")?;
            found.push_str(line)?;
            found.push_str("\n")
        }
        None => {
            found.push_str("reply ")?;
            found.push_str(line)?;
            found.push_str("\n")
        }
    }
}

/// Adds what stands behind the last LF, if anything does.
fn add_cut(found: &mut String, rest: &str) -> Result<(), AllocError> {
    if rest.is_empty() {
        return Ok(());
    }
    found.push_str("< ")?;
    found.push_str(rest)?;
    found.push_str("\ncut short\n")
}

/// Adds the lines that were written to a connection, which was given back.
fn add_written(found: &mut String, bytes: &[u8]) -> Result<(), AllocError> {
    let text = std::str::from_utf8(bytes).unwrap_or("no UTF-8");
    match text.rsplit_once('\n') {
        Some((whole, rest)) => {
            for line in whole.split('\n') {
                add_line(found, line)?;
            }
            add_cut(found, rest)?;
        }
        None => add_cut(found, text)?,
    }
    found.push_str("closed\n")
}

/// Adds what was written to the connections that were given back, one after another.
pub fn add_responses(found: &mut String, given_back: &[GivenBack]) -> Result<(), AllocError> {
    for back in given_back {
        add_written(found, back.conn.written())?;
    }
    Ok(())
}
