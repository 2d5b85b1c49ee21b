//! Long scripts and texts, by their parts.
use crate::calls::lines;
use itoa::Buffer;
use std::alloc::{AllocError, Global};

/// A part of a long script or text.
#[derive(Clone, Copy)]
pub enum Part {
    /// Lines, with `; ` between them, each with a line feed.
    Lines(&'static str),
    /// These bytes, so many times.
    Again(&'static [u8], u32),
    /// These lines in each of so many turns.
    Turns(u32, &'static [Line]),
}

/// What stands in each turn.
#[derive(Clone, Copy)]
pub enum Line {
    /// A line.
    Plain(&'static str),
    /// A line of these bytes, so many times.
    Filled(&'static [u8], u32),
    /// A line that ends with a number: that of the first turn, and by how much it rises from turn
    /// to turn.
    Numbered(&'static str, i64, i64),
    /// So many lines that end with numbers, which rise by one from that of the first turn's first.
    Counted(&'static str, u32, i64),
}

/// Appends these bytes so many times.
fn push_again(bytes: &mut Vec<u8>, some: &[u8], times: u32) -> Result<(), AllocError> {
    for _ in 0..times {
        bytes.extend_from_slice(some)?;
    }
    Ok(())
}

/// Appends a line that ends with a number.
fn push_numbered(bytes: &mut Vec<u8>, front: &str, number: i64) -> Result<(), AllocError> {
    let mut digits = Buffer::new();
    bytes.extend_from_slice(front.as_bytes())?;
    bytes.extend_from_slice(digits.format(number).as_bytes())?;
    bytes.push(b'\n')?;
    Ok(())
}

/// Appends a line of a turn. The turns are counted from 0.
fn push_line(bytes: &mut Vec<u8>, line: Line, turn: i64) -> Result<(), AllocError> {
    match line {
        Line::Plain(text) => push_again(bytes, text.as_bytes(), 1)?,
        Line::Filled(some, times) => push_again(bytes, some, times)?,
        Line::Numbered(front, first, step) => {
            return push_numbered(bytes, front, first.wrapping_add(step.wrapping_mul(turn)));
        }
        Line::Counted(front, many, first) => {
            let begun = first.wrapping_add(turn.wrapping_mul(i64::from(many)));
            for i in 0..many {
                push_numbered(bytes, front, begun.wrapping_add(i64::from(i)))?;
            }
            return Ok(());
        }
    }
    bytes.push(b'\n')?;
    Ok(())
}

/// Appends the lines of a turn.
fn push_turn(bytes: &mut Vec<u8>, each: &[Line], turn: i64) -> Result<(), AllocError> {
    for line in each {
        push_line(bytes, *line, turn)?;
    }
    Ok(())
}

/// The whole of these parts.
pub fn built(alloc: Global, parts: &[Part]) -> Result<Vec<u8>, AllocError> {
    let mut bytes = Vec::new(alloc);
    for part in parts {
        match *part {
            Part::Lines(text) => bytes.extend_from_slice(&lines(alloc, text)?)?,
            Part::Again(some, times) => push_again(&mut bytes, some, times)?,
            Part::Turns(turns, each) => {
                for turn in 0..turns {
                    push_turn(&mut bytes, each, i64::from(turn))?;
                }
            }
        }
    }
    Ok(bytes)
}
